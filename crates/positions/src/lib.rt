// Positions along a direction: position p is slot p going down, and the slot as far from the last one going up.
// Costs, windows and chains are worked out along positions, so that one loop and one proof serve both directions.
#![tactic(auto)]

ghost use Rattle.std.specs.Prelude.{◌≡◌, ◌<◌};
ghost use Rattle.positions.specs.Positions.{slot_at};

// The slot at a position.
pub fn slot_at(slots: usize, up: bool, position: usize) -> usize
    requires { position < slots }
    ensures { result ≡ slot_at slots up position }
{
    if up {
        return slots - 1 - position;
    }
    position
}
