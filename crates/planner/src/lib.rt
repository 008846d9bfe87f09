// From costs to a plan: the choice of direction and position, and the chain's words.
// Everything runs in one direction along positions (crate `positions`).
#![tactic(auto)]

ghost use Rattle.std.specs.Prelude.{◌≡◌, ◌++◌, ℕ, suc, ◌-◌, ◌≤◌, ◌<◌, eqb, length, drop};
ghost use Rattle.search.specs.Search.{least};
ghost use Rattle.layout.specs.Write.{copy};
ghost use Rattle.plan_words.specs.PlanWords.{write_word};
ghost use Rattle.positions.specs.Positions.{slot_at};
ghost use Rattle.costs.specs.Costs.{cost_of};
ghost use Rattle.planner.specs.Emit.{Walkable, emitted};
ghost use Rattle.planner.specs.Choice.{best_of, preferred, choice_of, choice_words};

use costs::least_between;
use plan_words::{PlanWrite, word_of};
use positions::slot_at;

// Slots from the one number up to, not including, the other.
#[derive(Clone, Copy)]
pub struct SlotRange {
    pub from: usize,
    pub to: usize,
}

// The least cost among some positions, and the first position that has it.
#[derive(Clone, Copy)]
pub struct Best {
    pub cost: usize,
    pub position: usize,
}

// The direction taken, the moves to make, and the position from which the chain starts.
#[derive(Clone, Copy)]
pub struct PositionChoice {
    pub up: bool,
    pub cost: usize,
    pub position: usize,
}

// The first position from `from` up to, not including, `to` that has this cost, or the position where the search ends.
pub fn first_of_cost(costs: &[u16], from: usize, to: usize, cost: usize) -> usize
    requires { to ≤ length costs.now }
    ensures { result ≡ least (λ (j : ℕ). eqb (cost_of costs.now j) cost) (to - from) from }
{
    for at in from..to {
        if costs[at] as usize == cost {
            return at;
        }
    }
    from.max(to)
}

// The plan word of a move between two positions.
fn move_word(slots: usize, up: bool, from: usize, to: usize) -> u32
    requires slots_bound { slots ≤ 1024 }
    requires from_lt_slots { from < slots }
    requires to_lt_slots { to < slots }
    ensures { result ≡ write_word (copy (slot_at slots up from) (slot_at slots up to)) }
{
    let source = slot_at(slots, up, from) as u32;
    let target = slot_at(slots, up, to) as u32;
    word_of(PlanWrite::Copy(source, target))
}

// The words of the chain from a position with `left` moves to make: each is stored on the way back, so that the far end stands first.
pub fn emit(costs: &[u16], slots: usize, up: bool, plan: &mut [u32], position: usize, left: usize)
    requires { Walkable costs.now plan.old slots position left }
    ensures { plan.new ≡ emitted (cost_of costs.now) slots up position left ++ drop left plan.old }
{
    if left == 0 {
        return;
    }
    let next = first_of_cost(costs, position + 1, slots, left - 1);
    emit(costs, slots, up, plan, next, left - 1);
    plan[left - 1] = move_word(slots, up, position, next);
}

// The least cost among the positions from `from` up to, not including, `to`, and the first position that has it.
fn best_between(costs: &[u16], slots: usize, from: usize, to: usize) -> Best
    requires slots_bound { slots ≤ 1024 }
    requires to_in_bounds { to ≤ length costs.now }
    ensures { result ≡ best_of (cost_of costs.now) slots from to }
{
    let cost = least_between(costs, from, to, slots);
    let position = first_of_cost(costs, from, to, cost);
    Best { cost, position }
}

// The smaller of the two wins, down if equal.
fn prefer(down: Best, up: Best) -> PositionChoice
    ensures { result ≡ preferred down up }
{
    if down.cost <= up.cost {
        return PositionChoice {
            up: false,
            cost: down.cost,
            position: down.position,
        };
    }
    PositionChoice {
        up: true,
        cost: up.cost,
        position: up.position,
    }
}

// The direction of least cost within the two ranges of slots, and the position from which its chain starts.
pub fn choose(
    down: &[u16],
    up: &[u16],
    slots: usize,
    below: SlotRange,
    above: SlotRange,
) -> PositionChoice
    requires slots_bound { slots ≤ 1024 }
    requires slots_in_bounds { slots ≤ length down.now }
    requires slots_in_bounds_2 { slots ≤ length up.now }
    ensures { result ≡ choice_of (cost_of down.now) (cost_of up.now) slots below above }
{
    let end = below.to.min(slots);
    let best_down = best_between(down, slots, below.from, end);
    // going up, the positions just past a slot: how many slots there are from it on
    let start = slots.saturating_sub(above.to);
    let past = slots.saturating_sub(above.from);
    let best_up = best_between(up, slots, start, past);
    prefer(best_down, best_up)
}

// The whole plan of a choice, by the costs of its direction: the words of its chain, and last the one that puts the new rule in.
pub fn write_plan(costs: &[u16], slots: usize, choice: PositionChoice, plan: &mut [u32])
    requires walkable { Walkable costs.now plan.old slots choice.position choice.cost }
    requires cost_in_bounds { choice.cost < length plan.old }
    ensures { plan.new ≡ choice_words (cost_of costs.now) slots choice ++ drop (suc choice.cost) plan.old }
{
    let cost = choice.cost;
    emit(costs, slots, choice.up, plan, choice.position, cost);
    let slot = slot_at(slots, choice.up, choice.position) as u32;
    plan[cost] = word_of(PlanWrite::PutIn(slot));
}
