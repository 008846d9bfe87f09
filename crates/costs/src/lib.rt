// The costs of all positions along one direction, from the ends of their windows alone.
// A position's cost rests on those of the positions after it; nothing here knows what a slot holds.
#![tactic(auto)]

ghost use Rattle.std.specs.Prelude.{◌≡◌, ◌+◌, ◌-◌, ◌≤◌, ◌<◌, length};
ghost use Rattle.layout.specs.Minimum.{minimum};
ghost use Rattle.costs.specs.Costs.{cost_of, position_cost, Sized, Filled};

// The least of `top` and the costs of the positions from `from` up to, not including, `to`.
// The minimum is kept in 16 bits, so that several costs are compared at a time.
pub fn least_between(costs: &[u16], from: usize, to: usize, top: usize) -> usize
    requires to_in_bounds { to ≤ length costs.now }
    requires top_bound { top < 65536 }
    ensures { result ≡ minimum (cost_of costs.now) top (to - from) from }
{
    let mut least = top as u16;
    for at in from..to {
        least = costs[at].min(least);
    }
    least as usize
}

// The result of `least_between`, for a window whose first cost may just have been stored: that one is read by itself, since a read of
// several costs at a time would wait for the store.
fn least_in_window(costs: &[u16], from: usize, to: usize, top: usize) -> usize
    requires to_in_bounds { to ≤ length costs.now }
    requires top_bound { top < 65536 }
    ensures { result ≡ minimum (cost_of costs.now) top (to - from) from }
{
    if to <= from {
        return top;
    }
    let first = costs[from] as usize;
    let rest = least_between(costs, from + 1, to, top);
    rest.min(first)
}

// The cost of one position, from those after it, of which `beyond` is the least of all.
fn position_cost(ends: &[u16], costs: &[u16], slots: usize, position: usize, beyond: u16) -> u16
    requires sized { Sized ends.now costs.now slots }
    requires position_lt_slots { position < slots }
    requires beyond_value { beyond ≡ minimum (cost_of costs.now) slots (slots - (position + 1)) (position + 1) }
    ensures { result ≡ position_cost ends.now slots (cost_of costs.now) position }
{
    let end = ends[position] as usize;
    if end == 0 {
        return 0;
    }
    if end == slots {
        return beyond + 1;
    }
    let least = least_in_window(costs, position + 1, end, slots);
    (least + 1) as u16
}

// The cost of every position, the last one first, since each rests on those after it.
// The least of all is kept, so that no window that runs to the last position is searched.
pub fn fill_costs(ends: &[u16], costs: &mut [u16], slots: usize)
    requires { Sized ends.now costs.old slots }
    ensures { Filled ends.now slots costs.old costs.new }
{
    let mut least = slots as u16;
    for position in (0..slots).rev() {
        let cost = position_cost(ends, costs, slots, position, least);
        costs[position] = cost;
        least = cost.min(least);
    }
}
