// The windows of a table's rules along one direction, by positions, for the planner.
// They are told by the table's neighbour list; the numbers go into a lent array.
#![tactic(auto)]

ghost use Rattle.std.specs.Prelude.{◌≡◌, ◌++◌, ◌+◌, ◌-◌, ◌*◌, ◌≤◌, ◌<◌, length, get_or, drop};
ghost use Rattle.records.specs.Record.{most_slots, listed};
ghost use Rattle.records.specs.Order.{slots as slots_of};
ghost use Rattle.records.specs.Checks.{table_checks};
ghost use Rattle.records.specs.Widths.{Width};
ghost use Rattle.records.specs.Verdict.{Pass};
ghost use Rattle.neighbour_lists.specs.Lists.{Listed};
ghost use Rattle.windows.specs.Windows.{end_after, end_before, listed_end, end_at};

use positions::slot_at;
use records::{Mode, NARROW, WIDE};
use slots::{slot_count, slot_vacant};

// One past the last position of a window going down: positions are slots.
fn end_down(near: &[u16], slots: usize, position: usize) -> usize
    requires { (position < slots) × (2 * slots ≤ length near.now) }
    ensures { result ≡ end_after slots (get_or near.now (2 * position) 0) }
{
    let next = near[2 * position] as usize;
    if next < slots { next + 1 } else { slots }
}

// One past the last position of a window going up.
fn end_up(near: &[u16], slots: usize, position: usize) -> usize
    requires { (position < slots) × (2 * slots ≤ length near.now) }
    ensures { result ≡ end_before slots (get_or near.now (2 * (slots - 1 - position) + 1) 0) }
{
    let before = near[2 * (slots - 1 - position) + 1] as usize;
    if before < slots {
        slots - before
    } else {
        slots
    }
}

// One past the last position of a window.
fn window_end(near: &[u16], slots: usize, up: bool, position: usize) -> usize
    requires { (position < slots) × (2 * slots ≤ length near.now) }
    ensures { result ≡ listed_end near.now slots up position }
{
    if up {
        return end_up(near, slots, position);
    }
    end_down(near, slots, position)
}

// The planner's number for a position: 0 where it is empty, else the end of its window.
fn end_at(table: &[u64], near: &[u16], up: bool, position: usize, mode: Mode) -> u16
    requires width { (Width mode.width) × (slots_of mode.width table.now ≤ most_slots) × (position < slots_of mode.width table.now) × (2 * (slots_of mode.width table.now) ≤ length near.now) }
    requires table_value { (table_checks mode.width mode.uncounted table.now ≡ Pass) × Listed mode.width mode.uncounted table.now near.now }
    ensures { result ≡ end_at mode.width mode.uncounted table.now up position }
{
    let slots = slot_count(table, mode.width);
    let slot = slot_at(slots, up, position);
    if slot_vacant(table, slot, mode.width) {
        return 0;
    }
    window_end(near, slots, up, position) as u16
}

// The numbers of all positions, into the front of a lent array.
fn fill_ends_by(table: &[u64], near: &[u16], up: bool, ends: &mut [u16], mode: Mode)
    requires width { (Width mode.width) × (slots_of mode.width table.now ≤ most_slots) × (slots_of mode.width table.now ≤ length ends.old) × (2 * (slots_of mode.width table.now) ≤ length near.now) }
    requires table_value { (table_checks mode.width mode.uncounted table.now ≡ Pass) × Listed mode.width mode.uncounted table.now near.now }
    ensures { ends.new ≡ listed (slots_of mode.width table.now) (end_at mode.width mode.uncounted table.now up) ++ drop (slots_of mode.width table.now) ends.old }
{
    let slots = slot_count(table, mode.width);
    for position in 0..slots {
        ends[position] = end_at(table, near, up, position, mode);
    }
}

// The same, with the width a constant for the compiler: it makes a copy for each.
// Not by `at_width`: it does not say what its work leaves in the lent arrays.
pub fn fill_ends(table: &[u64], near: &[u16], up: bool, ends: &mut [u16], mode: Mode)
    requires width { (Width mode.width) × (slots_of mode.width table.now ≤ most_slots) × (slots_of mode.width table.now ≤ length ends.old) × (2 * (slots_of mode.width table.now) ≤ length near.now) }
    requires table_value { (table_checks mode.width mode.uncounted table.now ≡ Pass) × Listed mode.width mode.uncounted table.now near.now }
    ensures { ends.new ≡ listed (slots_of mode.width table.now) (end_at mode.width mode.uncounted table.now up) ++ drop (slots_of mode.width table.now) ends.old }
{
    if mode.width == NARROW {
        fill_ends_by(
            table,
            near,
            up,
            ends,
            Mode {
                width: NARROW,
                ..mode
            },
        );
    } else {
        fill_ends_by(
            table,
            near,
            up,
            ends,
            Mode {
                width: WIDE,
                ..mode
            },
        );
    }
}
