// A neighbour list that a caller lends: it has two numbers for each slot, and they are worked out afresh where they are not the table's.
ghost use Rattle.std.specs.Prelude.{◌≡◌, ◌≤◌, length, take};
ghost use Rattle.records.specs.Record.{most_slots};
ghost use Rattle.records.specs.Order.{slots};
ghost use Rattle.records.specs.Checks.{check_records};
ghost use Rattle.records.specs.Widths.{Width, check_words};
ghost use Rattle.records.specs.Verdict.{checked, Pass};
ghost use Rattle.neighbour_lists.specs.Lists.{list_of, stale_list, list_numbers, differing};

use crate::passing::fill_near;
use records::{LIST_NUMBERS, Mode, Refusal, check_words};
use slots::slot_count;

// 1 for a list of another length than two numbers for each slot.
pub fn check_list(table: &[u64], numbers: usize, width: usize) -> Result<(), Refusal>
    requires { Width width }
    ensures { checked result ≡ check_words numbers (list_numbers width table.now) }
{
    check_words(numbers, 2 * slot_count(table, width))
}

// Stores the front of a list into a lent one, and tells whether a number there was another.
pub fn store_list(near: &[u16], list: &mut [u16]) -> bool
    requires { length list.old ≤ length near.now }
    ensures list_after { list.new ≡ take (length list.old) near.now }
    ensures value { result ≡ differing near.now list.old (length list.old) }
{
    let mut changed = false;
    for index in 0..list.len() {
        changed = (list[index] != near[index]) | changed;
        list[index] = near[index];
    }
    changed
}

// Makes a lent list that of the table, and tells whether it was another.
pub fn refresh_list(table: &[u64], list: &mut [u16], mode: Mode) -> bool
    requires { (Width mode.width) × (slots mode.width table.now ≤ most_slots) × (check_records mode.width table.now ≡ Pass) × (length list.old ≡ list_numbers mode.width table.now) }
    ensures list_after { list.new ≡ list_of mode.width mode.uncounted table.now }
    ensures value { result ≡ stale_list mode.width mode.uncounted table.now list.old }
{
    let mut near = [0u16; LIST_NUMBERS];
    fill_near(table, &mut near, mode);
    store_list(&near, list)
}
