// A neighbour list brought up to date after a write to one slot. Of the other slots only those are asked again whose number was, or may become, the written slot.
// Going down a slot's number is its nearest dependant's after it, going up its nearest preceding rule's before it: one loop along positions serves both.
#![tactic(auto)]

ghost use Rattle.std.specs.Prelude.{◌≡◌, true, not, ℕ, ◌*◌, ◌<◌, ◌≤◌, length, get_or};
ghost use Rattle.search.specs.Search.{NoneFrom};
ghost use Rattle.positions.specs.Positions.{slot_at};
ghost use Rattle.records.specs.Record.{most_slots, slot_words, empty};
ghost use Rattle.records.specs.Order.{slots};
ghost use Rattle.records.specs.Checks.{check_records};
ghost use Rattle.records.specs.Widths.{Width};
ghost use Rattle.records.specs.Verdict.{Pass};
ghost use Rattle.neighbour_lists.specs.Lists.{precedes_slot, Listed};
ghost use Rattle.list_updates.specs.Updates.{bounded_by, number_along, place_along, nearest_from, reaches_slot, asks_number, asks_at, ListedAlong, ListedBefore, AlongBefore, NumberBefore};

use pairs::{may_overlap, rules_overlap};
use positions::slot_at;
use records::{Mode, NO_NUMBER};
use slots::{slot_count, slot_rank, slot_vacant};

// Whether the rule in one slot precedes that in another. `precedes_pair` says the same; it stays the searches' for A and B alone, into which the compiler copies it.
fn rule_precedes(table: &[u64], slot: usize, other: usize, mode: Mode) -> bool
    requires { (Width mode.width) × (slot < slots mode.width table.now) × (other < slots mode.width table.now) × (check_records mode.width table.now ≡ Pass) }
    ensures { result ≡ precedes_slot mode.width mode.uncounted table.now slot other }
{
    slot_rank(table, slot, mode.width) > slot_rank(table, other, mode.width)
        && rules_overlap(table, slot, table, other, mode)
}

// Whether the rule in another slot bounds a slot's along a direction: going down it depends on it, going up it precedes it.
fn bounded_by(table: &[u64], slot: usize, other: usize, up: bool, mode: Mode) -> bool
    requires { (Width mode.width) × (slot < slots mode.width table.now) × (other < slots mode.width table.now) × (check_records mode.width table.now ≡ Pass) }
    ensures { result ≡ bounded_by mode.width mode.uncounted table.now up slot other }
{
    if up {
        return rule_precedes(table, other, slot, mode);
    }
    rule_precedes(table, slot, other, mode)
}

// The same, by the first two words where they tell the patterns apart: most searches end in this test.
fn bounded_at(table: &[u64], slot: usize, other: usize, up: bool, mode: Mode) -> bool
    requires { (Width mode.width) × (slot < slots mode.width table.now) × (other < slots mode.width table.now) × (check_records mode.width table.now ≡ Pass) }
    ensures { result ≡ bounded_by mode.width mode.uncounted table.now up slot other }
{
    may_overlap(table, other, table, slot, mode.width) && bounded_by(table, slot, other, up, mode)
}

// The nearest slot from a position on whose rule bounds a slot's, or none.
fn search_along(table: &[u64], slot: usize, from: usize, up: bool, mode: Mode) -> u16
    requires { (Width mode.width) × (slots mode.width table.now ≤ most_slots) × (slot < slots mode.width table.now) × (from ≤ slots mode.width table.now) × (check_records mode.width table.now ≡ Pass) }
    ensures { result ≡ nearest_from mode.width mode.uncounted table.now up slot from }
{
    let slots = slot_count(table, mode.width);
    for position in from..slots {
        let other = slot_at(slots, up, position);
        if bounded_at(table, slot, other, up, mode) {
            return other as u16;
        }
    }
    NO_NUMBER
}

// Whether a number is none, a slot's, or that of one further on.
fn reaches(number: u16, slot: usize, up: bool) -> bool
    requires { slot < most_slots }
    ensures { result ≡ reaches_slot up number slot }
{
    if up && number != NO_NUMBER {
        return number as usize <= slot;
    }
    slot <= number as usize
}

// A slot's number after a write to one further on that it reaches: the written slot where its rule bounds the slot's now; else the next one's where that was it.
fn number_after(
    table: &[u64],
    number: u16,
    slot: usize,
    written: usize,
    up: bool,
    mode: Mode,
) -> u16
    requires width { (Width mode.width) × (slots mode.width table.now ≤ most_slots) × (slot < slots mode.width table.now) × (written < slots mode.width table.now) × (check_records mode.width table.now ≡ Pass) }
    requires slot_bound { (slot_at (slots mode.width table.now) up slot < slot_at (slots mode.width table.now) up written) × (reaches_slot up number written ≡ true) × NumberBefore mode.width mode.uncounted table.now written up slot number }
    ensures { result ≡ number_along mode.width mode.uncounted table.now up slot }
{
    if bounded_by(table, slot, written, up, mode) {
        return written as u16;
    }
    if number as usize == written {
        let slots = slot_count(table, mode.width);
        return search_along(table, slot, slot_at(slots, up, written) + 1, up, mode);
    }
    number
}

// Where a slot's number along a direction stands in a list.
fn place_along(slot: usize, up: bool) -> usize
    requires { slot < most_slots }
    ensures { result ≡ place_along up slot }
{
    if up { 2 * slot + 1 } else { 2 * slot }
}

// Whether a slot is to be asked again: its number was the written slot, or may become it. A slot that was emptied becomes no number, and an empty one has none.
fn asks(
    table: &[u64],
    number: u16,
    slot: usize,
    written: usize,
    vacant: bool,
    up: bool,
    width: usize,
) -> bool
    requires { (Width width) × (slots width table.now ≤ most_slots) × (slot < slots width table.now) × (written < slots width table.now) × (check_records width table.now ≡ Pass) }
    ensures { result ≡ asks_number width table.now number slot written vacant up }
{
    number as usize == written
        || (!vacant
            && reaches(number, written, up)
            && may_overlap(table, slot, table, written, width)
            && !slot_vacant(table, slot, width))
}

// Skips positions whose slots are not asked again, up to that of the written slot.
fn skip_unasked(
    table: &[u64],
    list: &[u16],
    from: usize,
    written: usize,
    vacant: bool,
    up: bool,
    width: usize,
) -> usize
    requires { (Width width) × (slots width table.now ≤ most_slots) × (written < slots width table.now) × (from ≤ slot_at (slots width table.now) up written) × (2 * (slots width table.now) ≤ length list.now) × (check_records width table.now ≡ Pass) }
    ensures none_from { NoneFrom (asks_at width table.now list.now written vacant up) from (slot_at (slots width table.now) up written) result }
    ensures result_value { result < slot_at (slots width table.now) up written → asks_at width table.now list.now written vacant up result ≡ true }
{
    let slots = slot_count(table, width);
    let end = slot_at(slots, up, written);
    for position in from..end {
        let slot = slot_at(slots, up, position);
        let number = list[place_along(slot, up)];
        if asks(table, number, slot, written, vacant, up, width) {
            return position;
        }
    }
    end
}

// The written slot's own number.
fn own_number(table: &[u64], written: usize, vacant: bool, up: bool, mode: Mode) -> u16
    requires { (Width mode.width) × (slots mode.width table.now ≤ most_slots) × (written < slots mode.width table.now) × (check_records mode.width table.now ≡ Pass) × (vacant ≡ empty mode.width (slot_words mode.width table.now written)) }
    ensures { result ≡ number_along mode.width mode.uncounted table.now up written }
{
    if vacant {
        return NO_NUMBER;
    }
    let slots = slot_count(table, mode.width);
    search_along(table, written, slot_at(slots, up, written) + 1, up, mode)
}

// The numbers along a direction of the slots up to the written one, and its own. Those of the slots past it stay.
fn update_along(table: &[u64], list: &mut [u16], written: usize, up: bool, mode: Mode)
    requires width { (Width mode.width) × (slots mode.width table.now ≤ most_slots) × (written < slots mode.width table.now) × (check_records mode.width table.now ≡ Pass) × (2 * (slots mode.width table.now) ≤ length list.old) }
    requires along_before { AlongBefore mode.width mode.uncounted table.now written up list.old }
    ensures listed_along { ListedAlong mode.width mode.uncounted table.now up list.new }
    ensures by_index { (i : ℕ) → get_or list.new (place_along (not up) i) 0 ≡ get_or list.old (place_along (not up) i) 0 }
{
    let width = mode.width;
    let slots = slot_count(table, width);
    let end = slot_at(slots, up, written);
    let vacant = slot_vacant(table, written, width);
    let mut position = skip_unasked(table, list, 0, written, vacant, up, width);
    while position < end {
        let slot = slot_at(slots, up, position);
        let place = place_along(slot, up);
        list[place] = number_after(table, list[place], slot, written, up, mode);
        position = skip_unasked(table, list, position + 1, written, vacant, up, width);
    }
    list[place_along(written, up)] = own_number(table, written, vacant, up, mode);
}

// The list of a table as it was before a write to one slot, brought up to date.
pub fn update_list(table: &[u64], list: &mut [u16], written: usize, mode: Mode)
    requires width { (Width mode.width) × (slots mode.width table.now ≤ most_slots) × (written < slots mode.width table.now) × (check_records mode.width table.now ≡ Pass) × (2 * (slots mode.width table.now) ≤ length list.old) }
    requires listed_before { ListedBefore mode.width mode.uncounted table.now written list.old }
    ensures { Listed mode.width mode.uncounted table.now list.new }
{
    update_along(table, list, written, false, mode);
    update_along(table, list, written, true, mode);
}
