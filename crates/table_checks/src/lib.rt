// Checks 1 to 4 of a table, each with the lowest slot that fails it, and the first match of a key.
// A planning call makes all four checks; lookup makes the first two, after which the comparison is true of exactly the slots that match.
#![tactic(auto)]

pub mod ids;

ghost use Rattle.std.specs.Prelude.{◌≡◌, ◌||◌, ◌+◌, ◌-◌, ◌*◌, ◌≤◌, ◌<◌, length};
ghost use Rattle.search.specs.Search.{least, NoneFrom};
ghost use Rattle.records.specs.Record.{most_slots, word};
ghost use Rattle.records.specs.Order.{slots};
ghost use Rattle.records.specs.Widths.{Width};
ghost use Rattle.records.specs.Verdict.{checked, Pass};
ghost use Rattle.neighbour_lists.specs.Lists.{Listed};
ghost use Rattle.records.specs.Checks.{or_else, check_shape, check_records, check_twice, check_order, slot_checks, table_checks, unsound_at, compared_at};
ghost use Rattle.table_checks.specs.Screen.{may_match};

use crate::ids::{fill_ids, lowest_twice};
use neighbour_lists::passing::fill_near;
use records::{
    Cause, LIST_NUMBERS, MOST_SLOTS, Mode, NARROW, Refusal, WIDE, at_width, record_words,
};
use slots::{
    mask_word, named_word, slot_count, slot_matches, slot_plain, slot_unsound, value_word,
};

// Check 1: the table's words are a record's for each of 1 to 1,024 slots.
pub fn check_shape(table: &[u64], width: usize) -> Result<(), Refusal>
    requires { Width width }
    ensures { checked result ≡ check_shape width table.now }
{
    let slots = slot_count(table, width);
    if (table.len() % record_words(width) == 0) & (1 <= slots) & (slots <= MOST_SLOTS) {
        return Ok(());
    }
    Err(Refusal {
        cause: Cause::Shape,
        spot: 0,
    })
}

// Skips slots that are empty or hold sound rules whose ranks are priorities: the first of another kind, or the number of slots. A loop without the test for
// a full mask: most tables end in it.
fn skip_plain(table: &[u64], width: usize) -> usize
    requires { Width width }
    ensures { NoneFrom (unsound_at width table.now) 0 (slots width table.now) result }
{
    let slots = slot_count(table, width);
    for slot in 0..slots {
        if !slot_plain(table, slot, width) {
            return slot;
        }
    }
    slots
}

// The lowest slot that is neither empty nor a sound rule, or the number of slots, from a slot on before which there is none.
fn first_unsound_by(table: &[u64], from: usize, width: usize) -> usize
    requires { (Width width) × NoneFrom (unsound_at width table.now) 0 (slots width table.now) from }
    ensures { result ≡ least (unsound_at width table.now) (slots width table.now) 0 }
{
    let slots = slot_count(table, width);
    for slot in from..slots {
        if slot_unsound(table, slot, width) {
            return slot;
        }
    }
    slots
}

// The same of the whole table, with the width a constant for the compiler: it makes a copy for each.
fn first_unsound(table: &[u64], width: usize) -> usize
    requires { Width width }
    ensures { result ≡ least (unsound_at width table.now) (slots width table.now) 0 }
{
    // Not by `at_width`, which would keep one copy of this search and of the next: a third more instructions in this one at five words.
    if width == NARROW {
        return first_unsound_by(table, skip_plain(table, NARROW), NARROW);
    }
    first_unsound_by(table, skip_plain(table, WIDE), WIDE)
}

// Check 2: each slot is empty or a sound rule.
fn check_records(table: &[u64], width: usize) -> Result<(), Refusal>
    requires { (Width width) × (slots width table.now ≤ most_slots) }
    ensures { checked result ≡ check_records width table.now }
{
    let slot = first_unsound(table, width);
    if slot < slot_count(table, width) {
        return Err(Refusal {
            cause: Cause::Record,
            spot: slot as u32,
        });
    }
    Ok(())
}

// Check 3: no id stands in an earlier slot too.
fn check_twice(table: &[u64], width: usize) -> Result<(), Refusal>
    requires { (Width width) × (slots width table.now ≤ most_slots) }
    ensures { checked result ≡ check_twice width table.now }
{
    let mut ids = [0u32; MOST_SLOTS];
    let mut seen = [0u64; 128];
    fill_ids(table, &mut ids, width);
    lowest_twice(table, &ids, &mut seen, width)
}

// Check 4: of two overlapping rules the earlier one has the strictly higher rank. Made where check 2 passes. The neighbour list
// comes with it.
fn check_order(table: &[u64], near: &mut [u16], mode: Mode) -> Result<(), Refusal>
    requires width { (Width mode.width) × (slots mode.width table.now ≤ most_slots) × (2 * (slots mode.width table.now) ≤ length near.old) }
    requires table_value { check_records mode.width table.now ≡ Pass }
    ensures value { checked result ≡ check_order mode.width mode.uncounted table.now }
    ensures listed { Listed mode.width mode.uncounted table.now near.new }
{
    let first = fill_near(table, near, mode);
    if first < slot_count(table, mode.width) {
        return Err(Refusal {
            cause: Cause::Order,
            spot: first as u32,
        });
    }
    Ok(())
}

// Whether a slot has an id or an action, and the first two words of a key agree with its pattern: every width has these.
fn may_match(table: &[u64], slot: usize, first: u64, second: u64, width: usize) -> bool
    requires { (Width width) × (slot < slots width table.now) }
    ensures { result ≡ may_match width table.now first second slot }
{
    ternary::word_matches(
        first,
        value_word(table, slot, 0, width),
        mask_word(table, slot, 0, width),
    ) && ternary::word_matches(
        second,
        value_word(table, slot, 1, width),
        mask_word(table, slot, 1, width),
    ) && named_word(table, slot, width) != 0
}

// Whether one of four slots may match.
fn one_may_match(table: &[u64], from: usize, first: u64, second: u64, width: usize) -> bool
    requires { (Width width) × (from + 4 ≤ slots width table.now) }
    ensures { result ≡ (may_match width table.now first second from
        || may_match width table.now first second (from + 1)
        || may_match width table.now first second (from + 2)
        || may_match width table.now first second (from + 3)) }
{
    may_match(table, from, first, second, width)
        || may_match(table, from + 1, first, second, width)
        || may_match(table, from + 2, first, second, width)
        || may_match(table, from + 3, first, second, width)
}

// From a slot on, one below which none may match: of most slots the first two words tell, and four at a time are passed over sooner than one by one.
fn skip_unmatched_by(table: &[u64], from: usize, first: u64, second: u64, width: usize) -> usize
    requires { (Width width) × (from ≤ slots width table.now) }
    ensures { NoneFrom (may_match width table.now first second) from (slots width table.now) result }
{
    let mut at = from;
    for _four in 0..(slot_count(table, width) - from) / 4 {
        if one_may_match(table, at, first, second, width) {
            return at;
        }
        at += 4;
    }
    at
}

// The same, with the width a constant for the compiler: it makes a copy for each.
fn skip_unmatched(table: &[u64], from: usize, first: u64, second: u64, width: usize) -> usize
    requires { (Width width) × (from ≤ slots width table.now) }
    ensures { NoneFrom (may_match width table.now first second) from (slots width table.now) result }
{
    // Not by `at_width`, which would keep one copy.
    if width == NARROW {
        return skip_unmatched_by(table, from, first, second, NARROW);
    }
    skip_unmatched_by(table, from, first, second, WIDE)
}

// The first slot from one up to another of which the comparison with a key is true, or the other.
fn match_among_by(table: &[u64], from: usize, to: usize, key: &[u64], width: usize) -> usize
    requires { (Width width) × (from ≤ to) × (to ≤ slots width table.now) × (length key.now ≡ width) }
    ensures { result ≡ least (compared_at width table.now (word key.now)) (to - from) from }
{
    for slot in from..to {
        if slot_matches(table, slot, key, width) {
            return slot;
        }
    }
    to
}

// The same, with the width a constant for the compiler: it makes a copy for each.
fn match_among(table: &[u64], from: usize, to: usize, key: &[u64], width: usize) -> usize
    requires { (Width width) × (from ≤ to) × (to ≤ slots width table.now) × (length key.now ≡ width) }
    ensures { result ≡ least (compared_at width table.now (word key.now)) (to - from) from }
{
    at_width(width, |width| match_among_by(table, from, to, key, width))
}

// The lowest-numbered slot of which the comparison is true, or the number of slots where there is none: after check 2 that is `first_match`.
// The comparison is made only from slots on that may match, four at a time.
pub fn first_match(table: &[u64], key: &[u64], width: usize) -> usize
    requires { (Width width) × (length key.now ≡ width) }
    ensures { result ≡ least (compared_at width table.now (word key.now)) (slots width table.now) 0 }
{
    let slots = slot_count(table, width);
    let first = key[0];
    let second = key[1];
    let mut slot = 0;
    while slot < slots {
        let from = skip_unmatched(table, slot, first, second, width);
        let to = slots.min(from + 4);
        slot = match_among(table, from, to, key, width);
        if slot < to {
            return slot;
        }
    }
    slots
}

// Checks 1 and 2.
pub fn check_slots(table: &[u64], width: usize) -> Result<(), Refusal>
    requires { Width width }
    ensures { checked result ≡ slot_checks width table.now }
{
    check_shape(table, width)?;
    check_records(table, width)
}

// Checks 3 and 4, which compare slots in pairs; where they pass, the table's neighbour list is in the front of the lent one.
pub fn check_pairs(table: &[u64], near: &mut [u16], mode: Mode) -> Result<(), Refusal>
    requires width { (Width mode.width) × (slots mode.width table.now ≤ most_slots) × (2 * (slots mode.width table.now) ≤ length near.old) }
    requires table_value { check_records mode.width table.now ≡ Pass }
    ensures value { checked result ≡ or_else (check_twice mode.width table.now) (check_order mode.width mode.uncounted table.now) }
    ensures listed { checked result ≡ Pass → Listed mode.width mode.uncounted table.now near.new }
{
    check_twice(table, mode.width)?;
    check_order(table, near, mode)
}

// Checks 1 to 4, with the list.
pub fn check_listed(table: &[u64], near: &mut [u16], mode: Mode) -> Result<(), Refusal>
    requires { (Width mode.width) × (2 * most_slots ≤ length near.old) }
    ensures value { checked result ≡ table_checks mode.width mode.uncounted table.now }
    ensures listed { checked result ≡ Pass → Listed mode.width mode.uncounted table.now near.new }
{
    check_slots(table, mode.width)?;
    // Not by `check_pairs`: so the ids of check 3 are off the stack when check 4 begins.
    check_twice(table, mode.width)?;
    check_order(table, near, mode)
}

// Checks 1 to 4.
pub fn check_table(table: &[u64], mode: Mode) -> Result<(), Refusal>
    requires { Width mode.width }
    ensures { checked result ≡ table_checks mode.width mode.uncounted table.now }
{
    let mut near = [0u16; LIST_NUMBERS];
    check_listed(table, &mut near, mode)
}
