// Check 3 over a column of ids: earlier slots' records are read only where the column finds the slot's id among theirs.
// A column of 32-bit words is compared several slots at a time; the records, a record's words apart, are not.
// The column is read only where a map of the ids seen has the bit of this one: most ids stand once, and have a bit of their own.
ghost use Rattle.std.specs.Prelude.{◌≡◌, ◌≤◌, ◌<◌, ◌%◌, length};
ghost use Rattle.records.specs.Verdict.{checked};
ghost use Rattle.records.specs.Record.{most_slots, slot_words, ident};
ghost use Rattle.records.specs.Order.{slots};
ghost use Rattle.records.specs.Checks.{check_twice, twice_at};
ghost use Rattle.records.specs.Widths.{Width};
ghost use Rattle.table_checks.specs.Ids.{IdColumn, listed_twice, with_seen, SeenTo};

use bitmaps::bits::{has_bit, mark};
use pairs::same_id;
use records::{Cause, NARROW, Refusal, WIDE};
use slots::rules::upper_half;
use slots::{named_word, slot_count, slot_empty};

// The id of a slot's record, as a number of 32 bits.
fn short_id(table: &[u64], slot: usize, width: usize) -> u32
    requires { (Width width) × (slot < slots width table.now) }
    ensures { result ≡ ident width (slot_words width table.now slot) }
{
    upper_half(named_word(table, slot, width))
}

// The ids of all slots, into the front of a lent column.
fn fill_ids_by(table: &[u64], ids: &mut [u32], width: usize)
    requires { (Width width) × (slots width table.now ≤ length ids.old) }
    ensures { IdColumn width table.now ids.new (slots width table.now) }
{
    let slots = slot_count(table, width);
    for slot in 0..slots {
        ids[slot] = short_id(table, slot, width);
    }
}

// The same, with the width a constant for the compiler: it makes a copy for each.
pub fn fill_ids(table: &[u64], ids: &mut [u32], width: usize)
    requires { (Width width) × (slots width table.now ≤ length ids.old) }
    ensures { IdColumn width table.now ids.new (slots width table.now) }
{
    // Not by `at_width`: it does not say what its work leaves in the lent arrays.
    if width == NARROW {
        fill_ids_by(table, ids, NARROW);
    } else {
        fill_ids_by(table, ids, WIDE);
    }
}

// Whether an earlier entry of the column is this slot's.
// It has no early exit, so that the compiler compares several entries at a time.
fn listed_before(ids: &[u32], slot: usize) -> bool
    requires { slot < length ids.now }
    ensures { result ≡ listed_twice ids.now slot }
{
    let id = ids[slot];
    let mut found = false;
    for earlier in 0..slot {
        found = found | (ids[earlier] == id);
    }
    found
}

// Whether an earlier slot has this slot's id, read in the table.
fn id_before(table: &[u64], slot: usize, width: usize) -> bool
    requires { (Width width) × (slot < slots width table.now) }
    ensures { result ≡ twice_at width table.now slot }
{
    for earlier in 0..slot {
        if same_id(table, earlier, table, slot, width) {
            return true;
        }
    }
    false
}

// The same, by the column first: where it finds the id, the table decides.
// Empty slots are passed over: they all have id 0, which the column would find in each of their rows.
fn id_twice(table: &[u64], ids: &[u32], slot: usize, width: usize) -> bool
    requires width { (Width width) × (slot < slots width table.now) × (slots width table.now ≤ length ids.now) }
    requires id_column { IdColumn width table.now ids.now (slots width table.now) }
    ensures { result ≡ twice_at width table.now slot }
{
    !slot_empty(table, slot, width) && listed_before(ids, slot) && id_before(table, slot, width)
}

// The place of an id among 8,192: its last 13 bits.
fn seen_place(id: u32) -> usize
    ensures { result ≡ id % 8192 }
{
    (id % 8192) as usize
}

// The same, asked only where an earlier id has this one's place.
fn seen_twice(table: &[u64], ids: &[u32], seen: &[u64], slot: usize, width: usize) -> bool
    requires width { (Width width) × (slot < slots width table.now) × (slots width table.now ≤ length ids.now) × (128 ≤ length seen.now) }
    requires id_column { IdColumn width table.now ids.now (slots width table.now) × SeenTo ids.now seen.now slot }
    ensures { result ≡ twice_at width table.now slot }
{
    let place = seen_place(ids[slot]);
    has_bit(seen[place / 64], place % 64) && id_twice(table, ids, slot, width)
}

// An id's place noted.
fn note_seen(seen: &mut [u64], id: u32)
    requires { 128 ≤ length seen.old }
    ensures { seen.new ≡ with_seen seen.old id }
{
    mark(seen, seen_place(id));
}

// The lowest slot whose id stands in an earlier one too. What the map has at first does not count: a set bit costs a look, no more.
fn lowest_twice_by(
    table: &[u64],
    ids: &[u32],
    seen: &mut [u64],
    width: usize,
) -> Result<(), Refusal>
    requires width { (Width width) × (slots width table.now ≤ most_slots) × (slots width table.now ≤ length ids.now) × (128 ≤ length seen.old) }
    requires id_column { IdColumn width table.now ids.now (slots width table.now) }
    ensures { checked result ≡ check_twice width table.now }
{
    let slots = slot_count(table, width);
    for slot in 0..slots {
        if seen_twice(table, ids, seen, slot, width) {
            return Err(Refusal {
                cause: Cause::Twice,
                spot: slot as u32,
            });
        }
        note_seen(seen, ids[slot]);
    }
    Ok(())
}

// The same, with the width a constant for the compiler: it makes a copy for each.
pub fn lowest_twice(
    table: &[u64],
    ids: &[u32],
    seen: &mut [u64],
    width: usize,
) -> Result<(), Refusal>
    requires width { (Width width) × (slots width table.now ≤ most_slots) × (slots width table.now ≤ length ids.now) × (128 ≤ length seen.old) }
    requires id_column { IdColumn width table.now ids.now (slots width table.now) }
    ensures { checked result ≡ check_twice width table.now }
{
    // Not by `at_width`: it does not say what its work leaves in the lent arrays.
    if width == NARROW {
        return lowest_twice_by(table, ids, seen, NARROW);
    }
    lowest_twice_by(table, ids, seen, WIDE)
}
