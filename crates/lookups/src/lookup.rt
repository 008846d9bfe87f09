// Looking up a key in a lent table, and reading a slot's record as a part of it.
// Both make checks 1 and 2 and change nothing. A function that ends in `_at` is the call's at a width that there is.
ghost use Rattle.std.specs.Prelude.{◌≡◌, ◌+◌, ◌*◌, ◌<◌, ◌≤◌, length};
ghost use Rattle.records.specs.Record.{most_slots, word};
ghost use Rattle.records.specs.Order.{slots};
ghost use Rattle.records.specs.Widths.{Width};
ghost use Rattle.lookups.specs.Lookup.{lookup_told, hit_at, match_told, lookup_answer, lookup_call, shown, shown_call, part_start_call, record_part_call};

use crate::Hit;
use records::{Refusal, check_key, check_width, record_words};
use slots::rules::{lower_half, upper_half};
use slots::{named_word, slot_count, slot_empty};
use table_checks::{check_slots, first_match};

// Slot, id and action of the rule in a slot.
fn hit_at(table: &[u64], slot: usize, width: usize) -> Hit
    requires { (Width width) × (slots width table.now ≤ most_slots) × (slot < slots width table.now) }
    ensures { result ≡ hit_at width table.now slot }
{
    let id_action = named_word(table, slot, width);
    Hit {
        slot: slot as u32,
        id: upper_half(id_action),
        action: lower_half(id_action),
    }
}

// The answer for a slot: its hit, or a miss where there is no such slot.
fn match_answer(table: &[u64], slot: usize, width: usize) -> Result<Option<Hit>, Refusal>
    requires { (Width width) × (slots width table.now ≤ most_slots) }
    ensures { lookup_told result ≡ match_told width table.now slot }
{
    if slot < slot_count(table, width) {
        let hit = hit_at(table, slot, width);
        return Ok(Some(hit));
    }
    Ok(None)
}

fn lookup_at(table: &[u64], key: &[u64], width: usize) -> Result<Option<Hit>, Refusal>
    requires { (Width width) × (length key.now ≡ width) }
    ensures { lookup_told result ≡ lookup_answer width table.now (word key.now) }
{
    check_slots(table, width)?;
    match_answer(table, first_match(table, key, width), width)
}

// The lowest-numbered slot that matches a key, with its id and action; a miss; or a refusal by check 1 or 2.
pub fn lookup(table: &[u64], key: &[u64], width: usize) -> Result<Option<Hit>, Refusal>
    ensures { lookup_told result ≡ lookup_call width table.now key.now }
{
    check_key(width, key.len())?;
    lookup_at(table, key, width)
}

// Whether a slot's record is shown: checks 1 and 2 pass, and the slot is present and occupied.
fn shown_at(table: &[u64], slot: usize, width: usize) -> bool
    requires { Width width }
    ensures { result ≡ shown width table.now slot }
{
    check_slots(table, width).is_ok()
        && slot < slot_count(table, width)
        && !slot_empty(table, slot, width)
}

fn slot_shown(table: &[u64], slot: usize, width: usize) -> bool
    ensures { result ≡ shown_call width table.now slot }
{
    check_width(width).is_ok() && shown_at(table, slot, width)
}

// A slot's record as that part of the table; the empty part at the table's start where it is not shown.
pub fn slot_record(table: &[u64], slot: usize, width: usize) -> &[u64]
    ensures result_value { result.now ≡ record_part_call width table.now slot }
    ensures ref_ptr_value { (result.ref_ptr.0 ≡ table.entry.ref_ptr.0) × (result.ref_ptr.1 ≡ part_start_call width table.now slot * 8 + table.entry.ref_ptr.1) }
{
    if slot_shown(table, slot, width) {
        let words = record_words(width);
        let first = slot * words;
        return &table[first..first + words];
    }
    &table[0..0]
}
