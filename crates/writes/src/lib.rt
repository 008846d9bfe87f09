// One write of a plan: whether it fits the table, and the table with it made.
// A write is a plan word, taken apart in `plan_words`.
#![tactic(auto)]

ghost use Rattle.std.specs.Prelude.{◌≡◌, true, ◌<◌, length};
ghost use Rattle.layout.specs.Write.{put, clear};
ghost use Rattle.plan_words.specs.PlanWords.{write_of};
ghost use Rattle.records.specs.Record.{word, record_words, slot_words, record_of, put_slot};
ghost use Rattle.records.specs.Order.{slots, equal_rule};
ghost use Rattle.records.specs.Entries.{entry_at, vacant};
ghost use Rattle.records.specs.Widths.{Width};
ghost use Rattle.records.specs.Editions.{lent_rule, ranked, check_given};
ghost use Rattle.records.specs.Verdict.{Pass};
ghost use Rattle.carrying.specs.Carrying.{put_checks, over_equal, fits_carried, written_slot, takes_rule, needs_no_room};
ghost use Rattle.records.specs.Writes.{held_at, stands_elsewhere, free_at, fits_write, apply_word};

use pairs::{same_id, same_pattern};
use plan_words::{PlanWrite, write_of};
use records::{WIDE_RECORD, record_words};
use slots::given::given_rank;
use slots::{put_record, read_record, slot_count, slot_empty, slot_rank};

// Whether another slot holds a slot's id.
fn held_at(table: &[u64], slot: usize, other: usize, width: usize) -> bool
    requires { (Width width) × (slot < slots width table.now) × (other < slots width table.now) }
    ensures { result ≡ held_at width table.now slot other }
{
    same_id(table, other, table, slot, width) && other != slot
}

// Whether a slot's id stands in another slot too.
fn stands_elsewhere(table: &[u64], slot: usize, width: usize) -> bool
    requires { (Width width) × (slot < slots width table.now) }
    ensures { result ≡ stands_elsewhere width table.now slot }
{
    let slots = slot_count(table, width);
    for other in 0..slots {
        if held_at(table, slot, other, width) {
            return true;
        }
    }
    false
}

// Whether a write to a slot loses no rule: the slot is empty, or its id stands in another slot too.
fn slot_free(table: &[u64], slot: usize, width: usize) -> bool
    requires { (Width width) × (slot < slots width table.now) }
    ensures { result ≡ free_at width table.now slot }
{
    slot_empty(table, slot, width) || stands_elsewhere(table, slot, width)
}

// Whether a rule may be written to a slot, and none is lost.
fn put_fits(table: &[u64], to: usize, width: usize) -> bool
    requires { Width width }
    ensures { result ≡ fits_write width table.now (put to) }
{
    to < slot_count(table, width) && slot_free(table, to, width)
}

// Whether there is a rule in a slot.
fn rule_in(table: &[u64], slot: usize, width: usize) -> bool
    requires { Width width }
    ensures { result ≡ fits_write width table.now (clear slot) }
{
    slot < slot_count(table, width) && !slot_empty(table, slot, width)
}

// Whether a slot holds a rule of the same value, mask and rank as the rule given. Ranks first, as they tell most pairs apart.
fn equal_to_given(table: &[u64], to: usize, rule: &[u64], edition: u32, width: usize) -> bool
    requires { (Width width) × (to < slots width table.now) × (length rule.now ≡ record_words width) × (check_given width (lent_rule width edition rule.now) ≡ Pass) }
    ensures { result ≡ equal_rule width (slot_words width table.now to) (word (record_of width (ranked width (lent_rule width edition rule.now)))) }
{
    slot_rank(table, to, width) == given_rank(rule, edition, width)
        && same_pattern(table, to, rule, 0, width)
        && !slot_empty(table, to, width)
}

// Whether a put-in would overwrite such a rule: the slot exists, and holds one.
fn over_equal(table: &[u64], to: usize, rule: &[u64], edition: u32, width: usize) -> bool
    requires { (Width width) × (length rule.now ≡ record_words width) × (check_given width (lent_rule width edition rule.now) ≡ Pass) }
    ensures { result ≡ over_equal width table.now (ranked width (lent_rule width edition rule.now)) to }
{
    to < slot_count(table, width) && equal_to_given(table, to, rule, edition, width)
}

// Whether what a plan word takes a rule from holds one: a copy's slot, another than it goes to, and the slot that is emptied.
fn takes_rule(table: &[u64], word: u32, width: usize) -> bool
    requires { Width width }
    ensures { result ≡ takes_rule width table.now (write_of word) }
{
    match write_of(word) {
        PlanWrite::Copy(from, to) => from != to && rule_in(table, from as usize, width),
        PlanWrite::PutIn(_) => true,
        PlanWrite::Clear(slot) => rule_in(table, slot as usize, width),
    }
}

// Whether a plan word fits without a search for copies: an emptying, and a put-in over an equal rule.
fn needs_no_room(table: &[u64], rule: &[u64], edition: u32, word: u32, width: usize) -> bool
    requires { (Width width) × (length rule.now ≡ record_words width) × (put_checks width (lent_rule width edition rule.now) (write_of word) ≡ Pass) }
    ensures { result ≡ needs_no_room width table.now (ranked width (lent_rule width edition rule.now)) (write_of word) }
{
    match write_of(word) {
        PlanWrite::Copy(_, _) => false,
        PlanWrite::PutIn(to) => over_equal(table, to as usize, rule, edition, width),
        PlanWrite::Clear(_) => true,
    }
}

// The slot that a plan word writes to.
pub fn written_slot(word: u32) -> usize
    ensures { result ≡ written_slot (write_of word) }
{
    match write_of(word) {
        PlanWrite::Copy(_, to) => to as usize,
        PlanWrite::PutIn(to) => to as usize,
        PlanWrite::Clear(slot) => slot as usize,
    }
}

// Whether the write of a plan word fits; a rule that is put in is sound, and its edition one that there is.
pub fn word_fits(table: &[u64], rule: &[u64], edition: u32, word: u32, width: usize) -> bool
    requires { (Width width) × (length rule.now ≡ record_words width) × (put_checks width (lent_rule width edition rule.now) (write_of word) ≡ Pass) }
    ensures { result ≡ fits_carried width table.now (ranked width (lent_rule width edition rule.now)) (write_of word) }
{
    takes_rule(table, word, width)
        && (needs_no_room(table, rule, edition, word, width)
            || put_fits(table, written_slot(word), width))
}

// Copies a slot's record to another slot, by way of a record of its own.
fn copy_slot(table: &mut [u64], from: usize, to: usize, width: usize)
    requires { (Width width) × (from < slots width table.old) × (to < slots width table.old) }
    ensures { table.new ≡ put_slot width table.old to (entry_at width table.old from) }
{
    let mut words = [0u64; WIDE_RECORD];
    let length = record_words(width);
    read_record(table, from, &mut words[0..length], width);
    put_record(table, to, &words[0..length], width);
}

// Empties a slot.
fn clear_slot(table: &mut [u64], slot: usize, width: usize)
    requires { (Width width) × (slot < slots width table.old) }
    ensures { table.new ≡ put_slot width table.old slot (vacant width) }
{
    let words = [0u64; WIDE_RECORD];
    put_record(table, slot, &words[0..record_words(width)], width);
}

// Puts a rule that is sound and given with an edition that there is into a slot, with its rank for its priority.
fn put_rule(table: &mut [u64], to: usize, rule: &[u64], edition: u32, width: usize)
    requires width { (Width width) × (to < slots width table.old) × (length rule.now ≡ record_words width) }
    requires rule_value { check_given width (lent_rule width edition rule.now) ≡ Pass }
    ensures { table.new ≡ put_slot width table.old to (record_of width (ranked width (lent_rule width edition rule.now))) }
{
    put_record(table, to, rule, width);
    table[to * record_words(width) + 2 * width + 1] = given_rank(rule, edition, width);
}

// Makes the write of a plan word that fits; a rule that is put in is sound, and its edition one that there is.
pub fn make_write(table: &mut [u64], rule: &[u64], edition: u32, word: u32, width: usize)
    requires width { (Width width) × (length rule.now ≡ record_words width) × (fits_carried width table.old (ranked width (lent_rule width edition rule.now)) (write_of word) ≡ true) }
    requires word_value { put_checks width (lent_rule width edition rule.now) (write_of word) ≡ Pass }
    ensures { table.new ≡ apply_word width table.old (ranked width (lent_rule width edition rule.now)) word }
{
    match write_of(word) {
        PlanWrite::Copy(from, to) => copy_slot(table, from as usize, to as usize, width),
        PlanWrite::PutIn(to) => put_rule(table, to as usize, rule, edition, width),
        PlanWrite::Clear(slot) => clear_slot(table, slot as usize, width),
    }
}
