// One slot of a table, read in the table itself: empty, sound, matching a key; and a rule's record and rank.
// The width, the number of words of a value, is given with each call: two or five, with one text for both.
// A function on a slot asks that it exists, `slot_vacant` that check 2 passes; else the table may hold anything.
#![tactic(auto)]

pub mod given;
pub mod rules;

ghost use Rattle.std.specs.Prelude.{◌≡◌, ◌&&◌, ◌||◌, ◌*◌, ◌<◌, eqb, length};
ghost use Rattle.ternary.specs.Word.{agree, inside};
ghost use Rattle.ternary.specs.Pattern.{within, full_mask};
ghost use Rattle.records.specs.Record.{word, record_words, slot_words, value, mask, rank, empty, ident, action, rank_fits, sound_lent, pattern_matches, put_slot};
ghost use Rattle.records.specs.Order.{slots};
ghost use Rattle.records.specs.Entries.{entry_at};
ghost use Rattle.records.specs.Checks.{unsound_at, check_records, compared_at};
ghost use Rattle.records.specs.Widths.{Width};
ghost use Rattle.records.specs.Verdict.{Pass};

use records::{EXACT_RANK, MOST_PRIORITY, at_width, record_words};

// How many slots a table has.
pub fn slot_count(table: &[u64], width: usize) -> usize
    requires { Width width }
    ensures { result ≡ slots width table.now }
{
    table.len() / record_words(width)
}

// Word `index` of a slot's record.
pub fn slot_word(table: &[u64], slot: usize, index: usize, width: usize) -> u64
    requires { (Width width) × (slot < slots width table.now) × (index < record_words width) }
    ensures { result ≡ slot_words width table.now slot index }
{
    table[slot * record_words(width) + index]
}

// A slot's word of id and action, its id, and its action.
pub fn named_word(table: &[u64], slot: usize, width: usize) -> u64
    requires { (Width width) × (slot < slots width table.now) }
    ensures { result ≡ slot_words width table.now slot (2 * width) }
{
    slot_word(table, slot, 2 * width, width)
}

pub fn slot_id(table: &[u64], slot: usize, width: usize) -> u64
    requires { (Width width) × (slot < slots width table.now) }
    ensures { result ≡ ident width (slot_words width table.now slot) }
{
    named_word(table, slot, width) / 4294967296
}

pub fn slot_action(table: &[u64], slot: usize, width: usize) -> u64
    requires { (Width width) × (slot < slots width table.now) }
    ensures { result ≡ action width (slot_words width table.now slot) }
{
    named_word(table, slot, width) % 4294967296
}

// Word `index` of a slot's value, and of its mask.
pub fn value_word(table: &[u64], slot: usize, index: usize, width: usize) -> u64
    requires { (Width width) × (slot < slots width table.now) × (index < width) }
    ensures { result ≡ value (slot_words width table.now slot) index }
{
    slot_word(table, slot, index, width)
}

pub fn mask_word(table: &[u64], slot: usize, index: usize, width: usize) -> u64
    requires { (Width width) × (slot < slots width table.now) × (index < width) }
    ensures { result ≡ mask width (slot_words width table.now slot) index }
{
    slot_word(table, slot, width + index, width)
}

// A slot's rank: the priority that its rule was given with, or 65,536.
pub fn slot_rank(table: &[u64], slot: usize, width: usize) -> u64
    requires { (Width width) × (slot < slots width table.now) }
    ensures { result ≡ rank width (slot_words width table.now slot) }
{
    slot_word(table, slot, 2 * width + 1, width)
}

// Whether a slot's words are all zero: for a slot without an id, where no word decides before the others.
fn slot_zero_by(table: &[u64], slot: usize, width: usize) -> bool
    requires { (Width width) × (slot < slots width table.now) }
    ensures { result ≡ empty width (slot_words width table.now slot) }
{
    let mut zero = true;
    for index in 0..record_words(width) {
        zero = zero & (slot_word(table, slot, index, width) == 0);
    }
    zero
}

// The same, with the width a constant for the compiler: it makes a copy for each.
fn slot_zero(table: &[u64], slot: usize, width: usize) -> bool
    requires { (Width width) × (slot < slots width table.now) }
    ensures { result ≡ empty width (slot_words width table.now slot) }
{
    at_width(width, |width| slot_zero_by(table, slot, width))
}

// Whether a slot's words are all zero, asked first of the word of id and action.
pub fn slot_empty(table: &[u64], slot: usize, width: usize) -> bool
    requires { (Width width) × (slot < slots width table.now) }
    ensures { result ≡ empty width (slot_words width table.now slot) }
{
    named_word(table, slot, width) == 0 && slot_zero(table, slot, width)
}

// Whether a slot's word of id and action is 0.
fn slot_unnamed(table: &[u64], slot: usize, width: usize) -> bool
    requires { (Width width) × (slot < slots width table.now) }
    ensures { result ≡ eqb (slot_words width table.now slot (2 * width)) 0 }
{
    named_word(table, slot, width) == 0
}

// Whether a slot is empty, told by its word of id and action: that is all it takes where check 2 passes.
pub fn slot_vacant(table: &[u64], slot: usize, width: usize) -> bool
    requires width { (Width width) × (slot < slots width table.now) }
    requires table_value { check_records width table.now ≡ Pass }
    ensures { result ≡ empty width (slot_words width table.now slot) }
{
    slot_unnamed(table, slot, width)
}

// Tests end at the first word that decides, since most slots are told by it.

// Whether a word of a slot's value lies within that word of its mask.
fn word_inside(table: &[u64], slot: usize, index: usize, width: usize) -> bool
    requires { (Width width) × (slot < slots width table.now) × (index < width) }
    ensures { result ≡ inside (value (slot_words width table.now slot) index) (mask width (slot_words width table.now slot) index) }
{
    ternary::word_within(
        value_word(table, slot, index, width),
        mask_word(table, slot, index, width),
    )
}

// Whether each value bit of a slot outside its mask is 0.
pub fn slot_within(table: &[u64], slot: usize, width: usize) -> bool
    requires { (Width width) × (slot < slots width table.now) }
    ensures { result ≡ within width (value (slot_words width table.now slot)) (mask width (slot_words width table.now slot)) }
{
    for index in 0..width {
        if !word_inside(table, slot, index, width) {
            return false;
        }
    }
    true
}

// Whether every mask bit of a slot is set: its rule is without wildcards.
pub fn mask_full(table: &[u64], slot: usize, width: usize) -> bool
    requires { (Width width) × (slot < slots width table.now) }
    ensures { result ≡ full_mask width (mask width (slot_words width table.now slot)) }
{
    for index in 0..width {
        if !ternary::word_full(mask_word(table, slot, index, width)) {
            return false;
        }
    }
    true
}

// Whether a slot's rank is a record's: at most 65,535, or 65,536 where every mask bit is set.
fn slot_ranked(table: &[u64], slot: usize, width: usize) -> bool
    requires { (Width width) × (slot < slots width table.now) }
    ensures { result ≡ rank_fits width (rank width (slot_words width table.now slot)) (mask width (slot_words width table.now slot)) }
{
    let rank = slot_rank(table, slot, width);
    rank <= MOST_PRIORITY || (rank == EXACT_RANK && mask_full(table, slot, width))
}

// Whether a slot's rank and value are those of a sound record, each word read where it is asked for.
fn slot_bounded(table: &[u64], slot: usize, width: usize) -> bool
    requires { (Width width) × (slot < slots width table.now) }
    ensures { result ≡ (rank_fits width (rank width (slot_words width table.now slot)) (mask width (slot_words width table.now slot))
        && within width (value (slot_words width table.now slot)) (mask width (slot_words width table.now slot))) }
{
    slot_ranked(table, slot, width) && slot_within(table, slot, width)
}

// Whether a slot is neither empty nor a sound rule: one without an id is no rule, and one with an id is not empty.
pub fn slot_unsound(table: &[u64], slot: usize, width: usize) -> bool
    requires { (Width width) × (slot < slots width table.now) }
    ensures { result ≡ unsound_at width table.now slot }
{
    if slot_id(table, slot, width) == 0 {
        return !slot_zero(table, slot, width);
    }
    // An `if` and no negation: compiled, a loop over slots is then up to two instructions shorter.
    if slot_bounded(table, slot, width) {
        return false;
    }
    true
}

// Whether a slot holds a sound rule whose rank is a priority, at most 65,535 whatever the mask: as a rule is given, lent as a table of one slot.
pub fn slot_given(table: &[u64], slot: usize, width: usize) -> bool
    requires { (Width width) × (slot < slots width table.now) }
    ensures { result ≡ sound_lent width (slot_words width table.now slot) }
{
    slot_id(table, slot, width) != 0
        && slot_rank(table, slot, width) <= MOST_PRIORITY
        && slot_within(table, slot, width)
}

// Whether a slot is empty or holds such a rule: a screen for check 2, which does not ask for a full mask.
pub fn slot_plain(table: &[u64], slot: usize, width: usize) -> bool
    requires { (Width width) × (slot < slots width table.now) }
    ensures { result ≡ (empty width (slot_words width table.now slot) || sound_lent width (slot_words width table.now slot)) }
{
    if slot_id(table, slot, width) == 0 {
        return slot_zero(table, slot, width);
    }
    slot_given(table, slot, width)
}

// Whether a word of a key agrees with that word of a slot's pattern.
fn word_agrees(table: &[u64], slot: usize, key: u64, index: usize, width: usize) -> bool
    requires { (Width width) × (slot < slots width table.now) × (index < width) }
    ensures { result ≡ agree key (value (slot_words width table.now slot) index) (mask width (slot_words width table.now slot) index) }
{
    ternary::word_matches(
        key,
        value_word(table, slot, index, width),
        mask_word(table, slot, index, width),
    )
}

// Whether a key of as many words matches a slot's pattern, the slot read as a rule.
fn pattern_matches(table: &[u64], slot: usize, key: &[u64], width: usize) -> bool
    requires { (Width width) × (slot < slots width table.now) × (length key.now ≡ width) }
    ensures { result ≡ pattern_matches width (word key.now) (slot_words width table.now slot) }
{
    for index in 0..width {
        if !word_agrees(table, slot, key[index], index, width) {
            return false;
        }
    }
    true
}

// Document 02, 2026-02: exactly which keys a slot matches, an empty one none. So it is of each slot where check 2 passes
// (`compared_match`, records/Laws); the equation holds of any words.
pub fn slot_matches(table: &[u64], slot: usize, key: &[u64], width: usize) -> bool
    requires { (Width width) × (slot < slots width table.now) × (length key.now ≡ width) }
    ensures { result ≡ compared_at width table.now (word key.now) slot }
{
    pattern_matches(table, slot, key, width) && !slot_unnamed(table, slot, width)
}

// A slot's words, into a lent record.
pub fn read_record(table: &[u64], slot: usize, words: &mut [u64], width: usize)
    requires { (Width width) × (slot < slots width table.now) × (length words.old ≡ record_words width) }
    ensures { words.new ≡ entry_at width table.now slot }
{
    for index in 0..words.len() {
        words[index] = slot_word(table, slot, index, width);
    }
}

// Puts a record's words into a slot.
pub fn put_record(table: &mut [u64], slot: usize, words: &[u64], width: usize)
    requires { (Width width) × (slot < slots width table.old) × (length words.now ≡ record_words width) }
    ensures { table.new ≡ put_slot width table.old slot words.now }
{
    let first = slot * record_words(width);
    for index in 0..words.len() {
        table[first + index] = words[index];
    }
}
