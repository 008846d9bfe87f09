// The checks of an image: its header, each entry of its contents, each body; a failure tells where the wrong field stands.
// An image is only read here: the table that it means is built in `loads`.
#![tactic(auto)]

ghost use Rattle.std.specs.Prelude.{◌≡◌, ◌&&◌, [], ◌∷◌, ℕ, ◌+◌, ◌*◌, ◌≤◌, ◌<◌, length};
ghost use Rattle.ternary.specs.Pattern.{within, full_mask};
ghost use Rattle.records.specs.Verdict.{checked, Pass};
ghost use Rattle.records.specs.Record.{most_slots, listed, mask, rank_fits, put_slot};
ghost use Rattle.records.specs.Order.{slots as slots_of};
ghost use Rattle.records.specs.Checks.{or_else, check_shape};
ghost use Rattle.records.specs.Widths.{Width};
ghost use Rattle.image.specs.Bytes.{number_at, store};
ghost use Rattle.image.specs.Format.{image_bytes, entry_place, id_at, body_word, record_at};
ghost use Rattle.image.specs.Checks.{check_header, lowest_slot, check_entry, check_body, check_contents, check_bodies, image_checks};

use image::fields::{number_at, word_at};
use image::sizes::{body_place, entry_place, image_bytes};
use records::{Cause, NARROW, Refusal, WIDE, at_width, record_words};
use slots::slot_count;
use table_checks::check_shape;

// Slots as the lent table's; rules no more than slots, and as many bytes as so many rules have.
fn check_header(image: &[u8], slots: usize, width: usize) -> Result<(), Refusal>
    requires { Width width }
    ensures { checked result ≡ check_header width image.now slots }
{
    let bytes = image.len();
    if bytes < 4 {
        return Err(Refusal {
            cause: Cause::Image,
            spot: 0,
        });
    }
    if number_at(image, 0, 2) as usize != slots {
        return Err(Refusal {
            cause: Cause::Image,
            spot: 0,
        });
    }
    let rules = number_at(image, 2, 2) as usize;
    if (rules <= slots) & (bytes == image_bytes(width, rules)) {
        return Ok(());
    }
    Err(Refusal {
        cause: Cause::Image,
        spot: 2,
    })
}

// The lowest slot that an entry may name: above the entry before.
fn lowest_slot(image: &[u8], entry: usize) -> u64
    requires { (entry ≤ most_slots) × (entry_place entry ≤ length image.now) }
    ensures { result ≡ lowest_slot image.now entry }
{
    if entry == 0 {
        return 0;
    }
    number_at(image, entry_place(entry - 1) + 4, 2) + 1
}

// An entry of the contents: id, slot and offset, each a field of its own.
fn check_entry(
    image: &[u8],
    slots: usize,
    rules: usize,
    entry: usize,
    width: usize,
) -> Result<(), Refusal>
    requires { (Width width) × (rules ≤ most_slots) × (entry < rules) × (image_bytes width rules ≤ length image.now) }
    ensures { checked result ≡ check_entry width image.now slots rules entry }
{
    let at = entry_place(entry);
    if number_at(image, at, 4) == 0 {
        return Err(Refusal {
            cause: Cause::Image,
            spot: at as u32,
        });
    }
    let slot = number_at(image, at + 4, 2);
    let lowest = lowest_slot(image, entry);
    if !((slot < slots as u64) & (lowest <= slot)) {
        return Err(Refusal {
            cause: Cause::Image,
            spot: (at + 4) as u32,
        });
    }
    if number_at(image, at + 6, 4) as usize != body_place(width, rules, entry) {
        return Err(Refusal {
            cause: Cause::Image,
            spot: (at + 6) as u32,
        });
    }
    Ok(())
}

// How many entries pass, from the first on: all, or those below one to look at. A screen for `check_entry`, which tells which field is wrong: a loop that
// makes no refusal keeps what it needs in registers, and it reads each slot once.
fn skip_passing(image: &[u8], slots: usize, rules: usize, width: usize) -> usize
    requires { (Width width) × (rules ≤ most_slots) × (image_bytes width rules ≤ length image.now) }
    ensures { (result ≤ rules) × ((k : ℕ) → k < result → check_entry width image.now slots rules k ≡ Pass) }
{
    let mut lowest = 0;
    for entry in 0..rules {
        let at = entry_place(entry);
        if number_at(image, at, 4) == 0 {
            return entry;
        }
        let slot = number_at(image, at + 4, 2);
        if !((lowest <= slot) & (slot < slots as u64)) {
            return entry;
        }
        let offset = number_at(image, at + 6, 4) as usize;
        if offset != body_place(width, rules, entry) {
            return entry;
        }
        lowest = slot + 1;
    }
    rules
}

// Puts the value and mask words of a body into a table, from a word on.
fn put_pattern_by(image: &[u8], at: usize, table: &mut [u64], first: usize, width: usize)
    requires { (Width width) × (at + 16 * width ≤ length image.now) × (first + 2 * width ≤ length table.old) }
    ensures { table.new ≡ store table.old first (listed (2 * width) (body_word image.now at)) }
{
    for word in 0..2 * width {
        table[first + word] = word_at(image, at + word * 8);
    }
}

// The same, with the width a constant for the compiler: it makes a copy for each.
// Not by `at_width`: it does not say what its work leaves in the lent arrays.
fn put_pattern(image: &[u8], at: usize, table: &mut [u64], first: usize, width: usize)
    requires { (Width width) × (at + 16 * width ≤ length image.now) × (first + 2 * width ≤ length table.old) }
    ensures { table.new ≡ store table.old first (listed (2 * width) (body_word image.now at)) }
{
    if width == NARROW {
        put_pattern_by(image, at, table, first, NARROW);
    } else {
        put_pattern_by(image, at, table, first, WIDE);
    }
}

// Puts the two words behind a pattern, id and action and then rank, into a table: the id stands in the contents, the others end the body.
fn put_rest(image: &[u8], named: usize, tail: usize, table: &mut [u64], at: usize)
    requires { (named + 4 ≤ length image.now) × (tail + 8 ≤ length image.now) × (at + 2 ≤ length table.old) }
    ensures { table.new ≡ store table.old at
        ((number_at image.now named 4 * 4294967296 + number_at image.now (tail + 4) 4) ∷ number_at image.now tail 4 ∷ []) }
{
    let id = number_at(image, named, 4);
    let action = number_at(image, tail + 4, 4);
    table[at] = id * 4294967296 + action;
    table[at + 1] = number_at(image, tail, 4);
}

// Puts the record that an entry and its body mean into a slot of a table.
pub fn put_meant(
    image: &[u8],
    rules: usize,
    entry: usize,
    table: &mut [u64],
    slot: usize,
    width: usize,
)
    requires { (Width width) × (rules ≤ most_slots) × (entry < rules) × (image_bytes width rules ≤ length image.now) × (slot < slots_of width table.old) }
    ensures { table.new ≡ put_slot width table.old slot (record_at width image.now rules entry) }
{
    let body = body_place(width, rules, entry);
    let first = slot * record_words(width);
    put_pattern(image, body, table, first, width);
    put_rest(
        image,
        entry_place(entry),
        body + 16 * width,
        table,
        first + 2 * width,
    );
}

// Whether each value bit of a body outside its mask is 0.
fn body_within_by(image: &[u8], at: usize, width: usize) -> bool
    requires { (Width width) × (at + 16 * width ≤ length image.now) }
    ensures { result ≡ within width (body_word image.now at) (mask width (body_word image.now at)) }
{
    for index in 0..width {
        let value = word_at(image, at + index * 8);
        let mask = word_at(image, at + (width + index) * 8);
        if !ternary::word_within(value, mask) {
            return false;
        }
    }
    true
}

// The same, with the width a constant for the compiler: it makes a copy for each.
fn body_within(image: &[u8], at: usize, width: usize) -> bool
    requires { (Width width) × (at + 16 * width ≤ length image.now) }
    ensures { result ≡ within width (body_word image.now at) (mask width (body_word image.now at)) }
{
    at_width(width, |width| body_within_by(image, at, width))
}

// Whether every mask bit of a body is set.
fn body_full_by(image: &[u8], at: usize, width: usize) -> bool
    requires { (Width width) × (at + 16 * width ≤ length image.now) }
    ensures { result ≡ full_mask width (mask width (body_word image.now at)) }
{
    for index in 0..width {
        if !ternary::word_full(word_at(image, at + (width + index) * 8)) {
            return false;
        }
    }
    true
}

// The same, with the width a constant for the compiler: it makes a copy for each.
fn body_full(image: &[u8], at: usize, width: usize) -> bool
    requires { (Width width) × (at + 16 * width ≤ length image.now) }
    ensures { result ≡ full_mask width (mask width (body_word image.now at)) }
{
    at_width(width, |width| body_full_by(image, at, width))
}

// Whether a body's rank is a record's: at most 65,535, or 65,536 where every mask bit is set. Read in halves of two bytes: of a priority the upper is 0.
fn body_ranked(image: &[u8], at: usize, width: usize) -> bool
    requires { (Width width) × (at + 16 * width + 4 ≤ length image.now) }
    ensures { result ≡ rank_fits width (number_at image.now (at + 16 * width) 4) (mask width (body_word image.now at)) }
{
    let upper = number_at(image, at + 16 * width, 2);
    upper == 0
        || (upper == 1
            && number_at(image, at + 16 * width + 2, 2) == 0
            && body_full(image, at, width))
}

// Whether the rank and value of a body, which starts at an offset, are a sound record's.
fn body_sound(image: &[u8], at: usize, width: usize) -> bool
    requires { (Width width) × (at + 16 * width + 4 ≤ length image.now) }
    ensures { result ≡ (rank_fits width (number_at image.now (at + 16 * width) 4) (mask width (body_word image.now at))
        && within width (body_word image.now at) (mask width (body_word image.now at))) }
{
    body_ranked(image, at, width) && body_within(image, at, width)
}

// A body: its value and rank are a sound record's. Its id, of the contents, has passed.
fn check_body(image: &[u8], rules: usize, entry: usize, width: usize) -> Result<(), Refusal>
    requires { (Width width) × (rules ≤ most_slots) × (entry < rules) × (image_bytes width rules ≤ length image.now) × (id_at image.now entry ≡ 0 → ⊥) }
    ensures { checked result ≡ check_body width image.now rules entry }
{
    let at = body_place(width, rules, entry);
    if body_sound(image, at, width) {
        return Ok(());
    }
    Err(Refusal {
        cause: Cause::Image,
        spot: at as u32,
    })
}

// Each contents entry in turn, from the first that does not pass the screen.
fn check_contents(image: &[u8], slots: usize, rules: usize, width: usize) -> Result<(), Refusal>
    requires { (Width width) × (rules ≤ most_slots) × (image_bytes width rules ≤ length image.now) }
    ensures { checked result ≡ check_contents width image.now slots rules }
{
    for entry in skip_passing(image, slots, rules, width)..rules {
        check_entry(image, slots, rules, entry, width)?;
    }
    Ok(())
}

// Each body in turn, once every id has passed.
fn check_bodies(image: &[u8], rules: usize, width: usize) -> Result<(), Refusal>
    requires { (Width width) × (rules ≤ most_slots) × (image_bytes width rules ≤ length image.now) × ((k : ℕ) → k < rules → id_at image.now k ≡ 0 → ⊥) }
    ensures { checked result ≡ check_bodies width image.now rules }
{
    for entry in 0..rules {
        check_body(image, rules, entry, width)?;
    }
    Ok(())
}

// Every field of an image, for a table of so many slots.
fn check_image(image: &[u8], slots: usize, width: usize) -> Result<(), Refusal>
    requires { (Width width) × (slots ≤ most_slots) }
    ensures { checked result ≡ image_checks width image.now slots }
{
    check_header(image, slots, width)?;
    let rules = number_at(image, 2, 2) as usize;
    check_contents(image, slots, rules, width)?;
    check_bodies(image, rules, width)
}

// The shape of the lent table, then the image.
pub fn check_fields(image: &[u8], table: &[u64], width: usize) -> Result<(), Refusal>
    requires { Width width }
    ensures { checked result ≡ or_else (check_shape width table.now) (image_checks width image.now (slots_of width table.now)) }
{
    check_shape(table, width)?;
    check_image(image, slot_count(table, width), width)
}
