// Loading an image: every field is checked and the table meant is built apart, before the lent table is written.
// A refused load leaves the lent table as it was; of it only the length counts.
#![tactic(auto)]

ghost use Rattle.std.specs.Prelude.{◌≡◌, ℕ, ◌≤◌, ◌<◌, length, replicate};
ghost use Rattle.records.specs.Record.{most_slots, most_words};
ghost use Rattle.records.specs.Order.{slots};
ghost use Rattle.records.specs.Checks.{or_else, check_shape, check_records, check_twice, check_order};
ghost use Rattle.records.specs.Widths.{Width};
ghost use Rattle.records.specs.Verdict.{checked, Pass};
ghost use Rattle.image.specs.Format.{image_bytes, entry_slot};
ghost use Rattle.image.specs.Checks.{image_checks, rules_put};
ghost use Rattle.image.specs.Answers.{load_told, load_answer, load_table, load_call, load_call_table};

use image::fields::number_at;
use image::sizes::entry_place;
use image_checks::{check_fields, put_meant};
use records::{Cause, LIST_NUMBERS, Mode, NARROW, NARROW_TABLE, Refusal, WIDE_TABLE, check_width};
use table_checks::check_pairs;

// Puts each rule's record into its slot.
fn fill(image: &[u8], rules: usize, table: &mut [u64], width: usize)
    requires width { (Width width) × (rules ≤ most_slots) × (image_bytes width rules ≤ length image.now) }
    requires by_index { (k : ℕ) → k < rules → entry_slot image.now k < slots width table.old }
    ensures { table.new ≡ rules_put width image.now rules table.old rules }
{
    for entry in 0..rules {
        let slot = number_at(image, entry_place(entry) + 4, 2) as usize;
        put_meant(image, rules, entry, table, slot, width);
    }
}

// Checks 3 and 4 of the table meant.
fn check_meant(table: &[u64], mode: Mode) -> Result<(), Refusal>
    requires width { (Width mode.width) × (slots mode.width table.now ≤ most_slots) }
    requires table_value { check_records mode.width table.now ≡ Pass }
    ensures { checked result ≡ or_else (check_twice mode.width table.now) (check_order mode.width mode.uncounted table.now) }
{
    let mut near = [0u16; LIST_NUMBERS];
    check_pairs(table, &mut near, mode)
}

// Writes a table's words over another's, a store for each. Not by `copy_from_slice`, which calls memmove: a load is to need memset alone of a program.
fn copy_words(from: &[u64], to: &mut [u64])
    requires { length from.now ≡ length to.old }
    ensures { to.new ≡ from.now }
{
    for word in 0..from.len() {
        to[word] = from[word];
    }
}

// The table meant by an image that passes its checks: built in a working table of zeros, checked there, then written.
fn load_through(
    image: &[u8],
    working: &mut [u64],
    table: &mut [u64],
    mode: Mode,
) -> Result<(), Refusal>
    requires width { Width mode.width }
    requires table_value { (or_else (check_shape mode.width table.old) (image_checks mode.width image.now (slots mode.width table.old)) ≡ Pass) × (working.old ≡ replicate (length table.old) 0) }
    ensures result_value { load_told result ≡ load_answer mode.width mode.uncounted image.now table.old }
    ensures table_after { table.new ≡ load_table mode.width mode.uncounted image.now table.old }
{
    let rules = number_at(image, 2, 2) as usize;
    fill(image, rules, working, mode.width);
    check_meant(working, mode)?;
    copy_words(working, table);
    Ok(())
}

// With a working table of so many words: a copy for each number, so that the smaller load has the smaller stack.
fn load_with<const WORDS: usize>(image: &[u8], table: &mut [u64], mode: Mode) -> Result<(), Refusal>
    requires width { (Width mode.width) × (length table.old ≤ WORDS) × (WORDS ≤ most_words 5) }
    requires table_value { or_else (check_shape mode.width table.old) (image_checks mode.width image.now (slots mode.width table.old)) ≡ Pass }
    ensures result_value { load_told result ≡ load_answer mode.width mode.uncounted image.now table.old }
    ensures table_after { table.new ≡ load_table mode.width mode.uncounted image.now table.old }
{
    let words = table.len();
    let mut working = [0u64; WORDS];
    let zeros = &mut working[..];
    load_through(image, &mut zeros[0..words], table, mode)
}

// Through a working table of its width's size. No table that passes check 1 is longer than the larger one, so that the call of itself is never made: it keeps
// the compiler from making one frame of this function and those below, in which a load at two words would have the larger table too. It would answer the other
// way round, so that the compiler cannot make a loop of it.
fn load_sized(image: &[u8], table: &mut [u64], mode: Mode) -> Result<(), Refusal>
    requires width { Width mode.width }
    requires table_value { or_else (check_shape mode.width table.old) (image_checks mode.width image.now (slots mode.width table.old)) ≡ Pass }
    ensures result_value { load_told result ≡ load_answer mode.width mode.uncounted image.now table.old }
    ensures table_after { table.new ≡ load_table mode.width mode.uncounted image.now table.old }
{
    if WIDE_TABLE < table.len() {
        return match load_sized(image, table, mode) {
            Ok(()) => Err(Refusal {
                cause: Cause::Shape,
                spot: 0,
            }),
            Err(_) => Ok(()),
        };
    }
    if mode.width == NARROW {
        return load_with::<NARROW_TABLE>(image, table, mode);
    }
    load_with::<WIDE_TABLE>(image, table, mode)
}

// The table of an image at a width that there is.
fn load_at(image: &[u8], table: &mut [u64], mode: Mode) -> Result<(), Refusal>
    requires { Width mode.width }
    ensures result_value { load_told result ≡ load_answer mode.width mode.uncounted image.now table.old }
    ensures table_after { table.new ≡ load_table mode.width mode.uncounted image.now table.old }
{
    check_fields(image, table, mode.width)?;
    // Put together anew: a refusal that is handed on as it lies in memory is read back before its parts are there as one word.
    match load_sized(image, table, mode) {
        Ok(()) => Ok(()),
        Err(refusal) => Err(Refusal {
            cause: refusal.cause,
            spot: refusal.spot,
        }),
    }
}

// The table of an image, into the lent table, or a refusal that leaves it as it was.
pub fn load(image: &[u8], table: &mut [u64], mode: Mode) -> Result<(), Refusal>
    ensures result_value { load_told result ≡ load_call mode.width mode.uncounted image.now table.old }
    ensures table_after { table.new ≡ load_call_table mode.width mode.uncounted image.now table.old }
{
    check_width(mode.width)?;
    load_at(image, table, mode)
}
