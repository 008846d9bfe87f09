// Saving a table: its rules in rising slot order, first the contents, then the bodies.
// Each rule's entry and body go to their own places, so that one pass over the slots writes both.
#![tactic(auto)]

ghost use Rattle.std.specs.Prelude.{◌≡◌, ◌++◌, ◌+◌, ◌*◌, ◌≤◌, ◌<◌, length, drop};
ghost use Rattle.records.specs.Record.{most_slots, slot_words, ident};
ghost use Rattle.records.specs.Order.{slots};
ghost use Rattle.records.specs.Checks.{check_records};
ghost use Rattle.records.specs.Widths.{Width};
ghost use Rattle.records.specs.Verdict.{Pass};
ghost use Rattle.image.specs.Bytes.{bytes_of, store, pieces};
ghost use Rattle.image.specs.Format.{rule_count, body_bytes, body_place, entry_place, image_bytes, entry_of, body_of, image_of, stored};
ghost use Rattle.image.specs.Answers.{save_told, save_answer, save_buffer, save_call, save_call_buffer};

use image::SaveInfo;
use image::fields::put_number;
use image::sizes::{body_place, entry_place, image_bytes};
use records::{Cause, Mode, Refusal, check_width};
use slots::{named_word, slot_count, slot_id, slot_rank, slot_vacant, slot_word};
use table_checks::check_table;

// How many slots hold a rule.
fn count_rules(table: &[u64], width: usize) -> usize
    requires { (Width width) × (check_records width table.now ≡ Pass) }
    ensures { result ≡ rule_count width table.now }
{
    let slots = slot_count(table, width);
    let mut count = 0;
    for slot in 0..slots {
        if !slot_vacant(table, slot, width) {
            count += 1;
        }
    }
    count
}

// Stores a contents entry at an offset.
fn put_entry(image: &mut [u8], at: usize, id: u64, slot: u64, body: u64)
    requires { at + 10 ≤ length image.old }
    ensures { image.new ≡ store image.old at (entry_of id slot body) }
{
    put_number(image, at, 4, id);
    put_number(image, at + 4, 2, slot);
    put_number(image, at + 6, 4, body);
}

// Stores the value and mask words of a slot's record at an offset.
// The first four, which every width has, stand outside the loop: a store of eight bytes is one instruction only where the compiler sees its place and size.
fn put_words(image: &mut [u8], at: usize, table: &[u64], slot: usize, width: usize)
    requires { (Width width) × (at + 16 * width ≤ length image.old) × (slot < slots width table.now) }
    ensures { image.new ≡ store image.old at (pieces (λ j. bytes_of 8 (slot_words width table.now slot j)) (2 * width)) }
{
    put_number(image, at, 8, slot_word(table, slot, 0, width));
    put_number(image, at + 8, 8, slot_word(table, slot, 1, width));
    put_number(image, at + 16, 8, slot_word(table, slot, 2, width));
    put_number(image, at + 24, 8, slot_word(table, slot, 3, width));
    for word in 4..2 * width {
        put_number(image, at + word * 8, 8, slot_word(table, slot, word, width));
    }
}

// Stores the body of a slot's record at an offset.
fn put_body(image: &mut [u8], at: usize, table: &[u64], slot: usize, width: usize)
    requires { (Width width) × (at + body_bytes width ≤ length image.old) × (slot < slots width table.now) }
    ensures { image.new ≡ store image.old at (body_of width (slot_words width table.now slot)) }
{
    put_words(image, at, table, slot, width);
    let tail = at + 16 * width;
    put_number(image, tail, 4, slot_rank(table, slot, width));
    put_number(
        image,
        tail + 4,
        4,
        named_word(table, slot, width) % 4294967296,
    );
}

// Stores entry and body of the rule in a slot, the image's rule of that number.
fn put_rule(image: &mut [u8], rules: usize, rule: usize, table: &[u64], slot: usize, width: usize)
    requires { (Width width) × (rules ≤ most_slots) × (rule < rules) × (slot < slots width table.now) × (image_bytes width rules ≤ length image.old) }
    ensures { image.new ≡ store (store image.old (entry_place rule) (entry_of (ident width (slot_words width table.now slot)) slot (body_place width rules rule)))
        (body_place width rules rule) (body_of width (slot_words width table.now slot)) }
{
    let body = body_place(width, rules, rule);
    put_entry(
        image,
        entry_place(rule),
        slot_id(table, slot, width),
        slot as u64,
        body as u64,
    );
    put_body(image, body, table, slot, width);
}

// Stores every rule of a table, in rising slot order.
fn put_rules(image: &mut [u8], rules: usize, table: &[u64], width: usize)
    requires { (Width width) × (slots width table.now ≤ most_slots) × (rules ≡ rule_count width table.now) × (image_bytes width rules ≤ length image.old) × (check_records width table.now ≡ Pass) }
    ensures { image.new ≡ stored width table.now image.old rules }
{
    let slots = slot_count(table, width);
    let mut rule = 0;
    for slot in 0..slots {
        if !slot_vacant(table, slot, width) {
            put_rule(image, rules, rule, table, slot, width);
            rule += 1;
        }
    }
}

// Stores the image of a table at the start of a buffer that has room for it.
fn put_image(image: &mut [u8], rules: usize, table: &[u64], width: usize)
    requires { (Width width) × (slots width table.now ≤ most_slots) × (rules ≡ rule_count width table.now) × (image_bytes width rules ≤ length image.old) × (check_records width table.now ≡ Pass) }
    ensures { image.new ≡ image_of width table.now ++ drop (length (image_of width table.now)) image.old }
{
    put_number(image, 0, 2, slot_count(table, width) as u64);
    put_number(image, 2, 2, rules as u64);
    put_rules(image, rules, table, width);
}

// The image of a table at a width that there is.
fn save_at(table: &[u64], image: &mut [u8], mode: Mode) -> Result<SaveInfo, Refusal>
    requires { Width mode.width }
    ensures result_value { save_told result ≡ save_answer mode.width mode.uncounted table.now (length image.old) }
    ensures image_after { image.new ≡ save_buffer mode.width mode.uncounted table.now image.old }
{
    check_table(table, mode)?;
    let rules = count_rules(table, mode.width);
    let bytes = image_bytes(mode.width, rules);
    if image.len() < bytes {
        return Err(Refusal {
            cause: Cause::Short,
            spot: bytes as u32,
        });
    }
    put_image(image, rules, table, mode.width);
    Ok(SaveInfo {
        bytes: bytes as u32,
    })
}

// The image of a table, into the lent buffer: its bytes, or a refusal that leaves the buffer as it was.
pub fn save(table: &[u64], image: &mut [u8], mode: Mode) -> Result<SaveInfo, Refusal>
    ensures result_value { save_told result ≡ save_call mode.width mode.uncounted table.now (length image.old) }
    ensures image_after { image.new ≡ save_call_buffer mode.width mode.uncounted table.now image.old }
{
    check_width(mode.width)?;
    save_at(table, image, mode)
}
