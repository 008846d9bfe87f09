// Maps of slots: for each chosen place two rows of 1,024 bits, the slots that care for it with value 0, and those with value 1.
// Row 2 k + v is words 16 (2 k + v) and the 15 after it, one for each block of 64 slots.
ghost use Rattle.std.specs.Prelude.{◌≡◌, ℕ, ◌+◌, ◌*◌, ◌/◌, ◌%◌, ◌<◌, ◌≤◌, length, get_or};
ghost use Rattle.records.specs.Record.{most_slots};
ghost use Rattle.records.specs.Order.{slots};
ghost use Rattle.records.specs.Widths.{Width};
ghost use Rattle.bitmaps.specs.Rows.{gathered, noted, RowsOf, Spread, total};

use crate::bits::{digit, drop_bit, set_bit, top};
use records::{NARROW, WIDE};
use slots::{mask_word, value_word};

// The slots of a block that one of the rows has.
pub fn apart_in(maps: &[u64], rows: &[usize], block: usize) -> u64
    requires block_bound { block < 16 }
    requires by_index { (m : ℕ) → m < length rows.now → get_or rows.now m 0 + 16 ≤ length maps.now }
    ensures { result ≡ gathered maps.now rows.now block (length rows.now) }
{
    let used = rows.len();
    // Without rows the maps need not reach the block.
    if used == 0 {
        return 0;
    }
    // At a row's first place stands its word for the block.
    let words = &maps[block..maps.len()];
    let mut apart = 0u64;
    // Two rows a turn: the loop's own instructions are paid once for both.
    for k in 0..used / 2 {
        apart = apart | words[rows[2 * k]] | words[rows[2 * k + 1]];
    }
    if used % 2 == 1 {
        apart = apart | words[rows[used - 1]];
    }
    apart
}

// A slot noted in rows.
pub fn note_rows(maps: &mut [u64], own: &[usize], slot: usize)
    requires slot_bound { slot < most_slots }
    requires by_index { (m : ℕ) → m < length own.now → get_or own.now m 0 + 16 ≤ length maps.old }
    ensures { maps.new ≡ noted maps.old own.now (slot / 64) (slot % 64) (length own.now) }
{
    let block = slot / 64;
    let s = slot % 64;
    for row in own {
        let at = *row + block;
        maps[at] = set_bit(maps[at], s);
    }
}

// The rows of the chosen places of one word that a slot cares for, after those of the words before it; how many so far.
fn fill_word(
    table: &[u64],
    slot: usize,
    word: usize,
    places: &[usize],
    count: usize,
    chosen: &[u64],
    starts: &[u16],
    others: &mut [usize],
    own: &mut [usize],
    before: usize,
    width: usize,
) -> usize
    requires width { (Width width) × (slot < slots width table.now) × (word < width) × (count ≤ 64) × (width ≤ length chosen.now) × (64 * width ≤ length starts.now) × (count ≤ length others.old) × (count ≤ length own.old) × (before ≤ total chosen.now word) }
    requires width_bound { (total chosen.now width ≤ count) × Spread places.now count chosen.now starts.now }
    requires rows_of { RowsOf width table.now places.now count slot others.old own.old before }
    ensures { (result ≤ total chosen.now (word + 1)) × RowsOf width table.now places.now count slot others.new own.new result }
{
    let value = value_word(table, slot, word, width);
    let mut left = mask_word(table, slot, word, width) & chosen[word];
    let mut used = before;
    while left != 0 {
        let t = top(left);
        let v = digit(value, t) as usize;
        let row = starts[64 * word + t] as usize;
        others[used] = row + 16 * (1 - v);
        own[used] = row + 16 * v;
        used += 1;
        left = drop_bit(left, t);
    }
    used
}

// For each chosen place that a slot cares for, the row with the other value and the row with its own; how many.
fn fill_rows_by(
    table: &[u64],
    slot: usize,
    places: &[usize],
    count: usize,
    chosen: &[u64],
    starts: &[u16],
    others: &mut [usize],
    own: &mut [usize],
    width: usize,
) -> usize
    requires width { (Width width) × (slot < slots width table.now) × (count ≤ 64) × (width ≤ length chosen.now) × (64 * width ≤ length starts.now) × (count ≤ length others.old) × (count ≤ length own.old) }
    requires width_bound { (total chosen.now width ≤ count) × Spread places.now count chosen.now starts.now }
    ensures { (result ≤ count) × RowsOf width table.now places.now count slot others.new own.new result }
{
    let mut used = 0;
    for word in 0..width {
        used = fill_word(
            table, slot, word, places, count, chosen, starts, others, own, used, width,
        );
    }
    used
}

// The same, with the width a constant for the compiler: it makes a copy for each.
pub fn fill_rows(
    table: &[u64],
    slot: usize,
    places: &[usize],
    count: usize,
    chosen: &[u64],
    starts: &[u16],
    others: &mut [usize],
    own: &mut [usize],
    width: usize,
) -> usize
    requires width { (Width width) × (slot < slots width table.now) × (count ≤ 64) × (width ≤ length chosen.now) × (64 * width ≤ length starts.now) × (count ≤ length others.old) × (count ≤ length own.old) }
    requires width_bound { (total chosen.now width ≤ count) × Spread places.now count chosen.now starts.now }
    ensures { (result ≤ count) × RowsOf width table.now places.now count slot others.new own.new result }
{
    // Small tables have no maps.
    if count == 0 {
        return 0;
    }
    // Not by `at_width`: it does not say what its work leaves in the lent arrays.
    if width == NARROW {
        return fill_rows_by(
            table, slot, places, count, chosen, starts, others, own, NARROW,
        );
    }
    fill_rows_by(
        table, slot, places, count, chosen, starts, others, own, WIDE,
    )
}
