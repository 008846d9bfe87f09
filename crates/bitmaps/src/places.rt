// The choice of bit places that tell rules apart, from a sample of slots. Nothing is promised of it but its bounds: a poor choice costs time, never truth.
ghost use Rattle.std.specs.Prelude.{◌≡◌, ℕ, ◌+◌, ◌*◌, ◌<◌, ◌≤◌, length, get_or};
ghost use Rattle.records.specs.Record.{most_slots};
ghost use Rattle.records.specs.Order.{slots};
ghost use Rattle.records.specs.Widths.{Width};
ghost use Rattle.bitmaps.specs.Places.{Below};
ghost use Rattle.bitmaps.specs.Rows.{Spread, total};

use crate::bits::{digit, set_bit};
use slots::{mask_word, slot_count, value_word};

// The bit places of a value at the larger width.
pub const WIDE_PLACES: usize = 320;

// The bits of a word added to the counts of its 64 places. Bit k of a count stands in plane k: 64 counts are added to at once.
fn count_bits(planes: &mut [u64], word: u64)
    requires { 6 ≤ length planes.old }
{
    let mut carry = word;
    for k in 0..6 {
        let both = planes[k] & carry;
        planes[k] = planes[k] ^ carry;
        carry = both;
    }
}

// The count of one place.
fn count_at(planes: &[u64], s: usize) -> u32
    requires { (6 ≤ length planes.now) × (s < 64) }
    ensures { result < 64 }
{
    let low = digit(planes[0], s) + 2 * digit(planes[1], s) + 4 * digit(planes[2], s);
    let high = digit(planes[3], s) + 2 * digit(planes[4], s) + 4 * digit(planes[5], s);
    (low + 8 * high) as u32
}

// Of up to 32 slots, equally far apart, those that have a 1 at each place of a word of their values, and those that care there with a 0.
fn count_word(table: &[u64], word: usize, ones: &mut [u64], zeros: &mut [u64], width: usize)
    requires { (Width width) × (slots width table.now ≤ most_slots) × (word < width) × (6 ≤ length ones.old) × (6 ≤ length zeros.old) }
{
    let slots = slot_count(table, width);
    for slot in (0..slots).step_by(slots / 32 + 1) {
        let value = value_word(table, slot, word, width);
        count_bits(ones, value);
        count_bits(zeros, mask_word(table, slot, word, width) ^ value);
    }
}

// How well each place of a word tells those slots apart: the product of the two counts, at most 256.
fn score_word(table: &[u64], scores: &mut [u16], word: usize, width: usize)
    requires { (Width width) × (slots width table.now ≤ most_slots) × (word < width) × (64 * width ≤ length scores.old) × Below scores.old (64 * word) 257 }
    ensures { Below scores.new (64 * word + 64) 257 }
{
    let mut ones = [0u64; 6];
    let mut zeros = [0u64; 6];
    count_word(table, word, &mut ones, &mut zeros, width);
    for s in 0..64 {
        scores[64 * word + s] = (count_at(&ones, s) * count_at(&zeros, s)).min(256) as u16;
    }
}

// The scores of all places.
fn fill_scores(table: &[u64], scores: &mut [u16], width: usize)
    requires { (Width width) × (slots width table.now ≤ most_slots) × (64 * width ≤ length scores.old) }
    ensures { Below scores.new (64 * width) 257 }
{
    for word in 0..width {
        score_word(table, scores, word, width);
    }
}

// Places taken so far, and of 2^30 pairs how many they are expected to leave together.
#[derive(Clone, Copy)]
pub struct Chosen {
    pub left: u32,
    pub count: usize,
}

// The places whose score is above a level, taken while more than a hundredth of the pairs is left.
fn take_above(
    scores: &mut [u16],
    places: &mut [usize],
    chosen: Chosen,
    level: u32,
    width: usize,
) -> Chosen
    requires width { (Width width) × (64 * width ≤ length scores.old) × (64 ≤ length places.old) × (chosen.count ≤ 64) × (chosen.left ≤ 1073741824) }
    requires below { Below scores.old (64 * width) 257 × Below places.old chosen.count (64 * width) }
    ensures { (result.count ≤ 64) × (result.left ≤ 1073741824) × Below scores.new (64 * width) 257 × Below places.new result.count (64 * width) }
{
    let mut left = chosen.left;
    let mut count = chosen.count;
    for place in 0..64 * width {
        let score = scores[place] as u32;
        if (level < score) & (10737418 < left) & (count < 64) {
            places[count] = place;
            count += 1;
            left = left - left / 1024 * (2 * score);
            scores[place] = 0;
        }
    }
    Chosen { left, count }
}

// Up to 64 places, level by level from the highest scores down; how many.
fn take_places(scores: &mut [u16], places: &mut [usize], width: usize) -> usize
    requires { (Width width) × (64 * width ≤ length scores.old) × (64 ≤ length places.old) × Below scores.old (64 * width) 257 }
    ensures { (result ≤ 64) × Below places.new result (64 * width) }
{
    let mut chosen = Chosen {
        left: 1073741824,
        count: 0,
    };
    let mut level = 256u32;
    // Once no more places would be taken, the levels left are not tried.
    while (0 < level) & (10737418 < chosen.left) & (chosen.count < 64) {
        level = level / 2;
        chosen = take_above(scores, places, chosen, level, width);
    }
    chosen.count
}

// Up to 64 places that tell many of a table's rules apart; how many.
pub fn choose_places(table: &[u64], places: &mut [usize], width: usize) -> usize
    requires { (Width width) × (slots width table.now ≤ most_slots) × (64 ≤ length places.old) }
    ensures { (result ≤ 64) × ((m : ℕ) → m < result → get_or places.new m 0 < 64 * width) }
{
    let mut scores = [0u16; WIDE_PLACES];
    fill_scores(table, &mut scores, width);
    take_places(&mut scores, places, width)
}

// Chosen places as bits of as many words as a value has, with the first row of each by its place.
pub fn spread_places(places: &[usize], chosen: &mut [u64], starts: &mut [u16], width: usize)
    requires width { (Width width) × (length places.now ≤ 64) × (width ≤ length chosen.old) × (64 * width ≤ length starts.old) }
    requires below { Below places.now (length places.now) (64 * width) × ((word : ℕ) → get_or chosen.old word 0 ≡ 0) }
    ensures { (total chosen.new width ≤ length places.now) × Spread places.now (length places.now) chosen.new starts.new }
{
    for k in 0..places.len() {
        let place = places[k];
        let word = place / 64;
        chosen[word] = set_bit(chosen[word], place % 64);
        starts[place] = (32 * k) as u16;
    }
}
