// Tests of ternary words: does a key agree with a value, can two patterns match one key, does a value lie within its mask, is every bit cared for; and what two
// patterns are to each other.
// Each is masks and exclusive-or against zero; specs/ says what the tests mean at every bit position, for any number of words.
#![tactic(auto)]

ghost use Rattle.std.specs.Prelude.{◌≡◌};
ghost use Rattle.ternary.specs.Word.{agree, both, inside, ones};
ghost use Rattle.ternary.specs.Comparison.{masks_compared, not_apart, first_covers};

// What two patterns are to each other: no key matches both, or the one matches every key of the other, or neither. Equal ones count as the first covering.
#[derive(Clone, Copy)]
pub enum Comparison {
    Apart,
    Overlapping,
    FirstCovers,
    SecondCovers,
}

// What two patterns are that overlap, by whether the mask of the first lies within that of the second, and that of the second within that of the first.
pub fn compare_masks(first: bool, second: bool) -> Comparison
    ensures { result ≡ masks_compared first second }
{
    if first {
        return Comparison::FirstCovers;
    }
    if second {
        return Comparison::SecondCovers;
    }
    Comparison::Overlapping
}

// Whether two patterns overlap, by what they are to each other.
pub fn not_apart(comparison: Comparison) -> bool
    ensures { result ≡ not_apart comparison }
{
    !matches!(comparison, Comparison::Apart)
}

// Whether the first covers the second.
pub fn first_covers(comparison: Comparison) -> bool
    ensures { result ≡ first_covers comparison }
{
    matches!(comparison, Comparison::FirstCovers)
}

// Whether a word of a key equals a word of a value at all bits cared for.
pub fn word_matches(key: u64, value: u64, mask: u64) -> bool
    ensures { result ≡ agree key value mask }
{
    (key ^ value) & mask == 0
}

// Whether no bit position of a word is cared for by both masks with different values.
pub fn words_overlap(value: u64, mask: u64, other_value: u64, other_mask: u64) -> bool
    ensures { result ≡ agree value other_value (both mask other_mask) }
{
    (value ^ other_value) & mask & other_mask == 0
}

// Whether each bit of a value's word outside its mask is 0.
pub fn word_within(value: u64, mask: u64) -> bool
    ensures { result ≡ inside value mask }
{
    (value & mask) ^ value == 0
}

// Whether every bit of a mask's word is set.
pub fn word_full(mask: u64) -> bool
    ensures { result ≡ inside ones mask }
{
    word_within(18446744073709551615, mask)
}
