// Two slots side by side: apart, overlapping or covering, one id in both, compared, tied, equal, one before the other. Each slot is read in its own table.
// A slot of one table and a slot of another, or of the same; a rule to be inserted is a table of one slot.
#![tactic(auto)]

ghost use Rattle.std.specs.Prelude.{◌≡◌, ◌&&◌, ◌<◌, eqb};
ghost use Rattle.records.specs.Record.{slot_words, mask, action, occupied};
ghost use Rattle.ternary.specs.Comparison.{masks_within};
ghost use Rattle.records.specs.Checks.{check_records};
ghost use Rattle.records.specs.Widths.{Width};
ghost use Rattle.records.specs.Verdict.{Pass};
ghost use Rattle.records.specs.Order.{slots, same_id, actions_compared, compared, tied, precedes, obscures, overlap_at, overlapping, mask_within_at, slot_comparison, same_pattern, equal_rule, replaceable};

use records::{Mode, NARROW, WIDE, at_width};
use slots::{
    mask_word, slot_action, slot_empty, slot_id, slot_rank, slot_vacant, slot_word, value_word,
};
use ternary::{Comparison, compare_masks, first_covers, not_apart};

// Whether two slots' patterns do not differ in one word at bits that both care for. The other's words come first: in the search for pairs it is the later
// slot, whose words the compiler keeps at hand.
fn word_overlaps(
    table: &[u64],
    slot: usize,
    others: &[u64],
    other: usize,
    index: usize,
    width: usize,
) -> bool
    requires { (Width width) × (slot < slots width table.now) × (other < slots width others.now) × (index < width) }
    ensures { result ≡ overlap_at width (slot_words width table.now slot) (slot_words width others.now other) index }
{
    ternary::words_overlap(
        value_word(others, other, index, width),
        mask_word(others, other, index, width),
        value_word(table, slot, index, width),
        mask_word(table, slot, index, width),
    )
}

// Whether the first two words, which every width has, do not tell two slots' patterns apart.
pub fn may_overlap(table: &[u64], slot: usize, others: &[u64], other: usize, width: usize) -> bool
    requires { (Width width) × (slot < slots width table.now) × (other < slots width others.now) }
    ensures { result ≡ (overlap_at width (slot_words width table.now slot) (slot_words width others.now other) 0 && overlap_at width (slot_words width table.now slot) (slot_words width others.now other) 1) }
{
    word_overlaps(table, slot, others, other, 0, width)
        && word_overlaps(table, slot, others, other, 1, width)
}

// Whether a slot's mask has no bit in one word that another's has not.
fn mask_within(
    table: &[u64],
    slot: usize,
    others: &[u64],
    other: usize,
    index: usize,
    width: usize,
) -> bool
    requires { (Width width) × (slot < slots width table.now) × (other < slots width others.now) × (index < width) }
    ensures { result ≡ mask_within_at width (slot_words width table.now slot) (slot_words width others.now other) index }
{
    ternary::word_within(
        mask_word(table, slot, index, width),
        mask_word(others, other, index, width),
    )
}

// What two slots' patterns are to each other, the slots read as rules: of two that overlap the one covers whose mask lies within the other's. It ends at the
// first word that tells them apart. Word 0 stands before the loop: it tells most pairs apart, and the compiled search for pairs is shorter for it.
fn compare_slots(
    table: &[u64],
    slot: usize,
    others: &[u64],
    other: usize,
    width: usize,
) -> Comparison
    requires { (Width width) × (slot < slots width table.now) × (other < slots width others.now) }
    ensures { result ≡ slot_comparison width (slot_words width table.now slot) (slot_words width others.now other) }
{
    if !word_overlaps(table, slot, others, other, 0, width) {
        return Comparison::Apart;
    }
    let mut first = mask_within(table, slot, others, other, 0, width);
    let mut second = mask_within(others, other, table, slot, 0, width);
    for index in 1..width {
        if !word_overlaps(table, slot, others, other, index, width) {
            return Comparison::Apart;
        }
        first = first & mask_within(table, slot, others, other, index, width);
        second = second & mask_within(others, other, table, slot, index, width);
    }
    compare_masks(first, second)
}

// Whether two slots' patterns overlap: they are not apart. The compiler leaves out what the comparison tells besides.
fn slots_overlap_by(table: &[u64], slot: usize, others: &[u64], other: usize, width: usize) -> bool
    requires { (Width width) × (slot < slots width table.now) × (other < slots width others.now) }
    ensures { result ≡ overlapping width (slot_words width table.now slot) (slot_words width others.now other) }
{
    not_apart(compare_slots(table, slot, others, other, width))
}

// The same, with the width a constant for the compiler: it makes a copy for each.
pub fn slots_overlap(table: &[u64], slot: usize, others: &[u64], other: usize, width: usize) -> bool
    requires { (Width width) × (slot < slots width table.now) × (other < slots width others.now) }
    ensures { result ≡ overlapping width (slot_words width table.now slot) (slot_words width others.now other) }
{
    at_width(
        width,
        |width| slots_overlap_by(table, slot, others, other, width),
    )
}

// Whether both slots are occupied.
pub fn both_occupied(table: &[u64], slot: usize, others: &[u64], other: usize, width: usize) -> bool
    requires { (Width width) × (slot < slots width table.now) × (other < slots width others.now) }
    ensures { result ≡ (occupied width (slot_words width table.now slot) && occupied width (slot_words width others.now other)) }
{
    !slot_empty(table, slot, width) && !slot_empty(others, other, width)
}

// Whether one id stands in both slots.
pub fn same_id(table: &[u64], slot: usize, others: &[u64], other: usize, width: usize) -> bool
    requires { (Width width) × (slot < slots width table.now) × (other < slots width others.now) }
    ensures { result ≡ same_id width (slot_words width table.now slot) (slot_words width others.now other) }
{
    slot_id(table, slot, width) == slot_id(others, other, width)
        && both_occupied(table, slot, others, other, width)
}

// Whether two slots have one action.
fn same_action(table: &[u64], slot: usize, others: &[u64], other: usize, width: usize) -> bool
    requires { (Width width) × (slot < slots width table.now) × (other < slots width others.now) }
    ensures { result ≡ eqb (action width (slot_words width table.now slot)) (action width (slot_words width others.now other)) }
{
    slot_action(table, slot, width) == slot_action(others, other, width)
}

// Whether the actions of two slots leave them to be compared: they differ, or the table is counted, where they are not asked.
fn actions_compared(table: &[u64], slot: usize, others: &[u64], other: usize, mode: Mode) -> bool
    requires { (Width mode.width) × (slot < slots mode.width table.now) × (other < slots mode.width others.now) }
    ensures { result ≡ actions_compared mode.width mode.uncounted (slot_words mode.width table.now slot) (slot_words mode.width others.now other) }
{
    !mode.uncounted || !same_action(table, slot, others, other, mode.width)
}

// Whether both slots are occupied, where check 2 passes.
fn both_hold_rules(table: &[u64], slot: usize, others: &[u64], other: usize, width: usize) -> bool
    requires width { (Width width) × (slot < slots width table.now) × (other < slots width others.now) }
    requires table_value { (check_records width table.now ≡ Pass) × (check_records width others.now ≡ Pass) }
    ensures { result ≡ (occupied width (slot_words width table.now slot) && occupied width (slot_words width others.now other)) }
{
    !slot_vacant(table, slot, width) && !slot_vacant(others, other, width)
}

// Whether the slots hold two rules that are compared with each other, where check 2 passes.
fn compared_rules(table: &[u64], slot: usize, others: &[u64], other: usize, mode: Mode) -> bool
    requires width { (Width mode.width) × (slot < slots mode.width table.now) × (other < slots mode.width others.now) }
    requires table_value { (check_records mode.width table.now ≡ Pass) × (check_records mode.width others.now ≡ Pass) }
    ensures { result ≡ compared mode.width mode.uncounted (slot_words mode.width table.now slot) (slot_words mode.width others.now other) }
{
    slot_id(table, slot, mode.width) != slot_id(others, other, mode.width)
        && both_hold_rules(table, slot, others, other, mode.width)
        && actions_compared(table, slot, others, other, mode)
}

// Whether the slots hold two rules that are compared and overlap. Patterns first: they tell most pairs apart.
pub fn rules_overlap(table: &[u64], slot: usize, others: &[u64], other: usize, mode: Mode) -> bool
    requires width { (Width mode.width) × (slot < slots mode.width table.now) × (other < slots mode.width others.now) }
    requires table_value { (check_records mode.width table.now ≡ Pass) × (check_records mode.width others.now ≡ Pass) }
    ensures { result ≡ (overlapping mode.width (slot_words mode.width table.now slot) (slot_words mode.width others.now other) && compared mode.width mode.uncounted (slot_words mode.width table.now slot) (slot_words mode.width others.now other)) }
{
    slots_overlap(table, slot, others, other, mode.width)
        && compared_rules(table, slot, others, other, mode)
}

// Whether two rules overlap at equal rank. The width is a constant for the compiler where this is called.
pub fn tied_pair(table: &[u64], slot: usize, others: &[u64], other: usize, mode: Mode) -> bool
    requires width { (Width mode.width) × (slot < slots mode.width table.now) × (other < slots mode.width others.now) }
    requires table_value { (check_records mode.width table.now ≡ Pass) × (check_records mode.width others.now ≡ Pass) }
    ensures { result ≡ tied mode.width mode.uncounted (slot_words mode.width table.now slot) (slot_words mode.width others.now other) }
{
    slot_rank(table, slot, mode.width) == slot_rank(others, other, mode.width)
        && slots_overlap_by(table, slot, others, other, mode.width)
        && compared_rules(table, slot, others, other, mode)
}

// Whether two slots have the same value and mask, the first words of their records.
pub fn same_pattern(table: &[u64], slot: usize, others: &[u64], other: usize, width: usize) -> bool
    requires { (Width width) × (slot < slots width table.now) × (other < slots width others.now) }
    ensures { result ≡ same_pattern width (slot_words width table.now slot) (slot_words width others.now other) }
{
    for place in 0..2 * width {
        if slot_word(table, slot, place, width) != slot_word(others, other, place, width) {
            return false;
        }
    }
    true
}

// Whether two rules have the same value, mask and rank. Ranks first: they tell most pairs apart.
fn equal_rules(table: &[u64], slot: usize, others: &[u64], other: usize, width: usize) -> bool
    requires { (Width width) × (slot < slots width table.now) × (other < slots width others.now) }
    ensures { result ≡ equal_rule width (slot_words width table.now slot) (slot_words width others.now other) }
{
    slot_rank(table, slot, width) == slot_rank(others, other, width)
        && same_pattern(table, slot, others, other, width)
        && both_occupied(table, slot, others, other, width)
}

// Whether of two rules the one replaces the other: they are equal, and in a table without counters have one action.
pub fn replaceable_pair(
    table: &[u64],
    slot: usize,
    others: &[u64],
    other: usize,
    mode: Mode,
) -> bool
    requires { (Width mode.width) × (slot < slots mode.width table.now) × (other < slots mode.width others.now) }
    ensures { result ≡ replaceable mode.width mode.uncounted (slot_words mode.width table.now slot) (slot_words mode.width others.now other) }
{
    equal_rules(table, slot, others, other, mode.width)
        && (!mode.uncounted || same_action(table, slot, others, other, mode.width))
}

// Whether a rule precedes another: they overlap, and its rank is the higher one.
pub fn precedes_pair(table: &[u64], slot: usize, others: &[u64], other: usize, mode: Mode) -> bool
    requires width { (Width mode.width) × (slot < slots mode.width table.now) × (other < slots mode.width others.now) }
    requires table_value { (check_records mode.width table.now ≡ Pass) × (check_records mode.width others.now ≡ Pass) }
    ensures { result ≡ precedes mode.width mode.uncounted (slot_words mode.width table.now slot) (slot_words mode.width others.now other) }
{
    let width = mode.width;
    slot_rank(table, slot, width) > slot_rank(others, other, width)
        && slots_overlap_by(table, slot, others, other, width)
        && compared_rules(table, slot, others, other, mode)
}

// Whether a slot's mask has no bit that another's has not. It ends at the first word that has one.
fn masks_within(table: &[u64], slot: usize, others: &[u64], other: usize, width: usize) -> bool
    requires { (Width width) × (slot < slots width table.now) × (other < slots width others.now) }
    ensures { result ≡ masks_within width (mask width (slot_words width table.now slot)) (mask width (slot_words width others.now other)) }
{
    for index in 0..width {
        if !mask_within(table, slot, others, other, index, width) {
            return false;
        }
    }
    true
}

// Whether a rule obscures another: it covers it, and its rank is the higher one. Ranks first: an empty slot's is 0, so that it obscures none. Then the masks:
// they tell most rules that overlap, whose comparison goes on to the last word.
fn obscures_by(table: &[u64], slot: usize, others: &[u64], other: usize, width: usize) -> bool
    requires { (Width width) × (slot < slots width table.now) × (other < slots width others.now) }
    ensures { result ≡ obscures width (slot_words width table.now slot) (slot_words width others.now other) }
{
    slot_rank(table, slot, width) > slot_rank(others, other, width)
        && masks_within(table, slot, others, other, width)
        && first_covers(compare_slots(table, slot, others, other, width))
}

// The same, with the width a constant for the compiler: it makes a copy for each.
pub fn obscures_pair(table: &[u64], slot: usize, others: &[u64], other: usize, width: usize) -> bool
    requires { (Width width) × (slot < slots width table.now) × (other < slots width others.now) }
    ensures { result ≡ obscures width (slot_words width table.now slot) (slot_words width others.now other) }
{
    // Not by `at_width`, which would keep one copy: a fifth more instructions.
    if width == NARROW {
        return obscures_by(table, slot, others, other, NARROW);
    }
    obscures_by(table, slot, others, other, WIDE)
}
