// One slot against the earlier ones, in blocks of 64 going down, the highest slot of a block first.
// full: the rules before the slot; free: those of them without a dependant yet; low: for each block a number that no rank of its rules is below.
ghost use Rattle.std.specs.Prelude.{◌≡◌, true, false, ℕ, ◌+◌, ◌*◌, ◌/◌, ◌<◌, ◌≤◌, length, get_or};
ghost use Rattle.records.specs.Record.{most_slots};
ghost use Rattle.records.specs.Order.{slots};
ghost use Rattle.records.specs.Checks.{check_records};
ghost use Rattle.records.specs.Widths.{Width};
ghost use Rattle.records.specs.Verdict.{Pass};
ghost use Rattle.neighbour_lists.specs.Lists.{precedes_slot, misordered_slots, rank_at, occupied_at};
ghost use Rattle.neighbour_lists.specs.Row.{InRow, Marks, Tells, Inside, needed_bits, settled_pair, asked, asked_free, both_kept, closed, Quiet, Skipped};

use bitmaps::bits::{clear_bit, drop_bit, lacking, top};
use bitmaps::maps::apart_in;
use pairs::{rules_overlap, slots_overlap};
use records::{Mode, NO_NUMBER};
use slots::slot_rank;

// The slots of a block that are to be asked. Once the later slot has its preceding rule, a block of higher ranks has nothing to
// tell but to the rules that have no dependant.
fn needed(
    near: &[u16],
    full: &[u64],
    free: &[u64],
    low: &[u64],
    block: usize,
    later: usize,
    rank: u64,
) -> u64
    requires { (2 * later + 1 < length near.now) × (block < length full.now) × (block < length free.now) × (block < length low.now) }
    ensures { result ≡ needed_bits near.now full.now free.now low.now block later rank }
{
    let before = near[2 * later + 1];
    if before == NO_NUMBER || low[block] <= rank {
        return full[block];
    }
    free[block]
}

// Whether nothing is left to learn from a pair: the later slot has its preceding rule, the earlier one its dependant, and their ranks fall.
fn settled(table: &[u64], near: &[u16], slot: usize, later: usize, rank: u64, mode: Mode) -> bool
    requires { (Width mode.width) × (slot < later) × (later < slots mode.width table.now) × (2 * later + 1 < length near.now) }
    ensures { result ≡ settled_pair near.now slot later (rank_at mode.width table.now slot) rank }
{
    near[2 * later + 1] != NO_NUMBER
        && slot_rank(table, slot, mode.width) > rank
        && near[2 * slot] != NO_NUMBER
}

// A pair whose first rule precedes the second: each number is kept where there was none.
fn keep_pair(near: &mut [u16], free: &mut [u64], slot: usize, later: usize)
    requires { (slot < later) × (later < most_slots) × (2 * later + 1 < length near.old) × (16 ≤ length free.old) }
    ensures near_after { near.new ≡ both_kept near.old slot later }
    ensures free_after { free.new ≡ closed near.old free.old slot }
{
    if near[2 * slot] == NO_NUMBER {
        near[2 * slot] = later as u16;
        free[slot / 64] = clear_bit(free[slot / 64], slot % 64);
    }
    if near[2 * later + 1] == NO_NUMBER {
        near[2 * later + 1] = slot as u16;
    }
}

// One pair asked: its numbers are kept, and whether it is out of order is told.
fn ask_pair(
    table: &[u64],
    near: &mut [u16],
    free: &mut [u64],
    slot: usize,
    later: usize,
    rank: u64,
    mode: Mode,
) -> bool
    requires width { (Width mode.width) × (slot < later) × (later < slots mode.width table.now) × (later < most_slots) × (2 * later + 1 < length near.old) × (16 ≤ length free.old) }
    requires table_value { (check_records mode.width table.now ≡ Pass) × (rank ≡ rank_at mode.width table.now later) }
    ensures value { result ≡ misordered_slots mode.width mode.uncounted table.now slot later }
    ensures near_after { near.new ≡ asked (precedes_slot mode.width mode.uncounted table.now slot later) near.old slot later }
    ensures free_after { free.new ≡ asked_free (precedes_slot mode.width mode.uncounted table.now slot later) near.old free.old slot }
{
    if !rules_overlap(table, slot, table, later, mode) {
        return false;
    }
    let earlier = slot_rank(table, slot, mode.width);
    if earlier <= rank {
        return true;
    }
    keep_pair(near, free, slot, later);
    false
}

// Whether a pair need not be asked: it is settled, or its patterns do not overlap.
fn quiet(table: &[u64], near: &[u16], slot: usize, later: usize, rank: u64, mode: Mode) -> bool
    requires width { (Width mode.width) × (slot < later) × (later < slots mode.width table.now) × (2 * later + 1 < length near.now) }
    requires rank_value { rank ≡ rank_at mode.width table.now later }
    ensures { result ≡ true → Quiet (precedes_slot mode.width mode.uncounted table.now) (misordered_slots mode.width mode.uncounted table.now) near.now later slot }
{
    settled(table, near, slot, later, rank, mode)
        || !slots_overlap(table, slot, table, later, mode.width)
}

// The bits of a block left once quiet pairs are dropped, from the highest on, up to the first that is to be asked.
// Nothing is stored here, so that the compiler keeps the later slot's words at hand.
fn skip_quiet(
    table: &[u64],
    near: &[u16],
    block: usize,
    some: u64,
    later: usize,
    rank: u64,
    mode: Mode,
) -> u64
    requires width { (Width mode.width) × (later < slots mode.width table.now) × (later < most_slots) × (2 * later + 1 < length near.now) × (block < 16) }
    requires rank_value { (rank ≡ rank_at mode.width table.now later) × Inside later block some }
    ensures { Skipped (precedes_slot mode.width mode.uncounted table.now) (misordered_slots mode.width mode.uncounted table.now) near.now later block some result }
{
    let mut left = some;
    while left != 0 {
        let t = top(left);
        if !quiet(table, near, 64 * block + t, later, rank, mode) {
            return left;
        }
        left = drop_bit(left, t);
    }
    0
}

// The slots of a block whose bits are left, asked from the highest on; whether a pair so far is out of order.
fn ask_block(
    table: &[u64],
    near: &mut [u16],
    full: &[u64],
    free: &mut [u64],
    low: &[u64],
    block: usize,
    some: u64,
    later: usize,
    rank: u64,
    before: bool,
    mode: Mode,
) -> bool
    requires width { (Width mode.width) × (later < slots mode.width table.now) × (later < most_slots) × (2 * later + 1 < length near.old) × (16 ≤ length full.now) × (16 ≤ length free.old) × (16 ≤ length low.now) × (block < 16) }
    requires table_value { (check_records mode.width table.now ≡ Pass) × (rank ≡ rank_at mode.width table.now later) × Inside later block some }
    requires in_row { InRow (precedes_slot mode.width mode.uncounted table.now) (misordered_slots mode.width mode.uncounted table.now) near.old later block some before }
    requires marks { Marks (rank_at mode.width table.now) (occupied_at mode.width table.now) near.old full.now free.old low.now later }
    ensures in_row_2 { InRow (precedes_slot mode.width mode.uncounted table.now) (misordered_slots mode.width mode.uncounted table.now) near.new later block 0 result }
    ensures marks_2 { Marks (rank_at mode.width table.now) (occupied_at mode.width table.now) near.new full.now free.new low.now later }
{
    let mut left = some;
    let mut bad = before;
    while left != 0 {
        let t = top(left);
        bad = ask_pair(table, near, free, 64 * block + t, later, rank, mode) | bad;
        let rest = drop_bit(left, t) & needed(near, full, free, low, block, later, rank);
        left = skip_quiet(table, near, block, rest, later, rank, mode);
    }
    bad
}

// The slots of a block, but those that need not be asked and those that the maps tell apart.
fn ask_some(
    table: &[u64],
    near: &mut [u16],
    full: &[u64],
    free: &mut [u64],
    low: &[u64],
    maps: &[u64],
    rows: &[usize],
    block: usize,
    later: usize,
    rank: u64,
    before: bool,
    mode: Mode,
) -> bool
    requires width { (Width mode.width) × (later < slots mode.width table.now) × (later < most_slots) × (2 * later + 1 < length near.old) × (16 ≤ length full.now) × (16 ≤ length free.old) × (16 ≤ length low.now) × (block < 16) }
    requires table_value { (check_records mode.width table.now ≡ Pass) × (rank ≡ rank_at mode.width table.now later) }
    requires in_row { InRow (precedes_slot mode.width mode.uncounted table.now) (misordered_slots mode.width mode.uncounted table.now) near.old later (block + 1) 0 before }
    requires marks { Marks (rank_at mode.width table.now) (occupied_at mode.width table.now) near.old full.now free.old low.now later }
    requires by_index { (m : ℕ) → m < length rows.now → get_or rows.now m 0 + 16 ≤ length maps.now }
    requires tells { Tells (precedes_slot mode.width mode.uncounted table.now) (misordered_slots mode.width mode.uncounted table.now) maps.now rows.now (length rows.now) later }
    ensures in_row_2 { InRow (precedes_slot mode.width mode.uncounted table.now) (misordered_slots mode.width mode.uncounted table.now) near.new later block 0 result }
    ensures marks_2 { Marks (rank_at mode.width table.now) (occupied_at mode.width table.now) near.new full.now free.new low.now later }
{
    let some = needed(near, full, free, low, block, later, rank);
    if some == 0 {
        return before;
    }
    let apart = apart_in(maps, rows, block);
    ask_block(
        table,
        near,
        full,
        free,
        low,
        block,
        lacking(some, apart),
        later,
        rank,
        before,
        mode,
    )
}

// A slot against all earlier ones, block by block, the last first; whether it is out of order with one of them.
pub fn ask_row(
    table: &[u64],
    near: &mut [u16],
    full: &[u64],
    free: &mut [u64],
    low: &[u64],
    maps: &[u64],
    rows: &[usize],
    later: usize,
    mode: Mode,
) -> bool
    requires width { (Width mode.width) × (later < slots mode.width table.now) × (later < most_slots) × (2 * later + 1 < length near.old) × (16 ≤ length full.now) × (16 ≤ length free.old) × (16 ≤ length low.now) }
    requires table_value { check_records mode.width table.now ≡ Pass }
    requires in_row { InRow (precedes_slot mode.width mode.uncounted table.now) (misordered_slots mode.width mode.uncounted table.now) near.old later (later / 64 + 1) 0 false }
    requires marks { Marks (rank_at mode.width table.now) (occupied_at mode.width table.now) near.old full.now free.old low.now later }
    requires by_index { (m : ℕ) → m < length rows.now → get_or rows.now m 0 + 16 ≤ length maps.now }
    requires tells { Tells (precedes_slot mode.width mode.uncounted table.now) (misordered_slots mode.width mode.uncounted table.now) maps.now rows.now (length rows.now) later }
    ensures in_row_2 { InRow (precedes_slot mode.width mode.uncounted table.now) (misordered_slots mode.width mode.uncounted table.now) near.new later 0 0 result }
    ensures marks_2 { Marks (rank_at mode.width table.now) (occupied_at mode.width table.now) near.new full.now free.new low.now later }
{
    let rank = slot_rank(table, later, mode.width);
    let mut bad = false;
    for block in (0..later / 64 + 1).rev() {
        bad = ask_some(
            table, near, full, free, low, maps, rows, block, later, rank, bad, mode,
        );
    }
    bad
}
