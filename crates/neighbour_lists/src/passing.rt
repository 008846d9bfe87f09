// The pass: slot after slot is asked against the earlier ones and noted for the later ones.
ghost use Rattle.std.specs.Prelude.{◌≡◌, ℕ, ◌+◌, ◌*◌, ◌<◌, ◌≤◌, length, get_or};
ghost use Rattle.records.specs.Record.{most_slots};
ghost use Rattle.search.specs.Search.{least};
ghost use Rattle.records.specs.Order.{slots};
ghost use Rattle.records.specs.Checks.{check_records, disorder_at};
ghost use Rattle.records.specs.Widths.{Width};
ghost use Rattle.records.specs.Verdict.{Pass};
ghost use Rattle.bitmaps.specs.Rows.{Spread, total};
ghost use Rattle.bitmaps.specs.Flags.{marked};
ghost use Rattle.neighbour_lists.specs.Lists.{Listed};
ghost use Rattle.neighbour_lists.specs.Pass.{lowered, Taken, Room};

use crate::asking::ask_row;
use bitmaps::bits::mark;
use bitmaps::maps::{fill_rows, note_rows};
use bitmaps::places::{WIDE_PLACES, choose_places, spread_places};
use records::{Mode, NO_NUMBER, WIDE};
use slots::{slot_count, slot_rank, slot_vacant};

// A rule noted for the slots after it.
fn note_rule(full: &mut [u64], free: &mut [u64], low: &mut [u64], slot: usize, rank: u64)
    requires { (slot < most_slots) × (16 ≤ length full.old) × (16 ≤ length free.old) × (16 ≤ length low.old) }
    ensures full_after { full.new ≡ marked full.old slot }
    ensures free_after { free.new ≡ marked free.old slot }
    ensures low_after { low.new ≡ lowered low.old slot rank }
{
    mark(full, slot);
    mark(free, slot);
    let block = slot / 64;
    if rank < low[block] {
        low[block] = rank;
    }
}

// A rule's slot: asked, and noted. Whether it is out of order with an earlier one.
fn take_rule(
    table: &[u64],
    near: &mut [u16],
    full: &mut [u64],
    free: &mut [u64],
    low: &mut [u64],
    maps: &mut [u64],
    places: &[usize],
    chosen: &[u64],
    starts: &[u16],
    others: &mut [usize],
    own: &mut [usize],
    slot: usize,
    mode: Mode,
) -> bool
    requires width { (Width mode.width) × (slots mode.width table.now ≤ most_slots) × (slot < slots mode.width table.now) × (check_records mode.width table.now ≡ Pass) }
    requires room { Room mode.width (slots mode.width table.now) near.old full.old free.old low.old maps.old places.now (length places.now) chosen.now starts.now others.old own.old }
    requires taken { Taken mode.width mode.uncounted table.now places.now near.old full.old free.old low.old maps.old slot }
    ensures value { result ≡ disorder_at mode.width mode.uncounted table.now slot }
    ensures taken_2 { Taken mode.width mode.uncounted table.now places.now near.new full.new free.new low.new maps.new (slot + 1) }
{
    near[2 * slot + 1] = NO_NUMBER;
    let used = fill_rows(
        table,
        slot,
        places,
        places.len(),
        chosen,
        starts,
        others,
        own,
        mode.width,
    );
    let bad = ask_row(
        table,
        near,
        full,
        free,
        low,
        maps,
        &others[..used],
        slot,
        mode,
    );
    // Stored after the row, which promises nothing of this number.
    near[2 * slot] = NO_NUMBER;
    note_rows(maps, &own[..used], slot);
    note_rule(full, free, low, slot, slot_rank(table, slot, mode.width));
    bad
}

// One slot: an empty one has neither number, and is in order.
fn take_slot(
    table: &[u64],
    near: &mut [u16],
    full: &mut [u64],
    free: &mut [u64],
    low: &mut [u64],
    maps: &mut [u64],
    places: &[usize],
    chosen: &[u64],
    starts: &[u16],
    others: &mut [usize],
    own: &mut [usize],
    slot: usize,
    mode: Mode,
) -> bool
    requires width { (Width mode.width) × (slots mode.width table.now ≤ most_slots) × (slot < slots mode.width table.now) × (check_records mode.width table.now ≡ Pass) }
    requires room { Room mode.width (slots mode.width table.now) near.old full.old free.old low.old maps.old places.now (length places.now) chosen.now starts.now others.old own.old }
    requires taken { Taken mode.width mode.uncounted table.now places.now near.old full.old free.old low.old maps.old slot }
    ensures value { result ≡ disorder_at mode.width mode.uncounted table.now slot }
    ensures taken_2 { Taken mode.width mode.uncounted table.now places.now near.new full.new free.new low.new maps.new (slot + 1) }
{
    if slot_vacant(table, slot, mode.width) {
        near[2 * slot + 1] = NO_NUMBER;
        near[2 * slot] = NO_NUMBER;
        return false;
    }
    take_rule(
        table, near, full, free, low, maps, places, chosen, starts, others, own, slot, mode,
    )
}

// All slots, in lent working arrays.
fn take_slots(
    table: &[u64],
    near: &mut [u16],
    full: &mut [u64],
    free: &mut [u64],
    low: &mut [u64],
    maps: &mut [u64],
    places: &[usize],
    chosen: &[u64],
    starts: &[u16],
    others: &mut [usize],
    own: &mut [usize],
    mode: Mode,
) -> usize
    requires width { (Width mode.width) × (slots mode.width table.now ≤ most_slots) × (check_records mode.width table.now ≡ Pass) }
    requires room { Room mode.width (slots mode.width table.now) near.old full.old free.old low.old maps.old places.now (length places.now) chosen.now starts.now others.old own.old }
    requires taken { Taken mode.width mode.uncounted table.now places.now near.old full.old free.old low.old maps.old 0 }
    ensures value { result ≡ least (disorder_at mode.width mode.uncounted table.now) (slots mode.width table.now) 0 }
    ensures listed { Listed mode.width mode.uncounted table.now near.new }
{
    let slots = slot_count(table, mode.width);
    let mut first = 0;
    for slot in 0..slots {
        let bad = take_slot(
            table, near, full, free, low, maps, places, chosen, starts, others, own, slot, mode,
        );
        if (first == slot) & !bad {
            first += 1;
        }
    }
    first
}

// All slots, with working arrays of its own but for the maps.
fn pass_with(
    table: &[u64],
    near: &mut [u16],
    maps: &mut [u64],
    places: &[usize],
    chosen: &[u64],
    starts: &[u16],
    mode: Mode,
) -> usize
    requires width { (Width mode.width) × (slots mode.width table.now ≤ most_slots) × (check_records mode.width table.now ≡ Pass) × (2 * (slots mode.width table.now) ≤ length near.old) }
    requires count_in_bounds { (32 * length places.now ≤ length maps.old) × (length places.now ≤ 64) × ((m : ℕ) → m < length places.now → get_or places.now m 0 < 64 * mode.width) }
    requires width_in_bounds { (mode.width ≤ length chosen.now) × (64 * mode.width ≤ length starts.now) × (total chosen.now mode.width ≤ length places.now) × Spread places.now (length places.now) chosen.now starts.now }
    requires by_index { (a : ℕ) → get_or maps.old a 0 ≡ 0 }
    ensures value { result ≡ least (disorder_at mode.width mode.uncounted table.now) (slots mode.width table.now) 0 }
    ensures listed { Listed mode.width mode.uncounted table.now near.new }
{
    let mut full = [0u64; 16];
    let mut free = [0u64; 16];
    // no rank is higher: a block without rules has none below it
    let mut low = [65536u64; 16];
    let mut others = [0usize; 64];
    let mut own = [0usize; 64];
    take_slots(
        table,
        near,
        &mut full,
        &mut free,
        &mut low,
        maps,
        places,
        chosen,
        starts,
        &mut others,
        &mut own,
        mode,
    )
}

// With maps of so many words: each number of words has its maps on the stack alone.
fn pass_mapped<const WORDS: usize>(
    table: &[u64],
    near: &mut [u16],
    places: &[usize],
    chosen: &[u64],
    starts: &[u16],
    mode: Mode,
) -> usize
    requires width { (Width mode.width) × (slots mode.width table.now ≤ most_slots) × (check_records mode.width table.now ≡ Pass) × (2 * (slots mode.width table.now) ≤ length near.old) }
    requires count_bound { (32 * length places.now ≤ WORDS) × (WORDS ≤ 2048) × ((m : ℕ) → m < length places.now → get_or places.now m 0 < 64 * mode.width) }
    requires width_in_bounds { (mode.width ≤ length chosen.now) × (64 * mode.width ≤ length starts.now) × (total chosen.now mode.width ≤ length places.now) × Spread places.now (length places.now) chosen.now starts.now }
    ensures value { result ≡ least (disorder_at mode.width mode.uncounted table.now) (slots mode.width table.now) 0 }
    ensures listed { Listed mode.width mode.uncounted table.now near.new }
{
    let mut maps = [0u64; WORDS];
    pass_with(table, near, &mut maps, places, chosen, starts, mode)
}

// With maps for the places chosen.
fn pass_screened(table: &[u64], near: &mut [u16], mode: Mode) -> usize
    requires { (Width mode.width) × (slots mode.width table.now ≤ most_slots) × (check_records mode.width table.now ≡ Pass) × (2 * (slots mode.width table.now) ≤ length near.old) }
    ensures value { result ≡ least (disorder_at mode.width mode.uncounted table.now) (slots mode.width table.now) 0 }
    ensures listed { Listed mode.width mode.uncounted table.now near.new }
{
    let mut room = [0usize; 64];
    let count = choose_places(table, &mut room, mode.width);
    let places = &room[..count];
    let mut chosen = [0u64; WIDE];
    let mut starts = [0u16; WIDE_PLACES];
    spread_places(places, &mut chosen, &mut starts, mode.width);
    // Large maps cost more to clear than they save where few places are chosen.
    if count <= 8 {
        return pass_mapped::<256>(table, near, places, &chosen, &starts, mode);
    }
    pass_mapped::<2048>(table, near, places, &chosen, &starts, mode)
}

// Without maps: no place is chosen.
fn pass_plain(table: &[u64], near: &mut [u16], mode: Mode) -> usize
    requires { (Width mode.width) × (slots mode.width table.now ≤ most_slots) × (check_records mode.width table.now ≡ Pass) × (2 * (slots mode.width table.now) ≤ length near.old) }
    ensures value { result ≡ least (disorder_at mode.width mode.uncounted table.now) (slots mode.width table.now) 0 }
    ensures listed { Listed mode.width mode.uncounted table.now near.new }
{
    let places = [0usize; 0];
    let chosen = [0u64; WIDE];
    let starts = [0u16; WIDE_PLACES];
    pass_mapped::<1>(table, near, &places, &chosen, &starts, mode)
}

// The neighbour list of a table, into the front of a lent list; the lowest slot that is out of order, or the number of slots.
pub fn fill_near(table: &[u64], near: &mut [u16], mode: Mode) -> usize
    requires { (Width mode.width) × (slots mode.width table.now ≤ most_slots) × (check_records mode.width table.now ≡ Pass) × (2 * (slots mode.width table.now) ≤ length near.old) }
    ensures value { result ≡ least (disorder_at mode.width mode.uncounted table.now) (slots mode.width table.now) 0 }
    ensures listed { Listed mode.width mode.uncounted table.now near.new }
{
    // Below 160 slots maps cost more than they save.
    if slot_count(table, mode.width) < 160 {
        return pass_plain(table, near, mode);
    }
    pass_screened(table, near, mode)
}
