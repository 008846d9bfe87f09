// The C archive: each call of include/tcam.h under its own name, as the C calls of the library `tcam`, whose contracts are stated again here.
#![tactic(auto)]

ghost use Rattle.std.specs.Prelude.{◌≡◌, length};
ghost use Rattle.lookups.specs.Lookup.{part_start_call, part_length_call};
ghost use Rattle.marshalling.specs.Cells.{flag_of};
ghost use Rattle.tcam.specs.Cells.{LookupLeft, InsertLeft, CoverLeft, ListedInsertLeft, DeleteLeft};
ghost use Rattle.tcam.specs.Carried.{CarryLeft};
ghost use Rattle.tcam.specs.ListedCarried.{ListedCarryLeft};
ghost use Rattle.tcam.specs.Images.{SaveLeft, LoadLeft};

use tcam::carry::Progress;

// Slot, id and action of the lowest-numbered slot that matches a key; all 0 for a miss.
#[unsafe(no_mangle)]
pub extern "C" fn tcam_lookup(
    table: &[u64],
    width: u32,
    key: &[u64],
    slot: &mut u32,
    id: &mut u32,
    action: &mut u32,
    spot: &mut u32,
) -> u32
    ensures { LookupLeft width table.now key.now result slot.old slot.new id.old id.new action.old action.new spot.old spot.new }
{
    tcam::tcam_lookup(table, width, key, slot, id, action, spot)
}

// A slot's record as a part of the table: its number of words, and in `first` the index of its first word.
#[unsafe(no_mangle)]
pub extern "C" fn tcam_slot_record(table: &[u64], width: u32, slot: u32, first: &mut u32) -> u32
    ensures value { result ≡ part_length_call width table.now slot }
    ensures first_after { first.new ≡ part_start_call width table.now slot }
{
    tcam::tcam_slot_record(table, width, slot, first)
}

// The shortest plan of an insert, into the lent buffer: its count and the slot of the rule that covers the new one, or a refusal.
#[unsafe(no_mangle)]
pub extern "C" fn tcam_plan_insert(
    table: &[u64],
    width: u32,
    uncounted: u32,
    rule: &[u64],
    edition: u32,
    plan: &mut [u32],
    count: &mut u32,
    covered: &mut u32,
    spot: &mut u32,
) -> u32
    ensures insert_left { InsertLeft width (flag_of uncounted) edition table.now rule.now result plan.old plan.new count.old count.new spot.old spot.new }
    ensures cover_left { CoverLeft width (flag_of uncounted) edition table.now rule.now (length plan.old) covered.old covered.new }
{
    tcam::tcam_plan_insert(
        table, width, uncounted, rule, edition, plan, count, covered, spot,
    )
}

// The same with a neighbour list lent, which is that of the table after a success; `refreshed` tells whether it was not before.
#[unsafe(no_mangle)]
pub extern "C" fn tcam_plan_insert_listed(
    table: &[u64],
    width: u32,
    uncounted: u32,
    rule: &[u64],
    edition: u32,
    list: &mut [u16],
    plan: &mut [u32],
    count: &mut u32,
    covered: &mut u32,
    refreshed: &mut u32,
    spot: &mut u32,
) -> u32
    ensures { ListedInsertLeft width (flag_of uncounted) edition table.now rule.now list.old list.new result plan.old plan.new count.old count.new covered.old covered.new refreshed.old refreshed.new spot.old spot.new }
{
    tcam::tcam_plan_insert_listed(
        table, width, uncounted, rule, edition, list, plan, count, covered, refreshed, spot,
    )
}

// The plan of a delete, into the lent buffer: its count, or a refusal.
#[unsafe(no_mangle)]
pub extern "C" fn tcam_plan_delete(
    table: &[u64],
    width: u32,
    uncounted: u32,
    id: u32,
    plan: &mut [u32],
    count: &mut u32,
    spot: &mut u32,
) -> u32
    ensures { DeleteLeft width (flag_of uncounted) table.now id result plan.old plan.new count.old count.new spot.old spot.new }
{
    tcam::tcam_plan_delete(table, width, uncounted, id, plan, count, spot)
}

// The next write of a plan, "finished", or a refusal: the record is advanced by a write that is done.
#[unsafe(no_mangle)]
pub extern "C" fn tcam_carry_out(
    table: &mut [u64],
    width: u32,
    rule: &[u64],
    edition: u32,
    plan: &[u32],
    progress: &mut Progress,
) -> u64
    ensures { CarryLeft width edition table.old plan.now rule.now progress.old result table.new progress.new }
{
    tcam::carry::tcam_carry_out(table, width, rule, edition, plan, progress)
}

// The same with a neighbour list lent, which a write leaves as that of the table after it; `refreshed` tells whether it was not that of the table before.
#[unsafe(no_mangle)]
pub extern "C" fn tcam_carry_out_listed(
    table: &mut [u64],
    width: u32,
    uncounted: u32,
    rule: &[u64],
    edition: u32,
    list: &mut [u16],
    plan: &[u32],
    progress: &mut Progress,
    refreshed: &mut u32,
) -> u64
    ensures { ListedCarryLeft width (flag_of uncounted) edition table.old plan.now rule.now list.old progress.old refreshed.old result table.new list.new progress.new refreshed.new }
{
    tcam::carry::tcam_carry_out_listed(
        table, width, uncounted, rule, edition, list, plan, progress, refreshed,
    )
}

// The image of a table, into the lent buffer: its bytes, or a refusal.
#[unsafe(no_mangle)]
pub extern "C" fn tcam_save(
    table: &[u64],
    width: u32,
    uncounted: u32,
    image: &mut [u8],
    bytes: &mut u32,
    spot: &mut u32,
) -> u32
    ensures { SaveLeft width (flag_of uncounted) table.now result image.old image.new bytes.old bytes.new spot.old spot.new }
{
    tcam::images::tcam_save(table, width, uncounted, image, bytes, spot)
}

// The table of an image, into the lent table, or a refusal.
#[unsafe(no_mangle)]
pub extern "C" fn tcam_load(
    image: &[u8],
    table: &mut [u64],
    width: u32,
    uncounted: u32,
    spot: &mut u32,
) -> u32
    ensures { LoadLeft width (flag_of uncounted) image.now result table.old table.new spot.old spot.new }
{
    tcam::images::tcam_load(image, table, width, uncounted, spot)
}
