// The C interface: each call on numbers and lent buffers only. The crate `tcam_c` exports them; include/tcam.h declares them and says what a caller owes.
// A call that can decline returns 0 or the number of the cause; data goes to lent cells.
#![tactic(auto)]

pub mod carry;
pub mod images;

ghost use Rattle.std.specs.Prelude.{◌≡◌, length};
ghost use Rattle.lookups.specs.Lookup.{part_start_call, part_length_call};
ghost use Rattle.marshalling.specs.Cells.{flag_of};
ghost use Rattle.tcam.specs.Cells.{LookupLeft, InsertLeft, CoverLeft, ListedInsertLeft, DeleteLeft};

use delete_plans::plan_delete;
use insert_plans::{plan_insert, plan_insert_listed};
use lookups::lookup::{lookup, slot_record};
use marshalling::{spread, spread_insert, spread_listed};
use records::{Mode, cause_number};

// Slot, id and action of the lowest-numbered slot that matches a key; all 0 for a miss.
pub fn tcam_lookup(
    table: &[u64],
    width: u32,
    key: &[u64],
    slot: &mut u32,
    id: &mut u32,
    action: &mut u32,
    spot: &mut u32,
) -> u32
    ensures { LookupLeft width table.now key.now result slot.old slot.new id.old id.new action.old action.new spot.old spot.new }
{
    match lookup(table, key, width as usize) {
        Ok(Some(hit)) => {
            *slot = hit.slot;
            *id = hit.id;
            *action = hit.action;
            0
        }
        Ok(None) => {
            *slot = 0;
            *id = 0;
            *action = 0;
            0
        }
        Err(refusal) => {
            *spot = refusal.spot;
            cause_number(refusal.cause)
        }
    }
}

// A slot's record as a part of the table: its number of words, and in `first` the index of its first word.
pub fn tcam_slot_record(table: &[u64], width: u32, slot: u32, first: &mut u32) -> u32
    ensures value { result ≡ part_length_call width table.now slot }
    ensures first_after { first.new ≡ part_start_call width table.now slot }
{
    let part = slot_record(table, slot as usize, width as usize);
    let words = part.len() as u32;
    if words == 0 {
        *first = 0;
        return 0;
    }
    *first = slot * words;
    words
}

// The shortest plan of an insert, into the lent buffer: its count and the slot of the rule that covers the new one, or a refusal.
pub fn tcam_plan_insert(
    table: &[u64],
    width: u32,
    uncounted: u32,
    rule: &[u64],
    edition: u32,
    plan: &mut [u32],
    count: &mut u32,
    covered: &mut u32,
    spot: &mut u32,
) -> u32
    ensures insert_left { InsertLeft width (flag_of uncounted) edition table.now rule.now result plan.old plan.new count.old count.new spot.old spot.new }
    ensures cover_left { CoverLeft width (flag_of uncounted) edition table.now rule.now (length plan.old) covered.old covered.new }
{
    let mode = Mode {
        width: width as usize,
        uncounted: uncounted != 0,
    };
    let answer = plan_insert(table, rule, edition, plan, mode);
    spread_insert(answer, count, covered, spot)
}

// The same with a neighbour list lent, which is that of the table after a success; `refreshed` tells whether it was not before.
pub fn tcam_plan_insert_listed(
    table: &[u64],
    width: u32,
    uncounted: u32,
    rule: &[u64],
    edition: u32,
    list: &mut [u16],
    plan: &mut [u32],
    count: &mut u32,
    covered: &mut u32,
    refreshed: &mut u32,
    spot: &mut u32,
) -> u32
    ensures { ListedInsertLeft width (flag_of uncounted) edition table.now rule.now list.old list.new result plan.old plan.new count.old count.new covered.old covered.new refreshed.old refreshed.new spot.old spot.new }
{
    let mode = Mode {
        width: width as usize,
        uncounted: uncounted != 0,
    };
    let answer = plan_insert_listed(table, rule, edition, list, plan, mode);
    spread_listed(answer, count, covered, refreshed, spot)
}

// The plan of a delete, into the lent buffer: its count, or a refusal.
pub fn tcam_plan_delete(
    table: &[u64],
    width: u32,
    uncounted: u32,
    id: u32,
    plan: &mut [u32],
    count: &mut u32,
    spot: &mut u32,
) -> u32
    ensures { DeleteLeft width (flag_of uncounted) table.now id result plan.old plan.new count.old count.new spot.old spot.new }
{
    let mode = Mode {
        width: width as usize,
        uncounted: uncounted != 0,
    };
    let answer = plan_delete(table, id, plan, mode);
    spread(answer, count, spot)
}
