// Planning a delete: one write that empties the rule's slot.
// The table is never changed, and a call that declines leaves the plan buffer as it was.
#![tactic(auto)]

ghost use Rattle.std.specs.Prelude.{◌≡◌, ◌<◌, length};
ghost use Rattle.records.specs.Verdict.{checked};
ghost use Rattle.records.specs.Order.{slots};
ghost use Rattle.records.specs.Widths.{Width};
ghost use Rattle.buffers.specs.Buffers.{plan_told};
ghost use Rattle.delete_plans.specs.Deletes.{has_id, slot_of_id, delete_checks, delete_answer, delete_plan, delete_call, delete_call_plan};

use buffers::{PlanInfo, answer_word};
use plan_words::{PlanWrite, word_of};
use records::{Cause, Mode, Refusal, check_width};
use slots::{slot_count, slot_empty, slot_id};
use table_checks::check_table;

// Whether a slot holds the rule with this id, asked first: few slots have it.
fn has_id(table: &[u64], slot: usize, id: u64, width: usize) -> bool
    requires { (Width width) × (slot < slots width table.now) }
    ensures { result ≡ has_id width table.now id slot }
{
    slot_id(table, slot, width) == id && !slot_empty(table, slot, width)
}

// The lowest slot that holds the rule with this id, or the number of slots.
fn slot_of_id(table: &[u64], id: u64, width: usize) -> usize
    requires { Width width }
    ensures { result ≡ slot_of_id width table.now id }
{
    let slots = slot_count(table, width);
    for slot in 0..slots {
        if has_id(table, slot, id, width) {
            return slot;
        }
    }
    slots
}

// Checks 1 to 4, 5 for id 0, and 7.
fn check_delete(table: &[u64], id: u32, mode: Mode) -> Result<(), Refusal>
    requires { Width mode.width }
    ensures { checked result ≡ delete_checks mode.width mode.uncounted table.now id }
{
    check_table(table, mode)?;
    if id == 0 {
        return Err(Refusal {
            cause: Cause::Rule,
            spot: 0,
        });
    }
    if slot_of_id(table, id as u64, mode.width) < slot_count(table, mode.width) {
        return Ok(());
    }
    Err(Refusal {
        cause: Cause::Unknown,
        spot: 0,
    })
}

// The plan of a delete at a width that there is.
fn delete_at(table: &[u64], id: u32, plan: &mut [u32], mode: Mode) -> Result<PlanInfo, Refusal>
    requires { Width mode.width }
    ensures result_value { plan_told result ≡ delete_answer mode.width mode.uncounted table.now id (length plan.old) }
    ensures plan_after { plan.new ≡ delete_plan mode.width mode.uncounted table.now id plan.old }
{
    check_delete(table, id, mode)?;
    let slot = slot_of_id(table, id as u64, mode.width) as u32;
    answer_word(word_of(PlanWrite::Clear(slot)), plan)
}

// The plan of a delete: one emptying word, or a refusal that leaves the buffer as it was.
pub fn plan_delete(
    table: &[u64],
    id: u32,
    plan: &mut [u32],
    mode: Mode,
) -> Result<PlanInfo, Refusal>
    ensures result_value { plan_told result ≡ delete_call mode.width mode.uncounted table.now id (length plan.old) }
    ensures plan_after { plan.new ≡ delete_call_plan mode.width mode.uncounted table.now id plan.old }
{
    check_width(mode.width)?;
    delete_at(table, id, plan, mode)
}
