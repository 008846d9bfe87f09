// A plan of a rule of two words carried out in full under 1.3, for callers that look nothing up between its writes.
// Step after step; it ends with the first that does not write.
ghost use Rattle.std.specs.Prelude.{◌≡◌};
ghost use Rattle.records.specs.Editions.{under13};
ghost use Rattle.carrying.specs.Carrying.{step_told, step_table, step_done};
ghost use Rattle.carrying.specs.Calls.{after_calls, call_answer};

use crate::step::step_rule;
use carrying::StepInfo;
use records::{Refusal, Rule};

// One step: the writes done after it.
fn advance(table: &mut [u64], plan: &[u32], rule: Rule, done: u32, total: u32) -> u32
    ensures value { result ≡ step_done 2 table.old plan.now (under13 rule) done total }
    ensures table_after { table.new ≡ step_table 2 table.old plan.now (under13 rule) done total }
{
    match step_rule(table, plan, rule, done, total) {
        Ok(Some(info)) => info.done,
        Ok(None) => done,
        Err(_) => done,
    }
}

// Steps from none done until one does not write: its answer, "finished" or a refusal, which another step would give again.
pub fn carry_whole(
    table: &mut [u64],
    plan: &[u32],
    rule: Rule,
    total: u32,
) -> Result<Option<StepInfo>, Refusal>
    ensures result_value { step_told result ≡ call_answer 2 table.old plan.now (under13 rule) total total }
    ensures table_after { table.new ≡ (after_calls 2 table.old plan.now (under13 rule) total total).table }
{
    let mut done = 0;
    let mut wrote = true;
    while wrote & (done < total) {
        let next = advance(table, plan, rule, done, total);
        wrote = done < next;
        done = next;
    }
    step_rule(table, plan, rule, done, total)
}
