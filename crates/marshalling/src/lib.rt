// What crosses between the C interface and the calls: a planning call's answer as its number and lent cells.
// A step takes its progress as two numbers, and its answer crosses as one: the cause's number in the lower half, the spot in the upper.
#![tactic(auto)]

ghost use Rattle.std.specs.Prelude.{◌≡◌, length};
ghost use Rattle.buffers.specs.Buffers.{plan_told, insert_answer_told, listed_answer_told};
ghost use Rattle.carrying.specs.Carrying.{step_told, step_call_table};
ghost use Rattle.listed_steps.specs.ListedSteps.{listed_step_table, listed_step_list, listed_step_cell};
ghost use Rattle.marshalling.specs.Cells.{data_cell, spot_cell, flag_of};
ghost use Rattle.marshalling.specs.Carried.{carried_step, carried_told, listed_carried_step};

use buffers::{InsertInfo, ListedInfo, PlanInfo};
use carrying::StepInfo;
use listed_steps::step_listed;
use records::{Mode, Refusal, cause_number};
use steps::step::step;

// A planning call's answer, spread over its number and the lent cells.
pub fn spread(answer: Result<PlanInfo, Refusal>, count: &mut u32, spot: &mut u32) -> u32
    ensures value { result ≡ (plan_told answer).number }
    ensures count_after { count.new ≡ data_cell (plan_told answer) 0 count.old }
    ensures spot_after { spot.new ≡ spot_cell (plan_told answer) spot.old }
{
    match answer {
        Ok(info) => {
            *count = info.count;
            0
        }
        Err(refusal) => {
            *spot = refusal.spot;
            cause_number(refusal.cause)
        }
    }
}

// The same of an insert's, with the cell for the slot of the rule that covers the new one.
pub fn spread_insert(
    answer: Result<InsertInfo, Refusal>,
    count: &mut u32,
    covered: &mut u32,
    spot: &mut u32,
) -> u32
    ensures value { result ≡ (insert_answer_told answer).number }
    ensures count_after { count.new ≡ data_cell (insert_answer_told answer) 0 count.old }
    ensures covered_after { covered.new ≡ data_cell (insert_answer_told answer) 1 covered.old }
    ensures spot_after { spot.new ≡ spot_cell (insert_answer_told answer) spot.old }
{
    match answer {
        Ok(info) => {
            *covered = info.covered;
            spread(Ok(PlanInfo { count: info.count }), count, spot)
        }
        Err(refusal) => spread(Err(refusal), count, spot),
    }
}

// The same of an insert's with a neighbour list, with the cell for whether the list was worked out afresh: 1 or 0.
pub fn spread_listed(
    answer: Result<ListedInfo, Refusal>,
    count: &mut u32,
    covered: &mut u32,
    refreshed: &mut u32,
    spot: &mut u32,
) -> u32
    ensures value { result ≡ (listed_answer_told answer).number }
    ensures count_after { count.new ≡ data_cell (listed_answer_told answer) 0 count.old }
    ensures covered_after { covered.new ≡ data_cell (listed_answer_told answer) 1 covered.old }
    ensures refreshed_after { refreshed.new ≡ data_cell (listed_answer_told answer) 2 refreshed.old }
    ensures spot_after { spot.new ≡ spot_cell (listed_answer_told answer) spot.old }
{
    match answer {
        Ok(info) => {
            *refreshed = info.refreshed as u32;
            spread_insert(
                Ok(InsertInfo {
                    count: info.count,
                    covered: info.covered,
                }),
                count,
                covered,
                spot,
            )
        }
        Err(refusal) => spread_insert(Err(refusal), count, covered, spot),
    }
}

// The writes done after a step, and its answer as one number.
#[derive(Clone, Copy)]
pub struct Carried {
    pub done: u32,
    pub result: u64,
}

// A step's answer, as it crosses.
fn carry_answer(answer: Result<Option<StepInfo>, Refusal>, done: u32) -> Carried
    ensures { result ≡ carried_told (step_told answer) done }
{
    let end = 4294967295;
    match answer {
        Ok(Some(info)) => Carried {
            done: info.done,
            result: 0,
        },
        Ok(None) => Carried { done, result: end },
        Err(refusal) => Carried {
            done,
            result: cause_number(refusal.cause) as u64 + refusal.spot as u64 * 4294967296,
        },
    }
}

// One step, on the progress as numbers.
pub fn carry(
    table: &mut [u64],
    width: u32,
    rule: &[u64],
    edition: u32,
    plan: &[u32],
    done: u32,
    total: u32,
) -> Carried
    ensures { (result ≡ carried_step width edition table.old plan.now rule.now done total)
        × (table.new ≡ step_call_table width edition table.old plan.now rule.now done total) }
{
    carry_answer(
        step(table, plan, rule, edition, done, total, width as usize),
        done,
    )
}

// One step with a neighbour list.
pub fn carry_listed(
    table: &mut [u64],
    width: u32,
    uncounted: u32,
    rule: &[u64],
    edition: u32,
    list: &mut [u16],
    plan: &[u32],
    done: u32,
    total: u32,
    refreshed: &mut u32,
) -> Carried
    ensures { (result ≡ listed_carried_step width edition table.old plan.now rule.now (length list.old) done total)
        × (table.new ≡ listed_step_table width edition table.old plan.now rule.now (length list.old) done total)
        × (list.new ≡ listed_step_list width (flag_of uncounted) edition table.old plan.now rule.now list.old done total)
        × (refreshed.new ≡ listed_step_cell width (flag_of uncounted) edition table.old plan.now rule.now list.old done total refreshed.old) }
{
    let mode = Mode {
        width: width as usize,
        uncounted: uncounted != 0,
    };
    match step_listed(table, plan, rule, edition, list, done, total, mode) {
        Ok(Some(info)) => {
            *refreshed = info.refreshed as u32;
            carry_answer(Ok(Some(StepInfo { done: info.done })), done)
        }
        Ok(None) => carry_answer(Ok(None), done),
        Err(refusal) => carry_answer(Err(refusal), done),
    }
}
