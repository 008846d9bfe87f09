// The checks of a step, document 01's "Carrying out" in their order: what it answers, before the write is made.
// A step of either kind, with a neighbour list or without, begins with them.
#![tactic(auto)]

ghost use Rattle.std.specs.Prelude.{◌≡◌, length};
ghost use Rattle.plan_words.specs.PlanWords.{write_of};
ghost use Rattle.records.specs.Verdict.{checked};
ghost use Rattle.records.specs.Record.{record_words};
ghost use Rattle.records.specs.Widths.{Width};
ghost use Rattle.records.specs.Editions.{lent_rule};
ghost use Rattle.carrying.specs.Carrying.{step_told, progress_checks, put_checks, write_checks, step_answer};

use carrying::StepInfo;
use plan_words::{PlanWrite, write_of};
use records::{Cause, Refusal};
use slots::given::check_given;
use table_checks::check_slots;
use writes::word_fits;

// Checks 1 and 2, and 12 for more writes done than in all or more in all than the plan has words.
fn check_progress(
    table: &[u64],
    plan: &[u32],
    done: u32,
    total: u32,
    width: usize,
) -> Result<(), Refusal>
    requires { Width width }
    ensures { checked result ≡ progress_checks width table.now (length plan.now) done total }
{
    check_slots(table, width)?;
    if (done <= total) & (total as usize <= plan.len()) {
        return Ok(());
    }
    Err(Refusal {
        cause: Cause::Write,
        spot: done,
    })
}

// 5 and 18 of the rule that a plan word puts in; other words put none in.
fn check_put(rule: &[u64], edition: u32, word: u32, width: usize) -> Result<(), Refusal>
    requires { (Width width) × (length rule.now ≡ record_words width) }
    ensures { checked result ≡ put_checks width (lent_rule width edition rule.now) (write_of word) }
{
    match write_of(word) {
        PlanWrite::Copy(_, _) => Ok(()),
        PlanWrite::PutIn(_) => check_given(rule, edition, width),
        PlanWrite::Clear(_) => Ok(()),
    }
}

// 5 and 18 where a rule is put in, then 12 for a write that does not fit.
fn check_write(
    table: &[u64],
    rule: &[u64],
    edition: u32,
    word: u32,
    done: u32,
    width: usize,
) -> Result<(), Refusal>
    requires { (Width width) × (length rule.now ≡ record_words width) }
    ensures { checked result ≡ write_checks width table.now (lent_rule width edition rule.now) word done }
{
    check_put(rule, edition, word, width)?;
    if word_fits(table, rule, edition, word, width) {
        return Ok(());
    }
    Err(Refusal {
        cause: Cause::Write,
        spot: done,
    })
}

// What a step answers, of a width that there is and a rule lent as a record: its checks, before the write is made.
pub fn next_step(
    table: &[u64],
    plan: &[u32],
    rule: &[u64],
    edition: u32,
    done: u32,
    total: u32,
    width: usize,
) -> Result<Option<StepInfo>, Refusal>
    requires { (Width width) × (length rule.now ≡ record_words width) }
    ensures { step_told result ≡ step_answer width table.now plan.now (lent_rule width edition rule.now) done total }
{
    check_progress(table, plan, done, total, width)?;
    if done == total {
        return Ok(None);
    }
    let word = plan[done as usize];
    check_write(table, rule, edition, word, done, width)?;
    Ok(Some(StepInfo { done: done + 1 }))
}
