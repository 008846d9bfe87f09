// The step: one write of a plan, where the checks pass and the plan is not finished.
// A step that declines or is finished changes nothing.
ghost use Rattle.std.specs.Prelude.{◌≡◌, length};
ghost use Rattle.records.specs.Record.{record_words};
ghost use Rattle.records.specs.Widths.{Width};
ghost use Rattle.records.specs.Editions.{lent_rule, under13};
ghost use Rattle.carrying.specs.Carrying.{step_told, step_answer, step_table, step_call, step_call_table};

use carrying::StepInfo;
use records::{EDITION_13, NARROW, Refusal, Rule, check_rule};
use slots::rules::record_of;
use step_checks::next_step;
use writes::make_write;

// The next write of a plan at a width that there is, its rule lent as a record.
fn step_at(
    table: &mut [u64],
    plan: &[u32],
    rule: &[u64],
    edition: u32,
    done: u32,
    total: u32,
    width: usize,
) -> Result<Option<StepInfo>, Refusal>
    requires { (Width width) × (length rule.now ≡ record_words width) }
    ensures result_value { step_told result ≡ step_answer width table.old plan.now (lent_rule width edition rule.now) done total }
    ensures table_after { table.new ≡ step_table width table.old plan.now (lent_rule width edition rule.now) done total }
{
    match next_step(table, plan, rule, edition, done, total, width)? {
        None => Ok(None),
        Some(info) => {
            make_write(table, rule, edition, plan[done as usize], width);
            Ok(Some(info))
        }
    }
}

// The next write of a plan, or "finished", or a refusal that leaves the table as it was.
pub fn step(
    table: &mut [u64],
    plan: &[u32],
    rule: &[u64],
    edition: u32,
    done: u32,
    total: u32,
    width: usize,
) -> Result<Option<StepInfo>, Refusal>
    ensures result_value { step_told result ≡ step_call width edition table.old plan.now rule.now done total }
    ensures table_after { table.new ≡ step_call_table width edition table.old plan.now rule.now done total }
{
    check_rule(width, rule.len())?;
    step_at(table, plan, rule, edition, done, total, width)
}

// The same of document 01's rule struct, at two words, under 1.3.
pub fn step_rule(
    table: &mut [u64],
    plan: &[u32],
    rule: Rule,
    done: u32,
    total: u32,
) -> Result<Option<StepInfo>, Refusal>
    ensures result_value { step_told result ≡ step_answer 2 table.old plan.now (under13 rule) done total }
    ensures table_after { table.new ≡ step_table 2 table.old plan.now (under13 rule) done total }
{
    let record = record_of(rule);
    step_at(table, plan, &record, EDITION_13, done, total, NARROW)
}
