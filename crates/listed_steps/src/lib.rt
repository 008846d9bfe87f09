// Carrying a plan out with a neighbour list lent: the step of `steps` with a list, after which the list is that of the table.
// A step that declines or is finished changes nothing.
#![tactic(auto)]

ghost use Rattle.std.specs.Prelude.{◌≡◌, cond, [], ◌∷◌, ◌+◌, length};
ghost use Rattle.records.specs.Record.{record_words};
ghost use Rattle.records.specs.Widths.{Width};
ghost use Rattle.records.specs.Editions.{lent_rule};
ghost use Rattle.records.specs.Checks.{success};
ghost use Rattle.buffers.specs.Buffers.{flag_number};
ghost use Rattle.neighbour_lists.specs.Lists.{list_numbers, list_of, stale_list};
ghost use Rattle.carrying.specs.Carrying.{step_answer, step_writes, step_table};
ghost use Rattle.listed_steps.specs.ListedSteps.{listed_step_told, listed_step_reply, listed_step_table, listed_step_list};

use listed_writes::write_listed;
use neighbour_lists::lent::{check_list, refresh_list};
use records::{Cause, Mode, Refusal, check_rule};
use step_checks::next_step;

// What a step that wrote tells: how many writes are done now, and whether the list was worked out afresh before the write.
#[derive(Clone, Copy)]
pub struct ListedStepInfo {
    pub done: u32,
    pub refreshed: bool,
}

// The next write of a plan at a width that there is, its rule lent as a record, with a list of the table's length. The list is worked out from the table before
// the write, since nothing that is lent is trusted.
fn step_listed_at(
    table: &mut [u64],
    plan: &[u32],
    rule: &[u64],
    edition: u32,
    list: &mut [u16],
    done: u32,
    total: u32,
    mode: Mode,
) -> Result<Option<ListedStepInfo>, Refusal>
    requires { (Width mode.width) × (length rule.now ≡ record_words mode.width) × (length list.old ≡ list_numbers mode.width table.old) }
    ensures result_value { listed_step_told result ≡ cond (step_writes mode.width table.old plan.now (lent_rule mode.width edition rule.now) done total)
        (success ((done + 1) ∷ flag_number (stale_list mode.width mode.uncounted table.old list.old) ∷ []))
        (step_answer mode.width table.old plan.now (lent_rule mode.width edition rule.now) done total) }
    ensures table_after { table.new ≡ step_table mode.width table.old plan.now (lent_rule mode.width edition rule.now) done total }
    ensures list_after { list.new ≡ cond (step_writes mode.width table.old plan.now (lent_rule mode.width edition rule.now) done total)
        (list_of mode.width mode.uncounted (step_table mode.width table.old plan.now (lent_rule mode.width edition rule.now) done total)) list.old }
{
    match next_step(table, plan, rule, edition, done, total, mode.width)? {
        None => Ok(None),
        Some(info) => {
            let refreshed = refresh_list(table, list, mode);
            write_listed(table, list, rule, edition, plan[done as usize], mode);
            Ok(Some(ListedStepInfo {
                done: info.done,
                refreshed,
            }))
        }
    }
}

// The next write of a plan and the list after it, or "finished", or a refusal that leaves table and list as they were.
pub fn step_listed(
    table: &mut [u64],
    plan: &[u32],
    rule: &[u64],
    edition: u32,
    list: &mut [u16],
    done: u32,
    total: u32,
    mode: Mode,
) -> Result<Option<ListedStepInfo>, Refusal>
    ensures result_value { listed_step_told result ≡ listed_step_reply mode.width mode.uncounted edition table.old plan.now rule.now list.old done total }
    ensures table_after { table.new ≡ listed_step_table mode.width edition table.old plan.now rule.now (length list.old) done total }
    ensures list_after { list.new ≡ listed_step_list mode.width mode.uncounted edition table.old plan.now rule.now list.old done total }
{
    check_rule(mode.width, rule.len())?;
    check_list(table, list.len(), mode.width)?;
    step_listed_at(table, plan, rule, edition, list, done, total, mode)
}
