// What one command does to a table: a rule is inserted or deleted, or a key looked up, and the answer is written as bytes.
// The table is lent as its own words, and nothing else of the memory; the output has room for the longest answer.
#![tactic(auto)]

ghost use Rattle.std.specs.Prelude.{◌≡◌, ◌≤◌, length};
ghost use Rattle.records.specs.Checks.{cause_number};
ghost use Rattle.records.specs.Record.{most_slots, word};
ghost use Rattle.buffers.specs.Buffers.{plan_told};
ghost use Rattle.lookups.specs.Lookup.{lookup_answer, lookup_told};
ghost use Rattle.script_printing.specs.Printing.{Shown};
ghost use Rattle.script_answers.specs.Answers.{refusal_bytes};
ghost use Rattle.script_operations.specs.Told.{line_told, insert_told, delete_told, planned_told, looked_told};
ghost use Rattle.script_operations.specs.Outcomes.{lookup_bytes, insert_outcome, delete_outcome, Changed, plan_outcome, WithinRoom};

use buffers::{PlanInfo, without_cover};
use delete_plans::plan_delete;
use insert_plans::plan_rule;
use lookups::Hit;
use lookups::lookup::lookup;
use records::{Cause, MOST_SLOTS, NARROW, NARROW_COUNTED, Refusal, Rule, cause_number};
use script_answers::{print_hit, print_miss, print_plan, print_refusal};
use script_commands::NewTable;
use steps::whole::carry_whole;

// What a line is answered: the slots of the new table, a plan's count, a hit or a miss, or a refusal. A refusal is a variant and no `Err`, since it is printed
// like the others, with 64 bits for its spot, the number of a line.
#[derive(Clone, Copy)]
pub enum LineAnswer {
    Made(NewTable),
    Planned(PlanInfo),
    Found(Hit),
    Miss,
    Refused(Cause, u64),
}

// How many bytes an answer has, and the answer.
#[derive(Clone, Copy)]
pub struct Said {
    pub length: usize,
    pub answer: LineAnswer,
}

// A planning call's answer as a line's.
fn of_plan(answer: Result<PlanInfo, Refusal>) -> LineAnswer
    ensures { line_told result ≡ planned_told (plan_told answer) }
{
    match answer {
        Ok(info) => LineAnswer::Planned(info),
        Err(Refusal { cause, spot }) => LineAnswer::Refused(cause, spot as u64),
    }
}

// A lookup's answer as a line's.
fn of_lookup(answer: Result<Option<Hit>, Refusal>) -> LineAnswer
    ensures { line_told result ≡ looked_told (lookup_told answer) }
{
    match answer {
        Ok(Some(hit)) => LineAnswer::Found(hit),
        Ok(None) => LineAnswer::Miss,
        Err(Refusal { cause, spot }) => LineAnswer::Refused(cause, spot as u64),
    }
}

// `R number spot`
pub fn refuse(out: &mut [u8; 14343], cause: Cause, spot: u32) -> usize
    ensures { Shown out.old (refusal_bytes (cause_number cause) spot) result out.new }
{
    let number = cause_number(cause);
    print_refusal(out, number, spot as u64)
}

// A lookup's answer, printed.
fn print_lookup(answer: Result<Option<Hit>, Refusal>, out: &mut [u8; 14343]) -> usize
    ensures { Shown out.old (lookup_bytes (lookup_told answer)) result out.new }
{
    match answer {
        Ok(Some(hit)) => print_hit(out, hit.slot, hit.id, hit.action),
        Ok(None) => print_miss(out),
        Err(Refusal { cause, spot }) => refuse(out, cause, spot),
    }
}

// An L line.
pub fn look_up(table: &[u64], key: [u64; 2], out: &mut [u8; 14343]) -> Said
    ensures shown { Shown out.old (lookup_bytes (lookup_answer 2 table.now (word key))) result.length out.new }
    ensures answer_value { line_told result.answer ≡ looked_told (lookup_answer 2 table.now (word key)) }
{
    let found = lookup(table, &key, NARROW);
    let length = print_lookup(found, out);
    Said {
        length,
        answer: of_lookup(found),
    }
}

// A plan carried out in full and printed, or the refusal of the planning call.
fn carry_and_print(
    answer: Result<PlanInfo, Refusal>,
    table: &mut [u64],
    plan: &[u32],
    rule: Rule,
    out: &mut [u8; 14343],
) -> usize
    requires { WithinRoom (plan_told answer) (length plan.now) × (length plan.now ≤ most_slots) }
    ensures { Changed (plan_outcome (plan_told answer) table.old plan.now rule) result table.new out.old out.new }
{
    match answer {
        Ok(info) => {
            let _ = carry_whole(table, plan, rule, info.count);
            print_plan(out, &plan[..info.count as usize])
        }
        Err(Refusal { cause, spot }) => refuse(out, cause, spot),
    }
}

// An I line, with a working plan.
fn insert(table: &mut [u64], rule: Rule, plan: &mut [u32], out: &mut [u8; 14343]) -> Said
    requires { length plan.old ≡ most_slots }
    ensures changed { Changed (insert_outcome table.old rule) result.length table.new out.old out.new }
    ensures answer_value { line_told result.answer ≡ insert_told table.old rule }
{
    let answer = without_cover(plan_rule(table, rule, plan));
    let length = carry_and_print(answer, table, plan, rule, out);
    Said {
        length,
        answer: of_plan(answer),
    }
}

// A D line, with a working plan.
fn delete(table: &mut [u64], id: u32, plan: &mut [u32], out: &mut [u8; 14343]) -> Said
    requires { length plan.old ≡ most_slots }
    ensures changed { Changed (delete_outcome table.old id) result.length table.new out.old out.new }
    ensures answer_value { line_told result.answer ≡ delete_told table.old id }
{
    let answer = plan_delete(table, id, plan, NARROW_COUNTED);
    let rule = Rule {
        id: 0,
        priority: 0,
        value: [0, 0],
        mask: [0, 0],
        action: 0,
    };
    let length = carry_and_print(answer, table, plan, rule, out);
    Said {
        length,
        answer: of_plan(answer),
    }
}

// An I line.
pub fn insert_line(table: &mut [u64], rule: Rule, out: &mut [u8; 14343]) -> Said
    ensures changed { Changed (insert_outcome table.old rule) result.length table.new out.old out.new }
    ensures answer_value { line_told result.answer ≡ insert_told table.old rule }
{
    let mut plan = [0u32; MOST_SLOTS];
    insert(table, rule, &mut plan, out)
}

// A D line.
pub fn delete_line(table: &mut [u64], id: u32, out: &mut [u8; 14343]) -> Said
    ensures changed { Changed (delete_outcome table.old id) result.length table.new out.old out.new }
    ensures answer_value { line_told result.answer ≡ delete_told table.old id }
{
    let mut plan = [0u32; MOST_SLOTS];
    delete(table, id, &mut plan, out)
}
