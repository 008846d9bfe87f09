// Planning an insert: costs in both directions, the choice between them, and the words of its chain; the one word of a replacement; the rule that covers the new one.
// The table is never changed, and a call that declines leaves the plan buffer as it was.
#![tactic(auto)]

ghost use Rattle.std.specs.Prelude.{◌≡◌, false, cond, ◌+◌, ◌-◌, ◌*◌, ◌≤◌, ◌<◌, eqb, length};
ghost use Rattle.records.specs.Record.{most_slots, record_words, slot_words};
ghost use Rattle.records.specs.Order.{slots as slots_of};
ghost use Rattle.records.specs.Widths.{Width};
ghost use Rattle.records.specs.Editions.{lent_rule, under13, ranked};
ghost use Rattle.records.specs.Checks.{or_else, check_records, table_checks};
ghost use Rattle.records.specs.Inserts.{plan_words};
ghost use Rattle.records.specs.Verdict.{Pass};
ghost use Rattle.buffers.specs.Buffers.{plan_told, insert_answer_told, listed_answer_told, with_refreshed, with_cover, without_cover, buffer_answer, buffer_after};
ghost use Rattle.neighbour_lists.specs.Lists.{Listed, list_numbers, list_of, stale_list};
ghost use Rattle.costs.specs.Costs.{cost_of};
ghost use Rattle.planner.specs.Emit.{Stays};
ghost use Rattle.planner.specs.Choice.{choice_of, choice_words};
ghost use Rattle.neighbours.specs.Neighbours.{check_crossed, replaces, covering_slot, place_checks, found_check, FoundIn};
ghost use Rattle.insert_plans.specs.Joined.{Costed};
ghost use Rattle.insert_plans.specs.Insertable.{InsertableGiven, InsertableCall};
ghost use Rattle.insert_plans.specs.Demand3.{Demand3};
ghost use Rattle.insert_plans.specs.ListedInserts.{listed_insert_reply, listed_insert_plan, listed_insert_list};
ghost use Rattle.insert_plans.specs.Inserts.{choice_between, record_choice, replacement_words, record_plan, insert_reply, insert_plan, insert_call_reply, insert_call_plan};

use buffers::{InsertInfo, ListedInfo, PlanInfo, answer_word};
use costs::fill_costs;
use neighbour_lists::lent::{check_list, store_list};
use neighbours::checks::{after_a, check_crossed, check_for_insert, covering_slot, slot_b};
use plan_words::{PlanWrite, word_of};
use planner::{PositionChoice, SlotRange, choose, write_plan};
use records::{
    Cause, EDITION_13, LIST_NUMBERS, MOST_SLOTS, Mode, NARROW_COUNTED, Refusal, Rule, WIDE_RECORD,
    check_rule, record_words,
};
use slots::rules::record_of;
use slots::slot_count;
use table_checks::check_listed;
use windows::fill_ends;

// The costs of all positions along one direction, with the ends of their windows.
fn costs_along(
    table: &[u64],
    near: &[u16],
    up: bool,
    ends: &mut [u16],
    costs: &mut [u16],
    mode: Mode,
)
    requires width { (Width mode.width) × (slots_of mode.width table.now ≤ most_slots) × (slots_of mode.width table.now ≤ length ends.old) × (slots_of mode.width table.now ≤ length costs.old) × (2 * (slots_of mode.width table.now) ≤ length near.now) }
    requires table_value { (table_checks mode.width mode.uncounted table.now ≡ Pass) × Listed mode.width mode.uncounted table.now near.now }
    ensures { Costed mode.width mode.uncounted table.now up costs.new }
{
    let slots = slot_count(table, mode.width);
    fill_ends(table, near, up, ends, mode);
    fill_costs(ends, costs, slots);
}

// The choice within the ranges A + 1 to B going down and A to B − 1 going up, by A + 1 and B.
fn choose_insert(
    slots: usize,
    after: usize,
    dependant: usize,
    down: &[u16],
    up: &[u16],
) -> PositionChoice
    requires { (slots ≤ most_slots) × (dependant ≤ slots) × (slots ≤ length down.now) × (slots ≤ length up.now) }
    ensures { result ≡ choice_of (cost_of down.now) (cost_of up.now) slots
        (record { from = after; to = dependant + 1 }) (record { from = after - 1; to = dependant }) }
{
    let below = SlotRange {
        from: after,
        to: dependant + 1,
    };
    let above = SlotRange {
        // A, where there is one.
        from: after.saturating_sub(1),
        to: dependant,
    };
    choose(down, up, slots, below, above)
}

// The words of a choice, where the buffer has room for them.
fn write_choice(
    down: &[u16],
    up: &[u16],
    slots: usize,
    choice: PositionChoice,
    plan: &mut [u32],
) -> Result<PlanInfo, Refusal>
    requires slots_le_most_slots { (slots ≤ most_slots) × (slots ≤ length down.now) × (slots ≤ length up.now) × (choice.cost < slots) }
    requires stays { Stays (cost_of (cond choice.up up.now down.now)) slots choice.position choice.cost }
    ensures result_value { plan_told result ≡ buffer_answer Pass (length (choice_words (cost_of (cond choice.up up.now down.now)) slots choice)) (length plan.old) }
    ensures plan_after { plan.new ≡ buffer_after Pass (choice_words (cost_of (cond choice.up up.now down.now)) slots choice) plan.old }
{
    let count = choice.cost + 1;
    if plan.len() < count {
        return Err(Refusal {
            cause: Cause::Short,
            spot: count as u32,
        });
    }
    if choice.up {
        write_plan(up, slots, choice, plan);
        return Ok(PlanInfo {
            count: count as u32,
        });
    }
    write_plan(down, slots, choice, plan);
    Ok(PlanInfo {
        count: count as u32,
    })
}

// The costs of both directions into lent working arrays, the choice between them, and its words.
fn plan_with(
    table: &[u64],
    near: &[u16],
    after: usize,
    dependant: usize,
    ends: &mut [u16],
    down: &mut [u16],
    up: &mut [u16],
    plan: &mut [u32],
    mode: Mode,
) -> Result<PlanInfo, Refusal>
    requires width { (Width mode.width) × (table_checks mode.width mode.uncounted table.now ≡ Pass) × (2 * most_slots ≤ length near.now) × Listed mode.width mode.uncounted table.now near.now }
    requires dependant_bound { (dependant ≤ slots_of mode.width table.now) × ((choice_between mode.width mode.uncounted table.now after dependant).cost < slots_of mode.width table.now) }
    requires most_slots_in_bounds { (most_slots ≤ length ends.old) × (most_slots ≤ length down.old) × (most_slots ≤ length up.old) }
    ensures result_value { plan_told result ≡ buffer_answer Pass (length (plan_words (choice_between mode.width mode.uncounted table.now after dependant))) (length plan.old) }
    ensures plan_after { plan.new ≡ buffer_after Pass (plan_words (choice_between mode.width mode.uncounted table.now after dependant)) plan.old }
{
    let slots = slot_count(table, mode.width);
    costs_along(table, near, false, ends, down, mode);
    costs_along(table, near, true, ends, up, mode);
    let choice = choose_insert(slots, after, dependant, down, up);
    write_choice(down, up, slots, choice, plan)
}

// The plan of an insert between A and B that passes checks 1 to 10, with working arrays of its own.
fn plan_between(
    table: &[u64],
    near: &[u16],
    after: usize,
    dependant: usize,
    plan: &mut [u32],
    mode: Mode,
) -> Result<PlanInfo, Refusal>
    requires width { (Width mode.width) × (table_checks mode.width mode.uncounted table.now ≡ Pass) × (2 * most_slots ≤ length near.now) × Listed mode.width mode.uncounted table.now near.now }
    requires dependant_bound { (dependant ≤ slots_of mode.width table.now) × ((choice_between mode.width mode.uncounted table.now after dependant).cost < slots_of mode.width table.now) }
    ensures result_value { plan_told result ≡ buffer_answer Pass (length (plan_words (choice_between mode.width mode.uncounted table.now after dependant))) (length plan.old) }
    ensures plan_after { plan.new ≡ buffer_after Pass (plan_words (choice_between mode.width mode.uncounted table.now after dependant)) plan.old }
{
    let mut ends = [0u16; MOST_SLOTS];
    let mut down = [0u16; MOST_SLOTS];
    let mut up = [0u16; MOST_SLOTS];
    plan_with(
        table, near, after, dependant, &mut ends, &mut down, &mut up, plan, mode,
    )
}

// Check 10, and the plan of a rule that replaces none, by the table's neighbour list.
fn plan_between_neighbours(
    table: &[u64],
    near: &[u16],
    new: &[u64],
    plan: &mut [u32],
    mode: Mode,
) -> Result<PlanInfo, Refusal>
    requires width { (Width mode.width) × (table_checks mode.width mode.uncounted table.now ≡ Pass) × (2 * most_slots ≤ length near.now) × Listed mode.width mode.uncounted table.now near.now }
    requires len { (length new.now ≡ record_words mode.width) × (check_records mode.width new.now ≡ Pass) }
    requires bound { check_crossed mode.width mode.uncounted table.now (slot_words mode.width new.now 0) ≡ Pass
        → (record_choice mode.width mode.uncounted table.now (slot_words mode.width new.now 0)).cost < slots_of mode.width table.now }
    ensures result_value { plan_told result ≡ buffer_answer (check_crossed mode.width mode.uncounted table.now (slot_words mode.width new.now 0))
        (length (plan_words (record_choice mode.width mode.uncounted table.now (slot_words mode.width new.now 0)))) (length plan.old) }
    ensures plan_after { plan.new ≡ buffer_after (check_crossed mode.width mode.uncounted table.now (slot_words mode.width new.now 0))
        (plan_words (record_choice mode.width mode.uncounted table.now (slot_words mode.width new.now 0))) plan.old }
{
    let after = after_a(table, new, mode);
    let dependant = slot_b(table, new, mode);
    check_crossed(after, dependant)?;
    plan_between(table, near, after, dependant, plan, mode)
}

// The plan of a replacement: one put-in at the slot of the rule that is replaced.
fn plan_replacement(slot: usize, plan: &mut [u32]) -> Result<PlanInfo, Refusal>
    requires { slot < most_slots }
    ensures result_value { plan_told result ≡ buffer_answer Pass (length (replacement_words slot)) (length plan.old) }
    ensures plan_after { plan.new ≡ buffer_after Pass (replacement_words slot) plan.old }
{
    answer_word(word_of(PlanWrite::PutIn(slot as u32)), plan)
}

// The plan of a rule that has been checked, by what it was found to be, into a table that passes checks 1 to 4. Its record with its rank is lent.
fn plan_checked(
    table: &[u64],
    near: &[u16],
    new: &[u64],
    found: Result<Option<u32>, Refusal>,
    plan: &mut [u32],
    mode: Mode,
) -> Result<PlanInfo, Refusal>
    requires width { (Width mode.width) × (table_checks mode.width mode.uncounted table.now ≡ Pass) × (2 * most_slots ≤ length near.now) × Listed mode.width mode.uncounted table.now near.now }
    requires len { (length new.now ≡ record_words mode.width) × FoundIn mode.width mode.uncounted table.now (slot_words mode.width new.now 0) found × (found_check found ≡ Pass → check_records mode.width new.now ≡ Pass) }
    requires bound { found_check found ≡ Pass → replaces mode.width mode.uncounted table.now (slot_words mode.width new.now 0) ≡ false
        → place_checks mode.width mode.uncounted table.now (slot_words mode.width new.now 0) ≡ Pass
        → (record_choice mode.width mode.uncounted table.now (slot_words mode.width new.now 0)).cost < slots_of mode.width table.now }
    ensures result_value { plan_told result ≡ buffer_answer (or_else (found_check found) (place_checks mode.width mode.uncounted table.now (slot_words mode.width new.now 0)))
        (length (record_plan mode.width mode.uncounted table.now (slot_words mode.width new.now 0))) (length plan.old) }
    ensures plan_after { plan.new ≡ buffer_after (or_else (found_check found) (place_checks mode.width mode.uncounted table.now (slot_words mode.width new.now 0)))
        (record_plan mode.width mode.uncounted table.now (slot_words mode.width new.now 0)) plan.old }
{
    match found? {
        None => plan_between_neighbours(table, near, new, plan, mode),
        Some(slot) => plan_replacement(slot as usize, plan),
    }
}

// The same, and where there is a plan the slot of the rule that covers the new one, in the table before it.
fn plan_covered(
    table: &[u64],
    near: &[u16],
    new: &[u64],
    found: Result<Option<u32>, Refusal>,
    plan: &mut [u32],
    mode: Mode,
) -> Result<InsertInfo, Refusal>
    requires width { (Width mode.width) × (table_checks mode.width mode.uncounted table.now ≡ Pass) × (2 * most_slots ≤ length near.now) × Listed mode.width mode.uncounted table.now near.now }
    requires len { (length new.now ≡ record_words mode.width) × FoundIn mode.width mode.uncounted table.now (slot_words mode.width new.now 0) found × (found_check found ≡ Pass → check_records mode.width new.now ≡ Pass) }
    requires bound { found_check found ≡ Pass → replaces mode.width mode.uncounted table.now (slot_words mode.width new.now 0) ≡ false
        → place_checks mode.width mode.uncounted table.now (slot_words mode.width new.now 0) ≡ Pass
        → (record_choice mode.width mode.uncounted table.now (slot_words mode.width new.now 0)).cost < slots_of mode.width table.now }
    ensures result_value { insert_answer_told result ≡ with_cover (buffer_answer (or_else (found_check found) (place_checks mode.width mode.uncounted table.now (slot_words mode.width new.now 0)))
        (length (record_plan mode.width mode.uncounted table.now (slot_words mode.width new.now 0))) (length plan.old))
        (covering_slot mode.width table.now (slot_words mode.width new.now 0)) }
    ensures plan_after { plan.new ≡ buffer_after (or_else (found_check found) (place_checks mode.width mode.uncounted table.now (slot_words mode.width new.now 0)))
        (record_plan mode.width mode.uncounted table.now (slot_words mode.width new.now 0)) plan.old }
{
    let info = plan_checked(table, near, new, found, plan, mode)?;
    Ok(InsertInfo {
        count: info.count,
        covered: covering_slot(table, new, mode.width),
    })
}

// The plan of an insert into a table that passes checks 1 to 4, by its neighbour list: what a rule is checked for, and its plan.
fn plan_listed(
    table: &[u64],
    near: &[u16],
    rule: &[u64],
    edition: u32,
    plan: &mut [u32],
    mode: Mode,
) -> Result<InsertInfo, Refusal>
    requires width { (Width mode.width) × (table_checks mode.width mode.uncounted table.now ≡ Pass) × (2 * most_slots ≤ length near.now) × Listed mode.width mode.uncounted table.now near.now }
    requires rule_len { length rule.now ≡ record_words mode.width }
    ensures result_value { insert_answer_told result ≡ insert_reply mode.width mode.uncounted table.now (lent_rule mode.width edition rule.now) (length plan.old) }
    ensures plan_after { plan.new ≡ insert_plan mode.width mode.uncounted table.now (lent_rule mode.width edition rule.now) plan.old }
{
    let mut ranked = [0u64; WIDE_RECORD];
    let words = record_words(mode.width);
    let found = check_for_insert(table, rule, edition, &mut ranked[0..words], mode);
    plan_covered(table, near, &ranked[0..words], found, plan, mode)
}

// The plan of an insert at a width that there is, its rule lent as a record. Where there is a plan, the table's neighbour list is in the front of `near`.
fn insert_near(
    table: &[u64],
    near: &mut [u16],
    plan: &mut [u32],
    rule: &[u64],
    edition: u32,
    mode: Mode,
) -> Result<InsertInfo, Refusal>
    requires { (Width mode.width) × (length rule.now ≡ record_words mode.width) × (2 * most_slots ≤ length near.old) }
    ensures result_value { insert_answer_told result ≡ insert_reply mode.width mode.uncounted table.now (lent_rule mode.width edition rule.now) (length plan.old) }
    ensures plan_after { plan.new ≡ insert_plan mode.width mode.uncounted table.now (lent_rule mode.width edition rule.now) plan.old }
    ensures table_value { (insert_answer_told result).number ≡ 0 → (table_checks mode.width mode.uncounted table.now ≡ Pass) × Listed mode.width mode.uncounted table.now near.new }
{
    check_listed(table, near, mode)?;
    plan_listed(table, near, rule, edition, plan, mode)
}

// The same, with a list of its own.
fn insert_at(
    table: &[u64],
    rule: &[u64],
    edition: u32,
    plan: &mut [u32],
    mode: Mode,
) -> Result<InsertInfo, Refusal>
    requires { (Width mode.width) × (length rule.now ≡ record_words mode.width) }
    ensures result_value { insert_answer_told result ≡ insert_reply mode.width mode.uncounted table.now (lent_rule mode.width edition rule.now) (length plan.old) }
    ensures plan_after { plan.new ≡ insert_plan mode.width mode.uncounted table.now (lent_rule mode.width edition rule.now) plan.old }
{
    let mut near = [0u16; LIST_NUMBERS];
    insert_near(table, &mut near, plan, rule, edition, mode)
}

// The shortest plan of an insert, or a refusal that leaves the buffer as it was.
pub fn plan_insert(
    table: &[u64],
    rule: &[u64],
    edition: u32,
    plan: &mut [u32],
    mode: Mode,
) -> Result<InsertInfo, Refusal>
    ensures result_value { insert_answer_told result ≡ insert_call_reply mode.width mode.uncounted edition table.now rule.now (length plan.old) }
    ensures plan_after { plan.new ≡ insert_call_plan mode.width mode.uncounted edition table.now rule.now plan.old }
    ensures shortest { InsertableCall mode.width mode.uncounted edition table.now rule.now
        → Demand3 mode.width mode.uncounted table.now (ranked mode.width (lent_rule mode.width edition rule.now)) (without_cover (insert_answer_told result)) plan.old plan.new }
{
    check_rule(mode.width, rule.len())?;
    insert_at(table, rule, edition, plan, mode)
}

// The plan, with a list of the table's length lent: on success it is made the table's.
fn insert_listed_at(
    table: &[u64],
    rule: &[u64],
    edition: u32,
    list: &mut [u16],
    plan: &mut [u32],
    mode: Mode,
) -> Result<ListedInfo, Refusal>
    requires { (Width mode.width) × (length rule.now ≡ record_words mode.width) × (length list.old ≡ list_numbers mode.width table.now) }
    ensures result_value { listed_answer_told result ≡ with_refreshed (insert_reply mode.width mode.uncounted table.now (lent_rule mode.width edition rule.now) (length plan.old))
        (stale_list mode.width mode.uncounted table.now list.old) }
    ensures plan_after { plan.new ≡ insert_plan mode.width mode.uncounted table.now (lent_rule mode.width edition rule.now) plan.old }
    ensures list_after { list.new ≡ cond (eqb (insert_reply mode.width mode.uncounted table.now (lent_rule mode.width edition rule.now) (length plan.old)).number 0)
        (list_of mode.width mode.uncounted table.now) list.old }
{
    let mut near = [0u16; LIST_NUMBERS];
    let info = insert_near(table, &mut near, plan, rule, edition, mode)?;
    Ok(ListedInfo {
        count: info.count,
        covered: info.covered,
        refreshed: store_list(&near, list),
    })
}

// The shortest plan of an insert with a neighbour list lent, or a refusal that leaves buffer and list as they were.
pub fn plan_insert_listed(
    table: &[u64],
    rule: &[u64],
    edition: u32,
    list: &mut [u16],
    plan: &mut [u32],
    mode: Mode,
) -> Result<ListedInfo, Refusal>
    ensures result_value { listed_answer_told result ≡ listed_insert_reply mode.width mode.uncounted edition table.now rule.now list.old (length plan.old) }
    ensures plan_after { plan.new ≡ listed_insert_plan mode.width mode.uncounted edition table.now rule.now (length list.old) plan.old }
    ensures list_after { list.new ≡ listed_insert_list mode.width mode.uncounted edition table.now rule.now list.old (length plan.old) }
    ensures shortest { length list.old ≡ list_numbers mode.width table.now → InsertableCall mode.width mode.uncounted edition table.now rule.now
        → Demand3 mode.width mode.uncounted table.now (ranked mode.width (lent_rule mode.width edition rule.now)) (without_cover (listed_answer_told result)) plan.old plan.new }
{
    check_rule(mode.width, rule.len())?;
    check_list(table, list.len(), mode.width)?;
    insert_listed_at(table, rule, edition, list, plan, mode)
}

// The same of document 01's rule struct, at two words, under 1.3.
pub fn plan_rule(table: &[u64], rule: Rule, plan: &mut [u32]) -> Result<InsertInfo, Refusal>
    ensures result_value { insert_answer_told result ≡ insert_reply 2 false table.now (under13 rule) (length plan.old) }
    ensures plan_after { plan.new ≡ insert_plan 2 false table.now (under13 rule) plan.old }
    ensures shortest { InsertableGiven 2 false table.now (under13 rule)
        → Demand3 2 false table.now rule (without_cover (insert_answer_told result)) plan.old plan.new }
{
    let words = record_of(rule);
    insert_at(table, &words, EDITION_13, plan, NARROW_COUNTED)
}
