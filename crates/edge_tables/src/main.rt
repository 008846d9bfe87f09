// Test program: tables at the edge of document 01, looked up and checked; what it prints is held to the file stdout.
// A slot id action, M (miss), R number spot; K the covering slot of an insert, P count and B with the buffer's first words; C: passes checks 1 to 4; W words last: a slot's record; S 0 or 1: is a rule sound.
#![tactic(auto)]

ghost use Rattle.std.specs.Prelude.{◌≡◌, length};

use buffers::{InsertInfo, PlanInfo, without_cover};
use delete_plans::plan_delete;
use insert_plans::{plan_insert, plan_rule};
use lookups::lookup::{lookup, slot_record};
use records::{
    Cause, EDITION_13, NARROW, NARROW_COUNTED, Refusal, Rule, WIDE, WIDE_COUNTED, WIDE_TABLE,
    cause_number,
};
use slots::rules::{record_of, rule_of, rule_sound};
use slots::{put_record, slot_count};
use table_checks::check_table;

fn number(value: u64) {
    io::write_all(1, b" ");
    io::print_decimal(1, value);
}

fn refused(cause: Cause, spot: u32) {
    io::write_all(1, b"R");
    number(cause_number(cause) as u64);
    number(spot as u64);
    io::write_all(1, b"\n");
}

// Looks a key up at a width and prints the answer.
fn show_lookup_at(table: &[u64], key: &[u64], width: usize) {
    match lookup(table, key, width) {
        Ok(Some(hit)) => {
            io::write_all(1, b"A");
            number(hit.slot as u64);
            number(hit.id as u64);
            number(hit.action as u64);
            io::write_all(1, b"\n");
        }
        Ok(None) => {
            io::write_all(1, b"M\n");
        }
        Err(Refusal { cause, spot }) => refused(cause, spot),
    }
}

// The same of a key of two words.
fn show_lookup(table: &[u64], key: [u64; 2]) {
    show_lookup_at(table, &key, NARROW);
}

// Makes checks 1 to 4 and prints the answer.
fn show_checks(table: &[u64]) {
    match check_table(table, NARROW_COUNTED) {
        Ok(()) => {
            io::write_all(1, b"C\n");
        }
        Err(Refusal { cause, spot }) => refused(cause, spot),
    }
}

// Prints how many words the part for a slot's record has, and the last of them where there are any.
fn show_record(table: &[u64], slot: usize) {
    let part = slot_record(table, slot, NARROW);
    io::write_all(1, b"W");
    number(part.len() as u64);
    if 5 < part.len() {
        number(part[5]);
    }
    io::write_all(1, b"\n");
}

// Puts a rule into a slot, if the table has it.
fn put(table: &mut [u64], slot: usize, rule: Rule) {
    if slot < slot_count(table, NARROW) {
        let words = record_of(rule);
        put_record(table, slot, &words, NARROW);
    }
}

// Puts a rule into a slot and makes the checks.
fn check_with(table: &mut [u64], slot: usize, rule: Rule) {
    put(table, slot, rule);
    show_checks(table);
}

// A rule that cares for the bits of a mask's high word.
fn rule(id: u32, priority: u32, value: u64, mask: u64) -> Rule {
    Rule {
        id,
        priority,
        value: [value, 0],
        mask: [mask, 0],
        action: 7,
    }
}

// Slot counts: none, not a whole number of records, 1, 1,024 and 1,025.
fn shapes(table: &[u64])
    requires { length table.now ≡ 6150 }
{
    io::write_all(1, b"shapes\n");
    show_lookup(&table[0..0], [0, 0]);
    show_lookup(&table[0..5], [0, 0]);
    show_lookup(&table[0..7], [0, 0]);
    show_lookup(&table[0..6], [0, 0]);
    show_lookup(&table[0..6144], [0, 0]);
    show_lookup(&table[0..6150], [0, 0]);
    show_checks(&table[0..6144]);
    show_checks(&table[0..6150]);
}

// The last of 1,024 slots, with a rule that cares for no bit: it matches every key and overlaps every rule.
fn last_slot(table: &mut [u64]) {
    io::write_all(1, b"mask 0 in the last slot\n");
    put(table, 1023, rule(4294967295, 0, 0, 0));
    show_lookup(table, [0, 0]);
    show_lookup(table, [18446744073709551615, 18446744073709551615]);
    show_record(table, 1023);
    show_record(table, 1024);
    show_record(table, 0);
}

fn before_last_slot(table: &mut [u64]) {
    check_with(table, 0, rule(1, 0, 256, 256));
    check_with(table, 0, rule(1, 1, 256, 256));
    show_lookup(table, [256, 0]);
    show_lookup(table, [255, 0]);
}

// Records at the limit of soundness, in slot 1 before a sound one.
fn soundness(table: &mut [u64]) {
    io::write_all(1, b"records\n");
    put(table, 2, rule(9, 9, 1, 1));
    check_with(table, 1, rule(5, 65535, 4, 4));
    check_with(table, 1, rule(5, 65536, 4, 4));
}

// Whether a rule with this priority is sound, and whether the rule of its record is.
fn show_sound(priority: u32) {
    let given = rule(5, priority, 4, 4);
    io::write_all(1, b"S");
    number(rule_sound(given) as u64);
    number(rule_sound(rule_of(record_of(given))) as u64);
    io::write_all(1, b"\n");
}

fn id_zero(table: &mut [u64]) {
    show_record(table, 2);
    check_with(table, 1, rule(0, 5, 4, 4));
}

// A value outside its mask; then two unsound records: the lower slot is named.
fn lower_unsound(table: &mut [u64]) {
    check_with(table, 1, rule(5, 5, 4, 3));
    show_lookup(table, [1, 0]);
    check_with(table, 0, rule(6, 6, 8, 0));
}

// Rules that do not overlap may stand anyhow; of two that do, the earlier needs the strictly higher rank.
fn order(table: &mut [u64]) {
    io::write_all(1, b"ids and order\n");
    put(table, 0, rule(1, 10, 2, 2));
    put(table, 1, rule(2, 20, 0, 2));
    check_with(table, 2, rule(3, 20, 4, 4));
}

fn strictly_higher(table: &mut [u64]) {
    check_with(table, 2, rule(3, 10, 4, 4));
    check_with(table, 2, rule(3, 9, 4, 4));
}

// An id twice is named before any order is looked at; lookup asks for neither.
fn ids(table: &mut [u64]) {
    check_with(table, 2, rule(2, 19, 4, 4));
    show_lookup(table, [6, 0]);
    show_lookup(table, [4, 0]);
    show_lookup(table, [3, 0]);
}

// Prints a planning call's answer and the buffer's first two words, which keep their filler where nothing is written.
fn show_plan(answer: Result<PlanInfo, Refusal>, plan: &[u32]) {
    match answer {
        Ok(info) => {
            io::write_all(1, b"P");
            number(info.count as u64);
            io::write_all(1, b"\n");
        }
        Err(Refusal { cause, spot }) => refused(cause, spot),
    }
    io::write_all(1, b"B");
    if 0 < plan.len() {
        number(u64::from(plan[0]));
    }
    if 1 < plan.len() {
        number(u64::from(plan[1]));
    }
    io::write_all(1, b"\n");
}

// The same of an insert's, with the slot of the rule that covers the new one before it.
fn show_inserted(answer: Result<InsertInfo, Refusal>, plan: &[u32]) {
    if let Ok(info) = answer {
        io::write_all(1, b"K");
        number(info.covered as u64);
        io::write_all(1, b"\n");
    }
    show_plan(without_cover(answer), plan);
}

fn show_insert(table: &[u64], given: Rule) {
    let mut plan = [7u32; 2];
    let answer = plan_rule(table, given, &mut plan);
    show_inserted(answer, &plan);
}

fn show_delete(table: &[u64], id: u32) {
    let mut plan = [7u32; 2];
    let answer = plan_delete(table, id, &mut plan, NARROW_COUNTED);
    show_plan(answer, &plan);
}

// Buffers of one word and of none.
fn short_buffers(table: &[u64], given: Rule) {
    let mut one = [7u32; 1];
    let answer = plan_rule(table, given, &mut one);
    show_inserted(answer, &one);
    let mut none = [7u32; 0];
    let deleted = plan_delete(table, 2, &mut none, NARROW_COUNTED);
    show_plan(deleted, &none);
}

// The largest table, and one slot more.
fn largest(table: &[u64])
    requires { length table.now ≡ 6150 }
{
    io::write_all(1, b"plans\n");
    show_insert(&table[0..6144], rule(5, 65535, 4, 4));
    show_insert(&table[0..6150], rule(5, 65535, 4, 4));
}

// One empty slot: a priority past the limit, a rule that cares for no bit, ids to delete that are not there.
fn one_slot(table: &[u64]) {
    show_insert(table, rule(5, 65536, 4, 4));
    show_insert(table, rule(5, 0, 0, 0));
    show_delete(table, 0);
    show_delete(table, 5);
}

// Two overlapping rules and an empty slot after them.
fn two_rules(table: &mut [u64]) {
    put(table, 0, rule(1, 30, 2, 2));
    put(table, 1, rule(2, 10, 4, 4));
}

// Between the two, before both, at a tie, after both, covered by the first and by the second, of a known id; then buffers that are too short, and a delete.
fn around_two_rules(table: &[u64]) {
    show_insert(table, rule(3, 20, 1, 1));
    show_insert(table, rule(3, 40, 0, 0));
    show_insert(table, rule(3, 30, 0, 0));
    show_insert(table, rule(3, 5, 0, 0));
    show_insert(table, rule(3, 5, 6, 6));
    show_insert(table, rule(3, 5, 4, 4));
    show_insert(table, rule(2, 20, 1, 1));
    short_buffers(table, rule(3, 20, 1, 1));
    show_delete(table, 2);
}

fn small_plans() {
    let one = [0u64; 6];
    one_slot(&one);
    let mut three = [0u64; 18];
    two_rules(&mut three);
    around_two_rules(&three);
}

fn small_tables() {
    io::write_all(1, b"rules\n");
    show_sound(65535);
    show_sound(65536);
    let mut three = [0u64; 18];
    soundness(&mut three);
    id_zero(&mut three);
    lower_unsound(&mut three);
    let mut others = [0u64; 18];
    order(&mut others);
    strictly_higher(&mut others);
    ids(&mut others);
}

fn large_table(table: &mut [u64]) {
    last_slot(table);
    before_last_slot(table);
}

// Five words: 1,024 slots and 1,025.
fn wide_shapes(table: &[u64])
    requires { length table.now ≡ 12300 }
{
    io::write_all(1, b"five words\n");
    let key = [0u64; WIDE];
    show_lookup_at(&table[0..WIDE_TABLE], &key, WIDE);
    show_lookup_at(&table[0..12300], &key, WIDE);
}

// A key of another number of words, the other width's key, and another width.
fn other_words(table: &[u64]) {
    let key = [0u64; WIDE];
    show_lookup_at(table, &key[0..4], WIDE);
    show_lookup_at(table, &key, NARROW);
    show_lookup_at(table, &key[0..3], 3);
}

// A rule that cares for the last bit of the fifth word alone, planned with a record of its words and with one word less.
fn wide_plans(table: &[u64]) {
    let new = [0u64, 0, 0, 0, 1, 0, 0, 0, 0, 1, 12884901897, 25];
    let mut plan = [7u32; 2];
    let answer = plan_insert(table, &new, EDITION_13, &mut plan, WIDE_COUNTED);
    show_inserted(answer, &plan);
    let mut other = [7u32; 2];
    let refusal = plan_insert(table, &new[0..11], EDITION_13, &mut other, WIDE_COUNTED);
    show_inserted(refusal, &other);
}

fn wide_tables() {
    let empty = [0u64; 12300];
    wide_shapes(&empty);
    other_words(&empty[0..24]);
    wide_plans(&empty[0..24]);
}

fn main() {
    let mut table = [0u64; 6150];
    shapes(&table);
    largest(&table);
    small_plans();
    large_table(&mut table[0..6144]);
    small_tables();
    wide_tables();
}
