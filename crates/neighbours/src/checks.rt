// A new rule against a table: known id, the rule that it replaces, tie, room, its neighbours A and B, and the rule that covers it. Checks 5, 18, 6 and 8 to 10 of an insert.
// The new rule is lent as a table of one slot that holds its record. Ranks of rules that overlap are compared in tables that pass check 2, and the new one is sound by then.
ghost use Rattle.std.specs.Prelude.{◌≡◌, cond, ◌≤◌, length};
ghost use Rattle.records.specs.Record.{most_slots, record_words, slot_words};
ghost use Rattle.records.specs.Order.{slots};
ghost use Rattle.records.specs.Widths.{Width, leaves};
ghost use Rattle.records.specs.Checks.{or_else, check_records};
ghost use Rattle.records.specs.Verdict.{checked, Pass};
ghost use Rattle.records.specs.Editions.{lent_rule, ranked_record, check_given};
ghost use Rattle.neighbours.specs.Neighbours.{check_known, check_tie, check_full, after_a, slot_b, crossed_by, replaced_slot, replaces, covering_slot, new_checks, rule_checks, found_check, FoundIn};

use pairs::{obscures_pair, precedes_pair, replaceable_pair, same_id, tied_pair};
use records::{Cause, Mode, NARROW, NO_SLOT, Refusal, WIDE, at_width};
use slots::given::{check_given, rank_record};
use slots::{slot_count, slot_empty};

// Check 6: the id is not in the table.
fn check_known_by(table: &[u64], new: &[u64], mode: Mode) -> Result<(), Refusal>
    requires { (Width mode.width) × (slots mode.width table.now ≤ most_slots) × (length new.now ≡ record_words mode.width) }
    ensures { checked result ≡ check_known mode.width table.now (slot_words mode.width new.now 0) }
{
    let slots = slot_count(table, mode.width);
    for slot in 0..slots {
        if same_id(table, slot, new, 0, mode.width) {
            return Err(Refusal {
                cause: Cause::Known,
                spot: slot as u32,
            });
        }
    }
    Ok(())
}

// The same, with the width a constant for the compiler: it makes a copy for each.
pub fn check_known(table: &[u64], new: &[u64], mode: Mode) -> Result<(), Refusal>
    requires { (Width mode.width) × (slots mode.width table.now ≤ most_slots) × (length new.now ≡ record_words mode.width) }
    ensures { checked result ≡ check_known mode.width table.now (slot_words mode.width new.now 0) }
{
    at_width(mode.width, |width| {
        check_known_by(table, new, Mode { width, ..mode })
    })
}

// Check 8: no rule overlaps the new one at equal rank.
fn check_tie_by(table: &[u64], new: &[u64], mode: Mode) -> Result<(), Refusal>
    requires { (Width mode.width) × (slots mode.width table.now ≤ most_slots) × (length new.now ≡ record_words mode.width) × (check_records mode.width table.now ≡ Pass) × (check_records mode.width new.now ≡ Pass) }
    ensures { checked result ≡ check_tie mode.width mode.uncounted table.now (slot_words mode.width new.now 0) }
{
    let slots = slot_count(table, mode.width);
    for slot in 0..slots {
        if tied_pair(table, slot, new, 0, mode) {
            return Err(Refusal {
                cause: Cause::Tie,
                spot: slot as u32,
            });
        }
    }
    Ok(())
}

// The same, with the width a constant for the compiler, which may make a copy for each. By `at_width` it makes none here, nor of the three searches below:
// a fifth more instructions in this one.
pub fn check_tie(table: &[u64], new: &[u64], mode: Mode) -> Result<(), Refusal>
    requires { (Width mode.width) × (slots mode.width table.now ≤ most_slots) × (length new.now ≡ record_words mode.width) × (check_records mode.width table.now ≡ Pass) × (check_records mode.width new.now ≡ Pass) }
    ensures { checked result ≡ check_tie mode.width mode.uncounted table.now (slot_words mode.width new.now 0) }
{
    if mode.width == NARROW {
        return check_tie_by(
            table,
            new,
            Mode {
                width: NARROW,
                ..mode
            },
        );
    }
    check_tie_by(
        table,
        new,
        Mode {
            width: WIDE,
            ..mode
        },
    )
}

// Check 9: a slot is empty.
pub fn check_full(table: &[u64], mode: Mode) -> Result<(), Refusal>
    requires { Width mode.width }
    ensures { checked result ≡ check_full mode.width table.now }
{
    let slots = slot_count(table, mode.width);
    for slot in 0..slots {
        if slot_empty(table, slot, mode.width) {
            return Ok(());
        }
    }
    Err(Refusal {
        cause: Cause::Full,
        spot: 0,
    })
}

// One past the highest slot with a rule that precedes the new one; 0 where there is none.
fn after_a_by(table: &[u64], new: &[u64], mode: Mode) -> usize
    requires { (Width mode.width) × (length new.now ≡ record_words mode.width) × (check_records mode.width table.now ≡ Pass) × (check_records mode.width new.now ≡ Pass) }
    ensures { result ≡ after_a mode.width mode.uncounted table.now (slot_words mode.width new.now 0) }
{
    let slots = slot_count(table, mode.width);
    for slot in (0..slots).rev() {
        if precedes_pair(table, slot, new, 0, mode) {
            return slot + 1;
        }
    }
    0
}

// The same, with the width a constant for the compiler, which may make a copy for each; not by `at_width`, as for check 8.
pub fn after_a(table: &[u64], new: &[u64], mode: Mode) -> usize
    requires { (Width mode.width) × (length new.now ≡ record_words mode.width) × (check_records mode.width table.now ≡ Pass) × (check_records mode.width new.now ≡ Pass) }
    ensures { result ≡ after_a mode.width mode.uncounted table.now (slot_words mode.width new.now 0) }
{
    if mode.width == NARROW {
        return after_a_by(
            table,
            new,
            Mode {
                width: NARROW,
                ..mode
            },
        );
    }
    after_a_by(
        table,
        new,
        Mode {
            width: WIDE,
            ..mode
        },
    )
}

// The lowest slot with a rule that depends on the new one, or the number of slots.
fn slot_b_by(table: &[u64], new: &[u64], mode: Mode) -> usize
    requires { (Width mode.width) × (length new.now ≡ record_words mode.width) × (check_records mode.width table.now ≡ Pass) × (check_records mode.width new.now ≡ Pass) }
    ensures { result ≡ slot_b mode.width mode.uncounted table.now (slot_words mode.width new.now 0) }
{
    let slots = slot_count(table, mode.width);
    for slot in 0..slots {
        if precedes_pair(new, 0, table, slot, mode) {
            return slot;
        }
    }
    slots
}

// The same, with the width a constant for the compiler, which may make a copy for each; not by `at_width`, as for check 8.
pub fn slot_b(table: &[u64], new: &[u64], mode: Mode) -> usize
    requires { (Width mode.width) × (length new.now ≡ record_words mode.width) × (check_records mode.width table.now ≡ Pass) × (check_records mode.width new.now ≡ Pass) }
    ensures { result ≡ slot_b mode.width mode.uncounted table.now (slot_words mode.width new.now 0) }
{
    if mode.width == NARROW {
        return slot_b_by(
            table,
            new,
            Mode {
                width: NARROW,
                ..mode
            },
        );
    }
    slot_b_by(
        table,
        new,
        Mode {
            width: WIDE,
            ..mode
        },
    )
}

// Check 10, of A + 1 and B: A is not after B.
pub fn check_crossed(after: usize, dependant: usize) -> Result<(), Refusal>
    requires { (after ≤ most_slots) × (dependant ≤ most_slots) }
    ensures { checked result ≡ crossed_by after dependant }
{
    if dependant + 1 < after {
        return Err(Refusal {
            cause: Cause::Crossed,
            spot: (after - 1) as u32,
        });
    }
    Ok(())
}

// The lowest slot with a rule that the new one replaces, or the number of slots.
fn replaced_slot_by(table: &[u64], new: &[u64], mode: Mode) -> usize
    requires { (Width mode.width) × (length new.now ≡ record_words mode.width) }
    ensures { result ≡ replaced_slot mode.width mode.uncounted table.now (slot_words mode.width new.now 0) }
{
    let slots = slot_count(table, mode.width);
    for slot in 0..slots {
        if replaceable_pair(table, slot, new, 0, mode) {
            return slot;
        }
    }
    slots
}

// The same, with the width a constant for the compiler, which may make a copy for each; not by `at_width`, as for check 8.
fn replaced_slot(table: &[u64], new: &[u64], mode: Mode) -> usize
    requires { (Width mode.width) × (length new.now ≡ record_words mode.width) }
    ensures { result ≡ replaced_slot mode.width mode.uncounted table.now (slot_words mode.width new.now 0) }
{
    if mode.width == NARROW {
        return replaced_slot_by(
            table,
            new,
            Mode {
                width: NARROW,
                ..mode
            },
        );
    }
    replaced_slot_by(
        table,
        new,
        Mode {
            width: WIDE,
            ..mode
        },
    )
}

// Checks 8 and 9, as for a rule that replaces none.
fn check_tie_full(table: &[u64], new: &[u64], mode: Mode) -> Result<(), Refusal>
    requires { (Width mode.width) × (slots mode.width table.now ≤ most_slots) × (length new.now ≡ record_words mode.width) × (check_records mode.width table.now ≡ Pass) × (check_records mode.width new.now ≡ Pass) }
    ensures { checked result ≡ or_else (check_tie mode.width mode.uncounted table.now (slot_words mode.width new.now 0)) (check_full mode.width table.now) }
{
    check_tie(table, new, mode)?;
    check_full(table, mode)
}

// What a rule of new id is found to be, of which 8 and 9 say `room`: the slot of the rule that it replaces is looked for, and they count where there is none.
fn found_with(
    table: &[u64],
    new: &[u64],
    room: Result<(), Refusal>,
    mode: Mode,
) -> Result<Option<u32>, Refusal>
    requires { (Width mode.width) × (slots mode.width table.now ≤ most_slots) × (length new.now ≡ record_words mode.width) }
    ensures result_value { found_check result ≡ cond (replaces mode.width mode.uncounted table.now (slot_words mode.width new.now 0)) Pass (checked room) }
    ensures found_in { FoundIn mode.width mode.uncounted table.now (slot_words mode.width new.now 0) result }
{
    let slot = replaced_slot(table, new, mode);
    if slot < slot_count(table, mode.width) {
        return Ok(Some(slot as u32));
    }
    room?;
    Ok(None)
}

// The slot of the rule that a new one replaces, or none: check 6; then none for a rule that replaces another, else 8 and 9. In a counted table a rule ties with the one that it replaces, so that this is looked
// for only where 8 or 9 would decline.
pub fn check_new(table: &[u64], new: &[u64], mode: Mode) -> Result<Option<u32>, Refusal>
    requires { (Width mode.width) × (slots mode.width table.now ≤ most_slots) × (length new.now ≡ record_words mode.width) × (check_records mode.width table.now ≡ Pass) × (check_records mode.width new.now ≡ Pass) }
    ensures result_value { found_check result ≡ new_checks mode.width mode.uncounted table.now (slot_words mode.width new.now 0) }
    ensures found_in { FoundIn mode.width mode.uncounted table.now (slot_words mode.width new.now 0) result }
{
    check_known(table, new, mode)?;
    let room = check_tie_full(table, new, mode);
    if room.is_err() | mode.uncounted {
        return found_with(table, new, room, mode);
    }
    Ok(None)
}

// All that a rule is checked for as it is given: 5, 18, and those. Where 5 and 18 pass, its record with its rank is left in a lent record.
pub fn check_for_insert(
    table: &[u64],
    rule: &[u64],
    edition: u32,
    new: &mut [u64],
    mode: Mode,
) -> Result<Option<u32>, Refusal>
    requires { (Width mode.width) × (slots mode.width table.now ≤ most_slots) × (length rule.now ≡ record_words mode.width) × (length new.old ≡ record_words mode.width) × (check_records mode.width table.now ≡ Pass) }
    ensures result_value { found_check result ≡ rule_checks mode.width mode.uncounted table.now (lent_rule mode.width edition rule.now) }
    ensures after { new.new ≡ leaves (check_given mode.width (lent_rule mode.width edition rule.now)) (ranked_record mode.width edition rule.now) new.old }
    ensures found_in { FoundIn mode.width mode.uncounted table.now (slot_words mode.width new.new 0) result }
{
    check_given(rule, edition, mode.width)?;
    rank_record(rule, edition, new, mode.width);
    check_new(table, new, mode)
}

// The lowest slot with a higher-ranked rule that alone covers the new one, or none.
pub fn covering_slot(table: &[u64], new: &[u64], width: usize) -> u32
    requires { (Width width) × (slots width table.now ≤ most_slots) × (length new.now ≡ record_words width) }
    ensures { result ≡ covering_slot width table.now (slot_words width new.now 0) }
{
    let slots = slot_count(table, width);
    for slot in 0..slots {
        if obscures_pair(table, slot, new, 0, width) {
            return slot as u32;
        }
    }
    NO_SLOT
}
