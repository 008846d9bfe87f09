// One line of a script on lent buffers: the table changes as the line says, and the answer is written as bytes.
// The memory has room for the largest table, the output for the longest answer; the table is the words at the memory's start.
#![tactic(auto)]

ghost use Rattle.std.specs.Prelude.{◌≡◌, ◌≤◌, min, length, replicate};
ghost use Rattle.records.specs.Checks.{refusal};
ghost use Rattle.records.specs.declared.Cause.TheVariants.{Line};
ghost use Rattle.records.specs.Record.{most_slots, most_words, word};
ghost use Rattle.lookups.specs.Lookup.{lookup_answer};
ghost use Rattle.script_printing.specs.Printing.{Shown};
ghost use Rattle.script_commands.specs.Commands.{command_of};
ghost use Rattle.script_answers.specs.Answers.{refusal_bytes};
ghost use Rattle.script_operations.specs.Told.{lettered, line_told, insert_told, delete_told, looked_told};
ghost use Rattle.script_operations.specs.Outcomes.{insert_outcome, delete_outcome};
ghost use Rattle.script.specs.Told.{table_told, command_told};
ghost use Rattle.script.specs.Script.{table_outcome, lookup_outcome, command_outcome, line_outcome, table_in, Left};

use records::{Cause, MOST_SLOTS, NARROW_TABLE, Rule, cause_number};
use script_answers::{print_refusal, print_table};
use script_commands::{Command, NewTable, inserted_rule, key_of, parse};
use script_operations::{LineAnswer, delete_line, insert_line, look_up, refuse};

// What a line came to: the slots of the table afterwards, how many bytes the answer has, and the answer.
#[derive(Clone, Copy)]
pub struct Ran {
    pub slots: usize,
    pub length: usize,
    pub answer: LineAnswer,
}

// A T line: all words zero are empty slots.
fn new_table(memory: &mut [u64], present: usize, slots: u32, out: &mut [u8; 14343]) -> Ran
    requires { (length memory.old ≡ most_words 2) × (present ≤ most_slots) }
    ensures left { Left (table_outcome (table_in memory.old present) slots) result memory.old memory.new out.old out.new }
    ensures answer_value { line_told result.answer ≡ table_told slots }
{
    let count = slots as usize;
    if (1 <= count) & (count <= MOST_SLOTS) {
        memory[..count * 6].fill(0);
        let length = print_table(out, slots);
        return Ran {
            slots: count,
            length,
            answer: LineAnswer::Made(NewTable { slots }),
        };
    }
    let length = refuse(out, Cause::Shape, 0);
    Ran {
        slots: present,
        length,
        answer: LineAnswer::Refused(Cause::Shape, 0),
    }
}

fn insert_in(memory: &mut [u64], present: usize, rule: Rule, out: &mut [u8; 14343]) -> Ran
    requires { (length memory.old ≡ most_words 2) × (present ≤ most_slots) }
    ensures left { Left (insert_outcome (table_in memory.old present) rule) result memory.old memory.new out.old out.new }
    ensures answer_value { line_told result.answer ≡ insert_told (table_in memory.old present) rule }
{
    let said = insert_line(&mut memory[..present * 6], rule, out);
    let answer = said.answer;
    Ran {
        slots: present,
        length: said.length,
        answer,
    }
}

fn delete_in(memory: &mut [u64], present: usize, id: u32, out: &mut [u8; 14343]) -> Ran
    requires { (length memory.old ≡ most_words 2) × (present ≤ most_slots) }
    ensures left { Left (delete_outcome (table_in memory.old present) id) result memory.old memory.new out.old out.new }
    ensures answer_value { line_told result.answer ≡ delete_told (table_in memory.old present) id }
{
    let said = delete_line(&mut memory[..present * 6], id, out);
    let answer = said.answer;
    Ran {
        slots: present,
        length: said.length,
        answer,
    }
}

fn lookup_in(memory: &[u64], present: usize, key: [u64; 2], out: &mut [u8; 14343]) -> Ran
    requires { (length memory.now ≡ most_words 2) × (present ≤ most_slots) }
    ensures left { Left (lookup_outcome (table_in memory.now present) key) result memory.now memory.now out.old out.new }
    ensures answer_value { line_told result.answer ≡ looked_told (lookup_answer 2 (table_in memory.now present) (word key)) }
{
    let said = look_up(&memory[..present * 6], key, out);
    let answer = said.answer;
    Ran {
        slots: present,
        length: said.length,
        answer,
    }
}

// A malformed line: 13, spot the line's number.
fn malformed(present: usize, number: u64, out: &mut [u8; 14343]) -> Ran
    ensures answer_value { line_told result.answer ≡ lettered 82 (refusal Line number) }
    ensures slots_value { (result.slots ≡ present) × Shown out.old (refusal_bytes 13 number) result.length out.new }
{
    let length = print_refusal(out, cause_number(Cause::Line), number);
    Ran {
        slots: present,
        length,
        answer: LineAnswer::Refused(Cause::Line, number),
    }
}

fn run_command(
    memory: &mut [u64],
    present: usize,
    number: u64,
    command: Command,
    out: &mut [u8; 14343],
) -> Ran
    requires { (length memory.old ≡ most_words 2) × (present ≤ most_slots) }
    ensures left { Left (command_outcome (table_in memory.old present) number command) result memory.old memory.new out.old out.new }
    ensures answer_value { line_told result.answer ≡ command_told (table_in memory.old present) number command }
{
    match command {
        Command::Table(new) => new_table(memory, present, new.slots, out),
        Command::Insert(insertion) => insert_in(memory, present, inserted_rule(insertion), out),
        Command::Delete(deletion) => delete_in(memory, present, deletion.id, out),
        Command::Lookup(query) => lookup_in(memory, present, key_of(query), out),
        Command::Malformed => malformed(present, number, out),
    }
}

// A table has at most 1,024 slots: no more fit into the memory.
pub fn slots_present(slots: usize) -> usize
    ensures { result ≡ min slots most_slots }
{
    slots.min(MOST_SLOTS)
}

// One line, without its newline, of this number: what it does to the table in the memory, and what it prints.
pub fn run_line(
    memory: &mut [u64; NARROW_TABLE],
    slots: usize,
    number: u64,
    line: &[u8],
    out: &mut [u8; 14343],
) -> Ran
    ensures left { Left (line_outcome (table_in memory.old slots) number line.now) result memory.old memory.new out.old out.new }
    ensures answer_value { line_told result.answer ≡ command_told (table_in memory.old slots) number (command_of line.now) }
{
    let present = slots_present(slots);
    let command = parse(line);
    run_command(memory, present, number, command, out)
}
