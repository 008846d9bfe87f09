// One line of a script as a command, with an answer for every list of bytes.
// Fields are read in the line itself; specs/ has what each field and each line means.
#![tactic(auto)]

ghost use Rattle.std.specs.Prelude.{◌≡◌, ◌∷◌};
ghost use Rattle.script_text.specs.Parts.{parts};
ghost use Rattle.script_commands.specs.Commands.{inserted_rule, key_of, letter_option, table_command, insert_command, delete_command, lookup_command};
ghost use Rattle.script_commands.specs.Commands.{short_command, after_letter, command_of};

use records::Rule;
use script_fields::{TwoWords, is_symbol_field, number_in, symbol_words};
use script_text::part_end;

// What a T line tells: the slots of the new table.
#[derive(Clone, Copy)]
pub struct NewTable {
    pub slots: u32,
}

// What a D line tells: the id to delete.
#[derive(Clone, Copy)]
pub struct Deletion {
    pub id: u32,
}

// What an I line tells: the rule to insert, in numbers.
#[derive(Clone, Copy)]
pub struct Insertion {
    pub id: u32,
    pub priority: u32,
    pub value: TwoWords,
    pub mask: TwoWords,
    pub action: u32,
}

// What an L line tells: the key to look up.
#[derive(Clone, Copy)]
pub struct Query {
    pub key: TwoWords,
}

// What a line says. A malformed line is a variant and no `None`, since it is run and answered like the others.
#[derive(Clone, Copy)]
pub enum Command {
    Table(NewTable),
    Insert(Insertion),
    Delete(Deletion),
    Lookup(Query),
    Malformed,
}

// The rule that an I line tells.
pub fn inserted_rule(insertion: Insertion) -> Rule
    ensures { result ≡ inserted_rule insertion }
{
    let value = insertion.value;
    let mask = insertion.mask;
    Rule {
        id: insertion.id,
        priority: insertion.priority,
        value: [value.high, value.low],
        mask: [mask.high, mask.low],
        action: insertion.action,
    }
}

// The words of a key, high word first.
pub fn key_of(query: Query) -> [u64; 2]
    ensures { result ≡ key_of query }
{
    let key = query.key;
    [key.high, key.low]
}

// The letter of a field of one byte.
fn letter_of(field: &[u8]) -> Option<u8>
    ensures { result ≡ letter_option field.now }
{
    match field {
        [letter] => Some(*letter),
        _ => None,
    }
}

fn table_command(slots: &[u8]) -> Command
    ensures { result ≡ table_command slots.now }
{
    match number_in(slots) {
        Some(slots) => Command::Table(NewTable { slots }),
        None => Command::Malformed,
    }
}

fn delete_command(id: &[u8]) -> Command
    ensures { result ≡ delete_command id.now }
{
    match number_in(id) {
        Some(id) => Command::Delete(Deletion { id }),
        None => Command::Malformed,
    }
}

fn lookup_command(key: &[u8]) -> Command
    ensures { result ≡ lookup_command key.now }
{
    let good = is_symbol_field(key, false);
    if good {
        let words = symbol_words(key, false);
        return Command::Lookup(Query { key: words });
    }
    Command::Malformed
}

fn insert_command(id: &[u8], priority: &[u8], pattern: &[u8], action: &[u8]) -> Command
    ensures { result ≡ insert_command id.now priority.now pattern.now action.now }
{
    let Some(id) = number_in(id) else {
        return Command::Malformed;
    };
    let Some(priority) = number_in(priority) else {
        return Command::Malformed;
    };
    let Some(action) = number_in(action) else {
        return Command::Malformed;
    };
    if !is_symbol_field(pattern, true) {
        return Command::Malformed;
    }
    Command::Insert(Insertion {
        id,
        priority,
        value: symbol_words(pattern, false),
        mask: symbol_words(pattern, true),
        action,
    })
}

// A line of two fields, by its letter.
fn short_command(letter: u8, field: &[u8]) -> Command
    ensures { result ≡ short_command letter field.now }
{
    match letter {
        b'T' => table_command(field),
        b'D' => delete_command(field),
        b'L' => lookup_command(field),
        _ => Command::Malformed,
    }
}

// A line of which two fields after the letter are known: it has two more, and no fifth.
fn after_priority(letter: u8, id: &[u8], priority: &[u8], rest: &[u8]) -> Command
    ensures { result ≡ after_letter letter (id.now ∷ priority.now ∷ parts 32 rest.now) }
{
    let end = part_end(rest, 0, b' ');
    if rest.len() <= end {
        return Command::Malformed;
    }
    let last = part_end(rest, end + 1, b' ');
    if last < rest.len() {
        return Command::Malformed;
    }
    if letter == b'I' {
        return insert_command(id, priority, &rest[..end], &rest[end + 1..]);
    }
    Command::Malformed
}

// A line of which one field after the letter is known.
fn after_id(letter: u8, id: &[u8], rest: &[u8]) -> Command
    ensures { result ≡ after_letter letter (id.now ∷ parts 32 rest.now) }
{
    let end = part_end(rest, 0, b' ');
    if rest.len() <= end {
        return Command::Malformed;
    }
    after_priority(letter, id, &rest[..end], &rest[end + 1..])
}

// What follows the letter and its space.
fn after_letter(letter: u8, rest: &[u8]) -> Command
    ensures { result ≡ after_letter letter (parts 32 rest.now) }
{
    let end = part_end(rest, 0, b' ');
    if rest.len() <= end {
        return short_command(letter, rest);
    }
    after_id(letter, &rest[..end], &rest[end + 1..])
}

// The command of a line without its newline.
pub fn parse(line: &[u8]) -> Command
    ensures { result ≡ command_of line.now }
{
    if 256 < line.len() {
        return Command::Malformed;
    }
    let end = part_end(line, 0, b' ');
    if line.len() <= end {
        return Command::Malformed;
    }
    match letter_of(&line[..end]) {
        Some(letter) => after_letter(letter, &line[end + 1..]),
        None => Command::Malformed,
    }
}
