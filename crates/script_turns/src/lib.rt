// Reading a script block by block: each turn takes bytes out of a block, and runs the line that they complete.
// What is held between turns is a few numbers, the table's memory and the line's buffer; however the input is cut, the answers are the same.
#![tactic(auto)]

ghost use Rattle.std.specs.Prelude.{◌≡◌, ◌*◌, min, length, drop};
ghost use Rattle.records.specs.Record.{most_words};
ghost use Rattle.script_lines.specs.Held.{taken_of};
ghost use Rattle.script_lines.specs.Blocks.{handed_out, finished};
ghost use Rattle.script.specs.Script.{line_outcome, table_in};
ghost use Rattle.script_turns.specs.Reading.{Turned, reading_of, turn_of};

use records::NARROW_TABLE;
use script::{run_line, slots_present};
use script_lines::{line_stands, next_number, take_bytes};

// What is held between turns: the slots of the table, the bytes held of a line, and the line's number.
#[derive(Clone, Copy)]
pub struct Place {
    pub slots: usize,
    pub held: usize,
    pub number: u64,
}

// What a turn came to: the place after it, where to go on in the block, and how many bytes its answer has.
// A turn that completes no line has an answer of no bytes, which is a length like any other and no `None`.
#[derive(Clone, Copy)]
pub struct Turn {
    pub place: Place,
    pub next: usize,
    pub length: usize,
}

// No more bytes are held than the line's buffer has.
fn bytes_held(held: usize, size: usize) -> usize
    ensures { result ≡ min held size }
{
    held.min(size)
}

// The slots of the table in the memory, which has room for 1,024.
fn slots_in(memory: &[u64], slots: usize) -> usize
    requires { length memory.now ≡ most_words 2 }
    ensures { result * 6 ≡ length (table_in memory.now slots) }
{
    slots_present(slots)
}

// The line held is run, and the next line begins.
fn run_held(
    memory: &mut [u64; NARROW_TABLE],
    line: &[u8],
    place: Place,
    next: usize,
    out: &mut [u8; 14343],
) -> Turn
    ensures { Turned (handed_out line_outcome (reading_of memory.old line.now place)) next result memory.old memory.new line.now out.old out.new }
{
    let count = bytes_held(place.held, line.len());
    let ran = run_line(memory, place.slots, place.number, &line[..count], out);
    Turn {
        place: Place {
            slots: ran.slots,
            held: 0,
            number: next_number(place.number),
        },
        next,
        length: ran.length,
    }
}

// Takes bytes out of a block, from a place in it on, and runs the line that they complete.
pub fn take_turn(
    memory: &mut [u64; NARROW_TABLE],
    line: &mut [u8; 257],
    place: Place,
    block: &[u8],
    from: usize,
    out: &mut [u8; 14343],
) -> Turn
    ensures { Turned (turn_of (reading_of memory.old line.old place) block.now from) (taken_of (length line.old) place.held (drop from block.now) from).next result memory.old memory.new line.new out.old out.new }
{
    let taken = take_bytes(line, place.held, block, from);
    let after = Place {
        slots: slots_in(memory, place.slots),
        held: taken.held,
        number: place.number,
    };
    if taken.complete {
        return run_held(memory, line, after, taken.next, out);
    }
    Turn {
        place: after,
        next: taken.next,
        length: 0,
    }
}

// At the end of the input: the last line, where it lacks its newline.
pub fn last_turn(
    memory: &mut [u64; NARROW_TABLE],
    line: &[u8; 257],
    place: Place,
    out: &mut [u8; 14343],
) -> Turn
    ensures { Turned (finished line_outcome (reading_of memory.old line.now place)) 0 result memory.old memory.new line.now out.old out.new }
{
    if line_stands(place.held) {
        return run_held(memory, line, place, 0, out);
    }
    Turn {
        place: Place {
            slots: slots_in(memory, place.slots),
            held: place.held,
            number: place.number,
        },
        next: 0,
        length: 0,
    }
}
