// Lines out of blocks of bytes, however the input is cut into blocks: one line is held at a time, and each has its number.
// The program lends a buffer with one byte more than a line may have, so that a longer line is known by the bytes held.
#![tactic(auto)]

ghost use Rattle.std.specs.Prelude.{◌≡◌, ◌+◌, length, drop};
ghost use Rattle.script_text.specs.Parts.{first_part};
ghost use Rattle.script_lines.specs.Lines.{next_number};
ghost use Rattle.script_lines.specs.Held.{room, taken_of, held_line, standing};

use script_text::part_end;

// What taking bytes out of a block came to: the bytes of the line that are held, the place after those taken, and whether the line is complete.
// The place is one whether or not the line is complete, so that the flag is no `Option` of it.
#[derive(Clone, Copy)]
pub struct Taken {
    pub held: usize,
    pub next: usize,
    pub complete: bool,
}

// How many bytes of a piece there is still room for.
fn room_for(size: usize, held: usize, count: usize) -> usize
    ensures { result ≡ room size held count }
{
    count.min(size.saturating_sub(held))
}

// Puts a piece behind the bytes held, as far as there is room.
fn hold(line: &mut [u8], held: usize, piece: &[u8]) -> usize
    ensures value { result ≡ held + room (length line.old) held (length piece.now) }
    ensures line_after { line.new ≡ held_line line.old held piece.now }
{
    let count = room_for(line.len(), held, piece.len());
    for at in 0..count {
        line[held + at] = piece[at];
    }
    held + count
}

// Takes the bytes of a line out of a block, from a place on: up to the newline, which is passed over, or to the block's end.
pub fn take_bytes(line: &mut [u8], held: usize, block: &[u8], from: usize) -> Taken
    ensures value { result ≡ taken_of (length line.old) held (drop from block.now) from }
    ensures line_after { line.new ≡ held_line line.old held (first_part 10 (drop from block.now)) }
{
    if block.len() <= from {
        return Taken {
            held,
            next: from,
            complete: false,
        };
    }
    let end = part_end(block, from, b'\n');
    let count = hold(line, held, &block[from..end]);
    if end < block.len() {
        return Taken {
            held: count,
            next: end + 1,
            complete: true,
        };
    }
    Taken {
        held: count,
        next: end,
        complete: false,
    }
}

// Whether a line stands there at the end of the input: the last one may lack its newline, and nothing is no line.
pub fn line_stands(held: usize) -> bool
    ensures { result ≡ standing held }
{
    0 < held
}

// The number of the next line; it stays at its top.
pub fn next_number(number: u64) -> u64
    ensures { result ≡ next_number number }
{
    number.saturating_add(1)
}
