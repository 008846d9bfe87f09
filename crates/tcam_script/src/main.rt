// The script program of document 01: reads standard input block by block, and prints what each line is answered.
// What a line does, prints and is refused for is the crate `script`, taking lines out of blocks `script_turns`; here bytes are only read and written.
#![tactic(auto)]

ghost use Rattle.std.specs.Prelude.{◌≡◌, ◌≤◌, ◌+◌, true, Some, length, replicate, take};
ghost use Rattle.script_transcripts.specs.Whole.{keeping, opening};
ghost use Rattle.tcam_script.specs.Checksum.{checksum_on, block_of};
ghost use Rattle.tcam_script.specs.Streams.{known, ReadGave};
ghost use Rattle.tcam_script.specs.Reads.{capped, TookBlock, TookRead, ReadAll, RanAll, Answered};

mod console;
#[cfg(test)]
mod tests;

use console::{Got, Sent, nothing_got, nothing_sent, number_of, receive, send, sent_well};
use records::NARROW_TABLE;
use script_turns::{Place, last_turn, take_turn};
use std::io::{Read, Write};

// What a block came to: what is held after it, and what writing came to.
#[derive(Drop)]
pub struct TakenBlock {
    pub place: Place,
    pub sent: Sent,
}

// What reading came to so far: what is held, what writing and the last read came to, whether there may be more input, and whether all went well.
#[derive(Drop)]
pub struct Went {
    pub place: Place,
    pub sent: Sent,
    pub got: Got,
    pub more: bool,
    pub well: bool,
}

// Takes the bytes of a block, turn by turn, and writes each answer; stops where one cannot be written.
fn run_block<W: Write>(
    writer: &mut W,
    memory: &mut [u64; NARROW_TABLE],
    line: &mut [u8; 257],
    first: Place,
    before: Sent,
    block: &[u8],
    out: &mut [u8; 14343],
) -> TakenBlock
    ensures { TookBlock block.now (keeping memory.old line.old first) before (W.contents writer.old) result.sent (W.contents writer.new) (keeping memory.new line.new result.place) }
{
    let mut place = first;
    let mut sent = before;
    let mut from = 0;
    let mut well = sent_well(sent);
    while well && from < block.len() {
        let turn = take_turn(memory, line, place, block, from, out);
        sent = send(writer, out, turn.length, sent);
        well = sent_well(sent);
        place = turn.place;
        from = turn.next;
    }
    TakenBlock { place, sent }
}

// What a read comes to: a failure, the end of the input, or so many bytes, which are taken.
fn take_read<W: Write>(
    writer: &mut W,
    memory: &mut [u64; NARROW_TABLE],
    line: &mut [u8; 257],
    place: Place,
    sent: Sent,
    buffer: &[u8],
    got: Got,
    out: &mut [u8; 14343],
) -> Went
    ensures { (result.got ≡ got) × TookRead result.got.number buffer.now (keeping memory.old line.old place) sent (W.contents writer.old) result (W.contents writer.new) (keeping memory.new line.new result.place) }
{
    match number_of(got) {
        None => Went {
            place,
            sent,
            got,
            more: false,
            well: false,
        },
        Some(0) => Went {
            place,
            sent,
            got,
            more: false,
            well: true,
        },
        Some(number) => {
            let count = number.min(buffer.len());
            let taken = run_block(writer, memory, line, place, sent, &buffer[..count], out);
            let place = taken.place;
            let sent = taken.sent;
            let well = sent_well(sent);
            Went {
                place,
                sent,
                got,
                more: well,
                well,
            }
        }
    }
}

// Reads a block and takes its bytes.
fn read_block<R: Read, W: Write>(
    reader: &mut R,
    writer: &mut W,
    memory: &mut [u64; NARROW_TABLE],
    line: &mut [u8; 257],
    before: Went,
    buffer: &mut [u8; 4096],
    out: &mut [u8; 14343],
) -> Went
    ensures reads_value { result.got.reads ≡ capped (before.got.reads + 1) }
    ensures checksum_value { result.got.checksum ≡ checksum_on before.got.checksum (block_of result.got.number buffer.new) }
    ensures gave { ReadGave result.got.number buffer.new (R.remaining reader.old) (R.remaining reader.new) }
    ensures took_read { TookRead result.got.number buffer.new (keeping memory.old line.old before.place) before.sent (W.contents writer.old) result (W.contents writer.new) (keeping memory.new line.new result.place) }
{
    let place = before.place;
    let sent = before.sent;
    let got = receive(reader, buffer, before.got);
    take_read(writer, memory, line, place, sent, buffer, got, out)
}

// Reads all blocks.
fn read_blocks<R: Read, W: Write>(
    reader: &mut R,
    writer: &mut W,
    memory: &mut [u64; NARROW_TABLE],
    line: &mut [u8; 257],
    buffer: &mut [u8; 4096],
    out: &mut [u8; 14343],
) -> Went
    ensures { ReadAll (opening memory.old line.old) (known (R.remaining reader.old) (W.contents writer.old)) result (keeping memory.new line.new result.place) (known (R.remaining reader.new) (W.contents writer.new)) }
{
    // Counted down by hand: the input ends the loop and no range does; the number proves that it ends.
    let mut turns = u64::MAX;
    let mut went = Went {
        place: Place {
            slots: 0,
            held: 0,
            number: 1,
        },
        sent: nothing_sent(),
        got: nothing_got(),
        more: true,
        well: true,
    };
    while went.more && turns > 0 {
        turns -= 1;
        went = read_block(reader, writer, memory, line, went, buffer, out);
    }
    went
}

// Reads the whole script; a read or a write that fails ends it.
fn run<R: Read, W: Write>(
    reader: &mut R,
    writer: &mut W,
    memory: &mut [u64; NARROW_TABLE],
    buffer: &mut [u8; 4096],
    out: &mut [u8; 14343],
) -> Went
    ensures ran { RanAll (opening memory.old (replicate 257 0)) (known (R.remaining reader.old) (W.contents writer.old)) result (known (R.remaining reader.new) (W.contents writer.new)) memory.new out.new }
    ensures answered { result.well ≡ true → result.got.number ≡ Some 0 → Answered (known (R.remaining reader.old) (W.contents writer.old)) result (known (R.remaining reader.new) (W.contents writer.new)) memory.new }
{
    let mut line = [0u8; 257];
    let went = read_blocks(reader, writer, memory, &mut line, buffer, out);
    if went.well {
        let turn = last_turn(memory, &line, went.place, out);
        let sent = send(writer, out, turn.length, went.sent);
        let place = turn.place;
        let got = went.got;
        return Went {
            place,
            sent,
            got,
            more: false,
            well: sent_well(sent),
        };
    }
    went
}

fn main(rt: HostRuntime) {
    let mut reader = rt.stdin();
    let mut writer = rt.stdout();
    let mut memory = [0u64; NARROW_TABLE];
    let mut buffer = [0u8; 4096];
    let mut out = [0u8; 14343];
    run(&mut reader, &mut writer, &mut memory, &mut buffer, &mut out);
}
