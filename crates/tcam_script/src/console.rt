// A reader and a writer: what reads and writes answered, and how much was read and written, with a checksum of these bytes.
// What a system's reader gives and its writer takes no contract tells, so it is kept in private fields: the rest of the program can pass it on and
// count on it, not make it up. Of a reader and a writer whose bytes are known, as those over memory, the contracts say which bytes were moved.
ghost use Rattle.std.specs.Prelude.{◌≡◌, false, true, None, ◌+◌, ◌≤◌, min, length, take};
ghost use Rattle.tcam_script.specs.Checksum.{checksum_on, block_of};
ghost use Rattle.tcam_script.specs.Streams.{ReadGave, Wrote};

use std::io::{Read, Write};

// What reading came to: how many bytes the last read gave (`None` before any, and where it failed), how many reads were made, and the checksum of all
// their bytes. A count stays at its top.
#[derive(Clone, Copy)]
pub struct Got {
    number: Option<usize>,
    reads: u64,
    checksum: u64,
}

// What writing came to: how many bytes were handed over in all, their checksum, and whether all of them were written.
#[derive(Clone, Copy)]
pub struct Sent {
    bytes: u64,
    checksum: u64,
    well: bool,
}

// The checksum after more bytes.
fn checksum_on(before: u64, bytes: &[u8]) -> u64
    ensures { result ≡ checksum_on before bytes.now }
{
    let mut sum = before;
    for byte in bytes {
        sum = sum % 72057594037927931 * 256 + u64::from(*byte);
    }
    sum
}

// Before any read.
pub fn nothing_got() -> Got
    ensures { (result.number ≡ None) × (result.reads ≡ 0) × (result.checksum ≡ 1) }
{
    Got {
        number: None,
        reads: 0,
        checksum: 1,
    }
}

// Reads into the buffer.
pub fn receive<R: Read>(reader: &mut R, buffer: &mut [u8; 4096], before: Got) -> Got
    ensures reads_value { result.reads ≡ min (before.reads + 1) 18446744073709551615 }
    ensures checksum_value { result.checksum ≡ checksum_on before.checksum (block_of result.number buffer.new) }
    ensures gave { ReadGave result.number buffer.new (R.remaining reader.old) (R.remaining reader.new) }
{
    let reads = before.reads.saturating_add(1);
    match reader.read(buffer) {
        Ok(count) => Got {
            number: Some(count),
            reads,
            checksum: checksum_on(before.checksum, &buffer[..count]),
        },
        Err(_) => Got {
            number: None,
            reads,
            checksum: before.checksum,
        },
    }
}

// Nothing for a failure, else a number of bytes, 0 at the end of the input.
pub fn number_of(got: Got) -> Option<usize>
    ensures { result ≡ got.number }
{
    got.number
}

// Before any write.
pub fn nothing_sent() -> Sent
    ensures { (result.bytes ≡ 0) × (result.checksum ≡ 1) × (result.well ≡ true) }
{
    Sent {
        bytes: 0,
        checksum: 1,
        well: true,
    }
}

pub fn sent_well(sent: Sent) -> bool
    ensures { result ≡ sent.well }
{
    sent.well
}

// Writes all the bytes, or stops at the first write that fails or takes nothing; answers whether all were written.
fn write_bytes<W: Write>(writer: &mut W, bytes: &[u8]) -> bool
    ensures { Wrote (W.contents writer.old) (W.contents writer.new) bytes.now result }
{
    let mut done = 0;
    while done < bytes.len() {
        match writer.write(&bytes[done..]) {
            Ok(0) | Err(_) => return false,
            Ok(count) => done += count,
        }
    }
    true
}

// Writes the bytes at the start of the output. A write that failed is not made good by one after it.
pub fn send<W: Write>(writer: &mut W, out: &[u8], count: usize, before: Sent) -> Sent
    requires { count ≤ length out.now }
    ensures bytes_value { (result.bytes ≡ min (before.bytes + count) 18446744073709551615) × (before.well ≡ false → result.well ≡ false) }
    ensures checksum_value { result.checksum ≡ checksum_on before.checksum (take count out.now) }
    ensures wrote { Wrote (W.contents writer.old) (W.contents writer.new) (take count out.now) result.well }
{
    let wrote = write_bytes(writer, &out[..count]);
    Sent {
        bytes: before.bytes.saturating_add(count as u64),
        checksum: checksum_on(before.checksum, &out[..count]),
        well: before.well && wrote,
    }
}
