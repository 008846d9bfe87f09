// Scripts over memory, and reads and writes that fail in mid-stream.
use crate::{NARROW_TABLE, Went, run};
use std::io;
use std::io::{Read, Write};
use std::test::Fail;

// Gives at most seven bytes a read, and fails once they are given, where it is told to.
#[derive(Drop)]
struct Pieces {
    bytes: &'static [u8],
    fails: bool,
}

impl Read for Pieces {
    fn read(&mut self, buf: &mut [u8]) -> io::Result<usize> {
        if self.fails && self.bytes.is_empty() {
            return Err(io::ErrorKind::Other.into());
        }
        let count = self.bytes.len().min(buf.len()).min(7);
        buf[..count].copy_from_slice(&self.bytes[..count]);
        self.bytes = &self.bytes[count..];
        Ok(count)
    }
}

// Takes one byte a write, and so many of them, after which each write fails.
#[derive(Drop)]
struct Full {
    taken: Vec<u8>,
    room: usize,
}

impl Write for Full {
    fn write(&mut self, buf: &[u8]) -> io::Result<usize> {
        if buf.is_empty() {
            return Ok(0);
        }
        if self.room == 0 {
            return Err(io::ErrorKind::Other.into());
        }
        self.room -= 1;
        self.taken.push(buf[0])?;
        Ok(1)
    }

    fn flush(&mut self) -> io::Result<()> {
        Ok(())
    }
}

fn run_on<R: Read, W: Write>(reader: &mut R, writer: &mut W) -> Went {
    let mut memory = [0u64; NARROW_TABLE];
    let mut buffer = [0u8; 4096];
    let mut out = [0u8; 14343];
    run(reader, writer, &mut memory, &mut buffer, &mut out)
}

#[test]
fn answers_whole_scripts(rt: HostRuntime) {
    let mut reader: &[u8] = b"T 2\nI 1 30 11* 7\nL 0101\nL 1101";
    let mut writer = Vec::new(rt.alloc());
    assert!(rt; run_on(&mut reader, &mut writer).well);
    assert_eq!(rt;
        writer.as_slice(),
        b"N 2\nP 1\nW - 0\nM\nA 0 1 7\n".as_slice()
    );
}

#[test]
fn stops_at_a_failed_read(rt: HostRuntime) {
    let mut reader = Pieces {
        bytes: b"T 2\nL 0101\nL 1",
        fails: true,
    };
    let mut writer = Vec::new(rt.alloc());
    assert!(rt; !run_on(&mut reader, &mut writer).well);
    assert_eq!(rt; writer.as_slice(), b"N 2\nM\n".as_slice());
}

#[test]
fn stops_at_a_failed_write(rt: HostRuntime) {
    let mut reader = Pieces {
        bytes: b"T 2\nL 0101\nT 3\n",
        fails: false,
    };
    let mut writer = Full {
        taken: Vec::new(rt.alloc()),
        room: 5,
    };
    assert!(rt; !run_on(&mut reader, &mut writer).well);
    assert_eq!(rt; writer.taken.as_slice(), b"N 2\nM".as_slice());
}
