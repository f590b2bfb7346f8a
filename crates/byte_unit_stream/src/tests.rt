//! Tests of a reader, a writer and a whole buffer at each pace, of failures, and of the search for an end.

use crate::paced::{ALL_BUT_ONE, AT_ONCE, BYTE_BY_BYTE, MemoryReader, MemoryWriter, Pace, Then};
use crate::{Reading, Writing, end_of, write_whole};
use std::io::{self, Error, ErrorKind, Read, Write};
use std::process::Abort;

/// The bytes that are read and written.
const BYTES: &[u8] = b"0123456789";

/// Returns a writer in memory with this pace.
fn writer(rt: &(impl Abort + AllocGlobal), pace: Pace) -> Writing<MemoryWriter> {
    Writing::new(MemoryWriter {
        taken: Vec::new(rt.alloc()),
        pace,
    })
}

#[test]
fn each_pace_of_reads(rt: HostRuntime) {
    // At most three bytes in each of 100 calls, which are more than the test makes.
    let three = Pace::new(3, 100, Then::AtMost(usize::MAX));
    for (number, pace) in [AT_ONCE, BYTE_BY_BYTE, ALL_BUT_ONE, three]
        .iter()
        .enumerate()
    {
        let mut reader = Reading::new(MemoryReader {
            rest: BYTES,
            pace: *pace,
        });
        let mut read = Vec::new(rt.alloc());
        // Neither one byte nor all of them, so a pace limits some reads and the buffer others.
        let mut buffer = [0u8; 4];
        // As many calls as the slowest pace needs, one a byte; a faster one reads nothing in those that are left.
        for _ in 0..BYTES.len() {
            let n = reader.read(&mut buffer).unwrap_or(0);
            read.extend_from_slice(&buffer[..n]).expect(&rt, "memory");
        }
        let end = (reader.read(&mut buffer), reader.failed());
        assert_eq!(rt;
            (read.as_slice(), end),
            (BYTES, (Some(0), false)),
            "pace {number}"
        );
    }
}

/// The numbers of writes of three bytes, before one that fails or accepts no byte, and the bytes of `BYTES` that are
/// written.
const WRITES: &[(usize, &[u8])] = &[(0, b""), (1, b"012"), (3, b"012345678"), (4, BYTES)];

/// Asserts the bytes of `BYTES` that are written at this pace, and that the call succeeds exactly if these are all of
/// them.
fn expect_written(rt: &(impl Abort + AllocGlobal), pace: Pace, written: &[u8]) {
    let mut writer = writer(rt, pace);
    let result = write_whole(&mut writer, BYTES, "failed");
    let is_whole = written == BYTES;
    let wanted = if is_whole { Ok(()) } else { Err("failed") };
    assert_eq!(rt; (result, writer.failed()), (wanted, !is_whole));
    assert_eq!(rt; writer.into_inner().taken.as_slice(), written);
}

#[test]
fn each_pace_of_writes(rt: HostRuntime) {
    for pace in [AT_ONCE, BYTE_BY_BYTE, ALL_BUT_ONE] {
        expect_written(&rt, pace, BYTES);
    }
    for (calls, written) in WRITES {
        expect_written(&rt, Pace::new(3, *calls, Then::Fail), written);
        expect_written(&rt, Pace::new(3, *calls, Then::AtMost(0)), written);
    }
}

#[test]
fn a_failure_is_remembered(rt: HostRuntime) {
    let mut buffer = [0u8; 8];
    let mut reader = Reading::new(MemoryReader {
        rest: BYTES,
        pace: Pace::new(1, 1, Then::Fail),
    });
    let first = (reader.read(&mut buffer), reader.failed());
    let second = (reader.read(&mut buffer), reader.failed());
    assert_eq!(rt; [first, second], [(Some(1), false), (None, true)]);
    // The reader inside has lost no byte: at another pace it goes on with the next one.
    let mut inner = reader.into_inner();
    inner.pace = BYTE_BY_BYTE;
    assert_eq!(rt;
        (inner.read(&mut buffer).ok(), buffer[0], inner.rest),
        (Some(1), BYTES[1], &BYTES[2..])
    );

    let mut writer = writer(&rt, Pace::new(usize::MAX, 1, Then::Fail));
    let first = (writer.write(b"12"), writer.failed());
    let second = (writer.write(b"34"), writer.failed());
    assert_eq!(rt; [first, second], [(Some(2), false), (None, true)]);
    // The writer inside goes on too, after the bytes that it has accepted.
    let mut inner = writer.into_inner();
    inner.pace = BYTE_BY_BYTE;
    assert_eq!(rt;
        (inner.write(b"56").ok(), inner.taken.as_slice()),
        (Some(1), b"125".as_slice())
    );
}

/// A writer that fails with an error of this kind.
#[derive(Drop)]
struct Failing(ErrorKind);

impl Write for Failing {
    fn write(&mut self, _bytes: &[u8]) -> io::Result<usize> {
        Err(Error::from(self.0))
    }

    fn flush(&mut self) -> io::Result<()> {
        Ok(())
    }
}

#[test]
fn only_a_broken_pipe_closes(rt: HostRuntime) {
    for (kind, closed) in [(ErrorKind::BrokenPipe, true), (ErrorKind::Other, false)] {
        let mut writer = Writing::new(Failing(kind));
        let before = writer.closed();
        let found = (before, writer.write(b"1"), writer.failed(), writer.closed());
        assert_eq!(rt; found, (false, None, true, closed), "{kind:?}");
    }
    // A writer that accepts no byte has failed, but its reader has not gone.
    let mut writer = writer(&rt, Pace::new(0, 0, Then::AtMost(0)));
    assert_eq!(rt;
        (writer.write(b"1"), writer.failed(), writer.closed()),
        (None, true, false)
    );
}

#[test]
fn each_place_of_an_end(rt: HostRuntime) {
    // The ends of records that programs use, and a byte whose highest bit is set.
    for end in [b'\n', 0, 0xFF] {
        // Two bytes with this end, and before it bytes that differ from it in the highest bit.
        let other = end ^ 0x80;
        // 50 bytes: three vectors of 16 bytes, and two bytes after them.
        for place in 0..50usize {
            let mut bytes = [other; 50];
            bytes[place] = end;
            bytes[49] = end;
            for len in 0..=bytes.len() {
                let wanted = if place < len { Some(place) } else { None };
                assert_eq!(rt;
                    end_of(&bytes[..len], end),
                    wanted,
                    "{end} at {place} of {len}"
                );
            }
        }
    }
}
