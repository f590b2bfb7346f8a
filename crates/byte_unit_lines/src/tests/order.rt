//! The order of reads and writes: answers are written before the next read, and nothing is read after a failure.
use super::ended::ran;
use super::*;
use byte_unit_stream::paced::{AT_ONCE, MemoryReader, MemoryWriter, Pace, Then};
use std::cell::Cell;
use std::io::{self, Read, Write};

/// Three lines of four bytes each.
const INPUT: &[u8] = b"1KB\n2KB\n3KB\n";

/// Reads that give one line each.
const BY_LINE: Pace = Pace {
    step: 4,
    calls: usize::MAX,
    then: Then::Fail,
};

/// A reader that records at each call how many bytes a writer has accepted so far.
#[derive(Drop)]
pub struct NotingReader<'a> {
    /// The reader.
    pub inner: MemoryReader<'a>,
    /// The number of bytes that the writer has accepted.
    pub taken: &'a Cell<usize>,
    /// That number at each call so far.
    pub notes: Vec<usize>,
}

impl<'a> Read for NotingReader<'a> {
    fn read(&mut self, buf: &mut [u8]) -> io::Result<usize> {
        self.notes.push(self.taken.get())?;
        self.inner.read(buf)
    }
}

/// A writer that counts the bytes that it accepts.
#[derive(Drop)]
pub struct CountingWriter<'a> {
    /// The writer.
    pub inner: MemoryWriter,
    /// The number of bytes that it has accepted.
    pub taken: &'a Cell<usize>,
}

impl<'a> Write for CountingWriter<'a> {
    fn write(&mut self, bytes: &[u8]) -> io::Result<usize> {
        let n = self.inner.write(bytes)?;
        self.taken.set(self.taken.get().saturating_add(n));
        Ok(n)
    }

    fn flush(&mut self) -> io::Result<()> {
        self.inner.flush()
    }
}

#[test]
fn answers_are_written_before_the_next_read(rt: HostRuntime) {
    let taken = Cell::new(0);
    let mut reader = Reading::new(NotingReader {
        inner: MemoryReader {
            rest: b"1KB\n2KB\nx\n3KB",
            pace: BY_LINE,
        },
        taken: &taken,
        notes: Vec::new(rt.alloc()),
    });
    let mut writer = Writing::new(CountingWriter {
        inner: MemoryWriter {
            taken: Vec::new(rt.alloc()),
            pace: AT_ONCE,
        },
        taken: &taken,
    });
    let result = run(rt.alloc(), &mut reader, &mut writer, Kind::Byte);
    // The answers have 12, 12 and 13 bytes, and 12 for the last line, which is answered at the end of the input.
    let notes = reader.into_inner().notes;
    let found = (result, notes.as_slice(), taken.get());
    let wanted = (Ok(()), [0, 12, 24, 37, 37].as_slice(), 49);
    assert_is(&rt, found, wanted, "bytes before each read");
}

/// Asserts the answers that are written, and what is left of the input, if the writes after the first `calls` fail.
fn expect_failing_write(
    rt: &(impl Abort + AllocGlobal),
    calls: usize,
    written: &[u8],
    left: &[u8],
) {
    for then in [Then::Fail, Then::AtMost(0)] {
        let ended = ran(
            rt.alloc(),
            INPUT,
            BY_LINE,
            Pace::new(usize::MAX, calls, then),
        );
        ended.expect(rt, Err(RunError::Write), written, "writes before", &[calls]);
        assert_is(rt, ended.left, left, "left");
    }
}

#[test]
fn nothing_is_read_after_a_failure(rt: HostRuntime) {
    expect_failing_write(&rt, 0, b"", b"2KB\n3KB\n");
    expect_failing_write(&rt, 1, b"1000 = 1 KB\n", b"3KB\n");
    expect_failing_write(&rt, 2, b"1000 = 1 KB\n2000 = 2 KB\n", b"");
}
