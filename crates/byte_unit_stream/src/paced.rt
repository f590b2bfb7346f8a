//! A reader and a writer in memory that go in steps and change their behavior after some calls, for tests.

ghost use Rattle.std.specs.Prelude.{◌≡◌};

use std::io::{self, Error, ErrorKind, Read, Write};

/// Each call transfers all bytes. `step` has no meaning if `calls` is 0.
pub const AT_ONCE: Pace = Pace {
    step: 0,
    calls: 0,
    then: Then::AtMost(usize::MAX),
};

/// Each call transfers one byte.
pub const BYTE_BY_BYTE: Pace = Pace {
    step: 0,
    calls: 0,
    then: Then::AtMost(1),
};

/// Each call transfers all bytes but one, and at least one.
pub const ALL_BUT_ONE: Pace = Pace {
    step: 0,
    calls: 0,
    then: Then::AllButOne,
};

/// What a stream does after a number of calls.
#[derive(Clone, Copy)]
pub enum Then {
    /// Each call fails.
    Fail,
    /// Each call transfers at most this many bytes. If it is 0, a write accepts no byte, and a read is at the end of
    /// the input.
    AtMost(usize),
    /// Each call transfers all bytes but one, and at least one.
    AllButOne,
}

/// The numbers of bytes that the calls of a stream transfer.
#[derive(Clone, Copy)]
pub struct Pace {
    /// The most bytes that each of the first calls transfers.
    pub step: usize,
    /// The number of these calls.
    pub calls: usize,
    /// What the stream does after them.
    pub then: Then,
}

impl Pace {
    /// Creates the pace of a stream that transfers at most `step` bytes in each of the first `calls` calls, and then
    /// does what `then` says.
    pub fn new(step: usize, calls: usize, then: Then) -> Pace
        ensures step { result.step ≡ step }
        ensures calls { result.calls ≡ calls }
        ensures then { result.then ≡ then }
    {
        Pace { step, calls, then }
    }

    /// Returns the most bytes that the next call transfers, if it asks for `asked`, and counts the call.
    ///
    /// # Errors
    /// Returns an error if the call fails.
    fn next(&mut self, asked: usize) -> io::Result<usize> {
        if self.calls > 0 {
            self.calls -= 1;
            return Ok(self.step);
        }
        match self.then {
            Then::Fail => Err(Error::from(ErrorKind::Other)),
            Then::AtMost(most) => Ok(most),
            Then::AllButOne => Ok(asked.saturating_sub(1).max(1)),
        }
    }
}

/// A reader that gives the bytes that are left at a pace.
#[derive(Drop)]
pub struct MemoryReader<'a> {
    /// The bytes that are left.
    pub rest: &'a [u8],
    /// The pace.
    pub pace: Pace,
}

impl<'a> Read for MemoryReader<'a> {
    fn read(&mut self, buf: &mut [u8]) -> io::Result<usize> {
        // No call transfers more than is left, nor more than there is room for.
        let asked = self.rest.len().min(buf.len());
        let n = self.pace.next(asked)?.min(asked);
        let (front, rest) = self.rest.split_at(n);
        buf[..n].copy_from_slice(front);
        self.rest = rest;
        Ok(n)
    }
}

/// A writer that accepts bytes at a pace.
#[derive(Drop)]
pub struct MemoryWriter {
    /// The bytes that were accepted.
    pub taken: Vec<u8>,
    /// The pace.
    pub pace: Pace,
}

impl Write for MemoryWriter {
    fn write(&mut self, bytes: &[u8]) -> io::Result<usize> {
        let n = self.pace.next(bytes.len())?.min(bytes.len());
        self.taken.extend_from_slice(&bytes[..n])?;
        Ok(n)
    }

    fn flush(&mut self) -> io::Result<()> {
        Ok(())
    }
}
