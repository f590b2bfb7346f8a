//! A writer that records a failure, and writing all of a buffer.

ghost use Rattle.std.specs.Prelude.{ℕ, List, false, ◌≡◌, ◌≤◌, ◌<◌, ◌↔◌, take, length};
ghost use Rattle.std.specs.Prelude.{IsTrue, IsNone, IsSome, IfNone, IfSome, IfErr, OnOk, OnErr};
ghost use Rattle.byte_unit_stream.specs.Beginnings.{IsBeginningOf};
ghost use Rattle.byte_unit_stream.specs.Runs.{HasTold};
ghost use Rattle.byte_unit_stream.specs.Streams.{HasWritten, HasWrittenNothing, writer_of, writing_failed};
ghost use Rattle.byte_unit_stream.specs.Streams.{output_closed};

use std::io::{ErrorKind, Write};

/// A writer that records whether a write has failed. After a failure it does not call the writer again.
///
/// # Examples
/// ```rust
/// use byte_unit_stream::Writing;
/// use byte_unit_stream::paced::{MemoryWriter, Pace, Then};
/// let inner = MemoryWriter { taken: Vec::new(alloc), pace: Pace::new(4, 1, Then::Fail) };
/// let mut writer = Writing::new(inner);
/// assert_eq!(rt; writer.write(b"1 KiB\n"), Some(4));
/// assert_eq!(rt; (writer.write(b"B\n"), writer.failed(), writer.closed()), (None, true, false));
/// assert_eq!(rt; writer.into_inner().taken.as_slice(), b"1 Ki".as_slice());
/// ```
#[derive(Drop)]
pub struct Writing<W> {
    /// The writer.
    inner: W,
    /// How the first write that failed has failed; `None` if none has.
    failure: Option<Failure>,
}

/// How a write failed.
#[derive(Debug, Clone, Copy, PartialEq, Eq)]
enum Failure {
    /// The reader of the output has gone.
    Closed,
    /// In any other way.
    Other,
}

impl<W: Write> Writing<W> {
    /// Creates a `Writing` over a writer, with no failure recorded.
    pub fn new(inner: W) -> Writing<W>
        ensures inner { writer_of result ≡ inner }
        ensures failed { writing_failed result ≡ false }
        ensures closed { output_closed result ≡ false }
    {
        Writing {
            inner,
            failure: None,
        }
    }

    /// Returns `true` if a write has returned `None`.
    pub fn failed(&self) -> bool
        ensures { result ≡ writing_failed self.now }
    {
        self.failure.is_some()
    }

    /// Returns `true` if a write has failed because the reader of the output has gone: with an error of the kind
    /// `BrokenPipe`.
    pub fn closed(&self) -> bool
        ensures closed { result ≡ output_closed self.now }
        ensures failed { IsTrue result → IsTrue (writing_failed self.now) }
    {
        match self.failure {
            Some(Failure::Closed) => true,
            Some(Failure::Other) | None => false,
        }
    }

    /// Returns the writer inside, with the bytes that it holds.
    pub fn into_inner(self) -> W
        ensures { result ≡ writer_of self }
    {
        let Writing { inner, failure: _ } = self;
        inner
    }

    /// Writes a non-empty beginning of `bytes` by one call of the writer, and returns its length.
    ///
    /// Precondition (proved at every call): `bytes` is not empty.
    ///
    /// Returns `None` if the writer returns an error of any kind, or accepts no byte. After a failure, returns `None`
    /// without calling the writer.
    pub fn write(&mut self, bytes: &[u8]) -> Option<usize>
        requires { 0 < length bytes.now }
        ensures bound { IfSome result (λ n. (0 < n) × (n ≤ length bytes.now)) }
        ensures took { IfSome result
            (λ n. HasWritten W.contents self.old self.new (take n bytes.now)) }
        ensures none { IfNone result (HasWrittenNothing W.contents self.old self.new) }
        ensures failed { IsTrue (writing_failed self.new) ↔ IsNone result }
        ensures stays { IsTrue (writing_failed self.old)
            → IsNone result × (self.new ≡ self.old) }
        ensures closed { IsSome result → output_closed self.new ≡ output_closed self.old }
    {
        if self.failure.is_some() {
            return None;
        }
        match self.inner.write(bytes) {
            Ok(n) if n > 0 => Some(n),
            // No byte was accepted: an error, as in `Write::write_all` of std, since a loop would not end.
            Ok(_) => {
                self.record_failure(ErrorKind::WriteZero);
                None
            }
            Err(error) => {
                self.record_failure(error.kind());
                None
            }
        }
    }

    /// Records that a write has failed with an error of this kind.
    fn record_failure(&mut self, kind: ErrorKind)
        ensures inner { writer_of self.new ≡ writer_of self.old }
        ensures failed { IsTrue (writing_failed self.new) }
        ensures closed { IsTrue (output_closed self.new) ↔ (kind ≡ ErrorKind.BrokenPipe) }
    {
        self.failure = Some(if kind == ErrorKind::BrokenPipe {
            Failure::Closed
        } else {
            Failure::Other
        });
    }
}

/// Writes all of `bytes`, in as many calls of the writer as it takes.
///
/// # Errors
///
/// Returns `error` if a write fails. A beginning of `bytes` has been written.
///
/// # Examples
/// ```rust
/// use byte_unit_stream::{Writing, write_whole};
/// use byte_unit_stream::paced::{BYTE_BY_BYTE, MemoryWriter};
/// let mut writer = Writing::new(MemoryWriter { taken: Vec::new(alloc), pace: BYTE_BY_BYTE });
/// assert!(rt; write_whole(&mut writer, b"1 KiB\n", "no output").is_ok());
/// assert_eq!(rt; writer.into_inner().taken.as_slice(), b"1 KiB\n".as_slice());
/// ```
pub fn write_whole<W: Write, E: Copy>(
    writer: &mut Writing<W>,
    bytes: &[u8],
    error: E,
) -> Result<(), E>
    ensures ok { OnOk result (HasWritten W.contents writer.old writer.new bytes.now) }
    ensures err { OnErr result ((written : List ℕ)
        × HasWritten W.contents writer.old writer.new written × IsBeginningOf written bytes.now) }
    ensures write { IfErr result (λ e. e ≡ error) }
    ensures failed { OnErr result (IsTrue (writing_failed writer.new)) }
{
    let mut rest = bytes;
    while !rest.is_empty() {
        match writer.write(rest) {
            None => return Err(error),
            Some(n) => rest = &rest[n..],
        }
    }
    Ok(())
}

/// Writes messages, unless a write has failed before. Records a failure, and no more.
pub(crate) fn tell<W: Write>(errors: &mut Writing<W>, messages: &[u8])
    ensures { HasTold W.contents errors.old errors.new messages.now }
{
    if messages.is_empty() {
        return;
    }
    if !errors.failed() {
        let _ = write_whole(errors, messages, ());
    }
}
