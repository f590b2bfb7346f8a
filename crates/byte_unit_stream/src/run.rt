//! One loop over the records of an input, for any steps: it reads a chunk, converts the records that end in it, and
//! writes what was made of them.

ghost use Rattle.std.specs.Prelude.{◌≡◌, ◌∷◌, ◌++◌, ◌<◌, ℕ, List, [], take, length, IsTrue, IsErrOf, IfErr, OnOk, Err};
ghost use Rattle.byte_unit_stream.specs.Chunks.{ended_records, begun_record, nonempty_record};
ghost use Rattle.byte_unit_stream.specs.Runs.{Course, IsEnd, IsLeft};
ghost use Rattle.byte_unit_stream.specs.RecordSteps.{AreConverted, AreSteps, IsClosed, IsRecordAt, IsStep, Progress};
ghost use Rattle.byte_unit_stream.specs.RecordSteps.{Relation, start_at};
ghost use Rattle.byte_unit_stream.specs.Streams.{HasReadAll, HasWritten, reading_failed, writing_failed};

use crate::reader::Reading;
use crate::search::end_of;
use crate::writer::{Writing, tell, write_whole};
use std::alloc::{AllocError, Allocator};
use std::io::{Read, Write};

/// The length of the buffer that a program reads into: 64 KiB, as many bytes as a pipe of Linux holds by default.
pub const CHUNK: usize = 65536;

/// The reason why a run ended before the end of its input, or before the end of its output.
#[derive(Debug, Clone, Copy, PartialEq, Eq)]
pub enum RunError<E> {
    /// Allocation failed.
    Memory,
    /// A read failed.
    Read,
    /// A write failed.
    Write,
    /// A record, or the end of the input, ended the run for a reason of its own.
    Ended(E),
}

/// Converts a failed allocation to `Memory`.
impl<E> From<AllocError> for RunError<E> {
    ghost use Rattle.byte_unit_stream.specs.declared.run.RunError.TheVariants.{Memory};

    ghost from_gives = { λ _ error. error ≡ Memory };

    fn from(_: AllocError) -> RunError<E> {
        RunError::Memory
    }
}

/// The steps of a run: what it makes of each record, and what follows the last one.
pub trait RecordSteps {
    /// The reasons for which a run ends early by itself.
    type End: Copy;

    ghost State: { Type 0 };

    ghost at: { Self → Progress State };

    ghost end_byte: { Self → ℕ };

    ghost relation: { Relation State Self.End };

    /// Converts a record, the first `len` of these bytes: appends its output and its messages.
    ///
    /// Precondition (proved at every call): a record ends there.
    ///
    /// # Errors
    /// - `Ended` if the record ends the run. Its messages have been appended, and no output.
    /// - `Memory` if allocation fails. Nothing has been appended.
    fn step(&mut self, bytes: &[u8], len: usize) -> Result<(), RunError<Self::End>>
        requires { IsRecordAt (end_byte self.old) bytes.now len }
        ensures step { IsStep relation (take len bytes.now) (at self.old) (at self.new) result }
        ensures same_end { end_byte self.new ≡ end_byte self.old };

    /// Appends the output that follows the last record.
    ///
    /// # Errors
    /// - `Ended` if there is a reason not to write it. Nothing has been appended.
    /// - `Memory` if allocation fails.
    fn close(&mut self) -> Result<(), RunError<Self::End>>
        ensures { IsClosed relation (at self.old) (at self.new) result };

    /// Returns the output that is not written yet.
    fn waiting(&self) -> &[u8]
        ensures { result.now ≡ (at self.now).out };

    /// Returns the messages that are not told yet.
    fn untold(&self) -> &[u8]
        ensures { result.now ≡ (at self.now).messages };

    /// Forgets the output and the messages.
    fn clear(&mut self)
        ensures at { at self.new ≡ start_at (at self.old).state }
        ensures same_end { end_byte self.new ≡ end_byte self.old };
}

/// Reads the whole input, and writes and tells what the steps make of its records, which end with the byte `end`.
///
/// `part` is a buffer for a record that is read in more than one chunk, of at most the length of `buffer`. What `part`
/// and `steps` hold of an earlier run is dropped first. Once a write to `errors` has failed, the run goes on without
/// messages.
///
/// Preconditions (proved at every call): `buffer` is not empty, and the steps are over records that end with `end`.
///
/// # Errors
/// - `Read` if a read fails. The output of all records that ended before has been written.
/// - `Memory` if allocation fails. The output of some number of first records has been written.
/// - `Write` if a write fails. A beginning of the output has been written.
/// - `Ended` as [`RecordSteps::step`] and [`RecordSteps::close`] return it. The output of the records before has been
///   written.
pub fn run_steps<S: RecordSteps, A: Allocator, R: Read, W: Write, E: Write>(
    steps: &mut S,
    end: u8,
    part: &mut Vec<u8, A>,
    buffer: &mut [u8],
    reader: &mut Reading<R>,
    writer: &mut Writing<W>,
    errors: &mut Writing<E>,
) -> Result<(), RunError<S::End>>
    requires nonempty { 0 < length buffer.old }
    requires end { S.end_byte steps.old ≡ end }
    ensures run { (course : Course R.remaining W.contents E.contents
        reader.old reader.new writer.old writer.new errors.old errors.new)
        × IsLeft S.relation end (S.at steps.old).state course.read (HasReadAll R.remaining reader.new)
        result (S.at steps.new).state course.written course.messages }
    ensures read_failed { IsErrOf result RunError.Read → IsTrue (reading_failed reader.new) }
    ensures write_failed { IsErrOf result RunError.Write → IsTrue (writing_failed writer.new) }
{
    part.clear();
    steps.clear();
    // The goals about the loop have their names from this label.
    'reads: loop {
        match reader.read(buffer) {
            None => return Err(RunError::Read),
            Some(0) => break 'reads,
            Some(n) => {
                let fed = feed(steps, end, part, &buffer[..n]);
                // Even if the run has ended, the output of the records before is written.
                match write_whole(writer, steps.waiting(), ()) {
                    Ok(()) => tell(errors, steps.untold()),
                    Err(_) => return Err(RunError::Write),
                }
                steps.clear();
                match fed {
                    Ok(()) => {}
                    Err(error) => return Err(error),
                }
            }
        }
    }
    let last = convert_last(steps, part);
    // Told before an error is returned: a message may be the reason of `Ended`.
    tell(errors, steps.untold());
    match last {
        Ok(()) => close(steps, writer),
        Err(error) => Err(error),
    }
}

/// Converts the records that end in `bytes`.
///
/// `part` is the part of the first of them that was read before, and then the part of the next one that was read.
///
/// Precondition (proved at every call): the steps are over records that end with `end`.
///
/// # Errors
/// Those of [`RecordSteps::step`]. The output and the messages of the records before have been appended.
fn feed<S: RecordSteps, A: Allocator>(
    steps: &mut S,
    end: u8,
    part: &mut Vec<u8, A>,
    bytes: &[u8],
) -> Result<(), RunError<S::End>>
    requires { S.end_byte steps.old ≡ end }
    ensures converted { AreConverted S.relation (ended_records end part.old.items bytes.now)
        (S.at steps.old) (S.at steps.new) result }
    ensures part { OnOk result (part.new.items ≡ begun_record end part.old.items bytes.now) }
    ensures same_end { S.end_byte steps.new ≡ end }
{
    let mut rest = bytes;
    while let Some(n) = end_of(rest, end) {
        match convert_next(steps, part, rest, n) {
            Ok(()) => rest = &rest[n + 1..],
            Err(error) => return Err(error),
        }
    }
    match part.extend_from_slice(rest) {
        Ok(()) => Ok(()),
        Err(_) => Err(RunError::Memory),
    }
}

/// Converts the record that is `part` and the first `len` of these bytes, and then clears `part`.
///
/// Precondition (proved at every call): a record ends there.
///
/// # Errors
/// Those of [`RecordSteps::step`].
#[inline(always)]
fn convert_next<S: RecordSteps, A: Allocator>(
    steps: &mut S,
    part: &mut Vec<u8, A>,
    bytes: &[u8],
    len: usize,
) -> Result<(), RunError<S::End>>
    requires { IsRecordAt (S.end_byte steps.old) bytes.now len }
    ensures step { IsStep S.relation (part.old.items ++ take len bytes.now)
        (S.at steps.old) (S.at steps.new) result }
    ensures part { OnOk result (part.new.items ≡ []) }
    ensures same_end { S.end_byte steps.new ≡ S.end_byte steps.old }
{
    if part.is_empty() {
        // Nothing of the record was read before: it is converted where it lies, without a copy.
        return steps.step(bytes, len);
    }
    match part.extend_from_slice(&bytes[..len]) {
        Ok(()) => {}
        Err(_) => return Err(RunError::Memory),
    }
    let converted = steps.step(part, part.len());
    part.clear();
    converted
}

/// Converts the last record, if it is not empty.
///
/// # Errors
/// Those of [`RecordSteps::step`].
fn convert_last<S: RecordSteps>(steps: &mut S, part: &[u8]) -> Result<(), RunError<S::End>>
    ensures ok { OnOk result
        (AreSteps S.relation (nonempty_record part.now) (S.at steps.old) (S.at steps.new)) }
    ensures error { IfErr result (λ error.
        IsStep S.relation part.now (S.at steps.old) (S.at steps.new) (Err error)
        × (nonempty_record part.now ≡ part.now ∷ [])) }
{
    if part.is_empty() {
        return Ok(());
    }
    steps.step(part, part.len())
}

/// Appends the output that follows the last record, and writes all that waits.
///
/// # Errors
/// - `Memory` if allocation fails. Nothing has been written.
/// - `Ended` as [`RecordSteps::close`] returns it. What waited has been written.
/// - `Write` if a write fails. A beginning of the output has been written.
fn close<S: RecordSteps, W: Write>(
    steps: &mut S,
    writer: &mut Writing<W>,
) -> Result<(), RunError<S::End>>
    ensures written { (written : List ℕ) × HasWritten W.contents writer.old writer.new written
        × IsEnd S.relation (S.at steps.old) (S.at steps.new).state result written }
    ensures failed { IsErrOf result RunError.Write → IsTrue (writing_failed writer.new) }
{
    match steps.close() {
        Ok(()) => match write_whole(writer, steps.waiting(), ()) {
            Ok(()) => Ok(()),
            Err(_) => Err(RunError::Write),
        },
        Err(RunError::Ended(reason)) => match write_whole(writer, steps.waiting(), ()) {
            Ok(()) => Err(RunError::Ended(reason)),
            Err(_) => Err(RunError::Write),
        },
        Err(RunError::Memory) => Err(RunError::Memory),
        // Never: `close` neither reads nor writes.
        Err(RunError::Read) => Err(RunError::Read),
        Err(RunError::Write) => Err(RunError::Write),
    }
}
