//! The report on an input: the answers to its lines. The run is that of `byte_unit_stream`, with an answer as its step.

ghost use Rattle.std.specs.Prelude.{◌<◌, ℕ, List, length, IsTrue, IsErrOf, OnOk};
ghost use Rattle.byte_unit_lines.specs.RunOutput.{AreEmpty, IsWritten};
ghost use Rattle.byte_unit_stream.specs.Streams.{HasRead, HasReadAll, reading_failed};
ghost use Rattle.byte_unit_stream.specs.Streams.{HasWritten, writing_failed};
ghost use Rattle.byte_unit_stream.specs.declared.run.RunError.{RunError};

use crate::laws::each_line_has_an_answer;
use crate::line::add_answer;
use byte_unit::Kind;
use byte_unit_stream::run::{self, CHUNK, RecordSteps, run_steps};
use byte_unit_stream::{Reading, Writing};
use std::alloc::{Allocator, Global};
use std::convert::Infallible;
use std::io::{self, Read, Write};

/// The byte that ends a line.
const LINE_END: u8 = b'\n';

/// The reason why a run ended before the end of its input. No line is one.
pub type RunError = run::RunError<Infallible>;

/// The answers that are not written yet.
#[derive(Drop)]
pub(crate) struct Answers<A: Allocator> {
    /// The kind of the sizes.
    pub(crate) kind: Kind,
    /// The answers, each whole.
    pub(crate) waiting: Vec<u8, A>,
}

impl<A: Allocator> RecordSteps for Answers<A> {
    ghost use Rattle.std.specs.Prelude.{[]};
    ghost use Rattle.byte_unit_lines.specs.Answer.{Kind};
    ghost use Rattle.byte_unit_lines.specs.Answered.{answering};
    ghost use Rattle.byte_unit_lines.specs.Lines.{line_end};

    type End = Infallible;

    ghost State = { Kind };

    ghost at = { λ answers. record { state = answers.kind; out = answers.waiting.items; messages = [] } };

    ghost end_byte = { λ _. line_end };

    ghost relation = { answering };

    // Inlined for the row `1.5 KiB` of lines in docs/SPEED.md.
    #[inline(always)]
    fn step(&mut self, bytes: &[u8], len: usize) -> Result<(), RunError> {
        match add_answer(bytes, len, self.kind, &mut self.waiting) {
            Ok(()) => Ok(()),
            Err(_) => Err(RunError::Memory),
        }
    }

    fn close(&mut self) -> Result<(), RunError> {
        Ok(())
    }

    fn waiting(&self) -> &[u8] {
        &self.waiting
    }

    fn untold(&self) -> &[u8] {
        &[]
    }

    fn clear(&mut self) {
        self.waiting.clear();
    }
}

/// What a run keeps from one read to the next.
#[derive(Drop)]
pub struct Buffers<A: Allocator> {
    /// The answers that are not written yet.
    pub(crate) answers: Answers<A>,
    /// The part that was read of a line whose end was not read yet.
    pub(crate) line: Vec<u8, A>,
}

impl<A: Allocator + Copy> Buffers<A> {
    /// Creates empty buffers. Does not allocate.
    pub fn new(alloc: A) -> Buffers<A>
        ensures { AreEmpty result }
    {
        Buffers {
            answers: Answers {
                kind: Kind::Byte,
                waiting: Vec::new(alloc),
            },
            line: Vec::new(alloc),
        }
    }
}

/// Reads the whole input, and writes the answer to each line.
///
/// On `Ok` the report on the whole input has been written. A line may have any length: that `Memory` is returned only
/// if an allocation fails is tested, through [`run_with_buffers`], not proved.
///
/// # Errors
/// - `Read` if a read fails. The answers to all lines that ended before have been written.
/// - `Memory` if allocation fails. The answers to some number of first lines have been written, each whole.
/// - `Write` if a write fails. A beginning of the report on what was read has been written.
pub fn run<R: Read, W: Write>(
    alloc: Global,
    reader: &mut Reading<R>,
    writer: &mut Writing<W>,
    kind: Kind,
) -> Result<(), RunError>
    ensures run { (read written : List ℕ)
        × HasRead R.remaining reader.old reader.new read
        × HasWritten W.contents writer.old writer.new written
        × IsWritten kind read result written }
    ensures end { OnOk result (HasReadAll R.remaining reader.new) }
    ensures read_failed { IsErrOf result RunError.Read → IsTrue (reading_failed reader.new) }
    ensures write_failed { IsErrOf result RunError.Write → IsTrue (writing_failed writer.new) }
{
    let mut buffer = [0u8; CHUNK];
    let mut buffers = Buffers::new(alloc);
    run_with_buffers(&mut buffers, &mut buffer, reader, writer, kind)
}

/// Does what [`run`] does, with any allocator, in the caller's buffers; it reads into `buffer`.
///
/// The buffers may be those of an earlier run, whatever its result: what they hold is dropped first.
///
/// Precondition (proved at every call): `buffer` is not empty.
///
/// # Errors
/// Those of [`run`].
pub fn run_with_buffers<A: Allocator, R: Read, W: Write>(
    buffers: &mut Buffers<A>,
    buffer: &mut [u8],
    reader: &mut Reading<R>,
    writer: &mut Writing<W>,
    kind: Kind,
) -> Result<(), RunError>
    requires { 0 < length buffer.old }
    ensures run { (read written : List ℕ)
        × HasRead R.remaining reader.old reader.new read
        × HasWritten W.contents writer.old writer.new written
        × IsWritten kind read result written }
    ensures end { OnOk result (HasReadAll R.remaining reader.new) }
    ensures read_failed { IsErrOf result RunError.Read → IsTrue (reading_failed reader.new) }
    ensures write_failed { IsErrOf result RunError.Write → IsTrue (writing_failed writer.new) }
{
    // For the proof: a report that was begun has an answer to each unanswered line too.
    each_line_has_an_answer();
    buffers.answers.kind = kind;
    // No line has messages.
    let mut errors = Writing::new(io::sink());
    run_steps(
        &mut buffers.answers,
        LINE_END,
        &mut buffers.line,
        buffer,
        reader,
        writer,
        &mut errors,
    )
}
