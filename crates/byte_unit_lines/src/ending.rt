//! A call of the program: what its arguments ask for, its run, and how it ends.

ghost use Rattle.std.specs.Prelude.{◌≡◌, ℕ, List, map, option_map, IsTrue, IfSome};
ghost use Rattle.std.specs.String.{string_bytes};
ghost use Rattle.byte_unit_lines.specs.Ending.{AskFor, IsWrittenAtEnding, status_of_ending, failure_line, line_of};
ghost use Rattle.byte_unit_stream.specs.Streams.{HasRead, HasReadAll, reading_failed};
ghost use Rattle.byte_unit_stream.specs.Streams.{HasWritten, writing_failed};
ghost use Rattle.byte_unit_stream.specs.declared.run.RunError.{RunError};

use crate::report::{RunError, run};
use byte_unit::Kind;
use byte_unit_stream::{Reading, Writing};
use std::alloc::Global;
use std::io::{Read, Write};

/// How a call of the program ended.
#[derive(Debug, Clone, Copy, PartialEq, Eq)]
pub enum Ending {
    /// All lines were answered.
    Done,
    /// The arguments are invalid.
    Usage,
    /// The run failed.
    Failed(RunError),
}

impl Ending {
    /// Returns the exit status: 0 if all lines were answered, 1 if the run failed, 2 if the arguments are invalid.
    pub fn status(self) -> u8
        ensures { result ≡ status_of_ending self }
    {
        match self {
            Ending::Done => 0,
            Ending::Failed(_) => 1,
            Ending::Usage => 2,
        }
    }

    /// Returns the line for standard error, without its line end, or `None` if all lines were answered.
    pub fn line(self) -> Option<&'static str>
        ensures { option_map (λ line. line.now) result ≡ line_of self }
    {
        match self {
            Ending::Done => None,
            Ending::Failed(error) => Some(fault_words(error)),
            Ending::Usage => Some("usage: byte_unit_lines [byte|bit]"),
        }
    }
}

/// Returns the line for standard error, without its line end, if a run fails with this error.
pub fn fault_words(error: RunError) -> &'static str
    ensures { result.now ≡ failure_line error }
{
    match error {
        RunError::Memory => "out of memory",
        RunError::Read => "read failed",
        RunError::Write => "write failed",
        RunError::Ended(never) => match never {},
    }
}

/// Runs the program for the kind of sizes that the arguments ask for. If they are invalid, reads and writes nothing.
pub fn serve<R: Read, W: Write>(
    alloc: Global,
    words: &[String],
    reader: &mut Reading<R>,
    writer: &mut Writing<W>,
) -> Ending
    ensures run { (kind : Kind) → AskFor (map string_bytes words.now) kind → (read written : List ℕ)
        × HasRead R.remaining reader.old reader.new read
        × HasWritten W.contents writer.old writer.new written
        × IsWrittenAtEnding kind read result written }
    ensures end { result ≡ Ending.Done → HasReadAll R.remaining reader.new }
    ensures read_failed { result ≡ Ending.Failed RunError.Read
        → IsTrue (reading_failed reader.new) }
    ensures write_failed { result ≡ Ending.Failed RunError.Write
        → IsTrue (writing_failed writer.new) }
    ensures usage { ((kind : Kind) → ¬ AskFor (map string_bytes words.now) kind)
        → (result ≡ Ending.Usage) × (reader.new ≡ reader.old) × (writer.new ≡ writer.old) }
{
    match kind_of(words) {
        None => Ending::Usage,
        Some(kind) => match run(alloc, reader, writer, kind) {
            Ok(()) => Ending::Done,
            Err(error) => Ending::Failed(error),
        },
    }
}

/// Returns the kind of sizes that the arguments ask for: bytes for `byte` or no argument, bits for `bit`.
///
/// Returns `None` for any other argument, and if there is more than one.
pub fn kind_of(words: &[String]) -> Option<Kind>
    ensures some { IfSome result (AskFor (map string_bytes words.now)) }
    ensures each { (kind : Kind) → AskFor (map string_bytes words.now) kind → result ≡ Some kind }
{
    match words {
        [] => Some(Kind::Byte),
        [word] => match word.as_str() {
            "byte" => Some(Kind::Byte),
            "bit" => Some(Kind::Bit),
            _ => None,
        },
        _ => None,
    }
}
