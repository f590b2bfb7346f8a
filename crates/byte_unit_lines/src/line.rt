//! The answer to one line.

ghost use Rattle.std.specs.Prelude.{◌≡◌, ◌∷◌, [], ◌++◌, OnErr, OnOk, cond, take};
ghost use Rattle.byte_unit.specs.Errors.Meaning.{size_fault};
ghost use Rattle.byte_unit.specs.Reading.Line.{IsLine};
ghost use Rattle.byte_unit_lines.specs.Answer.{words_of};
ghost use Rattle.byte_unit_lines.specs.Lines.{line_end};
ghost use Rattle.byte_unit_lines.specs.Answered.{AddsAnswer};

use byte_unit::{Kind, ParseError, ParseSpec, ValueParseError, parse_line, write_with_digits};
use std::alloc::{AllocError, Allocator};

/// A bound on the length in bytes of an answer: two strings of at most 37 bytes, ` = ` between them, and the line end.
/// No text of a size without a width is longer than 37 bytes.
const ANSWER_MAX: usize = 78;

/// Appends the answer to the line at the beginning of bytes, its first `len` bytes, with its line end.
///
/// Precondition (proved at every call): `len <= bytes.len()`, and the line ends there: the next byte is a line end, or
/// there is none.
///
/// # Errors
/// Returns `AllocError`, and appends nothing, if allocation fails.
pub(crate) fn add_answer<A: Allocator>(
    bytes: &[u8],
    len: usize,
    kind: Kind,
    out: &mut Vec<u8, A>,
) -> Result<(), AllocError>
    requires { IsLine bytes.now len }
    ensures ok { OnOk result (AddsAnswer kind (take len bytes.now) out.old.items out.new.items) }
    ensures err { OnErr result (out.new.items ≡ out.old.items) }
{
    match kind {
        Kind::Byte => add_answer_of::<false, A>(bytes, len, out),
        Kind::Bit => add_answer_of::<true, A>(bytes, len, out),
    }
}

/// Does what [`add_answer`] does, with a size in bits if `BITS`, and else in bytes.
///
/// The kind is a constant for the row `1.5 KiB` of lines in docs/SPEED.md, and the arm for errors comes before that for
/// sizes for the row `rejected lines`.
fn add_answer_of<const BITS: bool, A: Allocator>(
    bytes: &[u8],
    len: usize,
    out: &mut Vec<u8, A>,
) -> Result<(), AllocError>
    requires { IsLine bytes.now len }
    ensures ok { OnOk result (AddsAnswer (cond BITS Kind.Bit Kind.Byte)
        (take len bytes.now) out.old.items out.new.items) }
    ensures err { OnErr result (out.new.items ≡ out.old.items) }
{
    let spec = if BITS {
        ParseSpec::BITS
    } else {
        ParseSpec::BYTES
    };
    match parse_line(bytes, len, spec) {
        None => out.extend_from_slice(b"not text\n"),
        Some(Err(error)) => out.extend_from_slice(fault_line_of(&error)),
        Some(Ok(size)) => {
            let mut answer = [0; ANSWER_MAX];
            let end = write_with_digits(size, spec.kind, *b" = ", &mut answer);
            answer[end] = b'\n';
            out.extend_from_slice(&answer[..end + 1])
        }
    }
}

/// Returns the message for a parse error, with the line end.
fn fault_line_of(error: &ParseError) -> &'static [u8]
    ensures { result.now ≡ words_of (size_fault error.now) ++ line_end ∷ [] }
{
    match error {
        ParseError::Value(ValueParseError::ExceededBounds(_)) => b"out of range\n",
        ParseError::Value(ValueParseError::NotNumber(_)) => b"not a number\n",
        ParseError::Value(ValueParseError::NoValue) => b"no value\n",
        ParseError::Value(ValueParseError::NumberTooLong) => b"number too long\n",
        ParseError::Unit(_) => b"bad unit\n",
    }
}
