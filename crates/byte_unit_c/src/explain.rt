//! Messages for strings that are rejected, and strings as messages quote them.

ghost use Rattle.std.specs.Prelude.{◌≡◌, ℕ, ◌≤◌, List, Option, Result, Ok, IfSome, IfNone, codes};
ghost use Rattle.std.specs.Str.{IsUtf8};
ghost use Rattle.byte_unit_base.specs.Sizes.Kinds.{flags_for};
ghost use Rattle.byte_unit_base.specs.Errors.Quoted.{quote};
ghost use Rattle.byte_unit_base.specs.Reading.Results.{IsNumberReading};
ghost use Rattle.byte_unit_base.specs.declared.errors.UnitParseError.{UnitParseError};
ghost use Rattle.byte_unit_base.specs.declared.unit.Unit.{Unit as UnitName};
ghost use Rattle.byte_unit_format.specs.Written.{WritesForm};
ghost use Rattle.byte_unit_c.specs.Flags.{parse_spec_at, any_spec_at, prefers_byte};
ghost use Rattle.byte_unit_c.specs.Parse.{Explains, IsUnitBytesReading, IsUnitExplanation};

use crate::flags::{any_spec_at, parse_spec_at};
use crate::message::write_message;
use crate::parse::{read_unit_bytes, unit_flags};
use crate::texts::write;
use byte_unit_base::{
    LocatedError, MAX_QUOTE_LEN, ParseError, ParseSpec, location_at, quote, size,
};

/// Writes the error message for a string that is rejected to the start of `out`, and returns its length, at most 256
/// bytes. Returns the length and writes nothing if `out` is shorter. Returns 0 if and only if all flags are known and
/// the string represents a size, and then writes nothing. The flags are those of `byte_unit_parse_to`; for another, the
/// message is `a flag is unknown`.
///
/// Unless only the size is too large or the bytes are not UTF-8, the message ends with the number, from 1, of the first
/// wrong character, the one at the position that `byte_unit_error_position` writes, or with `(at the end of the text)`
/// if the string, without white space at its ends, ends too early.
///
/// For example, `-1` gives 47, the length of `the character '-' is not a number (character 1)`.
#[unsafe(no_mangle)]
pub extern "C" fn byte_unit_explain(text: &[u8], flags: u32, out: &mut [u8]) -> usize
    ensures reading { IfSome (any_spec_at flags) (λ spec. Explains spec text.now out.old out.new result) }
    ensures unknown_flag { IfNone (any_spec_at flags)
        (WritesForm (λ words. words ≡ codes "a flag is unknown") out.old out.new result) }
    ensures bound { result ≤ 256 }
{
    match any_spec_at(flags) {
        Some(spec) => explain_as(text, spec, out),
        None => write(b"a flag is unknown", out),
    }
}

/// Explains as `byte_unit_explain` does, with known flags.
fn explain_as(text: &[u8], spec: ParseSpec, out: &mut [u8]) -> usize
    ensures reading { Explains spec text.now out.old out.new result }
    ensures bound { result ≤ 256 }
{
    // By reference, for the row `explain 1 byte` of docs/SPEED.md.
    match &size::explain(text, spec) {
        Some(Ok(_)) => 0,
        Some(Err(error)) => write_message(error, out),
        None => write(b"the text is not UTF-8", out),
    }
}

/// Writes the error message for a string that is not a unit to the start of `out`, and returns its length, at most 256
/// bytes. Returns the length and writes nothing if `out` is shorter. Returns 0 if and only if all flags are known and
/// the string spells a unit, and then writes nothing. The flags are those of `byte_unit_parse_unit_to`; for another,
/// the message is `a flag is unknown`. It ends with the number of the first wrong character or at the end, as that of
/// `byte_unit_explain`.
///
/// For example, `Kx` gives 85, the length of
/// `the character 'x' is incorrect ('B' or 'b' or no character is expected) (character 2)`.
#[unsafe(no_mangle)]
pub extern "C" fn byte_unit_explain_unit(text: &[u8], flags: u32, out: &mut [u8]) -> usize
    ensures reading { IfSome (parse_spec_at flags)
        (λ spec. (answer : Option (Result UnitName UnitParseError))
        × IsUnitBytesReading spec.ignore_case (prefers_byte spec.kind) text.now answer
        × IsUnitExplanation text.now answer out.old out.new result) }
    ensures unknown_flag { IfNone (parse_spec_at flags)
        (WritesForm (λ words. words ≡ codes "a flag is unknown") out.old out.new result) }
    ensures bound { result ≤ 256 }
{
    match parse_spec_at(flags) {
        Some(spec) => explain_unit_as(text, spec, out),
        None => write(b"a flag is unknown", out),
    }
}

/// Explains as `byte_unit_explain_unit` does, with known flags.
fn explain_unit_as(text: &[u8], spec: ParseSpec, out: &mut [u8]) -> usize
    ensures reading { (answer : Option (Result UnitName UnitParseError))
        × IsUnitBytesReading spec.ignore_case (prefers_byte spec.kind) text.now answer
        × IsUnitExplanation text.now answer out.old out.new result }
    ensures bound { result ≤ 256 }
{
    let flags = unit_flags(spec);
    match read_unit_bytes(text, flags) {
        Some(Ok(_)) => 0,
        Some(Err(stop)) => {
            let error = LocatedError {
                error: ParseError::Unit(stop.reason.error_before(stop.next, flags)),
                expected: stop.reason.expected_before(stop.next, flags),
                location: location_at(text, stop.index, stop.next),
            };
            write_message(&error, out)
        }
        None => write(b"the text is not UTF-8", out),
    }
}

/// Writes a string for a message, as [`quote`] does, to the start of `out`, and returns its length: at most 482 bytes,
/// for 80 bytes of at most six each, as `\u{1b}`, and two dots. Returns the length and writes nothing if `out` is
/// shorter.
///
/// For example, `1` with a tab gives 6, the length of `1\u{9}`.
#[unsafe(no_mangle)]
pub extern "C" fn byte_unit_quote(text: &[u8], out: &mut [u8]) -> usize
    ensures text { WritesForm (λ quoted. quoted ≡ quote text.now) out.old out.new result }
    ensures bound { result ≤ 482 }
{
    write(quote(text, &mut [0; MAX_QUOTE_LEN]).as_bytes(), out)
}
