//! Parsing of sizes and of units.

ghost use Rattle.std.specs.Prelude.{◌≡◌, ℕ, List, Option, Some, Result, IfSome, IfNone, MatchOption};
ghost use Rattle.std.specs.Str.{IsUtf8};
ghost use Rattle.byte_unit_base.specs.Errors.Meaning.{value_fault};
ghost use Rattle.byte_unit_base.specs.Reading.Ends.{IsUnitOrStop};
ghost use Rattle.byte_unit_base.specs.Grammar.Units.{shape_of};
ghost use Rattle.byte_unit_base.specs.Grammar.Version.{current};
ghost use Rattle.byte_unit_base.specs.Sizes.Accepted.{IsMeasureAs};
ghost use Rattle.byte_unit_base.specs.Grammar.Spelling.{flags_of};
ghost use Rattle.byte_unit_base.specs.declared.errors.UnitParseError.{UnitParseError};
ghost use Rattle.byte_unit_base.specs.declared.unit.Unit.{Unit as UnitName};
ghost use Rattle.byte_unit_c.specs.Flags.{parse_spec_at, prefers_byte};
ghost use Rattle.byte_unit_c.specs.Error.{invalid_argument, code_of, IsWrittenAt, IsStopWritten, IsUnitStopWritten};
ghost use Rattle.byte_unit_c.specs.Parse.{IsUnitBytesReading, IsUnitReturned, Parses};

use crate::codes::unit_code;
use crate::error::{Error, INVALID_ARGUMENT, NOT_UTF8, OK, UNIT, bytes_of, value_code};
use crate::flags::parse_spec_at;
use crate::values::Number;
use byte_unit_base::{
    Flags, Kind, Measure, ParseSpec, Reason, Stop, Unit, UnitStop, ValueParseError,
    measure_in_words, read_text, read_unit_text, size,
};
use std::str;

/// Parses a size, rounded up to the next whole byte, or to the next whole bit with the flag `BITS` (1). Sizes are below
/// 10^30. With the flag `IGNORE_CASE` (2) the suffix `b` means bytes too. Sizes in bits are always case-sensitive: with
/// `BITS`, `IGNORE_CASE` has no effect.
///
/// Returns `OK` and writes `size` if the string represents a size. Otherwise returns the code of the error and writes
/// its details to the first of `error`, if it is not empty. Returns `NOT_UTF8` and writes nothing if the bytes are not
/// UTF-8, and `INVALID_ARGUMENT` and writes nothing if another flag is set. What is not written is unchanged.
///
/// For example, `1.5 KiB` in bytes gives `OK` and the size 1536, and `1 x` gives `UNIT` with the character `x`.
#[unsafe(no_mangle)]
pub extern "C" fn byte_unit_parse_to(
    text: &[u8],
    flags: u32,
    size: &mut Number,
    error: &mut [Error],
) -> u32
    ensures reading { IfSome (parse_spec_at flags)
        (λ spec. Parses spec text.now result size.old size.new error.old error.new) }
    ensures rejected { IfNone (parse_spec_at flags)
        ((result ≡ invalid_argument) × (size.new ≡ size.old) × (error.new ≡ error.old)) }
{
    match parse_spec_at(flags) {
        Some(spec) => parse_as(text, spec, size, error),
        None => INVALID_ARGUMENT,
    }
}

/// Parses as `byte_unit_parse_to` does, with known flags.
#[inline(always)]
pub fn parse_as(text: &[u8], spec: ParseSpec, size: &mut Number, errors: &mut [Error]) -> u32
    ensures { Parses spec text.now result size.old size.new errors.old errors.new }
{
    let flags = spec.flags();
    match read_text(text, flags) {
        Some(Ok(found)) => write_size(found, spec, size, errors),
        Some(Err(stop)) => match measure_in_words(text, spec) {
            Some(found) => write_size(found, spec, size, errors),
            None => write_stop(stop, flags, errors),
        },
        None => NOT_UTF8,
    }
}

/// Writes the size of a string with this unit and this number, or the details of the error that it is too large, and
/// returns the code.
#[inline(always)]
fn write_size(found: Measure, spec: ParseSpec, size: &mut Number, errors: &mut [Error]) -> u32
    ensures { (bytes : List ℕ) → IsUtf8 bytes
        → IsMeasureAs spec current bytes found.number (shape_of found.unit)
        → Parses spec bytes result size.old size.new errors.old errors.new }
{
    let number = found.number;
    match size::size_of(found, spec) {
        Ok(in_kind) => {
            *size = Number::new(in_kind);
            OK
        }
        Err(_) => write_value(ValueParseError::ExceededBounds(number), 0, errors),
    }
}

/// Writes the details of the error of a string in which the parser stops here, and returns its code.
#[inline(always)]
fn write_stop(stop: Stop<Reason>, flags: Flags, errors: &mut [Error]) -> u32
    ensures { IsStopWritten flags stop result errors.old errors.new }
{
    match stop.reason {
        Reason::InNumber(reason) => write_value(reason.error_before(stop.next), stop.index, errors),
        Reason::InUnit(reason) => {
            let stop = Stop {
                reason,
                next: stop.next,
                index: stop.index,
            };
            write_unit_stop(stop, flags, errors);
            UNIT
        }
    }
}

/// Writes the details of an error in a number with its position, and returns its code.
#[inline(always)]
fn write_value(error: ValueParseError, position: usize, errors: &mut [Error]) -> u32
    ensures code { result ≡ code_of (value_fault error) }
    ensures written { IsWrittenAt position (value_fault error) errors.old errors.new }
{
    let code = value_code(&error);
    Error::of_value(error, position).write(errors);
    code
}

/// Writes the error of a string in which the parser of a unit stops here.
#[inline(always)]
fn write_unit_stop(stop: Stop<UnitStop>, flags: Flags, errors: &mut [Error])
    ensures { IsUnitStopWritten flags stop errors.old errors.new }
{
    let expected = bytes_of(stop.reason.expected_before(stop.next, flags));
    let error = stop.reason.error_before(stop.next, flags);
    let may_end = error.also_expect_no_character;
    Error::of_unit_parts(error.character, expected, may_end, stop.index).write(errors);
}

/// Parses a unit by one of its spellings, as `Unit::parse_str` does, and writes its code to `unit`. A spelling without
/// a suffix is of bytes, or of bits with the flag `BITS` (1). With the flag `IGNORE_CASE` (2) the suffix `b` means
/// bytes too.
///
/// Returns `OK` and writes `unit` if the string spells a unit. Otherwise returns `UNIT` and writes the details of the
/// error to the first of `error`, if it is not empty. Returns `NOT_UTF8` and writes nothing if the bytes are not UTF-8,
/// and `INVALID_ARGUMENT` and writes nothing if another flag is set. What is not written is unchanged.
///
/// For example, `KiB` gives `OK` and the unit 5, and `Kx` gives `UNIT` with the character `x`.
#[unsafe(no_mangle)]
pub extern "C" fn byte_unit_parse_unit_to(
    text: &[u8],
    flags: u32,
    unit: &mut u32,
    error: &mut [Error],
) -> u32
    ensures reading { IfSome (parse_spec_at flags)
        (λ spec. (answer : Option (Result UnitName UnitParseError))
        × IsUnitBytesReading spec.ignore_case (prefers_byte spec.kind) text.now answer
        × IsUnitReturned text.now answer result unit.old unit.new error.old error.new) }
    ensures rejected { IfNone (parse_spec_at flags)
        ((result ≡ invalid_argument) × (unit.new ≡ unit.old) × (error.new ≡ error.old)) }
{
    match parse_spec_at(flags) {
        Some(spec) => parse_unit_as(text, spec, unit, error),
        None => INVALID_ARGUMENT,
    }
}

/// Parses as `byte_unit_parse_unit_to` does, with known flags.
fn parse_unit_as(text: &[u8], spec: ParseSpec, unit: &mut u32, errors: &mut [Error]) -> u32
    ensures { (answer : Option (Result UnitName UnitParseError))
        × IsUnitBytesReading spec.ignore_case (prefers_byte spec.kind) text.now answer
        × IsUnitReturned text.now answer result unit.old unit.new errors.old errors.new }
{
    let flags = unit_flags(spec);
    match read_unit_bytes(text, flags) {
        Some(Ok(found)) => {
            *unit = unit_code(found);
            OK
        }
        Some(Err(stop)) => {
            write_unit_stop(stop, flags, errors);
            UNIT
        }
        None => NOT_UTF8,
    }
}

/// Parses a unit from bytes, as `read_unit_text` does from a string. Returns `None` if the bytes are not UTF-8.
#[inline(always)]
pub(crate) fn read_unit_bytes(bytes: &[u8], flags: Flags) -> Option<Result<Unit, Stop<UnitStop>>>
    ensures { MatchOption result (¬ IsUtf8 bytes.now)
        (λ read. IsUtf8 bytes.now × IsUnitOrStop flags bytes.now read) }
{
    match str::from_utf8(bytes) {
        Ok(text) => Some(read_unit_text(text, flags)),
        Err(_) => None,
    }
}

/// Returns the flags for parsing a unit: one with no suffix is of the kind of sizes.
pub(crate) fn unit_flags(spec: ParseSpec) -> Flags
    ensures { result ≡ flags_of spec.ignore_case (prefers_byte spec.kind) }
{
    Flags::new(spec.ignore_case, matches!(spec.kind, Kind::Byte))
}
