//! Sizes of either kind, as numbers below the limit: what the size types have in common.

ghost use Rattle.std.specs.Prelude.{◌≡◌, ℕ, List, ◌+◌, ◌<◌, ◌≤◌, take, ◌*◌, SomeIff, IfSome, IfOk, IfErr, Some};
ghost use Rattle.byte_unit_math.specs.Bounds.{size_limit};
ghost use Rattle.byte_unit_base.specs.Sizes.Kinds.{bits_in};
ghost use Rattle.byte_unit_base.specs.Reading.Results.{IsReadingAs, IsBytesReadingAs};
ghost use Rattle.byte_unit_base.specs.Grammar.Version.{current};
ghost use Rattle.byte_unit_base.specs.Grammar.Units.{shape_of};
ghost use Rattle.byte_unit_base.specs.Sizes.Accepted.{IsMeasureAs};
ghost use Rattle.std.specs.Str.{IsUtf8};
ghost use Rattle.byte_unit_base.specs.Reading.Results.{without_location};
ghost use Rattle.byte_unit_base.specs.Errors.Meaning.{size_fault};
ghost use Rattle.byte_unit_base.specs.Errors.Expected.{expected_codes, named_in};
ghost use Rattle.byte_unit_base.specs.Sizes.OrNone.{IsSizeOfUnit, IsSizeOfDecimal};
ghost use Rattle.byte_unit_base.specs.Reading.Line.{IsLine};
ghost use Rattle.byte_unit_base.specs.Errors.Position.{IsSizePosition, IsSizeLocation, IsLocationOf};
ghost use Rattle.byte_unit_base.specs.declared.errors.ParseError.TheVariants.{Value};
ghost use Rattle.byte_unit_base.specs.declared.errors.ValueParseError.TheVariants.{ExceededBounds};

use crate::read::{
    Measure, next_in_line, read_number_and_unit, read_or_stop, read_size, read_text,
};
use crate::spec::{Flags, ParseSpec};
use crate::stop::{Expected, error_at, expected_at, location_at};
use crate::words::measure_in_words;
use crate::{Kind, LocatedError, Location, ParseError, Unit, ValueParseError};
use byte_unit_math::{Decimal, least_size};
use std::str;

/// The limit of sizes, 10^30, which is 1000 times the largest decimal prefix: the least number that is not a size.
pub const SIZE_LIMIT: u128 = 1_000_000_000_000_000_000_000_000_000_000;

/// Returns the number if it is a size, that is below 10^30. Returns `None` if it is 10^30 or more.
///
/// # Examples
/// ```rust
/// assert_eq!(rt; size::bounded(1536), Some(1536));
/// assert_eq!(rt; size::bounded(1_000_000_000_000_000_000_000_000_000_000), None);
/// ```
pub fn bounded(size: u128) -> Option<u128>
    ensures size { SomeIff result (size < size_limit) size }
    ensures bound { IfSome result (λ n. n < size_limit) }
{
    (size < SIZE_LIMIT).then_some(size)
}

/// Rounds a number of bits up to a whole number of the kind.
#[inline]
fn ceil_to_kind(in_bits: u128, kind: Kind) -> u128
    ensures holds { in_bits ≤ result * bits_in kind }
    ensures least { result * bits_in kind < in_bits + bits_in kind }
{
    match kind {
        Kind::Byte => in_bits.div_ceil(8),
        Kind::Bit => in_bits,
    }
}

/// Converts a number of a unit to a size, rounded up to a whole number of the kind. Returns `None` if the size would be
/// 10^30 or more.
///
/// # Examples
/// ```rust
/// assert_eq!(rt; size::with_unit(9, Unit::Bit, Kind::Byte), Some(2));
/// assert_eq!(rt; size::with_unit(1000, Unit::RB, Kind::Byte), None);
/// ```
pub fn with_unit(size: u128, unit: Unit, kind: Kind) -> Option<u128>
    ensures size { IsSizeOfUnit kind size unit result }
    ensures bound { IfSome result (λ n. n < size_limit) }
{
    let in_bits = size.checked_mul(unit.as_bits_u128())?;
    bounded(ceil_to_kind(in_bits, kind))
}

/// Converts a decimal number of a unit to a size: the exact product, rounded up to a whole number of the kind. Returns
/// `None` if the size would be 10^30 or more.
///
/// # Examples
/// ```rust
/// let half = Decimal::from_digits(0, 5, 1);
/// assert_eq!(rt; size::from_decimal(half, Unit::KiB, Kind::Byte), Some(512));
/// assert_eq!(rt; size::from_decimal(Decimal::from_digits(1000, 0, 0), Unit::RB, Kind::Byte), None);
/// ```
#[inline(always)]
pub fn from_decimal(number: Decimal, unit: Unit, kind: Kind) -> Option<u128>
    ensures size { IsSizeOfDecimal kind number unit result }
    ensures bound { IfSome result (λ n. n < size_limit) }
{
    // One bit more than the greatest size. The product is rounded up twice, to bits and to the kind, which is the same
    // as once: ceil(ceil(x) / 8) = ceil(x / 8).
    let limit = (SIZE_LIMIT - 1) * kind.bits() + 1;
    let in_bits = least_size(number, unit.as_bits_u128(), limit)?;
    Some(ceil_to_kind(in_bits, kind))
}

/// Parses a size from a string: the exact product of its number and its unit, rounded up to a whole number of the kind.
///
/// The grammar is that of [`read_size`](crate::read_size). If the string names no unit, its number is in bytes for
/// `Kind::Byte`, and in bits for `Kind::Bit`. A suffix `b` means bits and `B` bytes; with `ignore_case` both mean
/// bytes. For `Kind::Bit` `ignore_case` has no effect.
///
/// With `binary` a decimal prefix means the binary one, as many programs write them: `10m`, `128MB` and `1G` are by
/// 1024. Only the unit is replaced: the grammar is the same.
///
/// # Errors
/// Returns the error of `read_size` if the string is not in the grammar: `NoValue`, `NotNumber` or `NumberTooLong` for
/// its number, or `Unit`. Returns `ExceededBounds`, with the number as it was written, if the size would be 10^30 or
/// more.
///
/// # Examples
/// ```rust
/// assert_eq!(rt; size::parse("1.5 KiB", ParseSpec::BYTES)?, 1536);
/// assert_eq!(rt; size::parse("10m", ParseSpec::BINARY_BYTES)?, 10_485_760);
/// assert_eq!(rt; size::parse("9 bits", ParseSpec::BYTES)?, 2);
/// let error = size::parse("1.", ParseSpec::BYTES);
/// assert!(rt; matches!(error, Err(ParseError::Value(ValueParseError::NotNumber('.')))));
/// ```
#[inline(never)]
pub fn parse(s: &str, spec: ParseSpec) -> Result<u128, ParseError>
    ensures reading { IsReadingAs spec s.now result }
    ensures bound { IfOk result (λ n. n < size_limit) }
{
    let flags = spec.flags();
    match read_size(s, flags.ignore_case, flags.prefer_byte) {
        Ok(found) => size_of(
            Measure {
                unit: found.1,
                number: found.0,
            },
            spec,
        ),
        Err(error) => match measure_in_words(s.as_bytes(), spec) {
            Some(found) => size_of(found, spec),
            None => Err(error),
        },
    }
}

/// Parses a size from bytes, as [`parse`] does from a string. Returns `None` if the bytes are not UTF-8.
///
/// # Errors
/// Returns `Some` with the error of `parse` if the bytes are UTF-8 and `parse` rejects the string.
///
/// # Examples
/// ```rust
/// assert!(rt; matches!(size::parse_bytes(b"1.5 KiB", ParseSpec::BYTES), Some(Ok(1536))));
/// assert!(rt; size::parse_bytes(b"1 KiB\xFF", ParseSpec::BYTES).is_none());
/// ```
#[inline(always)]
pub fn parse_bytes(bytes: &[u8], spec: ParseSpec) -> Option<Result<u128, ParseError>>
    ensures reading { IsBytesReadingAs spec bytes.now result }
    ensures bound { IfSome result (λ answer. IfOk answer (λ n. n < size_limit)) }
{
    parse_line(bytes, bytes.len(), spec)
}

/// Parses a size from the line at the beginning of bytes, its first `len` bytes, as [`parse`] does from a string: it is
/// a number of bytes for `Kind::Byte`, and of bits for `Kind::Bit`. Returns `None` if the line is not UTF-8.
///
/// With `binary` a decimal prefix means the binary one. Eight bytes at a time are loaded, past the end of the line too.
///
/// Precondition (proved at every call): `len <= bytes.len()`, and the line ends there: the next byte is a line feed, or
/// there is none.
///
/// # Errors
/// Returns `Some` with the error of `parse` if the line is UTF-8 and `parse` rejects it.
///
/// # Examples
/// ```rust
/// assert!(rt; matches!(parse_line(b"1 KB\n12\n", 4, ParseSpec::BYTES), Some(Ok(1000))));
/// assert!(rt; matches!(parse_line(b"1 KB", 4, ParseSpec::BINARY_BITS), Some(Ok(8192))));
/// assert!(rt; parse_line(b"1 KB\xFF", 5, ParseSpec::BYTES).is_none());
/// ```
#[inline(always)]
pub fn parse_line(bytes: &[u8], len: usize, spec: ParseSpec) -> Option<Result<u128, ParseError>>
    requires { IsLine bytes.now len }
    ensures reading { IsBytesReadingAs spec (take len bytes.now)
        result }
    ensures bound { IfSome result (λ answer. IfOk answer (λ n. n < size_limit)) }
{
    let line = &bytes[..len];
    let flags = spec.flags();
    match read_number_and_unit::<false>(line, bytes, flags) {
        Ok(found) => Some(size_of(found, spec)),
        Err(stop) => match next_in_line(line, stop.index) {
            // Returned here for the row `1.5 KiB` of lines in docs/SPEED.md.
            Some(next) => match measure_in_words(line, spec) {
                Some(found) => Some(size_of(found, spec)),
                None => return Some(Err(error_at(stop.reason, next, flags))),
            },
            None => parse_text(line, spec),
        },
    }
}

/// Parses a size as [`parse_line`] does, but from the string that the bytes are, trimmed.
#[cold]
#[inline(never)]
#[tactic(auto, using(crate::proofs::Computed::test_of_not_utf8))]
fn parse_text(bytes: &[u8], spec: ParseSpec) -> Option<Result<u128, ParseError>>
    ensures reading { IsBytesReadingAs spec bytes.now result }
    ensures bound { IfSome result (λ answer. IfOk answer (λ n. n < size_limit)) }
{
    let text = str::from_utf8(bytes).ok()?;
    Some(parse(text, spec))
}

/// Parses a size from bytes, as [`parse_bytes`], for a message: with the location of the error. Returns `None` if the
/// bytes are not UTF-8.
///
/// # Errors
/// Returns `Some` with the error of `parse_bytes` and its location.
///
/// # Examples
/// ```rust
/// assert!(rt; matches!(size::explain(b"1 KiB", ParseSpec::BYTES), Some(Ok(1024))));
/// let error = size::explain("1 µB".as_bytes(), ParseSpec::BYTES);
/// assert!(rt; matches!(error, Some(Err(LocatedError { location: Location::Character(3), .. }))));
/// ```
#[inline(always)]
pub fn explain(bytes: &[u8], spec: ParseSpec) -> Option<Result<u128, LocatedError>>
    ensures reading { IsBytesReadingAs spec bytes.now
        (without_location result) }
    ensures location { IfSome result (λ answer. IfErr answer (λ e.
        IsLocationOf (IsSizeLocation bytes.now) (size_fault e.error) e.location)) }
    ensures expected { IfSome result (λ answer. IfErr answer (λ e.
        expected_codes e.expected ≡ named_in (size_fault e.error))) }
{
    let flags = spec.flags();
    match read_text(bytes, flags) {
        Some(Ok(found)) => Some(located_size(found, spec)),
        Some(Err(stop)) => match measure_in_words(bytes, spec) {
            Some(found) => Some(located_size(found, spec)),
            None => Some(Err(LocatedError {
                error: error_at(stop.reason, stop.next, flags),
                expected: expected_at(stop.reason, stop.next, flags),
                location: location_at(bytes, stop.index, stop.next),
            })),
        },
        None => None,
    }
}

/// Returns what [`size_of`] does, with the location of its error, which is that of the whole string.
#[inline(always)]
fn located_size(found: Measure, spec: ParseSpec) -> Result<u128, LocatedError>
    ensures reading { (bytes : List ℕ) → IsUtf8 bytes
        → IsMeasureAs spec current bytes found.number (shape_of found.unit)
        → IsBytesReadingAs spec bytes (without_location (Some result)) }
    ensures location { (bytes : List ℕ)
        → IfErr result (λ e. IsLocationOf (IsSizeLocation bytes) (size_fault e.error) e.location) }
    ensures expected { IfErr result (λ e. expected_codes e.expected ≡ named_in (size_fault e.error)) }
{
    match size_of(found, spec) {
        Ok(size) => Ok(size),
        Err(error) => Err(LocatedError {
            error,
            expected: Expected::Nothing,
            location: Location::Whole,
        }),
    }
}

/// Returns the index in bytes of the first wrong character of a string that is not in the grammar of sizes: up to there
/// the string, without the white space at its ends, begins a size, and with that character it begins none. If it ends
/// too early, the index is that of its end, before white space there; of white space alone, its length.
///
/// Returns `None` if the string is in the grammar. The index is the same for both kinds, with and without
/// `ignore_case`.
///
/// # Examples
/// ```rust
/// assert_eq!(rt; size::error_position("1 byte"), Some(3));
/// assert_eq!(rt; size::error_position("  1."), Some(4));
/// assert_eq!(rt; size::error_position("1 KiB"), None);
/// ```
pub fn error_position(s: &str) -> Option<usize>
    ensures { IsSizePosition s.now result }
{
    match read_or_stop(s, Flags::ANY) {
        Ok(_) => None,
        Err(stop) => Some(stop.index),
    }
}

/// Returns the result of parsing a string with this number of this unit: the size of the number in the unit that is
/// meant.
///
/// # Errors
/// Returns `ExceededBounds` with the number if the size would be 10^30 or more.
///
/// # Examples
/// ```rust
/// let found = Measure { unit: Unit::KB, number: Decimal::from_digits(1, 5, 1) };
/// assert!(rt; matches!(size::size_of(found, ParseSpec::BYTES), Ok(1500)));
/// assert!(rt; matches!(size::size_of(found, ParseSpec::BINARY_BYTES), Ok(1536)));
/// ```
#[inline(always)]
pub fn size_of(found: Measure, spec: ParseSpec) -> Result<u128, ParseError>
    ensures reading { (bytes : List ℕ)
        → IsMeasureAs spec current bytes found.number (shape_of found.unit)
        → IsReadingAs spec bytes result }
    ensures bound { IfOk result (λ n. n < size_limit) }
    ensures excess { IfErr result (λ error. error ≡ Value (ExceededBounds found.number)) }
{
    match from_decimal(found.number, spec.unit_meant(found.unit), spec.kind) {
        Some(size) => Ok(size),
        None => Err(ParseError::Value(ValueParseError::ExceededBounds(found.number))),
    }
}
