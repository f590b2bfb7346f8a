//! The traits of std that `Byte` implements.

ghost use Rattle.std.specs.Prelude.{◌≡◌, ◌^◌, ◌<◌, ◌-◌, min, Some, OkIff, false};
ghost use Rattle.std.specs.Fmt.{decimal};
ghost use Rattle.byte_unit_math.specs.Bounds.{size_limit};
ghost use Rattle.byte_unit_base.specs.Sizes.OrNone.{IsSizeOrError};
ghost use Rattle.byte_unit_base.specs.Reading.Results.{IsSizeReading};
ghost use Rattle.byte_unit_base.specs.declared.kind.Kind.TheVariants.{Byte as InBytes};

use super::Byte;
use byte_unit_base::{ExceededBoundsError, ParseError};
use byte_unit_math::fmt_u128;
use std::fmt;
use std::num::TryFromIntError;
use std::str::FromStr;

/// Returns the size zero.
impl Default for Byte {
    ghost is_default = { λ size. size ≡ 0 };

    fn default() -> Byte {
        Byte::MIN
    }
}

/// Writes the number of bytes in decimal digits, as `FormatSpec::PLAIN` does. The formatter's flags have no effect;
/// [`Byte::to_text`] takes a spec instead.
impl fmt::Display for Byte {
    // What is written without flags, and under any.
    ghost output = { λ size. Some (decimal size) };

    ghost styled_output = { λ size spec. Some (decimal size) };

    fn fmt<W: fmt::Write>(&self, f: &mut fmt::Formatter<W>) -> fmt::Result {
        fmt_u128(self.as_u128(), f)
    }
}

/// Parses a size as [`Byte::parse_str`] does, with `b` for bits and `B` for bytes.
impl FromStr for Byte {
    type Err = ParseError;

    ghost from_str_gives = { IsSizeReading InBytes false };

    fn from_str(s: &str) -> Result<Byte, ParseError> {
        Byte::parse_str(s, false)
    }
}

/// Creates a `Byte` from a number of bytes.
impl From<u8> for Byte {
    ghost from_gives = { λ n size. size ≡ n };

    fn from(size: u8) -> Byte {
        Byte::from_u64(u64::from(size))
    }
}

/// Creates a `Byte` from a number of bytes.
impl From<u16> for Byte {
    ghost from_gives = { λ n size. size ≡ n };

    fn from(size: u16) -> Byte {
        Byte::from_u64(u64::from(size))
    }
}

/// Creates a `Byte` from a number of bytes.
impl From<u32> for Byte {
    ghost from_gives = { λ n size. size ≡ n };

    fn from(size: u32) -> Byte {
        Byte::from_u64(u64::from(size))
    }
}

/// Creates a `Byte` from a number of bytes.
impl From<u64> for Byte {
    ghost from_gives = { λ n size. size ≡ n };

    fn from(size: u64) -> Byte {
        Byte::from_u64(size)
    }
}

/// Creates a `Byte` from a number of bytes.
impl From<usize> for Byte {
    ghost from_gives = { λ n size. size ≡ n };

    fn from(size: usize) -> Byte {
        // `usize` is no wider than `u64`.
        Byte::from_u64(size as u64)
    }
}

/// Creates a `Byte` from a number of bytes.
///
/// # Errors
/// Returns `ExceededBoundsError` if it is 10^30 or more.
impl TryFrom<u128> for Byte {
    type Error = ExceededBoundsError;

    ghost try_from_gives = { λ n answer. OkIff answer (n < size_limit) n };

    fn try_from(size: u128) -> Result<Byte, ExceededBoundsError> {
        Byte::from_u128(size).ok_or(ExceededBoundsError)
    }
}

/// Creates a `Byte` from a number of bytes.
///
/// # Errors
/// Returns `ExceededBoundsError` if it is negative, or 10^30 or more.
impl TryFrom<i128> for Byte {
    type Error = ExceededBoundsError;

    ghost try_from_gives = { λ n answer. IsSizeOrError n answer };

    fn try_from(size: i128) -> Result<Byte, ExceededBoundsError> {
        Byte::from_i128(size).ok_or(ExceededBoundsError)
    }
}

/// Creates a `Byte` from a number of bytes.
///
/// # Errors
/// Returns `ExceededBoundsError` if it is negative.
impl TryFrom<i64> for Byte {
    type Error = ExceededBoundsError;

    ghost try_from_gives = { λ n answer. IsSizeOrError n answer };

    fn try_from(size: i64) -> Result<Byte, ExceededBoundsError> {
        Byte::from_i64(size).ok_or(ExceededBoundsError)
    }
}

/// Creates a `Byte` from a number of bytes.
///
/// # Errors
/// Returns `ExceededBoundsError` if it is negative.
impl TryFrom<i32> for Byte {
    type Error = ExceededBoundsError;

    ghost try_from_gives = { λ n answer. IsSizeOrError n answer };

    fn try_from(size: i32) -> Result<Byte, ExceededBoundsError> {
        Byte::from_i64(i64::from(size)).ok_or(ExceededBoundsError)
    }
}

/// Creates a `Byte` from a number of bytes.
///
/// # Errors
/// Returns `ExceededBoundsError` if it is negative.
impl TryFrom<i16> for Byte {
    type Error = ExceededBoundsError;

    ghost try_from_gives = { λ n answer. IsSizeOrError n answer };

    fn try_from(size: i16) -> Result<Byte, ExceededBoundsError> {
        Byte::from_i64(i64::from(size)).ok_or(ExceededBoundsError)
    }
}

/// Creates a `Byte` from a number of bytes.
///
/// # Errors
/// Returns `ExceededBoundsError` if it is negative.
impl TryFrom<i8> for Byte {
    type Error = ExceededBoundsError;

    ghost try_from_gives = { λ n answer. IsSizeOrError n answer };

    fn try_from(size: i8) -> Result<Byte, ExceededBoundsError> {
        Byte::from_i64(i64::from(size)).ok_or(ExceededBoundsError)
    }
}

/// Creates a `Byte` from a number of bytes.
///
/// # Errors
/// Returns `ExceededBoundsError` if it is negative.
impl TryFrom<isize> for Byte {
    type Error = ExceededBoundsError;

    ghost try_from_gives = { λ n answer. IsSizeOrError n answer };

    fn try_from(size: isize) -> Result<Byte, ExceededBoundsError> {
        Byte::from_i64(size as i64).ok_or(ExceededBoundsError)
    }
}

/// Returns the number of bytes.
impl From<Byte> for u128 {
    ghost from_gives = { λ size n. n ≡ size };

    fn from(size: Byte) -> u128 {
        size.as_u128()
    }
}

/// Returns the number of bytes, or 2^64 - 1 if it is larger.
impl From<Byte> for u64 {
    ghost from_gives = { λ size n. n ≡ min size (2 ^ 64 - 1) };

    fn from(size: Byte) -> u64 {
        size.as_u64()
    }
}

/// Returns the number of bytes.
///
/// # Errors
/// Returns `TryFromIntError` if it is 2^32 or more.
impl TryFrom<Byte> for u32 {
    type Error = TryFromIntError;

    ghost try_from_gives = { λ size answer. OkIff answer (size < 2 ^ 32) size };

    fn try_from(size: Byte) -> Result<u32, TryFromIntError> {
        u32::try_from(size.as_u128())
    }
}

/// Returns the number of bytes.
///
/// # Errors
/// Returns `TryFromIntError` if it is 2^16 or more.
impl TryFrom<Byte> for u16 {
    type Error = TryFromIntError;

    ghost try_from_gives = { λ size answer. OkIff answer (size < 2 ^ 16) size };

    fn try_from(size: Byte) -> Result<u16, TryFromIntError> {
        u16::try_from(size.as_u128())
    }
}

/// Returns the number of bytes.
///
/// # Errors
/// Returns `TryFromIntError` if it is 2^8 or more.
impl TryFrom<Byte> for u8 {
    type Error = TryFromIntError;

    ghost try_from_gives = { λ size answer. OkIff answer (size < 2 ^ 8) size };

    fn try_from(size: Byte) -> Result<u8, TryFromIntError> {
        u8::try_from(size.as_u128())
    }
}

/// Returns the number of bytes.
///
/// # Errors
/// Returns `TryFromIntError` if it is 2^64 or more.
impl TryFrom<Byte> for usize {
    type Error = TryFromIntError;

    ghost try_from_gives = { λ size answer. OkIff answer (size < 2 ^ 64) size };

    fn try_from(size: Byte) -> Result<usize, TryFromIntError> {
        usize::try_from(size.as_u128())
    }
}
