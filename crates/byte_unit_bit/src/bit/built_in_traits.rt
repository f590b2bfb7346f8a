// Rendered from crates/byte_unit_byte/src/byte/built_in_traits.rt by `tools/dev render bits`. Do not edit.
//! The traits of std that `Bit` implements.

ghost use Rattle.std.specs.Prelude.{◌≡◌, ◌^◌, ◌<◌, ◌-◌, min, Some, OkIff, false};
ghost use Rattle.std.specs.Fmt.{decimal};
ghost use Rattle.byte_unit_math.specs.Bounds.{size_limit};
ghost use Rattle.byte_unit_base.specs.Sizes.OrNone.{IsSizeOrError};
ghost use Rattle.byte_unit_base.specs.Reading.Results.{IsSizeReading};
ghost use Rattle.byte_unit_base.specs.declared.kind.Kind.TheVariants.{Bit as InBits};

use super::Bit;
use byte_unit_base::{ExceededBoundsError, ParseError};
use byte_unit_math::fmt_u128;
use std::fmt;
use std::num::TryFromIntError;
use std::str::FromStr;

/// Returns the size zero.
impl Default for Bit {
    ghost is_default = { λ size. size ≡ 0 };

    fn default() -> Bit {
        Bit::MIN
    }
}

/// Writes the number of bits in decimal digits, as `FormatSpec::PLAIN` does. The formatter's flags have no effect;
/// [`Bit::to_text`] takes a spec instead.
impl fmt::Display for Bit {
    // What is written without flags, and under any.
    ghost output = { λ size. Some (decimal size) };

    ghost styled_output = { λ size spec. Some (decimal size) };

    fn fmt<W: fmt::Write>(&self, f: &mut fmt::Formatter<W>) -> fmt::Result {
        fmt_u128(self.as_u128(), f)
    }
}

/// Parses a size as [`Bit::parse_str`] does, with `b` for bits and `B` for bytes.
impl FromStr for Bit {
    type Err = ParseError;

    ghost from_str_gives = { IsSizeReading InBits false };

    fn from_str(s: &str) -> Result<Bit, ParseError> {
        Bit::parse_str(s)
    }
}

/// Creates a `Bit` from a number of bits.
impl From<u8> for Bit {
    ghost from_gives = { λ n size. size ≡ n };

    fn from(size: u8) -> Bit {
        Bit::from_u64(u64::from(size))
    }
}

/// Creates a `Bit` from a number of bits.
impl From<u16> for Bit {
    ghost from_gives = { λ n size. size ≡ n };

    fn from(size: u16) -> Bit {
        Bit::from_u64(u64::from(size))
    }
}

/// Creates a `Bit` from a number of bits.
impl From<u32> for Bit {
    ghost from_gives = { λ n size. size ≡ n };

    fn from(size: u32) -> Bit {
        Bit::from_u64(u64::from(size))
    }
}

/// Creates a `Bit` from a number of bits.
impl From<u64> for Bit {
    ghost from_gives = { λ n size. size ≡ n };

    fn from(size: u64) -> Bit {
        Bit::from_u64(size)
    }
}

/// Creates a `Bit` from a number of bits.
impl From<usize> for Bit {
    ghost from_gives = { λ n size. size ≡ n };

    fn from(size: usize) -> Bit {
        // `usize` is no wider than `u64`.
        Bit::from_u64(size as u64)
    }
}

/// Creates a `Bit` from a number of bits.
///
/// # Errors
/// Returns `ExceededBoundsError` if it is 10^30 or more.
impl TryFrom<u128> for Bit {
    type Error = ExceededBoundsError;

    ghost try_from_gives = { λ n answer. OkIff answer (n < size_limit) n };

    fn try_from(size: u128) -> Result<Bit, ExceededBoundsError> {
        Bit::from_u128(size).ok_or(ExceededBoundsError)
    }
}

/// Creates a `Bit` from a number of bits.
///
/// # Errors
/// Returns `ExceededBoundsError` if it is negative, or 10^30 or more.
impl TryFrom<i128> for Bit {
    type Error = ExceededBoundsError;

    ghost try_from_gives = { λ n answer. IsSizeOrError n answer };

    fn try_from(size: i128) -> Result<Bit, ExceededBoundsError> {
        Bit::from_i128(size).ok_or(ExceededBoundsError)
    }
}

/// Creates a `Bit` from a number of bits.
///
/// # Errors
/// Returns `ExceededBoundsError` if it is negative.
impl TryFrom<i64> for Bit {
    type Error = ExceededBoundsError;

    ghost try_from_gives = { λ n answer. IsSizeOrError n answer };

    fn try_from(size: i64) -> Result<Bit, ExceededBoundsError> {
        Bit::from_i64(size).ok_or(ExceededBoundsError)
    }
}

/// Creates a `Bit` from a number of bits.
///
/// # Errors
/// Returns `ExceededBoundsError` if it is negative.
impl TryFrom<i32> for Bit {
    type Error = ExceededBoundsError;

    ghost try_from_gives = { λ n answer. IsSizeOrError n answer };

    fn try_from(size: i32) -> Result<Bit, ExceededBoundsError> {
        Bit::from_i64(i64::from(size)).ok_or(ExceededBoundsError)
    }
}

/// Creates a `Bit` from a number of bits.
///
/// # Errors
/// Returns `ExceededBoundsError` if it is negative.
impl TryFrom<i16> for Bit {
    type Error = ExceededBoundsError;

    ghost try_from_gives = { λ n answer. IsSizeOrError n answer };

    fn try_from(size: i16) -> Result<Bit, ExceededBoundsError> {
        Bit::from_i64(i64::from(size)).ok_or(ExceededBoundsError)
    }
}

/// Creates a `Bit` from a number of bits.
///
/// # Errors
/// Returns `ExceededBoundsError` if it is negative.
impl TryFrom<i8> for Bit {
    type Error = ExceededBoundsError;

    ghost try_from_gives = { λ n answer. IsSizeOrError n answer };

    fn try_from(size: i8) -> Result<Bit, ExceededBoundsError> {
        Bit::from_i64(i64::from(size)).ok_or(ExceededBoundsError)
    }
}

/// Creates a `Bit` from a number of bits.
///
/// # Errors
/// Returns `ExceededBoundsError` if it is negative.
impl TryFrom<isize> for Bit {
    type Error = ExceededBoundsError;

    ghost try_from_gives = { λ n answer. IsSizeOrError n answer };

    fn try_from(size: isize) -> Result<Bit, ExceededBoundsError> {
        Bit::from_i64(size as i64).ok_or(ExceededBoundsError)
    }
}

/// Returns the number of bits.
impl From<Bit> for u128 {
    ghost from_gives = { λ size n. n ≡ size };

    fn from(size: Bit) -> u128 {
        size.as_u128()
    }
}

/// Returns the number of bits, or 2^64 - 1 if it is larger.
impl From<Bit> for u64 {
    ghost from_gives = { λ size n. n ≡ min size (2 ^ 64 - 1) };

    fn from(size: Bit) -> u64 {
        size.as_u64()
    }
}

/// Returns the number of bits.
///
/// # Errors
/// Returns `TryFromIntError` if it is 2^32 or more.
impl TryFrom<Bit> for u32 {
    type Error = TryFromIntError;

    ghost try_from_gives = { λ size answer. OkIff answer (size < 2 ^ 32) size };

    fn try_from(size: Bit) -> Result<u32, TryFromIntError> {
        u32::try_from(size.as_u128())
    }
}

/// Returns the number of bits.
///
/// # Errors
/// Returns `TryFromIntError` if it is 2^16 or more.
impl TryFrom<Bit> for u16 {
    type Error = TryFromIntError;

    ghost try_from_gives = { λ size answer. OkIff answer (size < 2 ^ 16) size };

    fn try_from(size: Bit) -> Result<u16, TryFromIntError> {
        u16::try_from(size.as_u128())
    }
}

/// Returns the number of bits.
///
/// # Errors
/// Returns `TryFromIntError` if it is 2^8 or more.
impl TryFrom<Bit> for u8 {
    type Error = TryFromIntError;

    ghost try_from_gives = { λ size answer. OkIff answer (size < 2 ^ 8) size };

    fn try_from(size: Bit) -> Result<u8, TryFromIntError> {
        u8::try_from(size.as_u128())
    }
}

/// Returns the number of bits.
///
/// # Errors
/// Returns `TryFromIntError` if it is 2^64 or more.
impl TryFrom<Bit> for usize {
    type Error = TryFromIntError;

    ghost try_from_gives = { λ size answer. OkIff answer (size < 2 ^ 64) size };

    fn try_from(size: Bit) -> Result<usize, TryFromIntError> {
        usize::try_from(size.as_u128())
    }
}
