//! The decimal digits of a number, sixteen at a time.

ghost use Rattle.std.specs.Prelude.{◌≡◌, ◌+◌, ◌-◌, ◌/◌, ◌%◌, ◌^◌, ◌<◌, ◌≤◌, ◌++◌, length, drop, replicate};
ghost use Rattle.std.specs.Fmt.{decimal};
ghost use Rattle.byte_unit_math.specs.Digits.{last_digits};
ghost use Rattle.byte_unit_math.specs.Numeral.{glyphs, padded_digits};
ghost use Rattle.byte_unit_math.specs.PutBefore.{FitBefore, IsPutBefore};

use crate::decimal_digits::decimal_len;
use crate::dividing::{TEN_POW_16, TEN_POW_16_INVERSE, div_rem_by_inverse};
use std::simd::prelude::*;

/// The length of the array of [`put_padded_digits`]: two groups of 16 digits, since a number has up to 30.
pub const PADDED_DIGITS: usize = 32;

/// Writes the digits of a number as ASCII to the beginning of an array and the digit 0 to the rest of it, and returns
/// the number of its digits, 1 to 30.
///
/// Precondition (proved at every call): `n < 10^30`.
///
/// # Examples
/// ```rust
/// let mut digits = [0; PADDED_DIGITS];
/// assert_eq!(rt; put_padded_digits(1536, &mut digits), 4);
/// assert_eq!(rt; &digits, b"15360000000000000000000000000000");
/// ```
#[inline(always)]
#[tactic(auto, using(crate::proofs::WrittenDigits::lengths_by_16))]
pub fn put_padded_digits(n: u128, digits: &mut [u8; PADDED_DIGITS]) -> usize
    requires { n < 10 ^ 30 }
    ensures digits { digits.new ≡ padded_digits n }
    ensures len { result ≡ length (decimal n) }
    ensures bound { result ≤ 30 }
{
    let (all, count) = digits_with_zeros(n);
    let len = decimal_len(n);
    let start = count - len;
    digits.copy_from_slice(&all[start..start + PADDED_DIGITS]);
    len
}

/// Returns the digits of a number with leading zeros, and the number of both, 16 or 32. After them is the digit 0.
#[inline(always)]
#[tactic(auto, using(crate::proofs::WrittenDigits::lengths_by_16))]
fn digits_with_zeros(n: u128) -> ([u8; 48], usize)
    requires { n < 10 ^ 30 }
    ensures digits { drop (result.1 - length (decimal n)) result.0
        ≡ decimal n ++ replicate (48 - result.1) 48 }
    ensures len_bound { length (decimal n) ≤ result.1 }
    ensures bound { result.1 ≤ length (decimal n) + 16 }
{
    // At most 32 digits, and 16 bytes more, since 32 are copied from the first digit that is not a leading zero.
    let mut digits = [b'0'; 48];
    if n < u128::from(TEN_POW_16) {
        put_16_digits(n as u64, &mut digits, 16);
        return (digits, 16);
    }
    // 36 + 81 is 117, the power of the reciprocal, and at most 64 bits of `n` are left after the cut by 36.
    let (before, last) = div_rem_by_inverse(n, TEN_POW_16, TEN_POW_16_INVERSE, 36, 81);
    let middle = put_16_digits(last, &mut digits, 32);
    put_16_digits(before, &mut digits, middle);
    (digits, 32)
}

/// Returns the digits of a number below 10^16, with leading zeros: first four numbers of four digits each, then eight
/// of two digits, then all.
#[inline(always)]
fn last_16_digits(n: u64) -> u8x16
    requires { n < 10 ^ 16 }
    ensures { result ≡ glyphs (last_digits 16 n) }
{
    let (high, low) = ((n / 100_000_000) as u32, (n % 100_000_000) as u32);
    let fours = u16x8::from_array([
        (high / 10_000) as u16,
        (high % 10_000) as u16,
        (low / 10_000) as u16,
        (low % 10_000) as u16,
        0,
        0,
        0,
        0,
    ]);
    let hundred = u16x8::splat(100);
    let pairs = (fours / hundred).shuffle(fours % hundred, [0, 8, 1, 9, 2, 10, 3, 11]);
    let ten = u16x8::splat(10);
    // The first digit of two is in the low byte, the second one in the high byte.
    let digits = (pairs / ten + pairs % ten * u16x8::splat(256)).to_le_bytes();
    digits + u8x16::splat(b'0')
}

/// Writes sixteen digits, leading zeros included, and returns the index where they begin.
#[inline(always)]
pub(crate) fn put_16_digits(n: u64, bytes: &mut [u8], end: usize) -> usize
    requires { FitBefore 16 n end bytes.old }
    ensures { IsPutBefore (glyphs (last_digits 16 n)) end bytes.old bytes.new result }
{
    let start = end - 16;
    let digits: u8x16 = last_16_digits(n);
    bytes[start..end].copy_from_slice(&digits.to_array());
    start
}
