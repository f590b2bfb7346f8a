//! Parses a number from a line: runs of digits, and their values.

ghost use Rattle.std.specs.Prelude.{◌≡◌, ℕ, List, ◌+◌, ◌%◌, ◌^◌, ◌<◌, ◌≤◌, length, drop, slice_range};
ghost use lib.Lanes.{number_l};
ghost use Rattle.core.specs.Dec2flt.Digits.{IsEightDigits};
ghost use Rattle.core.specs.Float.Numeral.{digits_len};
ghost use Rattle.core.specs.Int.Digits.{number_from_digits};
ghost use Rattle.std.specs.Str.Parse.{AllDigits, digits_value};
ghost use Rattle.byte_unit_base.specs.Reading.Ends.{IsLineOf, IsNumberEnd, IsWhole};

use crate::read::load::load_eight;
use crate::stop::{ByteStop, NumberStop};
use byte_unit_math::{DECIMAL_PLACES, Decimal, WHOLE_LIMIT, power_of_ten};
use core::dec2flt::read_digits;

/// Keeps the lowest byte of every four bytes: the value of one pair of digits.
const PAIR_OF_FOUR_BYTES: u64 = 0x0000_00ff_0000_00ff;

/// The most digits whose value always fits a `u64`: 19.
const SHORT_DIGITS: usize = 19;

/// The first digits of a long fraction that are parsed once more: after them are at most 19.
const FRONT_DIGITS: usize = 9;

/// A whole part.
pub enum Whole {
    /// Its value, below the limit.
    Value(u128),
    /// It reaches the limit, with the digit at this index.
    TooLong(usize),
}

/// Parses a number at the beginning of a line: digits, and optionally a point and digits. Returns its length in bytes,
/// and it. The line is at the beginning of `bytes`.
///
/// # Errors
/// Returns where it stops.
#[tactic(auto, using(crate::proofs::NumberBytes::digits_of_run))]
#[inline(always)]
pub(crate) fn read_number<const ALONE: bool>(
    line: &[u8],
    bytes: &[u8],
) -> Result<(usize, Decimal), ByteStop<NumberStop>>
    requires { IsLineOf line.now bytes.now }
    ensures { IsNumberEnd line.now result }
{
    let (end, value) = leading_digits::<ALONE>(line, bytes, 0);
    if end == 0 {
        return Err(ByteStop {
            index: 0,
            reason: NumberStop::NoWhole,
        });
    }
    let whole = match whole_of(&line[..end], value) {
        Whole::Value(whole) => whole,
        Whole::TooLong(index) => {
            return Err(ByteStop {
                index,
                reason: NumberStop::TooLong,
            });
        }
    };
    if end == line.len() || line[end] != b'.' {
        return Ok((end, Decimal::from_digits(whole, 0, 0)));
    }
    let start = end + 1;
    let (stop, value) = leading_digits::<ALONE>(line, bytes, start);
    let places = stop - start;
    if places == 0 {
        return Err(ByteStop {
            index: start,
            reason: NumberStop::NoFraction,
        });
    }
    if places > DECIMAL_PLACES as usize {
        return Err(ByteStop {
            index: start + DECIMAL_PLACES as usize,
            reason: NumberStop::TooLong,
        });
    }
    let digits = value_of(&line[start..stop], value);
    let number = Decimal::from_digits(whole, digits, places as u32);
    Ok((stop, number))
}

/// Parses the digits of a line from an index on. Returns where they end, and the last 64 bits of their value. The line
/// is at the beginning of `bytes`, or all of them (`ALONE`).
#[inline(always)]
fn leading_digits<const ALONE: bool>(line: &[u8], bytes: &[u8], from: usize) -> (usize, u64)
    requires line { IsLineOf line.now bytes.now }
    requires from { from ≤ length line.now }
    ensures end { result.0 ≡ from + digits_len (drop from line.now) }
    ensures bound { result.0 ≤ length line.now }
    ensures value { result.1 ≡ digits_value 10 (slice_range line.now from result.0) % 2 ^ 64 }
{
    if ALONE && bytes.len() - from < 8 {
        return few_digits(line, from);
    }
    let mut start = from;
    let mut value = 0;
    if bytes.len() - from >= 8 {
        // 0x30 is `b'0'`: a digit is below ten then, and every other byte is not.
        let digits = load_eight(bytes, from) ^ 0x3030_3030_3030_3030;
        // The high bit of each byte that is ten or more: 0x76 + 10 is 0x80. No sum carries into the next byte.
        let sums = (digits & 0x7f7f_7f7f_7f7f_7f7f) + 0x7676_7676_7676_7676;
        let others = (sums | digits) & 0x8080_8080_8080_8080;
        if others != 0 {
            let count = others.trailing_zeros() / 8;
            // The digits are moved to the end, with zeros before them. Two shifts, since a shift by 64 is not defined.
            let value = value_of_eight(digits << (56 - 8 * count) << 8);
            // What follows the line is no digit.
            return (from + count as usize, value);
        }
        start += 8;
        value = value_of_eight(digits);
    }
    read_digits(line, start, value)
}

/// Parses the digits of a line from an index on, one by one. Returns where they end, and the last 64 bits of their
/// value.
#[inline(always)]
fn few_digits(line: &[u8], from: usize) -> (usize, u64)
    requires { from ≤ length line.now }
    ensures end { result.0 ≡ from + digits_len (drop from line.now) }
    ensures bound { result.0 ≤ length line.now }
    ensures value { result.1 ≡ digits_value 10 (slice_range line.now from result.0) % 2 ^ 64 }
{
    let mut end = from;
    let mut value = 0u64;
    'digits: while end < line.len() {
        let digit = line[end].wrapping_sub(b'0');
        if digit > 9 {
            break;
        }
        value = value.wrapping_mul(10).wrapping_add(u64::from(digit));
        end += 1;
    }
    (end, value)
}

/// Returns the number that eight digits write, from their values. Two products add four pairs by their places: the
/// first and the third pair, and the second and the fourth (D. Lemire, "Number parsing at a gigabyte per second").
#[inline(always)]
#[tactic(auto, using(core::proofs::dec2flt::Eight::eight_is))]
fn value_of_eight(digits: u64) -> u64
    ensures { (ds : List ℕ) → IsEightDigits ds → digits ≡ number_l 256 ds
        → result ≡ number_from_digits 10 ds }
{
    let pairs = digits.wrapping_mul(10).wrapping_add(digits >> 8);
    let odd = (pairs & PAIR_OF_FOUR_BYTES).wrapping_mul(100 + (1_000_000 << 32));
    let even = ((pairs >> 16) & PAIR_OF_FOUR_BYTES).wrapping_mul(1 + (10_000 << 32));
    odd.wrapping_add(even) >> 32
}

/// Returns the whole part of these digits, from the last 64 bits of their value.
#[tactic(auto, using(crate::proofs::NumberBytes::short_digits))]
#[inline(always)]
pub fn whole_of(digits: &[u8], last_bits: u64) -> Whole
    requires digits { AllDigits 10 digits.now }
    requires last_bits { last_bits ≡ digits_value 10 digits.now % 2 ^ 64 }
    ensures { IsWhole digits.now result }
{
    if digits.len() <= SHORT_DIGITS {
        Whole::Value(u128::from(last_bits))
    } else {
        longest_value(digits)
    }
}

/// Slow path: returns the whole part of any number of digits.
#[cold]
#[inline(never)]
fn longest_value(digits: &[u8]) -> Whole
    requires { AllDigits 10 digits.now }
    ensures { IsWhole digits.now result }
{
    let mut value = 0;
    let mut count = 0;
    'digits: while count < digits.len() {
        value = value * 10 + u128::from(digits[count] - b'0');
        if value >= WHOLE_LIMIT {
            return Whole::TooLong(count);
        }
        count += 1;
    }
    Whole::Value(value)
}

/// Returns the value of at most 28 digits, from the last 64 bits of that value.
#[tactic(auto, using(crate::proofs::NumberBytes::short_digits))]
#[inline(always)]
pub fn value_of(digits: &[u8], last_bits: u64) -> u128
    requires digits { AllDigits 10 digits.now }
    requires few { length digits.now ≤ DECIMAL_PLACES }
    requires last_bits { last_bits ≡ digits_value 10 digits.now % 2 ^ 64 }
    ensures { result ≡ digits_value 10 digits.now }
{
    if digits.len() <= SHORT_DIGITS {
        u128::from(last_bits)
    } else {
        long_value(digits, last_bits)
    }
}

/// Slow path: returns the value of 20 to 28 digits, from the last 64 bits of that value.
#[inline(never)]
fn long_value(digits: &[u8], last_bits: u64) -> u128
    requires digits { AllDigits 10 digits.now }
    requires many { SHORT_DIGITS < length digits.now }
    requires bound { length digits.now ≤ DECIMAL_PLACES }
    requires last_bits { last_bits ≡ digits_value 10 digits.now % 2 ^ 64 }
    ensures { result ≡ digits_value 10 digits.now }
{
    let (front, back) = digits.split_at(FRONT_DIGITS);
    let (_, high) = read_digits(front, 0, 0);
    let product = u128::from(high) * u128::from(power_of_ten(back.len() as u32) as u64);
    // The value of the other digits fits 64 bits, so it follows from these bits.
    product + u128::from(last_bits.wrapping_sub((product % (1 << 64)) as u64))
}
