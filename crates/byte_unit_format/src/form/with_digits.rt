//! The digits of a size and the size in its unit, as one text.

ghost use Rattle.std.specs.Prelude.{◌≡◌, ◌≢◌, ℕ, ◌+◌, ◌-◌, ◌*◌, ◌<◌, ◌≤◌, ◌++◌, length, take, slice_index};
ghost use Rattle.std.specs.Fmt.{decimal};
ghost use Rattle.byte_unit_math.specs.Bounds.{size_limit};
ghost use Rattle.byte_unit_math.specs.Numeral.{padded_digits};
ghost use Rattle.byte_unit_format.specs.Forms.{IsSizeForm, narrow_text};
ghost use Rattle.byte_unit_format.specs.NamedSpecs.{alternate_spec};
ghost use Rattle.byte_unit_format.specs.WithDigits.{IsTextWithDigits, PutsWithDigits, cut_digits, with_digits_text};

use crate::form::put::{own_letter, put_split};
use crate::form::split::{UnitFraction, binary_power, in_eighths};
use crate::parts::put;
use byte_unit_base::{Kind, prefix_letter};
use byte_unit_math::{PADDED_DIGITS, put_padded_digits};
use std::simd::prelude::*;

/// Writes the digits of a size, `between`, and the size in its unit (the alternate form with no other option) to the
/// beginning of `out`, and returns the length of this text, at most 70 bytes. A number in a decimal unit is cut from
/// the digits. Bytes of `out` after the text are overwritten too.
///
/// Preconditions (proved at every call): the size is below 10^30, and `out` has at least 70 bytes: for 30 digits, the
/// three bytes between, and 37 bytes of the size in its unit.
///
/// # Examples
/// ```rust
/// let mut out = [0; 70];
/// let len = write_with_digits(1536, Kind::Byte, *b" = ", &mut out);
/// assert_eq!(rt; &out[..len], b"1536 = 1.5 KiB".as_slice());
/// ```
#[inline(always)]
pub fn write_with_digits(size: u128, kind: Kind, between: [u8; 3], out: &mut [u8]) -> usize
    requires bound { size < size_limit }
    requires room { with_digits_text ≤ length out.old }
    ensures text { IsTextWithDigits kind size between (take result out.new) }
    ensures bound { result ≤ with_digits_text }
{
    if size < 1 << 64 {
        put_with_digits(u128::from(size as u64), kind, between, out)
    } else {
        put_with_digits_wide(size, kind, between, out)
    }
}

/// Writes as `write_with_digits`.
#[inline(always)]
fn put_with_digits(size: u128, kind: Kind, between: [u8; 3], out: &mut [u8]) -> usize
    requires bound { size < size_limit }
    requires room { with_digits_text ≤ length out.old }
    ensures { PutsWithDigits kind size between out.new result }
{
    let mut digits = [b'0'; PADDED_DIGITS];
    let len = put_padded_digits(size, &mut digits);
    put(&digits, out, PADDED_DIGITS);
    let form = len + 3;
    put(&between, out, form);
    form + put_form_of(&digits, len, size, kind, &mut out[form..])
}

/// Writes as `write_with_digits`: the slow path, for a size of more than 64 bits.
#[inline(never)]
fn put_with_digits_wide(size: u128, kind: Kind, between: [u8; 3], out: &mut [u8]) -> usize
    requires bound { size < size_limit }
    requires room { with_digits_text ≤ length out.old }
    ensures { PutsWithDigits kind size between out.new result }
{
    put_with_digits(size, kind, between, out)
}

/// Writes the size in its unit, by its digits, to the beginning of `out`, and returns the length of this text.
#[inline(always)]
#[tactic(auto, using(crate::proofs::WithDigits::few_digits))]
fn put_form_of(
    digits: &[u8; PADDED_DIGITS],
    len: usize,
    size: u128,
    kind: Kind,
    out: &mut [u8],
) -> usize
    requires bound { size < size_limit }
    requires digits { digits.now ≡ padded_digits size }
    requires len { len ≡ length (decimal size) }
    requires room { narrow_text ≤ length out.old }
    ensures form { IsSizeForm kind size alternate_spec (take result out.new) }
    ensures bound { result ≤ narrow_text }
{
    // The position of the largest decimal prefix that is not above the size.
    let most = ((len - 1) / 3) as u32;
    if most == 0 {
        return put_split(size, UnitFraction::Own, kind, out);
    }
    let binary = binary_power(size);
    if binary < most {
        let used = significant(digits);
        // The size is exact in 10^(3 n) within three decimal places if 3 n - 3 zeros are at its end.
        let power = most.min((len + 3 - used) as u32 / 3);
        if binary < power {
            let unit = [b' ', prefix_letter(power), own_letter(kind)];
            return put_decimal(digits, len - 3 * power as usize, used, unit, out);
        }
    }
    let (whole, fraction) = in_eighths(size, binary);
    put_split(whole, fraction, kind, out)
}

/// Returns the number of bytes up to the last that is not the digit 0.
#[inline(always)]
fn significant(digits: &[u8; PADDED_DIGITS]) -> usize
    ensures bound { result ≤ PADDED_DIGITS }
    ensures zeros { (i : ℕ) → result ≤ i → i < PADDED_DIGITS → slice_index digits.now i ≡ 48 }
    ensures last { (i : ℕ) → i + 1 ≡ result → slice_index digits.now i ≢ 48 }
{
    let used = u8x32::from_slice(digits)
        .simd_ne(u8x32::splat(b'0'))
        .to_bitmask();
    (u64::BITS - used.leading_zeros()) as usize
}

/// Writes the first digits up to the index `cut`, a point and the digits from there up to `used`, if there are any, and
/// `unit`, a space and the name of a unit, to the beginning of `out`, and returns the length of this text.
#[inline(always)]
fn put_decimal(
    digits: &[u8; PADDED_DIGITS],
    cut: usize,
    used: usize,
    unit: [u8; 3],
    out: &mut [u8],
) -> usize
    requires cut { cut ≤ 27 }
    requires used { used ≤ cut + 3 }
    requires room { narrow_text ≤ length out.old }
    ensures text { take result out.new ≡ take cut digits.now
        ++ (cut_digits cut used digits.now ++ unit) }
    ensures bound { result ≤ narrow_text }
{
    put(digits, out, PADDED_DIGITS);
    // The fraction is written as four bytes; the unit overwrites what is not used of them.
    let end = if used > cut {
        let fraction = [b'.', digits[cut], digits[cut + 1], digits[cut + 2]];
        put(&fraction, out, cut + 4);
        used + 4
    } else {
        cut + 3
    };
    put(&unit, out, end);
    end
}
