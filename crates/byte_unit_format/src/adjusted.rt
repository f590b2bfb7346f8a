//! Formatting of a size in a given unit.

ghost use Rattle.std.specs.Prelude.{◌≡◌, ℕ, ◌*◌, ◌^◌, ◌<◌, ◌≤◌, List, length, IfSome, Some, true};
ghost use Rattle.std.specs.Fmt.{DisplaysOnOk, DisplaysStyledOnOk};
ghost use Rattle.byte_unit_math.specs.Finite.{IsExpansion};
ghost use Rattle.byte_unit_math.specs.Nearest.{IsNearest};
ghost use Rattle.byte_unit_math.specs.Numeral.{text_of};
ghost use Rattle.byte_unit_math.specs.Padded.{pad_of};
ghost use Rattle.byte_unit_math.specs.ShortExpansion.{IsShortExpansion};
ghost use Rattle.byte_unit_math.specs.declared.expansion.Ties.TheVariants.{Up};
ghost use Rattle.byte_unit_base.specs.Grammar.Shape.{bits};
ghost use Rattle.byte_unit_math.specs.Bounds.{bits_limit, size_limit};
ghost use Rattle.byte_unit_base.specs.Grammar.Units.{shape_of};
ghost use Rattle.byte_unit_base.specs.Sizes.Kinds.{bits_in};
ghost use Rattle.byte_unit_format.specs.Rounding.{rule_from, FitsRounding, IsRoundingOf};
ghost use Rattle.byte_unit_format.specs.TextParts.{IsReady, parts_text};
ghost use Rattle.byte_unit_format.specs.Room.{AppendsForm};
ghost use Rattle.byte_unit_format.specs.Written.{WritesForm};
ghost use Rattle.byte_unit_format.specs.Forms.{text_limit};
ghost use Rattle.byte_unit_format.specs.Adjusted.{IsNumeralBy, IsAdjustedForm, adjusted_text, most_adjusted_text};

use crate::FormatSpec;
use crate::layout::{append_layout, layout_parts, write_layout};
use crate::parts::{Fraction, TextParts};
use byte_unit_base::{Kind, Unit};
use byte_unit_math::{
    Expansion, ShortExpansion, Ties, div_rem, power_of_ten, rounded_expansion, rounded_quotient,
    short_expansion,
};
use std::alloc::{AllocError, Allocator};
use std::fmt;
use std::fmt::Display;

/// The most digits after the point in the alternate form if a precision is set: as in the Rust crate, whose floats hold
/// no more.
const ALTERNATE_PLACES: u16 = 16;

/// Up to this many digits after the point, a number is rounded by one division: any size in bits times 10^7 fits 127
/// bits.
const ONE_DIVISION_PLACES: u32 = 7;

/// Up to this many, a size of fewer than 2^64 bits is: times 10^18, such a size fits 127 bits too.
const ONE_DIVISION_PLACES_U64: u32 = 18;

/// How the number of a size in a unit is rounded.
#[derive(Clone, Copy)]
enum Rounding {
    /// Not at all: all digits are shown.
    Exact,
    /// To exactly this many digits after the point, ties to even.
    To(u32),
    /// To at most this many digits after the point, ties up, without trailing zeros.
    AtMost(u32),
}

/// Returns the length in bytes of a size formatted in a unit. Does not allocate.
///
/// If no width is set, it is at most 129 without a precision, and at most 36 more than a precision, or 39 for a
/// precision below 3.
///
/// Precondition (proved at every call): the size is below 10^30.
///
/// # Examples
/// ```rust
/// let unset = FormatSpec::PLAIN;
/// assert_eq!(rt; adjusted_len(1536, Kind::Byte, Unit::KB, unset), "1.536 KB".len());
/// ```
pub fn adjusted_len(size: u128, kind: Kind, unit: Unit, spec: FormatSpec) -> usize
    requires { size < size_limit }
    ensures exact { (form : List ℕ) → IsAdjustedForm kind size unit spec form
        → result ≡ length form }
    ensures bound { result < text_limit }
    ensures narrow { result ≤ most_adjusted_text spec }
{
    write_adjusted(size, kind, unit, spec, &mut [])
}

/// Appends a size formatted in a unit.
///
/// Without a precision, or if the unit has no prefix, all digits are shown. Otherwise the number is rounded to exactly
/// `precision` places, ties to even. In the alternate form a precision applies to units without a prefix too, counts as
/// 16 if it is more, ties go up, and trailing zeros are left out.
///
/// Precondition (proved at every call): the size is below 10^30.
///
/// # Errors
/// Returns `AllocError` if the string's spare capacity is below `adjusted_len` and allocation fails; the string and its
/// capacity are then unchanged. It allocates at most once, before it writes.
///
/// # Examples
/// ```rust
/// let two = FormatSpec { precision: Some(2), ..FormatSpec::PLAIN };
/// let mut text = String::new(alloc);
/// append_adjusted(1005, Kind::Byte, Unit::KB, two, &mut text)?;
/// assert_eq!(rt; text.as_str(), "1.00 KB");
/// ```
pub fn append_adjusted<A: Allocator>(
    size: u128,
    kind: Kind,
    unit: Unit,
    spec: FormatSpec,
    text: &mut String<A>,
) -> Result<(), AllocError>
    requires { size < size_limit }
    ensures { AppendsForm (IsAdjustedForm kind size unit spec) text.old text.new result }
{
    let rounding = rounding_of(unit, spec);
    match short_parts(size, kind, unit, rounding, spec) {
        Some(parts) => parts.append(text),
        None => {
            let mut number = number_in_unit(size, kind, unit);
            let places = round(&mut number, rounding);
            append_layout(&number, places, unit, spec, text)
        }
    }
}

/// Writes what `append_adjusted` appends to the beginning of `out`, and returns its length. Writes nothing if it does
/// not fit. Does not allocate.
///
/// Precondition (proved at every call): the size is below 10^30.
///
/// # Examples
/// ```rust
/// let mut out = [b'.'; 9];
/// assert_eq!(rt; write_adjusted(1536, Kind::Byte, Unit::KB, FormatSpec::PLAIN, &mut out), 8);
/// assert!(rt; out == *b"1.536 KB.");
/// ```
#[inline(always)]
pub fn write_adjusted(size: u128, kind: Kind, unit: Unit, spec: FormatSpec, out: &mut [u8]) -> usize
    requires { size < size_limit }
    ensures written { WritesForm (IsAdjustedForm kind size unit spec) out.old out.new result }
    ensures bound { result < text_limit }
    ensures narrow { result ≤ most_adjusted_text spec }
{
    let rounding = rounding_of(unit, spec);
    match short_parts(size, kind, unit, rounding, spec) {
        Some(parts) => parts.write(out),
        None => write_full(size, kind, unit, rounding, spec, out),
    }
}

/// Writes a size in a unit to a formatter, as `FormatSpec::PLAIN` formats it, and ignores the formatter's flags.
///
/// Precondition (proved at every call): the size is below 10^30.
///
/// # Errors
/// Returns `fmt::Error` if the writer does.
pub fn display_adjusted<W: fmt::Write>(
    size: u128,
    kind: Kind,
    unit: Unit,
    f: &mut fmt::Formatter<W>,
) -> fmt::Result
    requires { size < size_limit }
    ensures plain { let text = adjusted_text kind size unit in
        DisplaysOnOk W.write_str_gives f.old result (Some text) f.new }
    ensures styled { let text = adjusted_text kind size unit in
        DisplaysStyledOnOk W.write_str_gives f.old result (Some text) f.new }
{
    number_in_unit(size, kind, unit).fmt(f)?;
    f.write_str(" ")?;
    f.write_str(unit.as_str())
}

/// Writes as `write_adjusted`, by all digits of the number: the slow path.
#[inline(never)]
fn write_full(
    size: u128,
    kind: Kind,
    unit: Unit,
    rounding: Rounding,
    spec: FormatSpec,
    out: &mut [u8],
) -> usize
    requires bound { size < size_limit }
    requires rounding { IsRoundingOf unit spec rounding }
    ensures written { WritesForm (IsAdjustedForm kind size unit spec) out.old out.new result }
    ensures bound { result < text_limit }
{
    if let Some(parts) = alternate_parts(size, kind, unit, rounding, spec) {
        return parts.write(out);
    }
    let mut number = number_in_unit(size, kind, unit);
    let places = round(&mut number, rounding);
    write_layout(&number, places, unit, spec, out)
}

/// Returns how the spec rounds a number in the unit.
#[inline(always)]
fn rounding_of(unit: Unit, spec: FormatSpec) -> Rounding
    ensures { IsRoundingOf unit spec result }
{
    match spec.precision {
        None => Rounding::Exact,
        Some(precision) => {
            if spec.alternate {
                Rounding::AtMost(u32::from(precision.min(ALTERNATE_PLACES)))
            } else if matches!(unit, Unit::Bit | Unit::B) {
                Rounding::Exact
            } else {
                Rounding::To(u32::from(precision))
            }
        }
    }
}

/// Returns the parts of a size in a unit with the unit, if one product and one division give the number: all digits if
/// they are at most 38, or the nearest decimal, ties to even.
#[inline(always)]
#[tactic(auto, using(byte_unit_math::proofs::Digits::one_le_pow10))]
fn short_parts(
    size: u128,
    kind: Kind,
    unit: Unit,
    rounding: Rounding,
    spec: FormatSpec,
) -> Option<TextParts<'static>>
    requires bound { size < size_limit }
    requires rounding { IsRoundingOf unit spec rounding }
    ensures text { IfSome result (λ parts. IsAdjustedForm kind size unit spec (parts_text parts)) }
    ensures len { IfSome result (λ parts. parts.len ≡ length (parts_text parts)) }
    ensures bound { IfSome result (λ parts. parts.len < text_limit) }
    ensures ready { IfSome result (λ parts. IsReady parts) }
{
    let in_bits = size * kind.bits();
    match rounding {
        Rounding::Exact => {
            let (twos, fives) = unit.powers();
            let number = short_expansion(in_bits, twos, fives)?;
            let fraction = Fraction::Last(number.digits, number.places);
            Some(layout_parts(number.whole, fraction, unit, spec))
        }
        Rounding::To(places) if takes_one_division(in_bits, places) => {
            let power = power_of_ten(places);
            let number = rounded_quotient(in_bits * power, unit.as_bits_u128(), Ties::Even);
            let (whole, digits) = div_rem(number, power);
            Some(layout_parts(whole, Fraction::Last(digits, places), unit, spec))
        }
        _ => None,
    }
}

/// Returns the parts of a size in a unit with the unit, if the number is rounded as in the alternate form, and one
/// product and one division give it.
#[inline(always)]
fn alternate_parts(
    size: u128,
    kind: Kind,
    unit: Unit,
    rounding: Rounding,
    spec: FormatSpec,
) -> Option<TextParts<'static>>
    requires bound { size < size_limit }
    requires rounding { IsRoundingOf unit spec rounding }
    ensures text { IfSome result (λ parts. IsAdjustedForm kind size unit spec (parts_text parts)) }
    ensures len { IfSome result (λ parts. parts.len ≡ length (parts_text parts)) }
    ensures bound { IfSome result (λ parts. parts.len < text_limit) }
    ensures ready { IfSome result (λ parts. IsReady parts) }
{
    let Rounding::AtMost(places) = rounding else {
        return None;
    };
    let number = at_most(size * kind.bits(), unit, places)?;
    let fraction = Fraction::Last(number.digits, number.places);
    Some(layout_parts(number.whole, fraction, unit, spec))
}

/// Returns a number of bits in the unit, rounded to at most `places` digits after the point, ties up: all its digits if
/// they are no more, or else the nearest decimal if one division gives it.
#[inline(always)]
fn at_most(in_bits: u128, unit: Unit, places: u32) -> Option<ShortExpansion>
    requires { in_bits < bits_limit }
    ensures { IfSome result (λ e. (number : ℕ)
        × IsNearest in_bits (bits (shape_of unit)) places Up number
        × IsShortExpansion number (10 ^ places) e) }
{
    let (twos, fives) = unit.powers();
    // In a larger decimal unit, digits of more than 64 bits may end in zeros, and each one takes a division.
    if fives <= ONE_DIVISION_PLACES_U64 {
        if let Some(exact) = short_expansion(in_bits, twos, fives) {
            if exact.places <= places {
                return Some(exact);
            }
        }
    }
    if takes_one_division(in_bits, places) {
        return Some(rounded_expansion(in_bits, unit.as_bits_u128(), places));
    }
    None
}

/// Returns whether one division rounds a number of bits in a unit: if the bits times the power of ten fit 127 bits.
#[inline(always)]
fn takes_one_division(in_bits: u128, places: u32) -> bool
    requires { in_bits < bits_limit }
    ensures { result ≡ true → (places ≤ 18) × (in_bits * 10 ^ places < 2 ^ 127) }
{
    places <= ONE_DIVISION_PLACES || (in_bits < 1 << 64 && places <= ONE_DIVISION_PLACES_U64)
}

/// Rounds a number, and returns how many of its digits after the point are shown.
#[inline(always)]
fn round(number: &mut Expansion, rounding: Rounding) -> u32
    requires { FitsRounding rounding }
    ensures text { (num den : ℕ) → 1 ≤ den → IsExpansion num den number.old
        → IsNumeralBy (rule_from rounding) num den (text_of (pad_of result number.new)) }
    ensures bound { result < 2 ^ 16 }
{
    match rounding {
        Rounding::Exact => number.places(),
        Rounding::To(places) => {
            number.round(places, Ties::Even);
            places
        }
        Rounding::AtMost(places) => {
            number.round(places, Ties::Up);
            number.places()
        }
    }
}

/// Returns the size in the unit, exactly: with at most 93 digits after the point.
///
/// Precondition (proved at every call): the size is below 10^30.
///
/// # Examples
/// ```rust
/// let number = number_in_unit(1536, Kind::Byte, Unit::KiB);
/// assert_eq!(rt; (number.whole(), number.digit(1)), (1, 5));
/// assert_eq!(rt; number_in_unit(1, Kind::Bit, Unit::KB).places(), 6);
/// ```
#[inline(never)]
pub fn number_in_unit(size: u128, kind: Kind, unit: Unit) -> Expansion
    requires { size < size_limit }
    ensures { IsExpansion (size * bits_in kind) (bits (shape_of unit)) result }
{
    let (twos, fives) = unit.powers();
    Expansion::new(size * kind.bits(), twos, fives)
}
