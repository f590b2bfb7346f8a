//! Terminating decimal expansions with few digits after the point, by one product and one division or shift.
ghost use Rattle.std.specs.Prelude.{◌≢◌, ℕ, ◌*◌, ◌%◌, ◌^◌, ◌<◌, ◌≤◌, IfSome};
ghost use Rattle.byte_unit_math.specs.Bounds.{bits_limit, places_of_decimal, unit_limit, whole_limit};
ghost use Rattle.byte_unit_math.specs.Nearest.{IsNearest};
ghost use Rattle.byte_unit_math.specs.ShortExpansion.{IsShortExpansion};
ghost use Rattle.byte_unit_math.specs.declared.expansion.Ties.TheVariants.{Up};

use crate::dividing::{div_rem, rounded_quotient};
use crate::expansion::Ties;
use crate::tens::{power_of_five, power_of_ten};
use crate::{DECIMAL_PLACES, Decimal};

/// The most digits after the point of a [`ShortExpansion`]: any 38 digits are a number of 128 bits.
const MOST_PLACES: u32 = 38;

/// The most factors 2 that a decimal unit has beside its factors 10: the eight bits of a byte.
const BYTE_TWOS: u32 = 3;

/// A terminating decimal expansion with at most 38 digits after the point, the last of which is not 0.
#[derive(Clone, Copy, Debug)]
pub struct ShortExpansion {
    /// The part before the point.
    pub whole: u128,
    /// The digits after the point as a number of `places` digits, leading zeros included.
    pub digits: u128,
    /// The number of digits after the point.
    pub places: u32,
}

/// Returns the expansion of `numerator / (2^twos * 5^fives)`. Returns `None` if it has more than 38 digits after the
/// point, or may have: for `fives > 0` if `twos` exceeds it by more than 3, or if it may have more than 28.
///
/// Precondition (proved at every call): `numerator < 8 * 10^30`, `fives <= twos` and `2^twos * 5^fives <= 2^93`.
///
/// # Examples
/// ```rust
/// let eighths = short_expansion(13, 3, 0).unwrap();
/// assert_eq!(rt; (eighths.whole, eighths.digits, eighths.places), (1, 625, 3));
/// let thousandths = short_expansion(12_288, 6, 3).unwrap();
/// assert_eq!(rt; (thousandths.whole, thousandths.digits, thousandths.places), (1, 536, 3));
/// assert!(rt; short_expansion(3, 38, 0).is_some());
/// assert!(rt; short_expansion(3, 39, 0).is_none());
/// ```
#[inline(always)]
pub fn short_expansion(numerator: u128, twos: u32, fives: u32) -> Option<ShortExpansion>
    requires bound { numerator < bits_limit }
    requires order { fives ≤ twos }
    requires den { 2 ^ twos * 5 ^ fives ≤ unit_limit }
    ensures { IfSome result (IsShortExpansion numerator (2 ^ twos * 5 ^ fives)) }
{
    // The factors 2 that numerator and denominator share, without those of the denominator's factors 10.
    let shared = numerator.trailing_zeros().min(twos - fives);
    let left = twos - fives - shared;
    let reduced = numerator >> shared;
    if fives == 0 {
        binary_expansion(reduced, left)
    } else {
        decimal_expansion(reduced, left, fives)
    }
}

/// Returns `numerator / divisor` rounded to the nearest decimal with at most `places` digits after the point, ties up.
///
/// Precondition (proved at every call): `numerator < 8 * 10^30`, `numerator * 10^places < 2^127`,
/// `1 <= divisor <= 2^93` and `places <= 28`.
///
/// # Examples
/// ```rust
/// let eighths = rounded_expansion(13, 8, 2);
/// assert_eq!(rt; (eighths.whole, eighths.digits, eighths.places), (1, 63, 2));
/// assert_eq!(rt; rounded_expansion(12, 8, 2).places, 1);
/// ```
#[inline(always)]
pub fn rounded_expansion(numerator: u128, divisor: u128, places: u32) -> ShortExpansion
    requires bound { numerator < bits_limit }
    requires positive { 1 ≤ divisor }
    requires divisor_bound { divisor ≤ unit_limit }
    requires places { places ≤ places_of_decimal }
    requires product_bound { numerator * 10 ^ places < 2 ^ 127 }
    ensures { (number : ℕ) × IsNearest numerator divisor places Up number
        × IsShortExpansion number (10 ^ places) result }
{
    let number = rounded_quotient(numerator * power_of_ten(places), divisor, Ties::Up);
    split_at_point(number, places)
}

/// Returns the expansion of `numerator / 2^places`, which is in lowest terms, or `None` if `places` is more than 38.
#[inline(always)]
fn binary_expansion(numerator: u128, places: u32) -> Option<ShortExpansion>
    requires odd { 0 < places → numerator % 2 ≢ 0 }
    ensures { IfSome result (IsShortExpansion numerator (2 ^ places)) }
{
    if places > MOST_PLACES {
        return None;
    }
    let rest = numerator & ((1 << places) - 1);
    Some(ShortExpansion {
        whole: numerator >> places,
        // 10^places / 2^places is 5^places.
        digits: rest * power_of_five(places),
        places,
    })
}

/// Returns the expansion of `numerator / (2^twos * 10^tens)`, or `None` if `twos` is more than 3 or it may have more
/// than 28 digits after the point.
#[inline(always)]
fn decimal_expansion(numerator: u128, twos: u32, tens: u32) -> Option<ShortExpansion>
    requires { numerator < bits_limit }
    ensures { IfSome result (IsShortExpansion numerator (2 ^ twos * 10 ^ tens)) }
{
    if twos > BYTE_TWOS || tens > DECIMAL_PLACES - twos {
        return None;
    }
    // At most 28, as `Decimal::from_digits` requires.
    let places = tens + twos;
    // 10^(tens + twos) / (2^twos * 10^tens) is 5^twos.
    Some(split_at_point(numerator * power_of_five(twos), places))
}

/// Returns `number / 10^places`, without trailing zeros.
#[inline(always)]
fn split_at_point(number: u128, places: u32) -> ShortExpansion
    requires places { places ≤ places_of_decimal }
    requires bound { number < whole_limit * 10 ^ places }
    ensures { IsShortExpansion number (10 ^ places) result }
{
    let (whole, digits) = div_rem(number, power_of_ten(places));
    let (whole, digits, places) = Decimal::from_digits(whole, digits, places).fields();
    ShortExpansion {
        whole,
        digits,
        places,
    }
}
