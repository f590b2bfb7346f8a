//! Products of a decimal and a unit's size, rounded up to a whole number.
ghost use Rattle.std.specs.Prelude.{◌≡◌, ℕ, ◌+◌, ◌-◌, ◌*◌, ◌/◌, ◌%◌, ◌^◌, ◌<◌, ◌≤◌, IfSome, IfNone};
ghost use Rattle.byte_unit_math.specs.Bounds.{bits_limit, places_of_decimal, unit_limit};
ghost use Rattle.byte_unit_math.specs.Least.{IsLeastSize};
ghost use Rattle.byte_unit_math.specs.RoundedUp.{group_limit, half_limit, IsRoundedUp};
ghost use Rattle.byte_unit_math.specs.Steps.{saturating_add};

use crate::dividing::{div_rem_by_inverse, div_rem_u24};
use crate::tens::{POWERS_OF_TEN, power_of_ten};
use crate::{DECIMAL_PLACES, Decimal, Steps};

/// The radix of groups of seven digits: the product of a group and a unit of at most 40 bits fits a `u64`.
const GROUP: u64 = 10_000_000;

/// The radix of half the digits of a fraction, which fit a `u64`.
const TEN_POW_14: u64 = 100_000_000_000_000;

/// The reciprocal of `TEN_POW_14`: 2^110 / 10^14, rounded down. With a greater power of 2 it would not fit 64 bits.
const TEN_POW_14_INVERSE: u64 = 12_980_742_146_337_069_071;

/// The number of digits of a group.
const GROUP_PLACES: u32 = 7;

/// The number of groups of a fraction, which has 28 digits.
const GROUPS: u32 = 4;

/// Returns `d * unit_size` rounded up to a whole number. Returns `None` if that is `limit` or more.
///
/// Precondition (proved at every call): `1 <= unit_size <= 2^93` and `limit <= 8 * 10^30`.
///
/// # Examples
/// ```rust
/// assert_eq!(rt; least_size(Decimal::from_digits(1, 5, 1), 1024, 2000), Some(1536));
/// assert_eq!(rt; least_size(Decimal::from_digits(0, 1, 1), 1024, 2000), Some(103));
/// assert_eq!(rt; least_size(Decimal::from_digits(1, 5, 1), 1024, 1536), None);
/// ```
#[inline(always)]
#[tactic(auto, using(crate::proofs::RoundedUp::in_first_group))]
pub fn least_size(d: Decimal, unit_size: u128, limit: u128) -> Option<u128>
    requires some_unit { 1 ≤ unit_size }
    requires small_unit { unit_size ≤ unit_limit }
    requires small_limit { limit ≤ bits_limit }
    ensures least { IfSome result (IsLeastSize d unit_size) }
    ensures bound { IfSome result (λ n. n < limit) }
    // No size below the limit is at least the product.
    ensures none { IfNone result ((n : ℕ) → IsLeastSize d unit_size n → limit ≤ n) }
{
    let (whole, digits, places) = d.fields();
    let part = if places <= GROUP_PLACES {
        // All digits are in the most significant group.
        let group = digits as u64 * POWERS_OF_TEN[(GROUP_PLACES - places) as usize] as u64;
        carry_of_group(group, unit_size, 0)
    } else {
        let (high, low) = split_fraction(digits, places);
        let part = carry_of_half(low, unit_size, 0);
        carry_of_half(high, unit_size, part)
    };
    let size = if whole < 1 << 64 && unit_size < 1 << 64 {
        // Numbers of 64 bits take one multiplication, and their sum no test.
        u128::from(whole as u64) * u128::from(unit_size as u64) + part
    } else {
        // A number of more than 128 bits exceeds each limit.
        whole.checked_mul(unit_size)?.checked_add(part)?
    };
    (size < limit).then_some(size)
}

/// Returns the same as [`least_size`], with the same precondition, and adds four steps: a product by groups of seven
/// digits has one for each, and 28 digits are four groups. It adds four for a shorter fraction too.
///
/// # Examples
/// ```rust
/// let mut steps = Steps::new();
/// assert_eq!(rt; least_size_counted(Decimal::from_digits(1, 5, 1), 1024, 2000, &mut steps), Some(1536));
/// assert_eq!(rt; steps.count(), 4);
/// ```
pub fn least_size_counted(
    d: Decimal,
    unit_size: u128,
    limit: u128,
    steps: &mut Steps,
) -> Option<u128>
    requires some_unit { 1 ≤ unit_size }
    requires small_unit { unit_size ≤ unit_limit }
    requires small_limit { limit ≤ bits_limit }
    ensures least { IfSome result (IsLeastSize d unit_size) }
    ensures bound { IfSome result (λ n. n < limit) }
    ensures none { IfNone result ((n : ℕ) → IsLeastSize d unit_size n → limit ≤ n) }
    ensures steps { steps.new ≡ saturating_add steps.old 4 }
{
    steps.advance_by(GROUPS);
    least_size(d, unit_size, limit)
}

/// Splits the fraction `digits / 10^places`, as 28 digits, into its first and its last 14.
#[inline(always)]
#[tactic(auto, using(crate::proofs::Expanding::fraction_below_one))]
fn split_fraction(digits: u128, places: u32) -> (u64, u64)
    requires digits { digits < 10 ^ places }
    requires places { places ≤ places_of_decimal }
    ensures high { result.0 ≡ digits * 10 ^ (places_of_decimal - places) / half_limit }
    ensures low { result.1 ≡ digits * 10 ^ (places_of_decimal - places) % half_limit }
{
    let fraction = digits * power_of_ten(DECIMAL_PLACES - places);
    // 30 + 80 is 110, the power of the reciprocal, and at most 64 bits are left after the cut by 30.
    div_rem_by_inverse(fraction, TEN_POW_14, TEN_POW_14_INVERSE, 30, 80)
}

/// Returns the carry into the next half: the product of 14 digits and the unit's size, plus the carry of the less
/// significant half, divided by 10^14 and rounded up.
#[inline(always)]
fn carry_of_half(digits: u64, unit_size: u128, carry: u128) -> u128
    requires digits { digits < half_limit }
    requires small_unit { unit_size ≤ unit_limit }
    requires carry { carry ≤ unit_size }
    ensures rounded { IsRoundedUp (digits * unit_size + carry) half_limit result }
    ensures bound { result ≤ unit_size }
{
    if unit_size < 1 << 62 {
        // The sum is less than 10^14 * 2^62 + 2^62 + 10^14, which is less than 2^109, so 64 bits are left after the cut
        // by 45; and 45 + 65 is 110, the power of the reciprocal.
        let product = u128::from(digits) * u128::from(unit_size as u64) + carry;
        let sum = product + u128::from(TEN_POW_14 - 1);
        u128::from(div_rem_by_inverse(sum, TEN_POW_14, TEN_POW_14_INVERSE, 45, 65).0)
    } else {
        carry_of_groups(digits, unit_size, carry)
    }
}

/// Returns what `carry_of_half` does, for any unit, by two groups.
#[inline(never)]
fn carry_of_groups(digits: u64, unit_size: u128, carry: u128) -> u128
    requires digits { digits < half_limit }
    requires small_unit { unit_size ≤ unit_limit }
    requires carry { carry ≤ unit_size }
    ensures rounded { IsRoundedUp (digits * unit_size + carry) half_limit result }
    ensures bound { result ≤ unit_size }
{
    let part = carry_of_group(digits % GROUP, unit_size, carry);
    carry_of_group(digits / GROUP, unit_size, part)
}

/// Returns the carry into the next group: the product of a group and the unit's size, plus the carry of the less
/// significant groups, divided by the radix and rounded up.
#[inline(always)]
fn carry_of_group(digits: u64, unit_size: u128, carry: u128) -> u128
    requires digits { digits < group_limit }
    requires small_unit { unit_size ≤ unit_limit }
    requires carry { carry ≤ unit_size }
    ensures rounded { IsRoundedUp (digits * unit_size + carry) group_limit result }
    ensures bound { result ≤ unit_size }
{
    if digits == 0 && carry == 0 {
        // A zero group without a carry needs no division.
        0
    } else if unit_size < 1 << 40 {
        // The sum is less than 10^7 * 2^40, which is less than 2^64: the carry is at most the unit's size.
        u128::from((digits * unit_size as u64 + carry as u64 + (GROUP - 1)) / GROUP)
    } else {
        // The sum is less than 10^7 * 2^93 + 2^93 + 10^7, which is less than 2^120, and the radix is less than 2^24.
        let product = u128::from(digits) * unit_size + carry;
        div_rem_u24(product + u128::from(GROUP - 1), GROUP).0
    }
}
