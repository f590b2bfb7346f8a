//! The exponents of 2 and 5 in a size, and its cofactor.
ghost use Rattle.std.specs.Prelude.{◌≡◌, ◌≢◌, ◌+◌, ◌*◌, ◌%◌, ◌^◌, ◌<◌, ◌≤◌};
ghost use Rattle.byte_unit_math.specs.Bounds.{size_limit};
ghost use Rattle.byte_unit_math.specs.Factored.{product_of};
ghost use Rattle.byte_unit_math.specs.Powers.{IsTwoFive};
ghost use Rattle.byte_unit_math.specs.Steps.{saturating_add};

use crate::steps::Steps;

/// A factored number: `left * 2^twos * 5^fives`.
#[derive(Clone, Copy, Debug)]
pub struct Factors {
    /// The cofactor: what is left without the powers of 2 and 5.
    pub left: u128,
    /// The exponent of 2.
    pub twos: u32,
    /// The exponent of 5.
    pub fives: u32,
}

/// Returns the exponents of 2 and of 5 in the size.
///
/// Precondition (proved at every call): `1 <= size < 10^30`.
///
/// Adds the steps of trial division, computed from the exponents: one for each division by 2 or 5 that succeeds, and
/// one for each of the two that fail, at most 101 in all: a size is below 2^100, so it has at most 99 such factors. The
/// exponent of 2 itself is read from the trailing zero bits, without division.
///
/// # Examples
/// ```rust
/// let mut steps = Steps::new();
/// assert_eq!(rt; two_five(1_000, &mut steps), (3, 3));
/// assert_eq!(rt; two_five(7, &mut steps), (0, 0));
/// assert_eq!(rt; steps.count(), 8 + 2);
/// ```
pub fn two_five(size: u128, steps: &mut Steps) -> (u32, u32)
    requires some { 1 ≤ size }
    requires small { size < size_limit }
    ensures powers { IsTwoFive size result.0 result.1 }
    ensures steps { steps.new ≡ saturating_add steps.old (result.0 + result.1 + 2) }
    ensures bound { result.0 + result.1 + 2 ≤ 101 }
{
    let Factors {
        left: _,
        twos,
        fives,
    } = factors_of(size, steps);
    (twos, fives)
}

/// Returns the size as its factors, with the precondition and the step count of [`two_five`].
///
/// # Examples
/// ```rust
/// let mut steps = Steps::new();
/// let factors = factors_of(7_000, &mut steps);
/// assert_eq!(rt; (factors.left, factors.twos, factors.fives), (7, 3, 3));
/// assert_eq!(rt; steps.count(), 8);
/// ```
#[inline(always)]
pub fn factors_of(size: u128, steps: &mut Steps) -> Factors
    requires positive { 1 ≤ size }
    requires bound { size < size_limit }
    ensures product { product_of result ≡ size }
    ensures powers { IsTwoFive size result.twos result.fives }
    ensures steps { steps.new ≡ saturating_add steps.old (result.twos + result.fives + 2) }
    ensures bound { result.twos + result.fives + 2 ≤ 101 }
{
    let twos = size.trailing_zeros();
    let mut left = size >> twos;
    let mut fives = 0;
    // Divisions of 64 bits are faster, so they take over as soon as the cofactor fits.
    while left >= 1 << 64 && left % 5 == 0 {
        left /= 5;
        fives += 1;
    }
    if left < 1 << 64 {
        let (short, others) = divide_out_fives(left as u64);
        left = u128::from(short);
        fives += others;
    }
    steps.advance_by(twos + fives + 2);
    Factors { left, twos, fives }
}

/// Divides out the factors 5 of an odd number, and returns the cofactor and the exponent of 5.
fn divide_out_fives(number: u64) -> (u64, u32)
    requires { number % 2 ≢ 0 }
    ensures product { number ≡ result.0 * 5 ^ result.1 }
    ensures odd { result.0 % 2 ≢ 0 }
    ensures none { result.0 % 5 ≢ 0 }
{
    let mut left = number;
    let mut fives = 0;
    while left % 5 == 0 {
        left /= 5;
        fives += 1;
    }
    (left, fives)
}
