//! Calls on numbers: decimals, expansions, products, quotients and factors.

use crate::answers::{Answer, agreed, both, or_none, shown};
use crate::row_error::RowError;
use crate::units;
use crate::words::{decimal_of, named, number_in, number_of};
use byte_unit::{
    Byte, Decimal, Expansion, Steps, Ties, exact_quotient, least_size, least_size_counted, two_five,
};
use std::alloc::Global;

/// A bound of the numerator of an expansion, and of the limit of a product: the bits of 10^30 bytes.
const BITS_LIMIT: u128 = 8_000_000_000_000_000_000_000_000_000_000;

/// The largest numerator of a quotient.
const MOST_WHOLE: u128 = (1 << 112) - 1;

/// The largest divisor: the bits of the largest unit.
const UNIT_LIMIT: u128 = 1 << 93;

/// How ties are rounded.
const TIES: &[(&str, Ties)] = &[("even", Ties::Even), ("up", Ties::Up)];

/// Returns the answer to a call on numbers, or to one on units or on sizes.
pub fn answer(alloc: Global, words: &[&str]) -> Answer {
    let mut steps = Steps::new();
    match words {
        ["decimal", mantissa, scale] => {
            let (mantissa, scale) = (number_of(mantissa)?, number_of(scale)?);
            or_none(alloc, Decimal::from_u128_with_scale(mantissa, scale))
        }
        ["expansion", number, twos, fives] => shown(alloc, expansion_of(number, twos, fives)?),
        ["rounded", number, twos, fives, places, ties] => {
            let number = expansion_of(number, twos, fives)?;
            let (places, ties) = (number_of(places)?, named(ties, TIES)?);
            shown(alloc, number.rounded(places, ties))
        }
        ["least", number, per, limit] => {
            let (number, per) = (decimal_of(number)?, number_in(per, 1, UNIT_LIMIT)?);
            let limit = number_in(limit, 0, BITS_LIMIT)?;
            let counted = or_none(alloc, least_size_counted(number, per, limit, &mut steps))?;
            let size = or_none(alloc, least_size(number, per, limit))?;
            agreed(alloc, &[size, counted])
        }
        ["quotient", number, per, places] => {
            let number = number_in(number, 0, MOST_WHOLE)?;
            let per = number_in(per, 1, UNIT_LIMIT)?;
            let quotient = exact_quotient(number, per, number_of(places)?, &mut steps);
            both(alloc, or_none(alloc, quotient)?, steps.count())
        }
        ["powers", size] => {
            let size = number_in(size, 1, Byte::MAX.as_u128())?;
            let (twos, fives) = two_five(size, &mut steps);
            let count = steps.count();
            Ok(format!(in alloc; "2^{twos} 5^{fives} {count}")?)
        }
        _ => units::answer(alloc, words),
    }
}

/// Returns the expansion of a number over powers of 2 and 5.
///
/// # Errors
/// Returns an error if a word is no number, or if a number is out of the bounds of an expansion.
pub fn expansion_of(number: &str, twos: &str, fives: &str) -> Result<Expansion, RowError> {
    let numerator = number_of(number)?;
    let (twos, fives) = (number_of(twos)?, number_of(fives)?);
    let even = 2u128.checked_pow(twos).ok_or(RowError::Word)?;
    let odd = 5u128.checked_pow(fives).ok_or(RowError::Word)?;
    let denominator = even.checked_mul(odd).ok_or(RowError::Word)?;
    if numerator < BITS_LIMIT && denominator <= UNIT_LIMIT {
        Ok(Expansion::new(numerator, twos, fives))
    } else {
        Err(RowError::Word)
    }
}
