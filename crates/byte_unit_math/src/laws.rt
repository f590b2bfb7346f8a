//! Laws of the definitions. Each function does nothing: its contract is the law.
ghost use Rattle.std.specs.Prelude.{◌≡◌, ◌-◌, ◌^◌, ◌<◌, ◌≤◌};
ghost use Rattle.byte_unit_math.specs.Bounds.{places_of_decimal, whole_limit, expansion_places};
ghost use Rattle.byte_unit_math.specs.NumberLaws.{ExactByPowers, NumbersHaveTwosAndFives, PlacesByPowers};
ghost use Rattle.byte_unit_math.specs.NumberLaws.{ZeroTakesNoPlaces, ExpansionsAreFoundByDivision};
ghost use Rattle.byte_unit_math.specs.NumberLaws.{NumeralsAreExact, ShortNumeralsAreExpansions};
ghost use Rattle.byte_unit_math.specs.CountLaws.{GreatestCountStays};

use crate::{DECIMAL_PLACES, EXPANSION_PLACES, NUMBER_DIGITS, WHOLE_LIMIT};

/// States that a nonzero `num / (2^a * 5^b)` is exact within `p` places if and only if neither exponent exceeds `p`
/// plus the numerator's own exponent.
pub fn exact_by_powers()
    ensures { ExactByPowers }
{}

/// States that the quotient needs as many places as the numerator lacks factors of 2 or of 5, whichever is more. Zero
/// needs none.
pub fn places_by_powers()
    ensures some { NumbersHaveTwosAndFives }
    ensures places { PlacesByPowers }
    ensures zero { ZeroTakesNoPlaces }
{}

/// States that if `num / den` is exact within 93 places, its expansion is the one that long division finds.
pub fn expansions_are_found_by_division()
    ensures { ExpansionsAreFoundByDivision }
{}

/// States that the numeral of `number / 10^places` with all its places represents that number, and is its terminating
/// decimal expansion if trailing zeros are removed.
pub fn numerals_are_exact()
    ensures all { NumeralsAreExact }
    ensures short { ShortNumeralsAreExpansions }
{}

/// States that a step count at its maximum stays there, whatever number of steps is added.
pub fn greatest_count_stays()
    ensures { GreatestCountStays }
{}

/// States that the constants of the crate are the bounds of the definitions, and that 2^128 - 1 has `NUMBER_DIGITS`
/// digits.
pub fn constants_are_bounds()
    ensures places { DECIMAL_PLACES ≡ places_of_decimal }
    ensures whole { WHOLE_LIMIT ≡ whole_limit }
    ensures expansion { EXPANSION_PLACES ≡ expansion_places }
    ensures digits { (10 ^ (NUMBER_DIGITS - 1) < 2 ^ 128) × (2 ^ 128 ≤ 10 ^ NUMBER_DIGITS) }
{}
