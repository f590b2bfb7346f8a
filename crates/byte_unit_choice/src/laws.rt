//! Laws of the choice of a unit. Each function does nothing; its contract is the law.
//!
//! They hold for every unit set, every size in bits, every precision, and in every version of the grammar. The chosen
//! unit is the largest of the set, not above the size, in which the size is exact within the precision. A precision
//! above 28 counts as 28.

ghost use Rattle.byte_unit_choice.specs.ChoiceLaws.{ChoicesAreOne, EachSizeHasAChoiceOrNone, NumberTimesUnitIsSize};
ghost use Rattle.byte_unit_choice.specs.ChoiceLaws.{ChoicesAtNoPlacesAreWhole, MorePlacesGiveNoSmallerUnit};
ghost use Rattle.byte_unit_choice.specs.ChoiceLaws.{SizesAreExactByPowers};

/// States that at precision 0 the number of the chosen unit is whole, and that no larger unit of the set divides the
/// size.
pub fn choices_at_no_places_are_whole()
    ensures { ChoicesAtNoPlacesAreWhole }
{}

/// States that if a unit is chosen at a precision, one is chosen at each greater precision, and it is no smaller.
pub fn more_places_give_no_smaller_unit()
    ensures { MorePlacesGiveNoSmallerUnit }
{}

/// States that the number of a chosen unit times the unit is the size exactly.
pub fn number_times_unit_is_size()
    ensures { NumberTimesUnitIsSize }
{}

/// States that two choices for one size at one precision have the same unit and the same number.
pub fn choices_are_one()
    ensures { ChoicesAreOne }
{}

/// States that each size has a chosen unit with its number, or is exact in no unit of the set.
pub fn each_size_has_a_choice_or_none()
    ensures { EachSizeHasAChoiceOrNone }
{}

/// States that a size that is not zero is exact in a unit at a number of places if and only if neither exponent of the
/// unit, of 2 and of 5, exceeds that of the size in bits by more than the places.
#[tactic(auto, using(crate::proofs::SizePowers::sizes_by_powers))]
pub fn sizes_are_exact_by_powers()
    ensures { SizesAreExactByPowers }
{}
