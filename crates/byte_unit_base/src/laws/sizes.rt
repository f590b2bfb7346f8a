//! Laws of sizes in bytes and in bits. Each function does nothing; its contract is the law.

#![tactic(auto, using(crate::proofs::Rounding::more_covers_more, crate::proofs::Rounding::one_least_size))]

ghost use Rattle.byte_unit_base.specs.Laws.Sizes.{GreaterNumbersGiveNoSmallerSizes, EachNumberHasOneLeastSize};
ghost use Rattle.byte_unit_base.specs.Laws.Sizes.{EachTextIsOneOfThree, TextsAreAcceptedOrRejected};

/// States that for one unit a greater number never has a smaller size.
pub fn greater_numbers_give_no_smaller_sizes()
    ensures { GreaterNumbersGiveNoSmallerSizes }
{}

/// States that each number of each unit has one size in bytes, and one in bits: its exact value, rounded up.
pub fn each_number_has_one_least_size()
    ensures { EachNumberHasOneLeastSize }
{}

/// States that for each string exactly one of three holds: it is accepted, as one size of the kind; it is in the
/// grammar, but its size is too large, and it has one number; or it is not in the grammar, and has one error.
pub fn each_text_is_one_of_three()
    ensures { EachTextIsOneOfThree }
{}

/// States that each string is accepted as one size of the kind or refused (rejected with one error), not both. A size
/// that is too large is an error here, with the number as it was written.
pub fn texts_are_accepted_or_refused()
    ensures { TextsAreAcceptedOrRejected }
{}
