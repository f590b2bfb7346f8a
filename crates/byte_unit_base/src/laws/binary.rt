//! Laws of the binary reading. Each function does nothing; its contract is the law.

#![tactic(auto, using(crate::proofs::BinaryTexts::each_text_with_i))]

ghost use Rattle.byte_unit_base.specs.Laws.Binary.{BinaryReadingsAreThoseWithI, EachTextHasOneWithI};

/// States that the binary reading of each string is the reading of it with an `i` after its decimal prefix. A string
/// without a decimal prefix, or that is rejected, has the same result in both readings.
pub fn binary_readings_are_those_with_i()
    ensures { BinaryReadingsAreThoseWithI }
{}

/// States that each string has such a string: one with that `i`, or itself if it has no decimal prefix.
pub fn each_text_has_one_with_i()
    ensures { EachTextHasOneWithI }
{}
