//! Laws of formatted sizes. Each function does nothing: its contract is the law.
//!
//! In the laws about parsing a formatted size, a size is below 10^30. The others hold for any number as the size,
//! unless they say otherwise.

#![tactic(auto, using(crate::proofs::LawProofs::law_lemmas))]

ghost use Rattle.std.specs.Prelude.{◌≡◌};
ghost use Rattle.byte_unit_format.specs.FormLaws.{SizeFormReadsBack, PlainFormReadsBack, SizeStringReadsBack};
ghost use Rattle.byte_unit_format.specs.FormLaws.{SizeHasOneForm, SizeHasOneAdjustedForm, AdjustedStringReadsBack};
ghost use Rattle.byte_unit_format.specs.FormLaws.{ShownSizeIsPlainForm, ShownAdjustedSizeIsPlainForm};
ghost use Rattle.byte_unit_format.specs.FormLaws.{PlainFormFillsWidth, LayoutFillsWidth};
ghost use Rattle.byte_unit_format.specs.FormLaws.{PlacesOfSize, ZeroTakesNoPlaces, ExpansionsEnd};
ghost use Rattle.byte_unit_format.specs.BinaryString.{BinaryStringReadsBack};
ghost use Rattle.byte_unit_format.specs.VersionLaws.{AcceptedTextsStay, AdjustedFormsStay, AppropriateUnitsStay};
ghost use Rattle.byte_unit_format.specs.VersionLaws.{SizeFormsStay};
ghost use Rattle.byte_unit_format.specs.NamedSpecs.{plain_spec, alternate_spec};

use crate::FormatSpec;

/// States that the form of a size with a unit is parsed as the size that it shows.
pub fn size_form_reads_back()
    ensures { SizeFormReadsBack }
{}

/// States that a size formatted as digits only round-trips, if the sign is not `Plus`.
pub fn plain_form_reads_back()
    ensures { PlainFormReadsBack }
{}

/// States that the string that a size is stored as, its alternate form, round-trips.
pub fn size_string_reads_back()
    ensures { SizeStringReadsBack }
{}

/// States that the string for the binary reading round-trips, in either reading. `ignore_case` changes nothing.
pub fn binary_string_reads_back()
    ensures { BinaryStringReadsBack }
{}

/// States that a size has one form with a unit under each spec, in each version.
pub fn size_has_one_form()
    ensures { SizeHasOneForm }
{}

/// States that a size has one form in each unit under each spec.
pub fn size_has_one_adjusted_form()
    ensures { SizeHasOneAdjustedForm }
{}

/// States that `Display` writes a size as `FormatSpec::PLAIN` formats it.
pub fn shown_size_is_plain_form()
    ensures { ShownSizeIsPlainForm }
{}

/// States that `Display` writes a size in a unit as `FormatSpec::PLAIN` formats it.
pub fn shown_adjusted_size_is_plain_form()
    ensures { ShownAdjustedSizeIsPlainForm }
{}

/// States that a size formatted as digits only is as long as the width, or as its digits with their sign if longer.
pub fn plain_form_fills_width()
    ensures { PlainFormFillsWidth }
{}

/// States that a number with its unit is as long as the width, or as number, spaces and name if longer.
pub fn layout_fills_width()
    ensures { LayoutFillsWidth }
{}

/// States that the string of an adjusted size is parsed as its size if it has at most 28 digits after the point, and
/// else rejected as too long.
pub fn adjusted_string_reads_back()
    ensures { AdjustedStringReadsBack }
{}

/// States that a nonzero size in a unit needs `max(a - s, b - t, 0)` places, where `a` and `b` are the exponents of 2
/// and 5 in the bits of the unit, and `s` and `t` those in the bits of the size. Zero needs none.
pub fn places_of_size()
    ensures places { PlacesOfSize }
    ensures zero { ZeroTakesNoPlaces }
{}

/// States that a size in a unit has at most 93 places, a size in bytes at most 90.
pub fn expansions_end()
    ensures { ExpansionsEnd }
{}

/// States that what the first version accepts or prints keeps its meaning. Each string that it accepts is accepted as
/// the same size, under the same flags. Each size of the first version has the same form with a unit under each spec,
/// and the same appropriate unit of its own kind by each type; and in each unit of the first version a size has the
/// same form under each spec.
pub fn old_meanings_stay()
    ensures accepted_texts { AcceptedTextsStay }
    ensures size_forms { SizeFormsStay }
    ensures appropriate_units { AppropriateUnitsStay }
    ensures adjusted_forms { AdjustedFormsStay }
{}

/// States that `FormatSpec::PLAIN` sets no option, and `FormatSpec::ALTERNATE` only the alternate form.
pub fn named_specs_set_no_other_option()
    ensures plain { FormatSpec.PLAIN ≡ plain_spec }
    ensures alternate { FormatSpec.ALTERNATE ≡ alternate_spec }
{}
