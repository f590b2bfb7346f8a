//! Sizes in bytes as strings that may have words for units.

ghost use Rattle.std.specs.Prelude.{true, false};
ghost use Rattle.byte_unit.specs.Grammar.Version.{current};
ghost use Rattle.byte_unit.specs.Reading.ParseSpec.{parse_spec, with_words};
ghost use Rattle.byte_unit.specs.Reading.Results.{IsReadingAs};
ghost use Rattle.byte_unit.specs.Sizes.Accepted.{IsAcceptedAs};
ghost use Rattle.byte_unit.specs.declared.Kind.TheVariants.{Byte as InBytes};
ghost use Rattle.byte_unit_serde.specs.Returns.{ParsesSize};

use crate::messages::size_reason;
use crate::strings::DeserializeString;
use byte_unit::{Byte, ParseSpec};

/// The way to read a size in bytes as `Byte::parse_str_as` parses it with case ignored and words read.
pub struct Words;

impl DeserializeString for Words {
    type Value = Byte;

    ghost means = { IsAcceptedAs (with_words true (parse_spec InBytes true false)) current };

    ghost parses = { ParsesSize (IsReadingAs (with_words true (parse_spec InBytes true false))) };

    fn parse_string(text: &str) -> Result<Byte, &'static str> {
        let spec = ParseSpec::BYTES.ignoring_case(true).reading_words(true);
        Byte::parse_str_as(text, spec).map_err(|error| size_reason(&error))
    }
}
