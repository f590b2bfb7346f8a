//! Sizes in bytes as strings that are read with case ignored.

ghost use Rattle.std.specs.Prelude.{true};
ghost use Rattle.byte_unit.specs.Sizes.Accepted.{IsAccepted};
ghost use Rattle.byte_unit.specs.Reading.Results.{IsSizeReading};
ghost use Rattle.byte_unit.specs.declared.Kind.TheVariants.{Byte as InBytes};
ghost use Rattle.byte_unit_serde.specs.Returns.{ParsesSize};

use crate::messages::size_reason;
use crate::strings::DeserializeString;
use byte_unit::Byte;

/// The way to read a size in bytes as `Byte::parse_str` parses it with `ignore_case`.
pub struct IgnoreCase;

impl DeserializeString for IgnoreCase {
    type Value = Byte;

    ghost means = { IsAccepted InBytes true };

    ghost parses = { ParsesSize (IsSizeReading InBytes true) };

    fn parse_string(text: &str) -> Result<Byte, &'static str> {
        Byte::parse_str(text, true).map_err(|error| size_reason(&error))
    }
}
