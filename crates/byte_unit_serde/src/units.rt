//! Units as strings.

ghost use Rattle.byte_unit.specs.Grammar.Version.{unit_name};
ghost use Rattle.byte_unit_serde.specs.Returns.{ParsesUnit};
ghost use Rattle.byte_unit_serde.specs.Serialized.{SpellsUnit, WritesUnit};

use crate::Sink;
use crate::messages::BAD_UNIT;
use crate::strings::{DeserializeString, SerializeString};
use byte_unit::Unit;

impl SerializeString for Unit {
    type Value = Unit;

    ghost writes = { WritesUnit };

    ghost writing = { λ str_returns unit. str_returns (unit_name unit) };

    fn serialize_string<S: Sink>(unit: &Unit, out: &mut S) -> Result<(), S::Error> {
        out.write_str(unit.as_str())
    }
}

impl DeserializeString for Unit {
    type Value = Unit;

    ghost means = { SpellsUnit };

    ghost parses = { ParsesUnit };

    fn parse_string(text: &str) -> Result<Unit, &'static str> {
        text.parse::<Unit>().map_err(|_| BAD_UNIT)
    }
}
