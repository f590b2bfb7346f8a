//! Sizes in bytes as strings whose prefixes are by 1024.

ghost use Rattle.std.specs.Prelude.{◌≡◌, ℕ, List, true, None};
ghost use Rattle.byte_unit.specs.Reading.Binary.{IsBinaryAccepted, IsBinaryReading};
ghost use Rattle.byte_unit.specs.BinaryString.{IsBinaryString};
ghost use Rattle.byte_unit.specs.Forms.{IsText};
ghost use Rattle.byte_unit.specs.declared.Kind.TheVariants.{Byte as InBytes};
ghost use Rattle.byte_unit_serde.specs.Returns.{ParsesSize, WritingSizeAs};
ghost use Rattle.byte_unit_serde.specs.Serialized.{WritesSizeAs};

use crate::Sink;
use crate::messages::size_reason;
use crate::sizes::write_as;
use crate::strings::{DeserializeString, SerializeString};
use byte_unit::{Byte, FormatSpec, Kind};
use byte_unit_format::binary_spec;

/// The ways to write and to read a size in bytes whose prefixes are by 1024.
///
/// Reads a string as `Byte::parse_str_binary` parses it with `ignore_case`. Writes one without a decimal prefix, which
/// would be read as the binary one: the text of `FormatSpec::ALTERNATE` if its unit has a binary prefix, and else the
/// number of bytes.
///
/// So what is written is read as the same size, also by the other types: see the law `binary_string_reads_back`.
pub struct Binary;

impl SerializeString for Binary {
    type Value = Byte;

    ghost writes = { WritesSizeAs (IsBinaryString InBytes) };

    ghost writing = { WritingSizeAs (IsBinaryString InBytes) };

    fn serialize_string<S: Sink>(size: &Byte, out: &mut S) -> Result<(), S::Error> {
        write_as(size.as_u128(), Kind::Byte, spec_of(*size), out)
    }
}

impl DeserializeString for Binary {
    type Value = Byte;

    ghost means = { IsBinaryAccepted InBytes true };

    ghost parses = { ParsesSize (IsBinaryReading InBytes true) };

    fn parse_string(text: &str) -> Result<Byte, &'static str> {
        Byte::parse_str_binary(text, true).map_err(|error| size_reason(&error))
    }
}

/// Returns how the string of the size is formatted: without a width, as `write_as` requires.
fn spec_of(size: Byte) -> FormatSpec
    ensures string { (text : List ℕ) → IsText InBytes size result text
        → IsBinaryString InBytes size text }
    ensures narrow { result.width ≡ None }
{
    binary_spec(size.as_u128(), Kind::Byte, None)
}
