//! Sizes in bytes and in bits as strings.

ghost use Rattle.std.specs.Prelude.{◌≡◌, ◌<◌, false, None, OnOk};
ghost use Rattle.byte_unit.specs.Sizes.Accepted.{IsAccepted};
ghost use Rattle.byte_unit.specs.Bounds.{size_limit};
ghost use Rattle.byte_unit.specs.Forms.{IsText};
ghost use Rattle.byte_unit.specs.Reading.Results.{IsSizeReading};
ghost use Rattle.byte_unit.specs.declared.Kind.TheVariants.{Bit as InBits, Byte as InBytes};
ghost use Rattle.byte_unit_serde.specs.Returns.{ParsesSize, WritingSize, WritingSizeAs};
ghost use Rattle.byte_unit_serde.specs.Serialized.{WritesSize, WritesSizeAs};

use crate::Sink;
use crate::messages::size_reason;
use crate::strings::{DeserializeString, SerializeString};
use byte_unit::{Bit, Byte, FormatSpec, Kind};
use byte_unit_format::{NARROW_TEXT, write_text};

/// Writes the text of a size of this kind by the spec as a string. Does not allocate.
///
/// Precondition (proved at every call): the size is below 10^30, and the spec has no width.
pub(crate) fn write_as<S: Sink>(
    size: u128,
    kind: Kind,
    spec: FormatSpec,
    out: &mut S,
) -> Result<(), S::Error>
    requires bound { size < size_limit }
    requires width { spec.width ≡ None }
    ensures written { OnOk result
        (WritesSizeAs (λ size. IsText kind size spec) size
        (S.written out.old) (S.written out.new)) }
    ensures exact { WritingSizeAs (λ size. IsText kind size spec)
        S.str_returns size out.old result out.new }
{
    let mut bytes = [0; NARROW_TEXT];
    let len = write_text(size, kind, spec, &mut bytes);
    match std::str::from_utf8(&bytes[..len]) {
        Ok(text) => out.write_str(text),
        // Never: each text of a size is ASCII, which the contract of `write_text` does not say.
        Err(_) => Err(out.custom("not UTF-8")),
    }
}

impl SerializeString for Byte {
    type Value = Byte;

    ghost writes = { WritesSize InBytes };

    ghost writing = { WritingSize InBytes };

    fn serialize_string<S: Sink>(size: &Byte, out: &mut S) -> Result<(), S::Error> {
        write_as(size.as_u128(), Kind::Byte, FormatSpec::ALTERNATE, out)
    }
}

impl DeserializeString for Byte {
    type Value = Byte;

    ghost means = { IsAccepted InBytes false };

    ghost parses = { ParsesSize (IsSizeReading InBytes false) };

    fn parse_string(text: &str) -> Result<Byte, &'static str> {
        text.parse::<Byte>().map_err(|error| size_reason(&error))
    }
}

impl SerializeString for Bit {
    type Value = Bit;

    ghost writes = { WritesSize InBits };

    ghost writing = { WritingSize InBits };

    fn serialize_string<S: Sink>(size: &Bit, out: &mut S) -> Result<(), S::Error> {
        write_as(size.as_u128(), Kind::Bit, FormatSpec::ALTERNATE, out)
    }
}

impl DeserializeString for Bit {
    type Value = Bit;

    ghost means = { IsAccepted InBits false };

    ghost parses = { ParsesSize (IsSizeReading InBits false) };

    fn parse_string(text: &str) -> Result<Bit, &'static str> {
        text.parse::<Bit>().map_err(|error| size_reason(&error))
    }
}
