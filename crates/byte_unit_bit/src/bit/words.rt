// Rendered from crates/byte_unit_byte/src/byte/words.rt by `tools/dev render bits`. Do not edit.
//! Parsing of sizes in bits as a `ParseSpec` says: also in words.

ghost use Rattle.byte_unit_base.specs.Reading.ParseSpec.{in_kind};
ghost use Rattle.byte_unit_base.specs.Reading.Results.{IsReadingAs};
ghost use Rattle.byte_unit_base.specs.declared.kind.Kind.TheVariants.{Bit as InBits};

use super::Bit;
use byte_unit_base::{Kind, ParseError, ParseSpec, size};

impl Bit {
    /// Parses a size in bits from a string, as `spec` says, whose kind does not matter. Does not allocate.
    ///
    /// If words are read, a word may stand for the unit: a prefix by its name or its letters, or none, then `bit`,
    /// `byte` or `octet`, with or without an `s`, in either case. A string that is read without words is read as the
    /// same size.
    ///
    /// # Errors
    /// As those of [`Bit::parse_str`]: a string that is no size in words has the error that it has without them.
    ///
    /// # Examples
    /// ```rust
    /// let words = ParseSpec::BITS.reading_words(true);
    /// assert_eq!(rt; Bit::parse_str_as("10 bits", words)?, Bit::from_u64(10));
    /// assert_eq!(rt; Bit::parse_str_as("1.5 Kib", words)?, Bit::from_u64(1536));
    /// assert!(rt; Bit::parse_str_as("5 octets", ParseSpec::BITS).is_err());
    /// ```
    pub fn parse_str_as(s: &str, spec: ParseSpec) -> Result<Bit, ParseError>
        ensures { IsReadingAs (in_kind InBits spec) s.now result }
    {
        let size = size::parse(s, spec.of_kind(Kind::Bit))?;
        Ok(Bit { size })
    }
}
