//! Parsing of sizes in bytes as a `ParseSpec` says: also in words.

ghost use Rattle.byte_unit_base.specs.Reading.ParseSpec.{in_kind};
ghost use Rattle.byte_unit_base.specs.Reading.Results.{IsReadingAs};
ghost use Rattle.byte_unit_base.specs.declared.kind.Kind.TheVariants.{Byte as InBytes};

use super::Byte;
use byte_unit_base::{Kind, ParseError, ParseSpec, size};

impl Byte {
    /// Parses a size in bytes from a string, as `spec` says, whose kind does not matter. Does not allocate.
    ///
    /// If words are read, a word may stand for the unit: a prefix by its name or its letters, or none, then `byte`,
    /// `bit` or `octet`, with or without an `s`, in either case. A string that is read without words is read as the
    /// same size.
    ///
    /// # Errors
    /// As those of [`Byte::parse_str`]: a string that is no size in words has the error that it has without them.
    ///
    /// # Examples
    /// ```rust
    /// let words = ParseSpec::BYTES.reading_words(true);
    /// assert_eq!(rt; Byte::parse_str_as("10 bytes", words)?, Byte::from_u64(10));
    /// assert_eq!(rt; Byte::parse_str_as("1.5 KiB", words)?, Byte::from_u64(1536));
    /// assert!(rt; Byte::parse_str_as("5 octets", ParseSpec::BYTES).is_err());
    /// ```
    pub fn parse_str_as(s: &str, spec: ParseSpec) -> Result<Byte, ParseError>
        ensures { IsReadingAs (in_kind InBytes spec) s.now result }
    {
        let size = size::parse(s, spec.of_kind(Kind::Byte))?;
        Ok(Byte { size })
    }
}
