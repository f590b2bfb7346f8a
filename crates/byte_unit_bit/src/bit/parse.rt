// Rendered from crates/byte_unit_byte/src/byte/parse.rt by `tools/dev render bits`. Do not edit.
//! Parsing of sizes in bits.

ghost use Rattle.std.specs.Prelude.{false, take};
ghost use Rattle.byte_unit_base.specs.Reading.Line.{IsLine};
ghost use Rattle.byte_unit_base.specs.Reading.Results.{IsSizeReading, IsBytesReading};
ghost use Rattle.byte_unit_base.specs.declared.kind.Kind.TheVariants.{Bit as InBits};

use super::Bit;
use byte_unit_base::{ParseError, ParseSpec, size};

impl Bit {
    /// Parses a size from a string, rounded up to a whole bit. Does not allocate.
    ///
    /// The string, without white space at its ends, is a number, any number of spaces, and the spelling of a unit.
    /// With no unit it is a number of bits, and with a prefix alone a number of that multiple of bits.
    ///
    /// The suffix `b` means bits and `B` bytes; the case of all other letters is ignored.
    ///
    /// # Errors
    /// The error is the first one from the left:
    ///
    /// - `Value` with `NoValue` if the string is empty or white space;
    /// - `Value` with `NotNumber` if a digit is missing;
    /// - `Value` with `NumberTooLong` if the integer part is 2^112 or more, or more than 28 digits follow the
    ///   point;
    /// - `Unit` if the unit is not a spelling of one;
    /// - `Value` with `ExceededBounds` and the number as it is written, if there is no other error and the size is
    ///   10^30 bits or more.
    ///
    /// # Examples
    /// ```rust
    /// assert_eq!(rt; Bit::parse_str("50.84 Mb")?, Bit::from_u64(50_840_000));
    /// assert_eq!(rt; Bit::parse_str("9 b")?, Bit::from_u64(9));
    /// assert_eq!(rt; Bit::parse_str("9 B")?, Bit::from_u64(72));
    /// let result = Bit::parse_str("1.");
    /// assert!(rt; matches!(result, Err(ParseError::Value(ValueParseError::NotNumber('.')))));
    /// let result = Bit::parse_str("1000 Rb");
    /// assert!(rt; matches!(result, Err(ParseError::Value(ValueParseError::ExceededBounds(_)))));
    /// ```
    pub fn parse_str(s: &str) -> Result<Bit, ParseError>
        ensures { IsSizeReading InBits false s.now result }
    {
        let size = size::parse(s, ParseSpec::BITS)?;
        Ok(Bit { size })
    }

    /// Parses a size from a string in UTF-8, as [`Bit::parse_str`] does. Returns `None` if what is given is not UTF-8.
    ///
    /// If it represents a size, this is faster than making a `str` of it first.
    ///
    /// # Examples
    /// ```rust
    /// let size = Bit::parse_bytes(b"1.5 Kib");
    /// assert!(rt; matches!(size, Some(Ok(size)) if size == Bit::from_u64(1536)));
    /// let result = Bit::parse_bytes(b"1.");
    /// assert!(rt; matches!(result, Some(Err(ParseError::Value(ValueParseError::NotNumber('.'))))));
    /// assert!(rt; Bit::parse_bytes(b"1 Kib\xFF").is_none());
    /// ```
    #[inline(always)]
    pub fn parse_bytes(bytes: &[u8]) -> Option<Result<Bit, ParseError>>
        ensures { IsBytesReading InBits false bytes.now result }
    {
        Bit::parse_line(bytes, bytes.len())
    }

    /// Parses a size from the line at the beginning of bytes, its first `len` bytes, as [`Bit::parse_bytes`] does
    /// from these. In a buffer of many lines this is faster.
    ///
    /// Precondition (proved at every call): `len <= bytes.len()`, and the line ends there: the next byte is a line
    /// feed, or there is none.
    ///
    /// # Examples
    /// ```rust
    /// let size = Bit::parse_line(b"1.5 Kib\n12\n", 7);
    /// assert!(rt; matches!(size, Some(Ok(size)) if size == Bit::from_u64(1536)));
    /// ```
    #[inline(always)]
    pub fn parse_line(bytes: &[u8], len: usize) -> Option<Result<Bit, ParseError>>
        requires { IsLine bytes.now len }
        ensures { IsBytesReading InBits false (take len bytes.now) result }
    {
        match size::parse_line(bytes, len, ParseSpec::BITS)? {
            Ok(size) => Some(Ok(Bit { size })),
            Err(error) => Some(Err(error)),
        }
    }
}
