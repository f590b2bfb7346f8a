//! Parsing of sizes in bytes.

ghost use Rattle.std.specs.Prelude.{take};
ghost use Rattle.byte_unit_base.specs.Reading.Line.{IsLine};
ghost use Rattle.byte_unit_base.specs.Reading.Results.{IsSizeReading, IsBytesReading};
ghost use Rattle.byte_unit_base.specs.declared.kind.Kind.TheVariants.{Byte as InBytes};

use super::Byte;
use byte_unit_base::{ParseError, ParseSpec, size};

impl Byte {
    /// Parses a size from a string, rounded up to a whole byte. Does not allocate.
    ///
    /// The string, without white space at its ends, is a number, any number of spaces, and the spelling of a unit.
    /// With no unit it is a number of bytes, and with a prefix alone a number of that multiple of bytes.
    ///
    /// With `ignore_case` a `b` that does not begin `bit` or `bits` means bytes, otherwise bits.
    ///
    /// # Errors
    /// The error is the first one from the left:
    ///
    /// - `Value` with `NoValue` if the string is empty or white space;
    /// - `Value` with `NotNumber` if a digit is missing;
    /// - `Value` with `NumberTooLong` if the integer part is 2^112 or more, or more than 28 digits follow the
    ///   point;
    /// - `Unit` if the unit is not a spelling of one;
    /// - `Value` with `ExceededBounds` and the number as it is written, if there is no other error and the size is
    ///   10^30 bytes or more.
    ///
    /// # Examples
    /// ```rust
    /// assert_eq!(rt; Byte::parse_str("50.84 MB", false)?, Byte::from_u64(50_840_000));
    /// assert_eq!(rt; Byte::parse_str("9 b", true)?, Byte::from_u64(9));
    /// assert_eq!(rt; Byte::parse_str("9 b", false)?, Byte::from_u64(2));
    /// let result = Byte::parse_str("1.", false);
    /// assert!(rt; matches!(result, Err(ParseError::Value(ValueParseError::NotNumber('.')))));
    /// let result = Byte::parse_str("1000 RB", false);
    /// assert!(rt; matches!(result, Err(ParseError::Value(ValueParseError::ExceededBounds(_)))));
    /// ```
    pub fn parse_str(s: &str, ignore_case: bool) -> Result<Byte, ParseError>
        ensures { IsSizeReading InBytes ignore_case s.now result }
    {
        let size = size::parse(s, ParseSpec::BYTES.ignoring_case(ignore_case))?;
        Ok(Byte { size })
    }

    /// Parses a size from a string in UTF-8, as [`Byte::parse_str`] does. Returns `None` if what is given is not UTF-8.
    ///
    /// If it represents a size, this is faster than making a `str` of it first.
    ///
    /// # Examples
    /// ```rust
    /// let size = Byte::parse_bytes(b"1.5 KiB", false);
    /// assert!(rt; matches!(size, Some(Ok(size)) if size == Byte::from_u64(1536)));
    /// let result = Byte::parse_bytes(b"1.", false);
    /// assert!(rt; matches!(result, Some(Err(ParseError::Value(ValueParseError::NotNumber('.'))))));
    /// assert!(rt; Byte::parse_bytes(b"1 KiB\xFF", false).is_none());
    /// ```
    #[inline(always)]
    pub fn parse_bytes(bytes: &[u8], ignore_case: bool) -> Option<Result<Byte, ParseError>>
        ensures { IsBytesReading InBytes ignore_case bytes.now result }
    {
        Byte::parse_line(bytes, bytes.len(), ignore_case)
    }

    /// Parses a size from the line at the beginning of bytes, its first `len` bytes, as [`Byte::parse_bytes`] does
    /// from these. In a buffer of many lines this is faster.
    ///
    /// Precondition (proved at every call): `len <= bytes.len()`, and the line ends there: the next byte is a line
    /// feed, or there is none.
    ///
    /// # Examples
    /// ```rust
    /// let size = Byte::parse_line(b"1.5 KiB\n12\n", 7, false);
    /// assert!(rt; matches!(size, Some(Ok(size)) if size == Byte::from_u64(1536)));
    /// ```
    #[inline(always)]
    pub fn parse_line(
        bytes: &[u8],
        len: usize,
        ignore_case: bool,
    ) -> Option<Result<Byte, ParseError>>
        requires { IsLine bytes.now len }
        ensures { IsBytesReading InBytes ignore_case (take len bytes.now) result }
    {
        match size::parse_line(bytes, len, ParseSpec::BYTES.ignoring_case(ignore_case))? {
            Ok(size) => Some(Ok(Byte { size })),
            Err(error) => Some(Err(error)),
        }
    }
}
