//! Parsing of sizes in bytes whose decimal prefixes mean binary ones.

ghost use Rattle.byte_unit_base.specs.Reading.Binary.{IsBinaryReading, IsBinaryBytesReading};
ghost use Rattle.byte_unit_base.specs.declared.kind.Kind.TheVariants.{Byte as InBytes};

use super::Byte;
use byte_unit_base::{ParseError, ParseSpec, size};

impl Byte {
    /// Parses a size from a string, as [`Byte::parse_str`] does, except that a decimal prefix means the binary one:
    /// `K`, `KB` and `k` are by 1024, as `Ki` and `KiB` are. Does not allocate.
    ///
    /// So the sizes of other programs are read as they mean them: `10m` of nginx, `512m` of docker, `128MB` of
    /// PostgreSQL, `1.5K` of `du -h`.
    ///
    /// # Errors
    /// As those of `parse_str`. `ExceededBounds` is by the binary prefix too: `900 RB` are more than 10^30 bytes.
    ///
    /// # Examples
    /// ```rust
    /// assert_eq!(rt; Byte::parse_str_binary("10m", false)?, Byte::from_u64(10_485_760));
    /// assert_eq!(rt; Byte::parse_str_binary("128MB", false)?, Byte::parse_str("128MiB", false)?);
    /// assert_eq!(rt; Byte::parse_str_binary("1.5 Ki", false)?, Byte::from_u64(1536));
    /// let result = Byte::parse_str_binary("900 RB", false);
    /// assert!(rt; matches!(result, Err(ParseError::Value(ValueParseError::ExceededBounds(_)))));
    /// ```
    pub fn parse_str_binary(s: &str, ignore_case: bool) -> Result<Byte, ParseError>
        ensures { IsBinaryReading InBytes ignore_case s.now result }
    {
        let size = size::parse(s, ParseSpec::BINARY_BYTES.ignoring_case(ignore_case))?;
        Ok(Byte { size })
    }

    /// Parses a size from a string of UTF-8, as [`Byte::parse_str_binary`] does. Returns `None` if the string is not
    /// UTF-8.
    ///
    /// # Examples
    /// ```rust
    /// let size = Byte::parse_bytes_binary(b"1.5 KB", false);
    /// assert!(rt; matches!(size, Some(Ok(size)) if size == Byte::from_u64(1536)));
    /// assert!(rt; Byte::parse_bytes_binary(b"1 KB\xFF", false).is_none());
    /// ```
    pub fn parse_bytes_binary(bytes: &[u8], ignore_case: bool) -> Option<Result<Byte, ParseError>>
        ensures { IsBinaryBytesReading InBytes ignore_case bytes.now result }
    {
        match size::parse_bytes(bytes, ParseSpec::BINARY_BYTES.ignoring_case(ignore_case))? {
            Ok(size) => Some(Ok(Byte { size })),
            Err(error) => Some(Err(error)),
        }
    }
}
