// Rendered from crates/byte_unit_byte/src/byte/binary.rt by `tools/dev render bits`. Do not edit.
//! Parsing of sizes in bits whose decimal prefixes mean binary ones.

ghost use Rattle.std.specs.Prelude.{false};
ghost use Rattle.byte_unit_base.specs.Reading.Binary.{IsBinaryReading, IsBinaryBytesReading};
ghost use Rattle.byte_unit_base.specs.declared.kind.Kind.TheVariants.{Bit as InBits};

use super::Bit;
use byte_unit_base::{ParseError, ParseSpec, size};

impl Bit {
    /// Parses a size from a string, as [`Bit::parse_str`] does, except that a decimal prefix means the binary one:
    /// `K`, `Kb` and `k` are by 1024, as `Ki` and `Kib` are. Does not allocate.
    ///
    /// So `100 Kb` are 102,400 bits, as `100 Kib` are.
    ///
    /// # Errors
    /// As those of `parse_str`. `ExceededBounds` is by the binary prefix too: `900 Rb` are more than 10^30 bits.
    ///
    /// # Examples
    /// ```rust
    /// assert_eq!(rt; Bit::parse_str_binary("10m")?, Bit::from_u64(10_485_760));
    /// assert_eq!(rt; Bit::parse_str_binary("128Mb")?, Bit::parse_str("128Mib")?);
    /// assert_eq!(rt; Bit::parse_str_binary("1.5 Ki")?, Bit::from_u64(1536));
    /// let result = Bit::parse_str_binary("900 Rb");
    /// assert!(rt; matches!(result, Err(ParseError::Value(ValueParseError::ExceededBounds(_)))));
    /// ```
    pub fn parse_str_binary(s: &str) -> Result<Bit, ParseError>
        ensures { IsBinaryReading InBits false s.now result }
    {
        let size = size::parse(s, ParseSpec::BINARY_BITS)?;
        Ok(Bit { size })
    }

    /// Parses a size from a string of UTF-8, as [`Bit::parse_str_binary`] does. Returns `None` if the string is not
    /// UTF-8.
    ///
    /// # Examples
    /// ```rust
    /// let size = Bit::parse_bytes_binary(b"1.5 Kb");
    /// assert!(rt; matches!(size, Some(Ok(size)) if size == Bit::from_u64(1536)));
    /// assert!(rt; Bit::parse_bytes_binary(b"1 Kb\xFF").is_none());
    /// ```
    pub fn parse_bytes_binary(bytes: &[u8]) -> Option<Result<Bit, ParseError>>
        ensures { IsBinaryBytesReading InBits false bytes.now result }
    {
        match size::parse_bytes(bytes, ParseSpec::BINARY_BITS)? {
            Ok(size) => Some(Ok(Bit { size })),
            Err(error) => Some(Err(error)),
        }
    }
}
