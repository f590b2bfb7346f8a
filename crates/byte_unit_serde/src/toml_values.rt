//! Sizes and units from TOML values.

ghost use Rattle.std.specs.Prelude.{false, true};
ghost use Rattle.toml.specs.Data.{as_str};
ghost use Rattle.toml.specs.View.{view};
ghost use Rattle.byte_unit.specs.Reading.Results.{ReadsString, IsUnitReading, IsSizeReading};
ghost use Rattle.byte_unit.specs.Grammar.Spelling.{flags_of};
ghost use Rattle.byte_unit.specs.declared.Kind.TheVariants.{Bit as InBits, Byte as InBytes};
ghost use Rattle.byte_unit_serde.specs.TomlErrors.{size_text, toml_size_errors, toml_unit_errors, unit_error_text};

use byte_unit::{Bit, Byte, ParseError, Unit, UnitParseError};
use std::error::Error;
use std::fmt;
use toml::Value;

/// The error returned when a TOML value is not a size.
#[derive(Debug, Drop)]
pub enum TomlSizeError {
    /// The value is not a string.
    NotString,
    /// The string is not a size.
    Parse(ParseError),
}

/// The error returned when a TOML value is not a unit.
#[derive(Debug, Drop)]
pub enum TomlUnitError {
    /// The value is not a string.
    NotString,
    /// The string is not the spelling of a unit.
    Unit(UnitParseError),
}

impl fmt::Display for TomlSizeError {
    ghost output = { size_text };

    fn fmt<W: fmt::Write>(&self, f: &mut fmt::Formatter<W>) -> fmt::Result {
        match self {
            TomlSizeError::NotString => f.write_str("not a TOML string"),
            TomlSizeError::Parse(error) => fmt::Display::fmt(error, f),
        }
    }
}

impl Error for TomlSizeError {}

impl fmt::Display for TomlUnitError {
    ghost output = { unit_error_text };

    fn fmt<W: fmt::Write>(&self, f: &mut fmt::Formatter<W>) -> fmt::Result {
        match self {
            TomlUnitError::NotString => f.write_str("not a TOML string"),
            TomlUnitError::Unit(error) => fmt::Display::fmt(error, f),
        }
    }
}

impl Error for TomlUnitError {}

/// Parses a size in bytes from a TOML string, as `FromStr` parses its text. Does not allocate.
///
/// # Errors
///
/// `NotString` if the value is not a string, `Parse` if the string is rejected.
///
/// # Examples
///
/// ```rust
/// use byte_unit::Byte;
/// use byte_unit_serde::{TomlSizeError, byte_from_toml};
///
/// let text = "lines = 3\n\n[[user]]\nused = \"15.5 KB\"\n\n[[user]]\nused = \"5 Kx\"\n";
/// let table = toml::table_from_str(alloc, text)?;
/// let lines = byte_from_toml(table.get("lines").expect(&rt, "lines"));
/// assert!(rt; matches!(lines, Err(TomlSizeError::NotString)));
/// let users = table.get("user").expect(&rt, "user");
/// let users = users.as_array().expect(&rt, "an array");
/// for (index, user) in users.iter().enumerate() {
///     let used = user.get("used").expect(&rt, "used");
///     match byte_from_toml(used) {
///         Ok(size) => assert_eq!(rt; (index, size), (0, Byte::from_u64(15_500))),
///         Err(error) => {
///             let message = format!(in alloc; "user[{index}].used: {used}: {error}")?;
///             let wanted = "user[1].used: \"5 Kx\": the character 'x' is incorrect";
///             assert!(rt; message.as_str().starts_with(wanted));
///         }
///     }
/// }
/// ```
pub fn byte_from_toml(value: &Value) -> Result<Byte, TomlSizeError>
    ensures { ReadsString toml_size_errors (IsSizeReading InBytes false)
        (as_str (view value.now)) result }
{
    let text = value.as_str().ok_or(TomlSizeError::NotString)?;
    text.parse::<Byte>().map_err(TomlSizeError::Parse)
}

/// Parses a size in bits from a TOML string, as `FromStr` parses its text. Does not allocate.
///
/// # Errors
///
/// `NotString` if the value is not a string, `Parse` if the string is rejected.
///
/// # Examples
///
/// ```rust
/// use byte_unit::Bit;
/// use byte_unit_serde::bit_from_toml;
///
/// let table = toml::table_from_str(alloc, "rate = \"8 Mbit\"\n")?;
/// assert_eq!(rt; bit_from_toml(&table["rate"])?, Bit::from_u64(8_000_000));
/// ```
pub fn bit_from_toml(value: &Value) -> Result<Bit, TomlSizeError>
    ensures { ReadsString toml_size_errors (IsSizeReading InBits false)
        (as_str (view value.now)) result }
{
    let text = value.as_str().ok_or(TomlSizeError::NotString)?;
    text.parse::<Bit>().map_err(TomlSizeError::Parse)
}

/// Parses a unit from a TOML string, as `FromStr` parses its text: `b` means bits, `B` bytes, and a prefix alone is a
/// multiple of bytes. Does not allocate.
///
/// # Errors
///
/// `NotString` if the value is not a string, `Unit` if the string is not the spelling of a unit.
///
/// # Examples
///
/// ```rust
/// use byte_unit::Unit;
/// use byte_unit_serde::unit_from_toml;
///
/// let table = toml::table_from_str(alloc, "unit = \"Kb\"\n")?;
/// assert_eq!(rt; unit_from_toml(&table["unit"])?, Unit::Kbit);
/// ```
pub fn unit_from_toml(value: &Value) -> Result<Unit, TomlUnitError>
    ensures { ReadsString toml_unit_errors (IsUnitReading (flags_of false true))
        (as_str (view value.now)) result }
{
    let text = value.as_str().ok_or(TomlUnitError::NotString)?;
    text.parse::<Unit>().map_err(TomlUnitError::Unit)
}
