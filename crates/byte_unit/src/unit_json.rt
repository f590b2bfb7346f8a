//! Units as JSON strings.

ghost use Rattle.std.specs.Prelude.{◌≡◌, ⊤, IfOk, true, false};
ghost use Rattle.serde_json.specs.Data.{string};
ghost use Rattle.serde_json.specs.Find.{as_str};
ghost use Rattle.serde_json.specs.View.{view};
ghost use Rattle.byte_unit_base.specs.Grammar.Version.{unit_name};
ghost use Rattle.byte_unit_base.specs.Reading.Results.{ReadsString, IsUnitReading};
ghost use Rattle.byte_unit_base.specs.Grammar.Spelling.{flags_of};
ghost use Rattle.byte_unit.specs.UnitJson.{error_text, styled_error_text, unit_errors};

use byte_unit_base::{Unit, UnitParseError};
use serde_json::Value;
use std::alloc::{AllocError, Global};
use std::error::Error;
use std::fmt;

/// The error returned when a JSON value is not a unit.
#[derive(Copy, Debug)]
pub enum JsonUnitError {
    /// The value is not a string.
    NotString,
    /// The string is not the spelling of a unit.
    Unit(UnitParseError),
}

// Written by hand, as for the errors that it holds: the borrow checker has no rule for a derived `clone` of a type that
// is `Copy` and holds a reference that a model hides.
impl Clone for JsonUnitError {
    ghost is_clone = { λ error copy. copy ≡ error };

    ghost is_infallible = { λ _. ⊤ };

    fn clone(&self) -> Result<JsonUnitError, AllocError> {
        Ok(match self {
            JsonUnitError::NotString => JsonUnitError::NotString,
            JsonUnitError::Unit(error) => JsonUnitError::Unit(error.clone()?),
        })
    }
}

impl fmt::Display for JsonUnitError {
    ghost output = { error_text };

    ghost styled_output = { λ error spec. styled_error_text error };

    fn fmt<W: fmt::Write>(&self, f: &mut fmt::Formatter<W>) -> fmt::Result {
        match self {
            JsonUnitError::NotString => f.write_str("not a JSON string"),
            JsonUnitError::Unit(error) => fmt::Display::fmt(error, f),
        }
    }
}

impl Error for JsonUnitError {}

/// Returns the JSON string of the unit: its name. The string round-trips.
///
/// # Errors
/// `AllocError` if an allocation fails.
///
/// # Examples
/// ```rust
/// let value = unit_to_json(alloc, Unit::Kbit)?;
/// assert_eq!(rt; value.as_str(), Some("Kb"));
/// assert_eq!(rt; unit_from_json(&value)?, Unit::Kbit);
/// ```
pub fn unit_to_json(alloc: Global, unit: Unit) -> Result<Value, AllocError>
    ensures { IfOk result (λ value. view value ≡ string (unit_name unit)) }
{
    Ok(Value::String(String::from_str(alloc, unit.as_str())?))
}

/// Parses a unit from a JSON string, as `FromStr` parses its text: `b` means bits, `B` bytes, and a prefix alone is a
/// multiple of bytes. Does not allocate.
///
/// # Errors
/// `NotString` if the value is not a string, `Unit` if the string is not the spelling of a unit.
///
/// # Examples
/// ```rust
/// use serde_json::Value;
///
/// let value = Value::String(String::from_str(alloc, "Kb")?);
/// assert_eq!(rt; unit_from_json(&value)?, Unit::Kbit);
/// let value = Value::String(String::from_str(alloc, "Kx")?);
/// assert!(rt; matches!(unit_from_json(&value), Err(JsonUnitError::Unit(error)) if error.character == 'x'));
/// assert!(rt; matches!(unit_from_json(&Value::Null), Err(JsonUnitError::NotString)));
/// ```
pub fn unit_from_json(value: &Value) -> Result<Unit, JsonUnitError>
    ensures { ReadsString unit_errors (IsUnitReading (flags_of false true))
        (as_str (view value.now)) result }
{
    let text = value.as_str().ok_or(JsonUnitError::NotString)?;
    text.parse().map_err(JsonUnitError::Unit)
}
