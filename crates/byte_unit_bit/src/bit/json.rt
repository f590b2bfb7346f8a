// Rendered from crates/byte_unit_byte/src/byte/json.rt by `tools/dev render bits`. Do not edit.
//! Sizes in bits as JSON strings.

ghost use Rattle.std.specs.Prelude.{◌≡◌, ℕ, List, false, IfOk};
ghost use Rattle.serde_json.specs.Data.{string};
ghost use Rattle.serde_json.specs.Find.{as_str};
ghost use Rattle.serde_json.specs.View.{view};
ghost use Rattle.byte_unit_format.specs.Forms.{IsText};
ghost use Rattle.byte_unit_base.specs.Reading.Results.{ReadsString, size_errors, IsSizeReading};
ghost use Rattle.byte_unit_base.specs.declared.kind.Kind.TheVariants.{Bit as InBits};

use super::Bit;
use byte_unit_base::JsonSizeError;
use byte_unit_format::FormatSpec;
use serde_json::Value;
use std::alloc::{AllocError, Global};

impl Bit {
    /// Returns the JSON string of the size: its text with a unit, by `FormatSpec::ALTERNATE`. The string
    /// round-trips.
    ///
    /// # Errors
    /// `AllocError` if an allocation fails.
    ///
    /// # Examples
    /// ```rust
    /// let size = Bit::from_u64(15_500);
    /// let value = size.to_json(alloc)?;
    /// assert_eq!(rt; value.as_str(), Some("15.5 Kb"));
    /// assert_eq!(rt; Bit::from_json(&value)?, size);
    /// ```
    pub fn to_json(self, alloc: Global) -> Result<Value, AllocError>
        ensures { IfOk result
            (λ value. (text : List ℕ) × IsText InBits self FormatSpec.ALTERNATE text
            × (view value ≡ string text)) }
    {
        Ok(Value::String(self.to_text(alloc, FormatSpec::ALTERNATE)?))
    }

    /// Parses a size from a JSON string, as `FromStr` parses its text. Does not allocate.
    ///
    /// # Errors
    /// `NotString` if the value is not a string, `Parse` if the string is rejected.
    ///
    /// # Examples
    /// ```rust
    /// use serde_json::Value;
    ///
    /// let value = Value::String(String::from_str(alloc, "15.5 Kb")?);
    /// assert_eq!(rt; Bit::from_json(&value)?, Bit::from_u64(15_500));
    /// assert!(rt; matches!(Bit::from_json(&Value::Null), Err(JsonSizeError::NotString)));
    /// ```
    pub fn from_json(value: &Value) -> Result<Bit, JsonSizeError>
        ensures { ReadsString size_errors (IsSizeReading InBits false)
            (as_str (view value.now)) result }
    {
        let text = value.as_str().ok_or(JsonSizeError::NotString)?;
        text.parse().map_err(JsonSizeError::Parse)
    }
}
