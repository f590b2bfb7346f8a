// Rendered from crates/byte_unit_byte/src/byte/adjusted/json.rt by `tools/dev render bits`. Do not edit.
//! Adjusted sizes in bits as JSON strings.

ghost use Rattle.std.specs.Prelude.{◌≡◌, ℕ, List, IfOk};
ghost use Rattle.serde_json.specs.Data.{string};
ghost use Rattle.serde_json.specs.Find.{as_str};
ghost use Rattle.serde_json.specs.View.{view};
ghost use Rattle.byte_unit_choice.specs.AdjustedSize.{IsAdjustedReading};
ghost use Rattle.byte_unit_format.specs.AdjustedString.{IsAdjustedString};
ghost use Rattle.byte_unit_base.specs.Reading.Results.{ReadsString, size_errors};
ghost use Rattle.byte_unit_base.specs.declared.kind.Kind.TheVariants.{Bit as InBits};

use super::AdjustedBit;
use crate::bit::Bit;
use byte_unit_base::JsonSizeError;
use byte_unit_format::FormatSpec;
use serde_json::Value;
use std::alloc::{AllocError, Global};

impl AdjustedBit {
    /// Returns the JSON string of the adjusted size: its text by `FormatSpec::ALTERNATE`, or that of the size if it
    /// is `Bit::MAX`.
    ///
    /// The string round-trips to the same size, in the unit that is appropriate for it, if the size is `Bit::MAX`, or
    /// in its unit has at most 28 digits after the point. Otherwise [`AdjustedBit::from_json`] rejects it.
    ///
    /// # Errors
    /// `AllocError` if an allocation fails.
    ///
    /// # Examples
    /// ```rust
    /// let adjusted = Bit::from_u64(4).get_adjusted_unit(Unit::Gibit);
    /// let value = adjusted.to_json(alloc)?;
    /// assert_eq!(rt; value.as_str(), Some("0.0000000037252902984619140625 Gib"));
    /// assert_eq!(rt; AdjustedBit::from_json(&value)?, adjusted);
    /// ```
    pub fn to_json(self, alloc: Global) -> Result<Value, AllocError>
        ensures { IfOk result
            (λ value. (text : List ℕ) × IsAdjustedString InBits self.size self.unit text
            × (view value ≡ string text)) }
    {
        let size = self.get_bit();
        // As in the Rust crate, the largest size is stored in its exact unit: in one such as `Gib` it has more than 28
        // digits after the point, and `from_json` would reject it.
        let text = if size == Bit::MAX {
            size.to_text(alloc, FormatSpec::ALTERNATE)?
        } else {
            self.to_text(alloc, FormatSpec::ALTERNATE)?
        };
        Ok(Value::String(text))
    }

    /// Parses an adjusted size from a JSON string, as `FromStr` parses its text. Does not allocate.
    ///
    /// # Errors
    /// `NotString` if the value is not a string, `Parse` if the string is rejected.
    ///
    /// # Examples
    /// ```rust
    /// use serde_json::Value;
    ///
    /// let value = Value::String(String::from_str(alloc, "15.5 Kb")?);
    /// let adjusted = AdjustedBit::from_json(&value)?;
    /// assert_eq!(rt; adjusted.get_bit(), Bit::from_u64(15_500));
    /// assert_eq!(rt; adjusted.get_unit(), Unit::Kibit);
    /// assert!(rt; matches!(AdjustedBit::from_json(&Value::Null), Err(JsonSizeError::NotString)));
    /// ```
    pub fn from_json(value: &Value) -> Result<AdjustedBit, JsonSizeError>
        ensures { ReadsString size_errors (IsAdjustedReading InBits)
            (as_str (view value.now)) result }
    {
        let text = value.as_str().ok_or(JsonSizeError::NotString)?;
        text.parse().map_err(JsonSizeError::Parse)
    }
}
