//! A limit from settings in JSON.

ghost use Rattle.std.specs.Prelude.{◌≡◌, ◌⊎◌, ℕ, IfOk};
ghost use Rattle.serde_json.specs.Find.{get};
ghost use Rattle.serde_json.specs.View.{view};
ghost use Rattle.byte_unit_uses.specs.Settings.{HasSize};

use byte_unit::{Byte, JsonSizeError};
use serde_json::Value;

/// Reads a limit by its name. Returns the default if the settings have no such name.
///
/// # Errors
/// Returns the parse error if the value is not a string that represents a size.
pub fn limit(settings: &Value, name: &str, default: Byte) -> Result<Byte, JsonSizeError>
    ensures present { (size : ℕ) → HasSize (view settings.now) name.now size → result ≡ Ok size }
    ensures absent { get name.now (view settings.now) ≡ None → result ≡ Ok default }
    ensures sound { IfOk result (λ size. HasSize (view settings.now) name.now size
        ⊎ ((get name.now (view settings.now) ≡ None) × (size ≡ default))) }
{
    match settings.get(name) {
        Some(value) => Byte::from_json(value),
        None => Ok(default),
    }
}
