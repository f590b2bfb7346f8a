// Rendered from crates/byte_unit_byte/src/byte/position.rt by `tools/dev render bits`. Do not edit.
//! Where a string that is no size in bits is wrong.

ghost use Rattle.byte_unit_base.specs.Errors.Position.{IsSizePosition};

use super::Bit;
use byte_unit_base::size;

impl Bit {
    /// Returns the index in bytes of the first wrong character of a string that [`Bit::parse_str`] rejects: up to
    /// there the string, without the white space at its ends, begins a size, and with that character it begins none.
    /// If it ends too early, the index is that of its end, before white space there; of white space alone, its length.
    ///
    /// Returns `None` if the string is accepted, or if only its size is too large. If the number is
    /// too long, it is the index of the digit which makes it so.
    ///
    /// # Examples
    /// ```rust
    /// assert_eq!(rt; Bit::error_position("1 bite"), Some(5));
    /// assert_eq!(rt; Bit::error_position("  1."), Some(4));
    /// assert_eq!(rt; Bit::error_position("0.12345678901234567890123456789 Kb"), Some(30));
    /// assert_eq!(rt; Bit::error_position("1.5 Kib"), None);
    /// ```
    pub fn error_position(s: &str) -> Option<usize>
        ensures { IsSizePosition s.now result }
    {
        size::error_position(s)
    }
}
