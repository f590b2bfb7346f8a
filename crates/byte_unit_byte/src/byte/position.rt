//! Where a string that is no size in bytes is wrong.

ghost use Rattle.byte_unit_base.specs.Errors.Position.{IsSizePosition};

use super::Byte;
use byte_unit_base::size;

impl Byte {
    /// Returns the index in bytes of the first wrong character of a string that [`Byte::parse_str`] rejects: up to
    /// there the string, without the white space at its ends, begins a size, and with that character it begins none.
    /// If it ends too early, the index is that of its end, before white space there; of white space alone, its length.
    ///
    /// Returns `None` if the string is accepted, or if only its size is too large. The index does not depend on
    /// `ignore_case`. If the number is too long, it is that of the digit which makes it so.
    ///
    /// # Examples
    /// ```rust
    /// assert_eq!(rt; Byte::error_position("1 byte"), Some(3));
    /// assert_eq!(rt; Byte::error_position("  1."), Some(4));
    /// assert_eq!(rt; Byte::error_position("0.12345678901234567890123456789 KB"), Some(30));
    /// assert_eq!(rt; Byte::error_position("1.5 KiB"), None);
    /// ```
    pub fn error_position(s: &str) -> Option<usize>
        ensures { IsSizePosition s.now result }
    {
        size::error_position(s)
    }
}
