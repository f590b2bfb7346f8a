//! The parser of a unit in a string.

ghost use Rattle.byte_unit_base.specs.Grammar.Spelling.{flags_of};
ghost use Rattle.byte_unit_base.specs.Reading.Ends.{IsUnitOrStop};

use crate::read::leading_len;
use crate::read::unit::read_unit;
use crate::spec::Flags;
use crate::stop::{Stop, UnitStop, first_char};
use crate::{Unit, UnitParseError};
use std::str::FromStr;

impl Unit {
    ghost use Rattle.byte_unit_base.specs.Reading.Results.{IsUnitReading};
    ghost use Rattle.byte_unit_base.specs.Errors.Position.{IsUnitPosition};

    /// Parses a unit from a string. White space at its ends is ignored.
    ///
    /// A unit is an optional prefix and an optional suffix. The prefix is a letter in either case, optionally followed
    /// by `i` or `I`. The suffix is `B` for bytes; `b` for bits, or with `ignore_case` for bytes; or `bit` or `bits` in
    /// any case for bits. Without a suffix the unit is of bytes if `prefer_byte` is set, and else of bits.
    ///
    /// # Errors
    /// Returns the first character, from the left, that cannot continue a unit, with characters that are valid in its
    /// place, and whether the string could end there. The characters are not all that are valid: the other case of a
    /// letter and an `i` after a prefix are left out. If the string ends after the `bi` of a suffix, the character is
    /// `i`, also for an `I`.
    ///
    /// # Examples
    /// ```rust
    /// assert_eq!(rt; Unit::parse_str("Kib", false, true)?, Unit::Kibit);
    /// assert_eq!(rt; Unit::parse_str("Kib", true, true)?, Unit::KiB);
    /// assert!(rt; Unit::parse_str("Kx", false, true).is_err());
    /// ```
    pub fn parse_str(s: &str, ignore_case: bool, prefer_byte: bool) -> Result<Unit, UnitParseError>
        ensures { IsUnitReading (flags_of ignore_case prefer_byte) s.now result }
    {
        let flags = Flags::new(ignore_case, prefer_byte);
        match read_unit_text(s, flags) {
            Ok(unit) => Ok(unit),
            Err(stop) => Err(stop.reason.error_before(stop.next, flags)),
        }
    }

    /// Returns the index in bytes of the first wrong character of a string that [`Unit::parse_str`] rejects: up to
    /// there the string, without the white space at its ends, begins a unit, and with that character it begins none.
    /// If it ends too early, the index is that of its end, before white space there; of white space alone, its length.
    ///
    /// Returns `None` if the string spells a unit. The index does not depend on the options of `parse_str`.
    ///
    /// # Examples
    /// ```rust
    /// assert_eq!(rt; Unit::error_position("Kix"), Some(2));
    /// assert_eq!(rt; Unit::error_position(" bi "), Some(3));
    /// assert_eq!(rt; Unit::error_position("Kib"), None);
    /// ```
    pub fn error_position(s: &str) -> Option<usize>
        ensures { IsUnitPosition s.now result }
    {
        match read_unit_text(s, Flags::ANY) {
            Ok(_) => None,
            Err(stop) => Some(stop.index),
        }
    }
}

/// Parses a unit as [`Unit::parse_str`] does, and leaves the error to be made by [`UnitStop::error_before`].
///
/// # Errors
/// Returns where the parser stops in the string, at the index that [`Unit::error_position`] returns, and what was read
/// before.
///
/// # Examples
/// ```rust
/// let flags = ParseSpec::BYTES.flags();
/// assert!(rt; matches!(read_unit_text("KiB", flags), Ok(Unit::KiB)));
/// assert!(rt; matches!(read_unit_text(" Kix", flags), Err(Stop { next: Some('x'), index: 3, .. })));
/// ```
#[inline(always)]
pub fn read_unit_text(s: &str, flags: Flags) -> Result<Unit, Stop<UnitStop>>
    ensures { IsUnitOrStop flags s.now result }
{
    let text = s.trim();
    let bytes = text.as_bytes();
    match read_unit(bytes, bytes, 0, flags) {
        Ok(found) => Ok(found),
        Err(stop) => Err(Stop {
            reason: stop.reason,
            next: first_char(&text[stop.index..]),
            index: leading_len(s) + stop.index,
        }),
    }
}

/// Parses as `Unit::parse_str` does with `ignore_case` unset and `prefer_byte` set.
impl FromStr for Unit {
    type Err = UnitParseError;

    ghost use Rattle.std.specs.Prelude.{true, false};
    ghost use Rattle.byte_unit_base.specs.Reading.Results.{IsUnitReading};

    ghost from_str_gives = { IsUnitReading (flags_of false true) };

    fn from_str(s: &str) -> Result<Unit, UnitParseError> {
        Unit::parse_str(s, false, true)
    }
}
