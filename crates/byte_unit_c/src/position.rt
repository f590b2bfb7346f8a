//! Where a string that is rejected is wrong.

ghost use Rattle.std.specs.Prelude.{◌≡◌, false, if◌then◌else◌, Some, None};
ghost use Rattle.std.specs.Str.{IsUtf8};
ghost use Rattle.byte_unit_base.specs.Errors.Position.{IsSizePosition, IsUnitPosition};

use byte_unit_base::{Unit, size};
use std::str;

/// Writes the index in bytes of the first wrong character of a string that `byte_unit_parse_to` rejects: up to there
/// the string, without the white space at its ends, begins a size, and with that character it begins none. If it ends
/// too early, the index is that of its end, before white space there; of white space alone, its length. The index is
/// the same with all flags.
///
/// Returns `true` if there is one. Returns `false` and writes nothing if the string represents a size, if only its size
/// is too large, or if the bytes are not UTF-8.
///
/// For example, `1 byte` gives the index 3, of its `y`, and `1.` gives 2.
#[unsafe(no_mangle)]
pub extern "C" fn byte_unit_error_position(text: &[u8], position: &mut usize) -> bool
    ensures position { IsUtf8 text.now
        → IsSizePosition text.now (if result then Some position.new else None) }
    ensures not_utf8 { ¬ IsUtf8 text.now → result ≡ false }
    ensures unchanged { result ≡ false → position.new ≡ position.old }
{
    match str::from_utf8(text) {
        Ok(text) => write_position(size::error_position(text), position),
        Err(_) => false,
    }
}

/// Writes the index in bytes of the first wrong character of a string that `byte_unit_parse_unit_to` rejects, as
/// `byte_unit_error_position` does of one that is not a size.
///
/// For example, `Kx` gives the index 1, and `bi` gives 2.
#[unsafe(no_mangle)]
pub extern "C" fn byte_unit_unit_error_position(text: &[u8], position: &mut usize) -> bool
    ensures position { IsUtf8 text.now
        → IsUnitPosition text.now (if result then Some position.new else None) }
    ensures not_utf8 { ¬ IsUtf8 text.now → result ≡ false }
    ensures unchanged { result ≡ false → position.new ≡ position.old }
{
    match str::from_utf8(text) {
        Ok(text) => write_position(Unit::error_position(text), position),
        Err(_) => false,
    }
}

/// Writes the position, if there is one, and returns whether there is.
fn write_position(found: Option<usize>, position: &mut usize) -> bool
    ensures position { found ≡ (if result then Some position.new else None) }
    ensures unchanged { result ≡ false → position.new ≡ position.old }
{
    match found {
        Some(index) => {
            *position = index;
            true
        }
        None => false,
    }
}
