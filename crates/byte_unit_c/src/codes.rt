//! The codes of units and unit types in the C API.

ghost use Rattle.std.specs.Prelude.{◌≡◌, slice_get, Some};
ghost use Rattle.byte_unit_c.specs.Codes.{types, unit_at};

use byte_unit_base::Unit;
use byte_unit_choice::UnitType;

/// Returns the unit with a code, which is its index among the variants. Returns `None` if the code is 38, the number of
/// units, or more.
pub fn unit_at(code: u32) -> Option<Unit>
    ensures { result ≡ unit_at code }
{
    byte_unit_base::unit_at(code as usize)
}

/// Returns the code of a unit.
pub fn unit_code(unit: Unit) -> u32
    ensures { unit_at result ≡ Some unit }
{
    unit as u32
}

/// Returns the unit type with a code: 0 binary, 1 decimal, 2 both. Returns `None` if the code is 3 or more.
pub fn type_at(code: u32) -> Option<UnitType>
    ensures { result ≡ slice_get types code }
{
    match code {
        0 => Some(UnitType::Binary),
        1 => Some(UnitType::Decimal),
        2 => Some(UnitType::Both),
        _ => None,
    }
}
