//! Units from strings, and a size in one.

ghost use Rattle.std.specs.Prelude.{◌≡◌, ℕ, IfOk, IfErr, IsOkAnd, true, false};
ghost use Rattle.byte_unit.specs.Grammar.Version.{current};
ghost use Rattle.byte_unit.specs.Errors.Meaning.{size_fault, unit_fault};
ghost use Rattle.byte_unit.specs.Errors.Fault.{IsSizeFault, IsUnitFault};
ghost use Rattle.byte_unit.specs.Grammar.Shape.{Shape};
ghost use Rattle.byte_unit.specs.Grammar.Spelling.{flags_of, Spells};
ghost use Rattle.byte_unit.specs.Grammar.SizeText.{trim_of, IsSizeText};
ghost use Rattle.byte_unit.specs.Grammar.Units.{shape_of};

use byte_unit::{AdjustedByte, Byte, ParseError, Unit, UnitParseError, read_size};

/// Returns the size in the unit that a string spells.
///
/// # Errors
/// Returns the parse error if the string spells no unit.
pub fn in_unit(size: Byte, text: &str) -> Result<AdjustedByte, UnitParseError>
    ensures size { IfOk result (λ adjusted. adjusted.size ≡ size) }
    ensures unit { IfOk result
        (λ shown. Spells current (flags_of false true) (trim_of text.now) (shape_of shown.unit)) }
    ensures fault { IfErr result
        (λ error. IsUnitFault current (flags_of false true) (trim_of text.now) (unit_fault error)) }
{
    let unit = Unit::parse_str(text, false, true)?;
    Ok(size.get_adjusted_unit(unit))
}

/// Parses a number with a unit, and returns the unit.
///
/// # Errors
/// Returns the parse error if the string is not a number with a unit.
pub fn parse_unit(text: &str) -> Result<Unit, ParseError>
    ensures sound { IfOk result
        (λ unit. (number : ℕ)
        × IsSizeText current (flags_of false true) (trim_of text.now) number (shape_of unit)) }
    ensures complete { (number : ℕ) (unit : Shape)
        → IsSizeText current (flags_of false true) (trim_of text.now) number unit
        → IsOkAnd result (λ name. shape_of name ≡ unit) }
    ensures fault { IfErr result
        (λ error. IsSizeFault current (flags_of false true) (trim_of text.now) (size_fault error)) }
{
    let (_, unit) = read_size(text, false, true)?;
    Ok(unit)
}
