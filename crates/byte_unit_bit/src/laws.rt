// Rendered from crates/byte_unit_byte/src/laws.rt by `tools/dev render bits`. Do not edit.
//! Laws of the constants of `Bit`: public functions whose contracts are the laws.

ghost use Rattle.std.specs.Prelude.{◌≡◌, ◌*◌, ◌+◌, MatchOption};
ghost use Rattle.byte_unit_base.specs.Grammar.Shape.{bits};
ghost use Rattle.byte_unit_math.specs.Bounds.{size_limit};
ghost use Rattle.byte_unit_base.specs.Grammar.Units.{shape_of};
ghost use Rattle.byte_unit_base.specs.Sizes.Kinds.{bits_in};
ghost use Rattle.byte_unit_base.specs.declared.kind.Kind.TheVariants.{Bit as InBits};

use crate::Bit;
use byte_unit_base::Unit;

/// Returns the constant of `Bit` that is named after the unit; it equals one unit.
///
/// Returns `None` for `Unit::B`, since no constant is named after it.
///
/// # Examples
/// ```rust
/// assert_eq!(rt; laws::bit_constant(Unit::Kibit), Some(Bit::KIBIBIT));
/// assert_eq!(rt; laws::bit_constant(Unit::B), None);
/// ```
pub fn bit_constant(unit: Unit) -> Option<Bit>
    ensures { MatchOption result (unit ≡ Unit.B)
        (λ size. size * bits_in InBits ≡ bits (shape_of unit)) }
{
    match unit {
        Unit::B => None,
        Unit::Bit => Some(Bit::BIT),
        Unit::KB => Some(Bit::KILOBYTE),
        Unit::KiB => Some(Bit::KIBIBYTE),
        Unit::Kbit => Some(Bit::KILOBIT),
        Unit::Kibit => Some(Bit::KIBIBIT),
        Unit::MB => Some(Bit::MEGABYTE),
        Unit::MiB => Some(Bit::MEBIBYTE),
        Unit::Mbit => Some(Bit::MEGABIT),
        Unit::Mibit => Some(Bit::MEBIBIT),
        Unit::GB => Some(Bit::GIGABYTE),
        Unit::GiB => Some(Bit::GIBIBYTE),
        Unit::Gbit => Some(Bit::GIGABIT),
        Unit::Gibit => Some(Bit::GIBIBIT),
        Unit::TB => Some(Bit::TERABYTE),
        Unit::TiB => Some(Bit::TEBIBYTE),
        Unit::Tbit => Some(Bit::TERABIT),
        Unit::Tibit => Some(Bit::TEBIBIT),
        Unit::PB => Some(Bit::PETABYTE),
        Unit::PiB => Some(Bit::PEBIBYTE),
        Unit::Pbit => Some(Bit::PETABIT),
        Unit::Pibit => Some(Bit::PEBIBIT),
        Unit::EB => Some(Bit::EXABYTE),
        Unit::EiB => Some(Bit::EXBIBYTE),
        Unit::Ebit => Some(Bit::EXABIT),
        Unit::Eibit => Some(Bit::EXBIBIT),
        Unit::ZB => Some(Bit::ZETTABYTE),
        Unit::ZiB => Some(Bit::ZEBIBYTE),
        Unit::Zbit => Some(Bit::ZETTABIT),
        Unit::Zibit => Some(Bit::ZEBIBIT),
        Unit::YB => Some(Bit::YOTTABYTE),
        Unit::YiB => Some(Bit::YOBIBYTE),
        Unit::Ybit => Some(Bit::YOTTABIT),
        Unit::Yibit => Some(Bit::YOBIBIT),
        Unit::RB => Some(Bit::RONNABYTE),
        Unit::RiB => Some(Bit::ROBIBYTE),
        Unit::Rbit => Some(Bit::RONNABIT),
        Unit::Ribit => Some(Bit::ROBIBIT),
    }
}

/// Returns the smallest and the largest size: `Bit::MIN` and `Bit::MAX`.
///
/// # Examples
/// ```rust
/// assert_eq!(rt; laws::bit_bounds(), (Bit::MIN, Bit::MAX));
/// ```
pub fn bit_bounds() -> (Bit, Bit)
    ensures least { result.0 ≡ 0 }
    ensures greatest { result.1 + 1 ≡ size_limit }
{
    (Bit::MIN, Bit::MAX)
}
