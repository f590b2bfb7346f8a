//! Laws of the constants of `Byte`: public functions whose contracts are the laws.

ghost use Rattle.std.specs.Prelude.{◌≡◌, ◌*◌, ◌+◌, MatchOption};
ghost use Rattle.byte_unit_base.specs.Grammar.Shape.{bits};
ghost use Rattle.byte_unit_math.specs.Bounds.{size_limit};
ghost use Rattle.byte_unit_base.specs.Grammar.Units.{shape_of};
ghost use Rattle.byte_unit_base.specs.Sizes.Kinds.{bits_in};
ghost use Rattle.byte_unit_base.specs.declared.kind.Kind.TheVariants.{Byte as InBytes};

use crate::Byte;
use byte_unit_base::Unit;

/// Returns the constant of `Byte` that is named after the unit; it equals one unit.
///
/// Returns `None` for `Unit::Bit`, since no constant is named after it.
///
/// # Examples
/// ```rust
/// assert_eq!(rt; laws::byte_constant(Unit::KiB), Some(Byte::KIBIBYTE));
/// assert_eq!(rt; laws::byte_constant(Unit::Bit), None);
/// ```
pub fn byte_constant(unit: Unit) -> Option<Byte>
    ensures { MatchOption result (unit ≡ Unit.Bit)
        (λ size. size * bits_in InBytes ≡ bits (shape_of unit)) }
{
    match unit {
        Unit::Bit => None,
        Unit::B => Some(Byte::BYTE),
        Unit::Kbit => Some(Byte::KILOBIT),
        Unit::Kibit => Some(Byte::KIBIBIT),
        Unit::KB => Some(Byte::KILOBYTE),
        Unit::KiB => Some(Byte::KIBIBYTE),
        Unit::Mbit => Some(Byte::MEGABIT),
        Unit::Mibit => Some(Byte::MEBIBIT),
        Unit::MB => Some(Byte::MEGABYTE),
        Unit::MiB => Some(Byte::MEBIBYTE),
        Unit::Gbit => Some(Byte::GIGABIT),
        Unit::Gibit => Some(Byte::GIBIBIT),
        Unit::GB => Some(Byte::GIGABYTE),
        Unit::GiB => Some(Byte::GIBIBYTE),
        Unit::Tbit => Some(Byte::TERABIT),
        Unit::Tibit => Some(Byte::TEBIBIT),
        Unit::TB => Some(Byte::TERABYTE),
        Unit::TiB => Some(Byte::TEBIBYTE),
        Unit::Pbit => Some(Byte::PETABIT),
        Unit::Pibit => Some(Byte::PEBIBIT),
        Unit::PB => Some(Byte::PETABYTE),
        Unit::PiB => Some(Byte::PEBIBYTE),
        Unit::Ebit => Some(Byte::EXABIT),
        Unit::Eibit => Some(Byte::EXBIBIT),
        Unit::EB => Some(Byte::EXABYTE),
        Unit::EiB => Some(Byte::EXBIBYTE),
        Unit::Zbit => Some(Byte::ZETTABIT),
        Unit::Zibit => Some(Byte::ZEBIBIT),
        Unit::ZB => Some(Byte::ZETTABYTE),
        Unit::ZiB => Some(Byte::ZEBIBYTE),
        Unit::Ybit => Some(Byte::YOTTABIT),
        Unit::Yibit => Some(Byte::YOBIBIT),
        Unit::YB => Some(Byte::YOTTABYTE),
        Unit::YiB => Some(Byte::YOBIBYTE),
        Unit::Rbit => Some(Byte::RONNABIT),
        Unit::Ribit => Some(Byte::ROBIBIT),
        Unit::RB => Some(Byte::RONNABYTE),
        Unit::RiB => Some(Byte::ROBIBYTE),
    }
}

/// Returns the smallest and the largest size: `Byte::MIN` and `Byte::MAX`.
///
/// # Examples
/// ```rust
/// assert_eq!(rt; laws::byte_bounds(), (Byte::MIN, Byte::MAX));
/// ```
pub fn byte_bounds() -> (Byte, Byte)
    ensures least { result.0 ≡ 0 }
    ensures greatest { result.1 + 1 ≡ size_limit }
{
    (Byte::MIN, Byte::MAX)
}
