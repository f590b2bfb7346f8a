// Rendered from crates/byte_unit_byte/src/byte/decimal.rt by `tools/dev render bits`. Do not edit.
//! Sizes in bits from decimals.

ghost use Rattle.byte_unit_base.specs.Sizes.OrNone.{IsSizeOrNone, IsSizeOfDecimal};
ghost use Rattle.byte_unit_base.specs.Sizes.Kinds.{own_unit};
ghost use Rattle.byte_unit_base.specs.Sizes.Least.{IsLeastOf};
ghost use Rattle.byte_unit_base.specs.declared.kind.Kind.TheVariants.{Bit as InBits};

use super::Bit;
use byte_unit_base::{Kind, Unit, size};
use byte_unit_math::Decimal;

impl Bit {
    /// Creates a `Bit` from a decimal number of bits, rounded up to a whole bit.
    ///
    /// Returns `None` if the size is 10^30 bits or more.
    ///
    /// # Examples
    /// ```rust
    /// let number = Decimal::from_u128_with_scale(5084, 2);
    /// assert_eq!(rt; number.and_then(Bit::from_decimal), Some(Bit::from_u64(51)));
    /// let number = Decimal::from_u128(Bit::MAX.as_u128());
    /// assert_eq!(rt; number.and_then(Bit::from_decimal), Some(Bit::MAX));
    /// ```
    pub fn from_decimal(size: Decimal) -> Option<Bit>
        ensures { IsSizeOrNone (IsLeastOf InBits size (own_unit InBits)) result }
    {
        Bit::from_decimal_with_unit(size, Unit::Bit)
    }

    /// Creates a `Bit` from a decimal number of a unit: the exact product, rounded up to a whole bit.
    ///
    /// Returns `None` if the size is 10^30 bits or more.
    ///
    /// # Examples
    /// ```rust
    /// let number = Decimal::from(3u8);
    /// assert_eq!(rt; Bit::from_decimal_with_unit(number, Unit::Kibit), Some(Bit::from_u64(3072)));
    /// let number = Decimal::from(1000u16);
    /// assert_eq!(rt; Bit::from_decimal_with_unit(number, Unit::Rbit), None);
    /// ```
    pub fn from_decimal_with_unit(size: Decimal, unit: Unit) -> Option<Bit>
        ensures { IsSizeOfDecimal InBits size unit result }
    {
        let size = size::from_decimal(size, unit, Kind::Bit)?;
        Some(Bit { size })
    }
}
