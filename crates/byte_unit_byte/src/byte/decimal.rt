//! Sizes in bytes from decimals.

ghost use Rattle.byte_unit_base.specs.Sizes.OrNone.{IsSizeOrNone, IsSizeOfDecimal};
ghost use Rattle.byte_unit_base.specs.Sizes.Kinds.{own_unit};
ghost use Rattle.byte_unit_base.specs.Sizes.Least.{IsLeastOf};
ghost use Rattle.byte_unit_base.specs.declared.kind.Kind.TheVariants.{Byte as InBytes};

use super::Byte;
use byte_unit_base::{Kind, Unit, size};
use byte_unit_math::Decimal;

impl Byte {
    /// Creates a `Byte` from a decimal number of bytes, rounded up to a whole byte.
    ///
    /// Returns `None` if the size is 10^30 bytes or more.
    ///
    /// # Examples
    /// ```rust
    /// let number = Decimal::from_u128_with_scale(5084, 2);
    /// assert_eq!(rt; number.and_then(Byte::from_decimal), Some(Byte::from_u64(51)));
    /// let number = Decimal::from_u128(Byte::MAX.as_u128());
    /// assert_eq!(rt; number.and_then(Byte::from_decimal), Some(Byte::MAX));
    /// ```
    pub fn from_decimal(size: Decimal) -> Option<Byte>
        ensures { IsSizeOrNone (IsLeastOf InBytes size (own_unit InBytes)) result }
    {
        Byte::from_decimal_with_unit(size, Unit::B)
    }

    /// Creates a `Byte` from a decimal number of a unit: the exact product, rounded up to a whole byte.
    ///
    /// Returns `None` if the size is 10^30 bytes or more.
    ///
    /// # Examples
    /// ```rust
    /// let number = Decimal::from(3u8);
    /// assert_eq!(rt; Byte::from_decimal_with_unit(number, Unit::KiB), Some(Byte::from_u64(3072)));
    /// let number = Decimal::from(1000u16);
    /// assert_eq!(rt; Byte::from_decimal_with_unit(number, Unit::RB), None);
    /// ```
    pub fn from_decimal_with_unit(size: Decimal, unit: Unit) -> Option<Byte>
        ensures { IsSizeOfDecimal InBytes size unit result }
    {
        let size = size::from_decimal(size, unit, Kind::Byte)?;
        Some(Byte { size })
    }
}
