// Rendered from crates/byte_unit_byte/src/byte/constructors.rt by `tools/dev render bits`. Do not edit.
//! Constructors of sizes in bits.

ghost use Rattle.std.specs.Prelude.{◌≡◌, ◌<◌, SomeIff};
ghost use Rattle.byte_unit_math.specs.Bounds.{size_limit};
ghost use Rattle.byte_unit_base.specs.Sizes.OrNone.{IfNonNegative, IsSizeOfUnit};
ghost use Rattle.byte_unit_base.specs.declared.kind.Kind.TheVariants.{Bit as InBits};

use super::Bit;
use byte_unit_base::{Kind, Unit, size};

/// Constructors.
impl Bit {
    /// Creates a `Bit` from a number of bits. Returns `None` if it is 10^30 or more.
    ///
    /// # Examples
    /// ```rust
    /// assert_eq!(rt; Bit::from_u128(15_000_000), Some(Bit::from_u64(15_000_000)));
    /// assert_eq!(rt; Bit::from_u128(Bit::MAX.as_u128()), Some(Bit::MAX));
    /// assert_eq!(rt; Bit::from_u128(Bit::MAX.as_u128() + 1), None);
    /// ```
    pub fn from_u128(size: u128) -> Option<Bit>
        ensures { SomeIff result (size < size_limit) size }
    {
        let size = size::bounded(size)?;
        Some(Bit { size })
    }

    /// Creates a `Bit` from a number of bits, without a test of the bound.
    ///
    /// Precondition (proved at every call): `size < 10^30`.
    ///
    /// # Examples
    /// ```rust
    /// assert_eq!(rt; Bit::from_u128_unsafe(15_000_000), Bit::from_u64(15_000_000));
    /// ```
    pub fn from_u128_unsafe(size: u128) -> Bit
        requires { size < size_limit }
        ensures { result ≡ size }
    {
        // The bound is a precondition, so it is not tested here.
        Bit { size }
    }

    /// Creates a `Bit` from a number of bits.
    ///
    /// # Examples
    /// ```rust
    /// assert_eq!(rt; Bit::from_u64(1024), Bit::KIBIBIT);
    /// assert_eq!(rt; Bit::from_u64(u64::MAX).as_u128(), u128::from(u64::MAX));
    /// ```
    pub fn from_u64(size: u64) -> Bit
        ensures { result ≡ size }
    {
        Bit {
            size: u128::from(size),
        }
    }

    /// Creates a `Bit` from a number of bits. Returns `None` if it is negative, or 10^30 or more.
    ///
    /// # Examples
    /// ```rust
    /// assert_eq!(rt; Bit::from_i128(15_000_000), Some(Bit::from_u64(15_000_000)));
    /// assert_eq!(rt; Bit::from_i128(-1), None);
    /// assert_eq!(rt; Bit::from_i128(i128::MAX), None);
    /// ```
    pub fn from_i128(size: i128) -> Option<Bit>
        ensures { IfNonNegative (λ n answer. SomeIff answer (n < size_limit) n) size result }
    {
        Bit::from_u128(u128::try_from(size).ok()?)
    }

    /// Creates a `Bit` from a number of bits. Returns `None` if it is negative.
    ///
    /// # Examples
    /// ```rust
    /// assert_eq!(rt; Bit::from_i64(15_000_000), Some(Bit::from_u64(15_000_000)));
    /// assert_eq!(rt; Bit::from_i64(-1), None);
    /// ```
    pub fn from_i64(size: i64) -> Option<Bit>
        ensures { IfNonNegative (λ n answer. SomeIff answer (n < size_limit) n) size result }
    {
        Bit::from_i128(i128::from(size))
    }
}

/// Constructors from a number of a unit.
impl Bit {
    /// Creates a `Bit` from a number of a unit, rounded up to a whole bit.
    ///
    /// Returns `None` if the size is 10^30 bits or more.
    ///
    /// # Examples
    /// ```rust
    /// assert_eq!(rt; Bit::from_u128_with_unit(15, Unit::Mbit), Some(Bit::from_u64(15_000_000)));
    /// assert_eq!(rt; Bit::from_u128_with_unit(17, Unit::B), Some(Bit::from_u64(136)));
    /// assert_eq!(rt; Bit::from_u128_with_unit(1_000, Unit::Rbit), None);
    /// ```
    pub fn from_u128_with_unit(size: u128, unit: Unit) -> Option<Bit>
        ensures { IsSizeOfUnit InBits size unit result }
    {
        let size = size::with_unit(size, unit, Kind::Bit)?;
        Some(Bit { size })
    }

    /// Creates a `Bit` from a number of a unit, rounded up to a whole bit.
    ///
    /// Returns `None` if the size is 10^30 bits or more.
    ///
    /// # Examples
    /// ```rust
    /// assert_eq!(rt; Bit::from_u64_with_unit(15, Unit::Kibit), Some(Bit::from_u64(15_360)));
    /// assert_eq!(rt; Bit::from_u64_with_unit(999, Unit::Rbit), Bit::RONNABIT.multiply(999));
    /// assert_eq!(rt; Bit::from_u64_with_unit(1_000, Unit::Rbit), None);
    /// ```
    pub fn from_u64_with_unit(size: u64, unit: Unit) -> Option<Bit>
        ensures { IsSizeOfUnit InBits size unit result }
    {
        Bit::from_u128_with_unit(u128::from(size), unit)
    }

    /// Creates a `Bit` from a number of a unit, rounded up to a whole bit.
    ///
    /// Returns `None` if the number is negative, or the size is 10^30 bits or more.
    ///
    /// # Examples
    /// ```rust
    /// assert_eq!(rt; Bit::from_i128_with_unit(15, Unit::Kibit), Some(Bit::from_u64(15_360)));
    /// assert_eq!(rt; Bit::from_i128_with_unit(-15, Unit::Kibit), None);
    /// assert_eq!(rt; Bit::from_i128_with_unit(1_000, Unit::Rbit), None);
    /// ```
    pub fn from_i128_with_unit(size: i128, unit: Unit) -> Option<Bit>
        ensures { IfNonNegative (λ n. IsSizeOfUnit InBits n unit) size result }
    {
        Bit::from_u128_with_unit(u128::try_from(size).ok()?, unit)
    }

    /// Creates a `Bit` from a number of a unit, rounded up to a whole bit.
    ///
    /// Returns `None` if the number is negative, or the size is 10^30 bits or more.
    ///
    /// # Examples
    /// ```rust
    /// assert_eq!(rt; Bit::from_i64_with_unit(15, Unit::Kibit), Some(Bit::from_u64(15_360)));
    /// assert_eq!(rt; Bit::from_i64_with_unit(-15, Unit::Kibit), None);
    /// ```
    pub fn from_i64_with_unit(size: i64, unit: Unit) -> Option<Bit>
        ensures { IfNonNegative (λ n. IsSizeOfUnit InBits n unit) size result }
    {
        Bit::from_i128_with_unit(i128::from(size), unit)
    }
}
