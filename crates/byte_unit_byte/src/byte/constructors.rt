//! Constructors of sizes in bytes.

ghost use Rattle.std.specs.Prelude.{◌≡◌, ◌<◌, SomeIff};
ghost use Rattle.byte_unit_math.specs.Bounds.{size_limit};
ghost use Rattle.byte_unit_base.specs.Sizes.OrNone.{IfNonNegative, IsSizeOfUnit};
ghost use Rattle.byte_unit_base.specs.declared.kind.Kind.TheVariants.{Byte as InBytes};

use super::Byte;
use byte_unit_base::{Kind, Unit, size};

/// Constructors.
impl Byte {
    /// Creates a `Byte` from a number of bytes. Returns `None` if it is 10^30 or more.
    ///
    /// # Examples
    /// ```rust
    /// assert_eq!(rt; Byte::from_u128(15_000_000), Some(Byte::from_u64(15_000_000)));
    /// assert_eq!(rt; Byte::from_u128(Byte::MAX.as_u128()), Some(Byte::MAX));
    /// assert_eq!(rt; Byte::from_u128(Byte::MAX.as_u128() + 1), None);
    /// ```
    pub fn from_u128(size: u128) -> Option<Byte>
        ensures { SomeIff result (size < size_limit) size }
    {
        let size = size::bounded(size)?;
        Some(Byte { size })
    }

    /// Creates a `Byte` from a number of bytes, without a test of the bound.
    ///
    /// Precondition (proved at every call): `size < 10^30`.
    ///
    /// # Examples
    /// ```rust
    /// assert_eq!(rt; Byte::from_u128_unsafe(15_000_000), Byte::from_u64(15_000_000));
    /// ```
    pub fn from_u128_unsafe(size: u128) -> Byte
        requires { size < size_limit }
        ensures { result ≡ size }
    {
        // The bound is a precondition, so it is not tested here.
        Byte { size }
    }

    /// Creates a `Byte` from a number of bytes.
    ///
    /// # Examples
    /// ```rust
    /// assert_eq!(rt; Byte::from_u64(1024), Byte::KIBIBYTE);
    /// assert_eq!(rt; Byte::from_u64(u64::MAX).as_u128(), u128::from(u64::MAX));
    /// ```
    pub fn from_u64(size: u64) -> Byte
        ensures { result ≡ size }
    {
        Byte {
            size: u128::from(size),
        }
    }

    /// Creates a `Byte` from a number of bytes. Returns `None` if it is negative, or 10^30 or more.
    ///
    /// # Examples
    /// ```rust
    /// assert_eq!(rt; Byte::from_i128(15_000_000), Some(Byte::from_u64(15_000_000)));
    /// assert_eq!(rt; Byte::from_i128(-1), None);
    /// assert_eq!(rt; Byte::from_i128(i128::MAX), None);
    /// ```
    pub fn from_i128(size: i128) -> Option<Byte>
        ensures { IfNonNegative (λ n answer. SomeIff answer (n < size_limit) n) size result }
    {
        Byte::from_u128(u128::try_from(size).ok()?)
    }

    /// Creates a `Byte` from a number of bytes. Returns `None` if it is negative.
    ///
    /// # Examples
    /// ```rust
    /// assert_eq!(rt; Byte::from_i64(15_000_000), Some(Byte::from_u64(15_000_000)));
    /// assert_eq!(rt; Byte::from_i64(-1), None);
    /// ```
    pub fn from_i64(size: i64) -> Option<Byte>
        ensures { IfNonNegative (λ n answer. SomeIff answer (n < size_limit) n) size result }
    {
        Byte::from_i128(i128::from(size))
    }
}

/// Constructors from a number of a unit.
impl Byte {
    /// Creates a `Byte` from a number of a unit, rounded up to a whole byte.
    ///
    /// Returns `None` if the size is 10^30 bytes or more.
    ///
    /// # Examples
    /// ```rust
    /// assert_eq!(rt; Byte::from_u128_with_unit(15, Unit::MB), Some(Byte::from_u64(15_000_000)));
    /// assert_eq!(rt; Byte::from_u128_with_unit(17, Unit::Bit), Some(Byte::from_u64(3)));
    /// assert_eq!(rt; Byte::from_u128_with_unit(1_000, Unit::RB), None);
    /// ```
    pub fn from_u128_with_unit(size: u128, unit: Unit) -> Option<Byte>
        ensures { IsSizeOfUnit InBytes size unit result }
    {
        let size = size::with_unit(size, unit, Kind::Byte)?;
        Some(Byte { size })
    }

    /// Creates a `Byte` from a number of a unit, rounded up to a whole byte.
    ///
    /// Returns `None` if the size is 10^30 bytes or more.
    ///
    /// # Examples
    /// ```rust
    /// assert_eq!(rt; Byte::from_u64_with_unit(15, Unit::KiB), Some(Byte::from_u64(15_360)));
    /// assert_eq!(rt; Byte::from_u64_with_unit(999, Unit::RB), Byte::RONNABYTE.multiply(999));
    /// assert_eq!(rt; Byte::from_u64_with_unit(1_000, Unit::RB), None);
    /// ```
    pub fn from_u64_with_unit(size: u64, unit: Unit) -> Option<Byte>
        ensures { IsSizeOfUnit InBytes size unit result }
    {
        Byte::from_u128_with_unit(u128::from(size), unit)
    }

    /// Creates a `Byte` from a number of a unit, rounded up to a whole byte.
    ///
    /// Returns `None` if the number is negative, or the size is 10^30 bytes or more.
    ///
    /// # Examples
    /// ```rust
    /// assert_eq!(rt; Byte::from_i128_with_unit(15, Unit::KiB), Some(Byte::from_u64(15_360)));
    /// assert_eq!(rt; Byte::from_i128_with_unit(-15, Unit::KiB), None);
    /// assert_eq!(rt; Byte::from_i128_with_unit(1_000, Unit::RB), None);
    /// ```
    pub fn from_i128_with_unit(size: i128, unit: Unit) -> Option<Byte>
        ensures { IfNonNegative (λ n. IsSizeOfUnit InBytes n unit) size result }
    {
        Byte::from_u128_with_unit(u128::try_from(size).ok()?, unit)
    }

    /// Creates a `Byte` from a number of a unit, rounded up to a whole byte.
    ///
    /// Returns `None` if the number is negative, or the size is 10^30 bytes or more.
    ///
    /// # Examples
    /// ```rust
    /// assert_eq!(rt; Byte::from_i64_with_unit(15, Unit::KiB), Some(Byte::from_u64(15_360)));
    /// assert_eq!(rt; Byte::from_i64_with_unit(-15, Unit::KiB), None);
    /// ```
    pub fn from_i64_with_unit(size: i64, unit: Unit) -> Option<Byte>
        ensures { IfNonNegative (λ n. IsSizeOfUnit InBytes n unit) size result }
    {
        Byte::from_i128_with_unit(i128::from(size), unit)
    }
}
