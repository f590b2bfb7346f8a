//! `Byte`, a size in bytes: conversions to numbers, comparisons and arithmetic.

ghost use Rattle.std.specs.Prelude.{◌≡◌, ◌+◌, ◌-◌, ◌*◌, ◌/◌, ◌^◌, ◌<◌, ◌≤◌, ◌↔◌, IsTrue, SomeIff, min};
ghost use Rattle.std.specs.Ordering.{nat_cmp};
ghost use Rattle.byte_unit_math.specs.Bounds.{size_limit};

use std::cmp::Ordering;
use std::marker::Model;

mod adjusted;
mod approximate;
mod binary;
mod built_in_traits;
mod constants;
mod constructors;
mod decimal;
mod json;
mod parse;
mod position;
mod text;
mod units;
mod words;

pub use adjusted::AdjustedByte;

/// A size in bytes: a whole number below 10^30. In a contract a `Byte` is that number.
///
/// # Examples
/// ```rust
/// let limit = "1.5 GiB".parse::<Byte>()?;
/// let used = Byte::from_u64(900_000_000);
/// assert_eq!(rt; limit.subtract(used), Some(Byte::from_u64(710_612_736)));
/// assert_eq!(rt; used.subtract(limit), None);
/// ```
#[derive(Debug, Clone, Copy, PartialEq, Eq, PartialOrd, Ord, Hash)]
pub struct Byte {
    size: u128,
}

impl Model for Byte {
    ghost use Rattle.std.specs.Prelude.{ℕ, ◌<◌};
    ghost use Rattle.byte_unit_math.specs.Bounds.{size_limit};

    ghost Value = { ℕ };

    ghost view = { λ b. b.size };

    ghost invariant = { λ b. b.size < size_limit };

    ghost inverse = { λ n. record { size = n } };
}

/// Conversions to numbers.
impl Byte {
    /// Returns the number of bytes, which is below 10^30.
    ///
    /// # Examples
    /// ```rust
    /// assert_eq!(rt; Byte::KIBIBYTE.as_u128(), 1024);
    /// assert_eq!(rt; Byte::MAX.as_u128(), 999_999_999_999_999_999_999_999_999_999);
    /// ```
    pub fn as_u128(self) -> u128
        ensures number { result ≡ self }
        ensures bound { result < size_limit }
    {
        self.size
    }

    /// Returns the number of bytes, or 2^64 - 1 if it is larger.
    ///
    /// # Examples
    /// ```rust
    /// assert_eq!(rt; Byte::KIBIBYTE.as_u64(), 1024);
    /// assert_eq!(rt; Byte::ZETTABYTE.as_u64(), u64::MAX);
    /// ```
    pub fn as_u64(self) -> u64
        ensures { result ≡ min self (2 ^ 64 - 1) }
    {
        u64::try_from(self.size).unwrap_or(u64::MAX)
    }

    /// Returns the number of bytes, or `None` if it is larger than 2^64 - 1.
    ///
    /// # Examples
    /// ```rust
    /// assert_eq!(rt; Byte::KIBIBYTE.as_u64_checked(), Some(1024));
    /// assert_eq!(rt; Byte::ZETTABYTE.as_u64_checked(), None);
    /// ```
    pub fn as_u64_checked(self) -> Option<u64>
        ensures { SomeIff result (self < 2 ^ 64) self }
    {
        u64::try_from(self.size).ok()
    }
}

/// Comparisons with numbers of bytes.
impl Byte {
    /// Returns whether the size is equal to a number of bytes.
    ///
    /// # Examples
    /// ```rust
    /// assert!(rt; Byte::KILOBYTE.eq_u64(1000));
    /// assert!(rt; !Byte::KILOBYTE.eq_u64(1024));
    /// ```
    pub fn eq_u64(self, other: u64) -> bool
        ensures { IsTrue result ↔ (self ≡ other) }
    {
        self.size == u128::from(other)
    }

    /// Returns whether the size is equal to a number of bytes.
    ///
    /// # Examples
    /// ```rust
    /// assert!(rt; Byte::KILOBYTE.eq_u128(1000));
    /// assert!(rt; !Byte::KILOBYTE.eq_u128(1024));
    /// ```
    pub fn eq_u128(self, other: u128) -> bool
        ensures { IsTrue result ↔ (self ≡ other) }
    {
        self.size == other
    }

    /// Compares the size with a number of bytes.
    ///
    /// # Examples
    /// ```rust
    /// use std::cmp::Ordering;
    ///
    /// assert_eq!(rt; Byte::KILOBYTE.cmp_u64(1024), Ordering::Less);
    /// assert_eq!(rt; Byte::KIBIBYTE.cmp_u64(1024), Ordering::Equal);
    /// ```
    pub fn cmp_u64(self, other: u64) -> Ordering
        ensures { result ≡ nat_cmp self other }
    {
        self.size.cmp(&u128::from(other))
    }

    /// Compares the size with a number of bytes.
    ///
    /// # Examples
    /// ```rust
    /// use std::cmp::Ordering;
    ///
    /// assert_eq!(rt; Byte::KILOBYTE.cmp_u128(1024), Ordering::Less);
    /// assert_eq!(rt; Byte::KIBIBYTE.cmp_u128(1024), Ordering::Equal);
    /// ```
    pub fn cmp_u128(self, other: u128) -> Ordering
        ensures { result ≡ nat_cmp self other }
    {
        self.size.cmp(&other)
    }
}

/// Arithmetic. No method overflows, wraps or panics.
impl Byte {
    /// Returns the sum, or `None` if it is 10^30 bytes or more.
    ///
    /// # Examples
    /// ```rust
    /// let size = Byte::from_u64(15_500);
    /// assert_eq!(rt; size.add(Byte::from_u64(500)), Some(Byte::from_u64(16_000)));
    /// assert_eq!(rt; size.add(Byte::MAX), None);
    /// ```
    pub fn add(self, rhs: Byte) -> Option<Byte>
        ensures { SomeIff result (self + rhs < size_limit) (self + rhs) }
    {
        Byte::from_u128(self.size + rhs.size)
    }

    /// Returns the difference, or `None` if `rhs` is larger than the size.
    ///
    /// # Examples
    /// ```rust
    /// let size = Byte::from_u64(15_500);
    /// assert_eq!(rt; size.subtract(Byte::from_u64(500)), Some(Byte::from_u64(15_000)));
    /// assert_eq!(rt; size.subtract(Byte::MAX), None);
    /// ```
    pub fn subtract(self, rhs: Byte) -> Option<Byte>
        ensures { SomeIff result (rhs ≤ self) (self - rhs) }
    {
        let size = self.size.checked_sub(rhs.size)?;
        Some(Byte { size })
    }

    /// Returns the product, or `None` if it is 10^30 bytes or more.
    ///
    /// # Examples
    /// ```rust
    /// assert_eq!(rt; Byte::from_u64(15_500).multiply(2), Some(Byte::from_u64(31_000)));
    /// assert_eq!(rt; Byte::MAX.multiply(2), None);
    /// ```
    pub fn multiply(self, rhs: usize) -> Option<Byte>
        ensures { SomeIff result (self * rhs < size_limit) (self * rhs) }
    {
        Byte::from_u128(self.size.checked_mul(rhs as u128)?)
    }

    /// Returns the quotient, rounded down, or `None` if `rhs` is zero.
    ///
    /// # Examples
    /// ```rust
    /// assert_eq!(rt; Byte::from_u64(15_500).divide(3), Some(Byte::from_u64(5166)));
    /// assert_eq!(rt; Byte::from_u64(15_500).divide(0), None);
    /// ```
    pub fn divide(self, rhs: usize) -> Option<Byte>
        ensures { SomeIff result (0 < rhs) (self / rhs) }
    {
        let size = self.size.checked_div(rhs as u128)?;
        Some(Byte { size })
    }
}
