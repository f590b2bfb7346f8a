//! Exact decimals with at most 28 digits after the point, their order and their text.
ghost use Rattle.std.specs.Prelude.{◌≡◌, ℕ, ◌+◌, ◌*◌, ◌-◌, ◌^◌, ◌/◌, ◌%◌, ◌<◌, ◌≤◌, nat_eq, Some, SomeIff};
ghost use Rattle.std.specs.Cmp.{partial_order_from_own_ties, partial_equiv_from_equiv};
ghost use Rattle.std.specs.Cmp.Rules.{comparing};
ghost use Rattle.std.specs.Ordering.{nat_cmp, as_partial_cmp};
ghost use Rattle.std.proofs.Common.{rules};
ghost use Rattle.byte_unit_math.specs.Bounds.{scale, places_of_decimal, whole_limit};
ghost use Rattle.byte_unit_math.specs.DecimalFields.{AreFields};
ghost use Rattle.byte_unit_math.specs.Exact.{IsLeastPlaces};
ghost use Rattle.byte_unit_math.specs.Numeral.{short_numeral};

use crate::{Expansion, power_of_ten};
use std::cmp::Ordering;
use std::fmt;
use std::marker::Model;

/// The most digits after the point of a [`Decimal`]: as many as the `Decimal` of the Rust crate has.
pub const DECIMAL_PLACES: u32 = 28;

/// One, scaled by 10^28.
pub(crate) const ONE: u128 = 10_000_000_000_000_000_000_000_000_000;

/// The limit of whole parts, 2^112. The bits of every size are below it: they are fewer than 8 * 10^30, and so than
/// 2^103.
pub const WHOLE_LIMIT: u128 = 5_192_296_858_534_827_628_530_496_329_220_096;

/// A non-negative decimal with at most 28 digits after the point and a whole part below 2^112.
///
/// In contracts it is its value scaled by 10^28: `1.5` is 15 * 10^27. Equality, order and hash are those of the value.
#[derive(Clone, Copy, Debug, Hash)]
pub struct Decimal {
    /// The part before the point.
    whole: u128,
    /// The digits after the point as a number, without trailing zeros.
    digits: u128,
    /// The number of digits after the point.
    places: u32,
}

impl Model for Decimal {
    ghost use Rattle.std.specs.Prelude.{ℕ};
    ghost use Rattle.std.specs.Coded.{coded_ℕ};
    ghost use Rattle.byte_unit_math.specs.DecimalFields.{decimal_value, IsNormalized, decimal_fields};

    ghost Value = { ℕ };

    ghost coded = { coded_ℕ };

    ghost view = { decimal_value };

    ghost invariant = { IsNormalized };

    ghost inverse = { decimal_fields };

    // Without trailing zeros, the fields are unique.
    ghost inverse_ok = { λ d h. h.only };
}

impl Decimal {
    /// The number 0.
    pub const ZERO: Decimal = Decimal {
        whole: 0,
        digits: 0,
        places: 0,
    };

    /// Creates `whole + fraction / 10^28`. Returns `None` if `whole` is 2^112 or more, or `fraction` 10^28 or more.
    ///
    /// # Examples
    /// ```rust
    /// let half = Decimal::new(1, 5 * 10u128.pow(27)).unwrap();
    /// assert_eq!(rt; half.digits(), 5);
    /// assert_eq!(rt; Decimal::new(1, 10u128.pow(28)), None);
    /// ```
    pub fn new(whole: u128, fraction: u128) -> Option<Decimal>
        ensures { SomeIff result ((whole < whole_limit) × (fraction < scale))
            (whole * scale + fraction) }
    {
        if whole < WHOLE_LIMIT && fraction < ONE {
            Some(Decimal::from_digits(whole, fraction, DECIMAL_PLACES))
        } else {
            None
        }
    }

    /// Creates a whole number. Returns `None` if it is 2^112 or more.
    ///
    /// # Examples
    /// ```rust
    /// assert_eq!(rt; Decimal::from_u128(7), Some(Decimal::from(7u8)));
    /// assert_eq!(rt; Decimal::from_u128(1 << 112), None);
    /// ```
    pub fn from_u128(n: u128) -> Option<Decimal>
        ensures { SomeIff result (n < whole_limit) (n * scale) }
    {
        if n < WHOLE_LIMIT {
            Some(Decimal::from_digits(n, 0, 0))
        } else {
            None
        }
    }

    /// Creates `mantissa / 10^places`. Returns `None` if `places` exceeds 28 or the whole part is 2^112 or more.
    ///
    /// # Examples
    /// ```rust
    /// let d = Decimal::from_u128_with_scale(5084, 2).unwrap();
    /// assert_eq!(rt; (d.whole(), d.digits(), d.places()), (50, 84, 2));
    /// assert_eq!(rt; Decimal::from_u128_with_scale(1, 29), None);
    /// ```
    #[tactic(auto, using(crate::proofs::Scales::pow10_bounds, crate::proofs::Scales::cut_at_point))]
    pub fn from_u128_with_scale(mantissa: u128, places: u32) -> Option<Decimal>
        ensures { SomeIff result
            ((places ≤ places_of_decimal) × (mantissa / 10 ^ places < whole_limit))
            (mantissa * 10 ^ (places_of_decimal - places)) }
    {
        if places > DECIMAL_PLACES {
            return None;
        }
        let unit = power_of_ten(places);
        let whole = mantissa / unit;
        if whole < WHOLE_LIMIT {
            Some(Decimal::from_digits(whole, mantissa % unit, places))
        } else {
            None
        }
    }

    /// Creates `whole + digits / 10^places`.
    ///
    /// Precondition (proved at every call): `whole < 2^112`, `places <= 28` and `digits < 10^places`.
    ///
    /// # Examples
    /// ```rust
    /// assert_eq!(rt; Some(Decimal::from_digits(50, 84, 3)), Decimal::from_u128_with_scale(50_084, 3));
    /// assert_eq!(rt; Decimal::from_digits(1, 500, 3).places(), 1);
    /// ```
    #[inline(always)]
    #[tactic(auto, using(crate::proofs::ShortDecimals::digits_are_normalized))]
    pub fn from_digits(whole: u128, digits: u128, places: u32) -> Decimal
        requires whole { whole < whole_limit }
        requires places { places ≤ places_of_decimal }
        requires digits { digits < 10 ^ places }
        ensures { result ≡ whole * scale + digits * 10 ^ (places_of_decimal - places) }
    {
        if digits >= 1 << 64 {
            return Decimal::from_wide_digits(whole, digits, places);
        }
        // Trailing zeros are removed, so that equal numbers have equal fields.
        let mut short = digits as u64;
        let mut left = places;
        while left > 0 && short % 10 == 0 {
            short /= 10;
            left -= 1;
        }
        Decimal::from_trimmed_digits(whole, u128::from(short), left)
    }

    /// Creates the same number from digits that need more than 64 bits, whose divisions take longer.
    #[tactic(auto, using(crate::proofs::ShortDecimals::digits_are_normalized))]
    fn from_wide_digits(whole: u128, digits: u128, places: u32) -> Decimal
        requires whole { whole < whole_limit }
        requires places { places ≤ places_of_decimal }
        requires digits { digits < 10 ^ places }
        ensures { result ≡ whole * scale + digits * 10 ^ (places_of_decimal - places) }
    {
        let mut short = digits;
        let mut left = places;
        while left > 0 && short % 10 == 0 {
            short /= 10;
            left -= 1;
        }
        Decimal::from_trimmed_digits(whole, short, left)
    }

    /// Creates the same number from digits of which the last is not 0.
    #[inline(always)]
    #[tactic(auto, using(crate::proofs::ShortDecimals::digits_are_normalized))]
    fn from_trimmed_digits(whole: u128, digits: u128, places: u32) -> Decimal
        requires whole { whole < whole_limit }
        requires places { places ≤ places_of_decimal }
        requires digits { digits < 10 ^ places }
        requires trimmed { 0 < places → 0 < digits % 10 }
        ensures { result ≡ whole * scale + digits * 10 ^ (places_of_decimal - places) }
    {
        Decimal {
            whole,
            digits,
            places,
        }
    }

    /// Returns the part before the point, below 2^112.
    ///
    /// # Examples
    /// ```rust
    /// assert_eq!(rt; Decimal::from_digits(50, 84, 3).whole(), 50);
    /// assert_eq!(rt; Decimal::from(7u8).whole(), 7);
    /// ```
    pub fn whole(self) -> u128
        ensures value { result ≡ self / scale }
        ensures bound { result < whole_limit }
    {
        self.whole
    }

    /// Returns the part after the point scaled by 10^28, below 10^28.
    ///
    /// # Examples
    /// ```rust
    /// assert_eq!(rt; Decimal::from_digits(1, 5, 1).fraction(), 5 * 10u128.pow(27));
    /// assert_eq!(rt; Decimal::from(7u8).fraction(), 0);
    /// ```
    pub fn fraction(self) -> u128
        ensures value { result ≡ self % scale }
        ensures bound { result < scale }
    {
        self.digits * power_of_ten(DECIMAL_PLACES - self.places)
    }

    /// Returns the least number of places that represents it exactly, 0 to 28.
    ///
    /// # Examples
    /// ```rust
    /// assert_eq!(rt; Decimal::from_digits(50, 840, 4).places(), 3);
    /// assert_eq!(rt; Decimal::from(7u8).places(), 0);
    /// ```
    pub fn places(self) -> u32
        ensures bound { result ≤ places_of_decimal }
        ensures least { IsLeastPlaces self scale result }
    {
        self.places
    }

    /// Returns the digits after the point as a number of `places()` digits, leading zeros included.
    ///
    /// # Examples
    /// ```rust
    /// assert_eq!(rt; Decimal::from_digits(50, 84, 3).digits(), 84);
    /// assert_eq!(rt; Decimal::from(7u8).digits(), 0);
    /// ```
    #[tactic(auto, using(crate::proofs::ShortDecimals::digits_of_fields))]
    pub fn digits(self) -> u128
        ensures value { (places : ℕ) → IsLeastPlaces self scale places
            → result * 10 ^ (places_of_decimal - places) ≡ self % scale }
        ensures bound { (places : ℕ) → IsLeastPlaces self scale places → result < 10 ^ places }
    {
        self.digits
    }

    /// Returns what `whole`, `digits` and `places` return.
    pub(crate) fn fields(self) -> (u128, u128, u32)
        ensures { AreFields self result.0 result.1 result.2 }
    {
        (self.whole, self.digits, self.places)
    }
}

impl From<u8> for Decimal {
    ghost from_gives = { λ n d. d ≡ n * scale };

    fn from(n: u8) -> Decimal {
        Decimal::from(u64::from(n))
    }
}

impl From<u16> for Decimal {
    ghost from_gives = { λ n d. d ≡ n * scale };

    fn from(n: u16) -> Decimal {
        Decimal::from(u64::from(n))
    }
}

impl From<u32> for Decimal {
    ghost from_gives = { λ n d. d ≡ n * scale };

    fn from(n: u32) -> Decimal {
        Decimal::from(u64::from(n))
    }
}

impl From<u64> for Decimal {
    ghost from_gives = { λ n d. d ≡ n * scale };

    fn from(n: u64) -> Decimal {
        Decimal::from_digits(u128::from(n), 0, 0)
    }
}

impl Default for Decimal {
    ghost is_default = { λ d. d ≡ 0 };

    fn default() -> Decimal {
        Decimal::ZERO
    }
}

// In these four traits the laws that std asks for are those of natural numbers. A search over std's rules proves them.

impl PartialEq for Decimal {
    ghost eq = { nat_eq };

    ghost laws = { partial_equiv_from_equiv (Prim.search (comparing, rules)) };

    // Not derived: a derived `eq` would be that of the fields, and the contracts say that of the value, as a number.
    fn eq(&self, other: &Decimal) -> bool {
        self.whole() == other.whole() && self.fraction() == other.fraction()
    }
}

impl Eq for Decimal {
    ghost laws = { Prim.search (comparing, rules) };
}

impl Ord for Decimal {
    ghost cmp = { nat_cmp };

    ghost total = { Prim.search (comparing, rules) };

    ghost matches_partial_cmp = { Prim.search (comparing, rules) };

    ghost matches_eq = { Prim.search (comparing, rules) };

    fn cmp(&self, other: &Decimal) -> Ordering {
        self.whole()
            .cmp(&other.whole())
            .then(self.fraction().cmp(&other.fraction()))
    }
}

impl PartialOrd for Decimal {
    ghost partial_cmp = { as_partial_cmp nat_cmp };

    ghost laws = { partial_order_from_own_ties (Prim.search (comparing, rules)) (Prim.search (comparing, rules)) };

    fn partial_cmp(&self, other: &Decimal) -> Option<Ordering> {
        Some(self.cmp(other))
    }
}

/// Writes the whole part and, if the fraction is not zero, a point and its digits without trailing zeros.
impl fmt::Display for Decimal {
    // What is written without flags, and under any.
    ghost output = { λ d. Some (short_numeral d places_of_decimal) };

    ghost styled_output = { λ d spec. Some (short_numeral d places_of_decimal) };

    fn fmt<W: fmt::Write>(&self, f: &mut fmt::Formatter<W>) -> fmt::Result {
        Expansion::from_decimal(*self).fmt(f)
    }
}
