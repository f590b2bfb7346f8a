//! Terminating decimal expansions: a whole part and at most 93 digits after the point; their rounding and their text.
ghost use Rattle.std.specs.Prelude.{◌≡◌, ◌≢◌, ◌+◌, ◌-◌, ◌*◌, ◌%◌, ◌^◌, ◌≤◌, ◌<◌, ◌++◌, ℕ, length, take};
ghost use Rattle.std.specs.Prelude.{replicate, slice_index, IsAscii, Some};
ghost use Rattle.std.specs.Bool.{MatchBool};
ghost use Rattle.std.specs.Fmt.{DisplaysOnOk, DisplaysStyledOnOk};
ghost use Rattle.byte_unit_math.specs.Bounds.{bits_limit, expansion_places, scale, unit_limit, whole_limit};
ghost use Rattle.byte_unit_math.specs.Exact.{IsExactAt};
ghost use Rattle.byte_unit_math.specs.Finite.{IsExpansion, ulps_of, cut_after};
ghost use Rattle.byte_unit_math.specs.Nearest.{IsNearest};
ghost use Rattle.byte_unit_math.specs.Numeral.{fraction_text, glyphs, text_of};

use crate::decimal::Decimal;
use crate::decimal_digits::fmt_u128;
use crate::dividing::{GROUP_DIGITS, div_rem, div_rem_unit};
use crate::tens::{power_of_five, power_of_ten, power_of_two};
use std::marker::Model;
use std::{fmt, str};

/// The most digits after the point of an [`Expansion`]: the largest unit has 2^93 bits, and a fraction over 2^93 has
/// up to 93 digits.
pub const EXPANSION_PLACES: usize = 93;

/// How to round a number halfway between two decimals.
#[derive(Debug, Clone, Copy, PartialEq, Eq)]
pub enum Ties {
    /// To the one whose last digit is even.
    Even,
    /// To the greater one.
    Up,
}

/// A terminating decimal expansion with at most 93 digits after the point, the last of which is not 0.
///
/// In contracts it is its whole part and the list of its digits.
#[derive(Debug, Clone, Copy)]
pub struct Expansion {
    /// The part before the point.
    whole: u128,
    /// The digits after the point, each below ten, and zeros after them.
    digits: [u8; EXPANSION_PLACES],
    /// The number of digits after the point.
    places: u32,
}

impl Model for Expansion {
    ghost use Rattle.byte_unit_math.specs.Finite.{Finite, finite_code};
    ghost use Rattle.byte_unit_math.specs.ExpansionFields.{expansion_view, IsNormalizedExpansion, expansion_fields};
    ghost use Rattle.std.specs.Prelude.{◌≤◌};
    ghost use Rattle.std.proofs.Common.{length-take-le, take-append-drop, sym, refl, subst};

    ghost Value = { Finite };

    ghost coded = { finite_code };

    ghost view = { expansion_view };

    ghost invariant = { IsNormalizedExpansion };

    ghost inverse = { expansion_fields };

    // The array holds the digits of the model and then zeros.
    ghost inverse_ok = { λ e h. let few = subst (λ n. e.places ≤ n) (sym h.size) h.few in
        rw (length-take-le e.places e.digits few, sym h.rest, take-append-drop e.places e.digits) refl };
}

impl Expansion {
    /// Creates the expansion of `numerator / (2^twos * 5^fives)`.
    ///
    /// Precondition (proved at every call): `numerator < 8 * 10^30` and `2^twos * 5^fives <= 2^93`.
    ///
    /// # Examples
    /// ```rust
    /// assert_eq!(rt; format!(in alloc; "{}", Expansion::new(13, 3, 0))?.as_str(), "1.625");
    /// assert_eq!(rt; format!(in alloc; "{}", Expansion::new(8, 3, 0))?.as_str(), "1");
    /// ```
    #[tactic(auto, using(crate::proofs::Expanding::powers))]
    pub fn new(numerator: u128, twos: u32, fives: u32) -> Expansion
        requires small { numerator < bits_limit }
        requires den { 2 ^ twos * 5 ^ fives ≤ unit_limit }
        ensures { IsExpansion numerator (2 ^ twos * 5 ^ fives) result }
    {
        let den = power_of_two(twos) * power_of_five(fives);
        let (whole, rest) = div_rem(numerator, den);
        divide(whole, rest, den)
    }

    /// Creates an `Expansion` with the digits of a `Decimal`.
    ///
    /// # Examples
    /// ```rust
    /// let e = Expansion::from_decimal(Decimal::from_digits(50, 84, 3));
    /// assert_eq!(rt; (e.whole(), e.places(), e.digit(3)), (50, 3, 4));
    /// ```
    pub fn from_decimal(d: Decimal) -> Expansion
        ensures { IsExpansion d scale result }
    {
        divide(d.whole(), d.digits(), power_of_ten(d.places()))
    }

    /// Returns the part before the point.
    ///
    /// # Examples
    /// ```rust
    /// assert_eq!(rt; Expansion::new(13, 3, 0).whole(), 1);
    /// ```
    pub fn whole(&self) -> u128
        ensures { result ≡ self.now.whole }
    {
        self.whole
    }

    /// Returns the number of digits after the point, without trailing zeros: at most 93.
    ///
    /// # Examples
    /// ```rust
    /// assert_eq!(rt; Expansion::new(13, 3, 0).places(), 3);
    /// assert_eq!(rt; Expansion::new(1, 93, 0).places(), 93);
    /// ```
    pub fn places(&self) -> u32
        ensures exact { result ≡ length self.now.digits }
        ensures bound { result ≤ expansion_places }
    {
        self.places
    }

    /// Returns the i-th digit after the point, counted from 1, or 0 if it is past the last.
    ///
    /// Precondition (proved at every call): `1 <= i`.
    ///
    /// # Examples
    /// ```rust
    /// let e = Expansion::new(13, 3, 0);
    /// assert_eq!(rt; (e.digit(1), e.digit(3), e.digit(4)), (6, 5, 0));
    /// ```
    pub fn digit(&self, i: u32) -> u8
        requires { 1 ≤ i }
        ensures exact { result ≡ slice_index self.now.digits (i - 1) }
        ensures bound { result < 10 }
    {
        if i <= self.places {
            self.digits[i as usize - 1]
        } else {
            0
        }
    }

    /// Rounds to the nearest decimal with at most `places` digits after the point, ties as `ties` says.
    ///
    /// # Examples
    /// ```rust
    /// assert_eq!(rt; Expansion::new(9_996, 3, 3).rounded(2, Ties::Even).whole(), 10);
    /// let tie = Expansion::new(1_005, 3, 3);
    /// assert_eq!(rt; format!(in alloc; "{}", tie.rounded(2, Ties::Even))?.as_str(), "1");
    /// assert_eq!(rt; format!(in alloc; "{}", tie.rounded(2, Ties::Up))?.as_str(), "1.01");
    /// ```
    pub fn rounded(&self, places: u32, ties: Ties) -> Expansion
        ensures { (q : ℕ)
            × IsNearest (ulps_of self.now) (10 ^ length self.now.digits) places ties q
            × IsExpansion q (10 ^ places) result }
    {
        let mut rounded = *self;
        rounded.round(places, ties);
        rounded
    }

    /// Rounds the number in place, to what [`rounded`](Expansion::rounded) returns.
    ///
    /// # Examples
    /// ```rust
    /// let mut e = Expansion::new(9_996, 3, 3);
    /// e.round(2, Ties::Even);
    /// assert_eq!(rt; (e.whole(), e.places()), (10, 0));
    /// ```
    pub fn round(&mut self, places: u32, ties: Ties)
        ensures { (q : ℕ)
            × IsNearest (ulps_of self.old) (10 ^ length self.old.digits) places ties q
            × IsExpansion q (10 ^ places) self.new }
    {
        if self.places <= places {
            return;
        }
        if self.rounds_up(places, ties) {
            self.ceil_to(places);
        } else {
            self.floor_to(places);
        }
    }

    /// Returns whether rounding to `places` digits goes up.
    #[tactic(auto, using(crate::proofs::Cut::rounding))]
    fn rounds_up(&self, places: u32, ties: Ties) -> bool
        requires { places < length self.now.digits }
        ensures { let nearest = IsNearest (ulps_of self.now)
            (10 ^ length self.now.digits) places ties in
            let cut = ulps_of (cut_after places self.now) in
            MatchBool result (nearest (cut + 1)) (nearest cut) }
    {
        let count = self.places;
        let next = self.digit(places + 1);
        if next != 5 {
            next > 5
        } else if count > places + 1 {
            // More than half, since the last digit is not 0.
            true
        } else {
            match ties {
                Ties::Up => true,
                Ties::Even => self.is_odd_at(places),
            }
        }
    }

    /// Returns whether the last digit is odd if the number is rounded down to `places` digits.
    #[tactic(auto, using(crate::proofs::Cut::odd_by_last_digit, crate::proofs::Cut::is_odd_by_digit))]
    fn is_odd_at(&self, places: u32) -> bool
        requires { places < length self.now.digits }
        ensures { let cut = ulps_of (cut_after places self.now) in
            MatchBool result (cut % 2 ≡ 1) (cut % 2 ≡ 0) }
    {
        if places == 0 {
            self.whole % 2 == 1
        } else {
            self.digit(places) % 2 == 1
        }
    }

    /// Returns the length of the first `places` digits without those at their end that equal `last`.
    fn trim_end_len(&self, places: u32, last: u8) -> u32
        requires { places ≤ length self.now.digits }
        ensures bound { result ≤ places }
        ensures same { take places self.now.digits
            ≡ take result self.now.digits ++ replicate (places - result) last }
        ensures stops { 0 < result → slice_index self.now.digits (result - 1) ≢ last }
    {
        let mut kept = places;
        while kept > 0 && self.digit(kept) == last {
            kept -= 1;
        }
        kept
    }

    /// Rounds down to `places` digits after the point.
    fn floor_to(&mut self, places: u32)
        requires { places ≤ length self.old.digits }
        ensures { IsExpansion (ulps_of (cut_after places self.old)) (10 ^ places) self.new }
    {
        let kept = self.trim_end_len(places, 0);
        clear_from(&mut self.digits, kept);
        self.places = kept;
    }

    /// Rounds up to `places` digits after the point, of which the number has more.
    #[tactic(auto, using(crate::proofs::Cut::next_whole_is_expansion))]
    fn ceil_to(&mut self, places: u32)
        requires { places < length self.old.digits }
        ensures { IsExpansion (ulps_of (cut_after places self.old) + 1) (10 ^ places) self.new }
    {
        // The carry turns trailing nines into zeros, and adds one to the digit before them.
        let kept = self.trim_end_len(places, 9);
        clear_from(&mut self.digits, kept);
        self.places = kept;
        if kept == 0 {
            self.whole += 1;
        } else {
            self.digits[kept as usize - 1] += 1;
        }
    }
}

/// Sets the digits from the index `kept` on to 0.
#[inline(always)]
fn clear_from(digits: &mut [u8; EXPANSION_PLACES], kept: u32)
    requires { kept ≤ expansion_places }
    ensures { digits.new ≡ take kept digits.old ++ replicate (expansion_places - kept) 0 }
{
    digits[kept as usize..].fill(0);
}

/// Writes the whole part and, if there are digits after the point, a point and these.
impl fmt::Display for Expansion {
    // What is written without flags, and under any.
    ghost output = { λ e. Some (text_of e) };

    ghost styled_output = { λ e spec. Some (text_of e) };

    fn fmt<W: fmt::Write>(&self, f: &mut fmt::Formatter<W>) -> fmt::Result {
        fmt_u128(self.whole, f)?;
        fmt_fraction(self, f)
    }
}

/// Writes the point and the digits after it, or nothing if there are none.
#[tactic(auto, using(crate::proofs::WrittenDigits::ascii_texts))]
fn fmt_fraction<W: fmt::Write>(e: &Expansion, f: &mut fmt::Formatter<W>) -> fmt::Result
    ensures plain { DisplaysOnOk W.write_str_gives f.old result
        (Some (fraction_text e.now.digits)) f.new }
    ensures styled { DisplaysStyledOnOk W.write_str_gives f.old result
        (Some (fraction_text e.now.digits)) f.new }
{
    if e.places() == 0 {
        return Ok(());
    }
    f.write_str(".")?;
    f.write_str(str::from_utf8(&glyphs_of(e)[..e.places() as usize]).unwrap())
}

/// Returns the digits after the point as ASCII, followed by zeros (`b'0'`).
///
/// # Examples
/// ```rust
/// assert_eq!(rt; &glyphs_of(&Expansion::new(13, 3, 0))[..4], b"6250".as_slice());
/// ```
pub fn glyphs_of(e: &Expansion) -> [u8; EXPANSION_PLACES]
    ensures front { take (length e.now.digits) result ≡ glyphs e.now.digits }
    ensures ascii { IsAscii result }
{
    let mut glyphs = [b'0'; EXPANSION_PLACES];
    for i in 0..EXPANSION_PLACES.min(e.places as usize) {
        glyphs[i] = b'0' + e.digits[i];
    }
    glyphs
}

/// Expands `whole + remainder / den` by long division, ten digits at a time.
#[inline(always)]
fn divide(whole: u128, remainder: u128, den: u128) -> Expansion
    requires whole { whole < whole_limit }
    requires bound { remainder < den }
    // The dividend of each group of digits fits 128 bits.
    requires product_bound { 10 ^ 10 * den < 2 ^ 128 }
    requires ends { IsExactAt (whole * den + remainder) den expansion_places }
    ensures { IsExpansion (whole * den + remainder) den result }
{
    let mut rest = remainder;
    let mut digits = [0u8; EXPANSION_PLACES];
    let mut places: u32 = 0;
    while rest != 0 {
        let (group, left) = div_rem_unit(rest * 10_000_000_000, den);
        // The digits of the group that are not written yet, times 10 for each one that is.
        let mut shifted = group as u64;
        let mut count = 0;
        while count < GROUP_DIGITS && (shifted != 0 || left != 0) {
            digits[places as usize] = (shifted / 1_000_000_000) as u8;
            shifted = shifted % 1_000_000_000 * 10;
            places += 1;
            count += 1;
        }
        rest = left;
    }
    Expansion {
        whole,
        digits,
        places,
    }
}
