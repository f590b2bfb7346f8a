//! The parts of a formatted text, and writing backwards into a buffer.

ghost use Rattle.std.specs.Prelude.{◌≡◌, ◌+◌, ◌^◌, ◌≤◌, ◌++◌, length, take, drop, replicate, IsAscii};
ghost use Rattle.std.specs.String.{string_bytes, string_capacity};
ghost use Rattle.std.specs.Vec.{vec_len, vec_capacity};
ghost use Rattle.byte_unit_math.specs.Numeral.{fraction_text};
ghost use Rattle.byte_unit_math.specs.Padded.{pad_of};
ghost use Rattle.byte_unit_math.specs.PutBefore.{IsPutBefore};
ghost use Rattle.byte_unit_format.specs.Room.{spare_capacity, AppendsForm};
ghost use Rattle.byte_unit_format.specs.TextParts.{fraction_of, places_in, FitsPlaces, IsReady, parts_text};
ghost use Rattle.byte_unit_format.specs.Written.{WritesForm};

use byte_unit_math::{Expansion, glyphs_of, put_fraction, put_u128};
use core::mem::replace_with;
use std::alloc::{AllocError, Allocator};

/// The digits after the point, and their number.
#[derive(Clone, Copy)]
pub(crate) enum Fraction<'a> {
    /// The last digits of a number, with leading zeros: at most 38, any of which a `u128` holds.
    Last(u128, u32),
    /// The first digits of an expansion, with trailing zeros.
    First(&'a Expansion, u32),
}

/// The parts of a formatted text in their order, and its length.
#[derive(Clone, Copy)]
pub(crate) struct TextParts<'a> {
    /// Spaces before the number.
    pub before: usize,
    /// A plus sign, or the empty string.
    pub sign: &'static str,
    /// The part of the number before the point.
    pub whole: u128,
    /// The part of the number after the point.
    pub fraction: Fraction<'a>,
    /// Spaces after the number.
    pub after: usize,
    /// The name of a unit, or the empty string.
    pub name: &'static str,
    /// The length of the whole text, in bytes.
    pub len: usize,
}

impl TextParts<'_> {
    /// Writes the parts to the beginning of `out` if they fit, and returns their length.
    #[inline(always)]
    pub(crate) fn write(&self, out: &mut [u8]) -> usize
        requires len { self.now.len ≡ length (parts_text self.now) }
        requires ready { IsReady self.now }
        ensures written { WritesForm (λ form. form ≡ parts_text self.now) out.old out.new result }
        ensures len { result ≡ self.now.len }
    {
        if self.len <= out.len() {
            self.put(out, self.len);
        }
        self.len
    }

    /// Appends the parts to a string. Allocates at most once, before it writes.
    pub(crate) fn append<A: Allocator>(&self, text: &mut String<A>) -> Result<(), AllocError>
        requires len { self.now.len ≡ length (parts_text self.now) }
        requires ready { IsReady self.now }
        ensures { AppendsForm (λ form. form ≡ parts_text self.now) text.old text.new result }
    {
        text.try_reserve_exact(self.len)?;
        replace_with(text, *self, with_parts);
        Ok(())
    }

    /// Appends the parts to bytes, for which their capacity suffices.
    fn push<A: Allocator>(&self, bytes: &mut Vec<u8, A>)
        requires len { self.now.len ≡ length (parts_text self.now) }
        requires ready { IsReady self.now }
        requires room { vec_len bytes.old + self.now.len ≤ vec_capacity bytes.old }
        ensures bytes { bytes.new.items ≡ bytes.old.items ++ parts_text self.now }
        ensures capacity { vec_capacity bytes.old ≤ vec_capacity bytes.new }
        ensures ascii { IsAscii (parts_text self.now) }
    {
        let end = bytes.len();
        bytes.resize(end + self.len, 0).unwrap();
        self.put(&mut bytes[end..], self.len);
    }

    /// Writes the parts so that they end before the index `end`, and returns the index where they begin.
    #[inline(always)]
    #[tactic(auto, using(crate::proofs::TextParts::row_ascii))]
    fn put(&self, out: &mut [u8], end: usize) -> usize
        requires room { length (parts_text self.now) ≤ end }
        requires end_bound { end ≤ length out.old }
        requires ready { IsReady self.now }
        ensures put { IsPutBefore (parts_text self.now) end out.old out.new result }
        ensures ascii { IsAscii (parts_text self.now) }
    {
        let name = put(self.name.as_bytes(), out, end);
        let behind = put_run(b' ', self.after, out, name);
        let point = match self.fraction {
            Fraction::Last(digits, places) => put_fraction(digits, places, out, behind),
            Fraction::First(e, places) => put_first(e, places, out, behind),
        };
        let digits = put_u128(self.whole, out, point);
        let sign = put(self.sign.as_bytes(), out, digits);
        put_run(b' ', self.before, out, sign)
    }
}

impl Fraction<'_> {
    /// Returns the length of the point and the digits.
    #[inline(always)]
    #[tactic(auto, using(crate::proofs::TextParts::fraction_long))]
    pub(crate) fn len(&self) -> usize
        ensures exact { result ≡ length (fraction_of self.now) }
        ensures places_bound { result ≤ places_in self.now + 1 }
        ensures bound { result ≤ 2 ^ 32 }
    {
        let places = match self {
            Fraction::Last(_, places) | Fraction::First(_, places) => *places,
        };
        if places == 0 { 0 } else { 1 + places as usize }
    }
}

/// Writes the point and `places` digits of an expansion, or nothing if `places` is 0.
#[tactic(auto, using(crate::proofs::TextParts::first_digits_put))]
fn put_first(e: &Expansion, places: u32, out: &mut [u8], end: usize) -> usize
    requires room { length (fraction_text (pad_of places e.now).digits) ≤ end }
    requires end_bound { end ≤ length out.old }
    ensures put { let text = fraction_text (pad_of places e.now).digits in
        IsPutBefore text end out.old out.new result }
    ensures ascii { IsAscii (fraction_text (pad_of places e.now).digits) }
{
    if places == 0 {
        return end;
    }
    let shown = places.min(e.places()) as usize;
    let zeros = put_run(b'0', places as usize - shown, out, end);
    let digits = put(&glyphs_of(e)[..shown], out, zeros);
    put_run(b'.', 1, out, digits)
}

/// Returns a string with the parts after it, for which its capacity suffices.
fn with_parts<A: Allocator>(text: String<A>, parts: TextParts<'_>) -> (String<A>, ())
    requires len { parts.len ≡ length (parts_text parts) }
    requires ready { IsReady parts }
    requires room { parts.len ≤ spare_capacity text }
    ensures bytes { string_bytes result.0 ≡ string_bytes text ++ parts_text parts.entry }
    ensures capacity { string_capacity text ≤ string_capacity result.0 }
{
    let mut bytes = text.into_bytes();
    parts.push(&mut bytes);
    // UTF-8 with ASCII after it is UTF-8.
    (unsafe { String::from_utf8_unchecked(bytes) }, ())
}

/// Writes bytes so that they end before the index `end`, and returns the index where they begin.
///
/// Precondition (proved at every call): the bytes fit before `end`, and `end <= out.len()`.
///
/// # Examples
/// ```rust
/// let mut out = *b"......";
/// assert_eq!(rt; put(b"KiB", &mut out, 5), 2);
/// assert_eq!(rt; &out, b"..KiB.");
/// ```
#[inline(always)]
pub fn put(bytes: &[u8], out: &mut [u8], end: usize) -> usize
    requires room { length bytes.now ≤ end }
    requires end_bound { end ≤ length out.old }
    ensures begins { result + length bytes.now ≡ end }
    ensures before { take result out.new ≡ take result out.old }
    ensures bytes { drop result out.new ≡ bytes.now ++ drop end out.old }
{
    let start = end - bytes.len();
    out[start..end].copy_from_slice(bytes);
    start
}

/// Writes `count` copies of a byte so that they end before the index `end`, and returns the index where they begin.
#[inline(always)]
fn put_run(byte: u8, count: usize, out: &mut [u8], end: usize) -> usize
    requires room { count ≤ end }
    requires end_bound { end ≤ length out.old }
    ensures { IsPutBefore (replicate count byte) end out.old out.new result }
{
    let start = end - count;
    out[start..end].fill(byte);
    start
}
