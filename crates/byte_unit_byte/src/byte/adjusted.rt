//! `AdjustedByte`, a size in bytes with a unit for its text.

ghost use Rattle.std.specs.Prelude.{◌≡◌, ◌*◌, ◌<◌, ◌≤◌, ℕ, List, length, IfOk};
ghost use Rattle.std.specs.String.{string_bytes};
ghost use Rattle.byte_unit_base.specs.Grammar.Shape.{bits};
ghost use Rattle.byte_unit_base.specs.Grammar.Units.{shape_of};
ghost use Rattle.byte_unit_base.specs.Sizes.Kinds.{bits_in};
ghost use Rattle.byte_unit_choice.specs.Choice.{IsAppropriate};
ghost use Rattle.byte_unit_format.specs.Forms.{text_limit};
ghost use Rattle.byte_unit_format.specs.Adjusted.{IsAdjustedForm, most_adjusted_text};
ghost use Rattle.byte_unit_format.specs.Room.{AppendsForm};
ghost use Rattle.byte_unit_format.specs.Written.{WritesForm};
ghost use Rattle.byte_unit_base.specs.declared.kind.Kind.TheVariants.{Byte as InBytes};

use super::Byte;
use byte_unit_base::{Kind, Unit};
use byte_unit_choice::{UnitType, appropriate_unit};
use byte_unit_format::FormatSpec;
use std::alloc::{AllocError, Allocator, Global};
use std::marker::Model;

mod built_in_traits;
mod json;

/// A size in bytes, and the unit that its text uses. Equality and order are those of the sizes, whatever the units.
///
/// # Examples
/// ```rust
/// let adjusted = Byte::from_u64(123_456).get_adjusted_unit(Unit::KB);
/// assert_eq!(rt; adjusted.to_text(alloc, FormatSpec::PLAIN)?.as_str(), "123.456 KB");
/// assert_eq!(rt; adjusted, Byte::from_u64(123_456).get_adjusted_unit(Unit::MiB));
/// ```
#[derive(Debug, Clone, Copy)]
pub struct AdjustedByte {
    size: Byte,
    unit: Unit,
}

impl Model for AdjustedByte {
    ghost use Rattle.byte_unit_choice.specs.AdjustedSize.{AdjustedSize};

    ghost Value = { AdjustedSize };

    ghost view = { λ a. record { size = a.size; unit = a.unit } };

    ghost inverse = { λ a. record { size = a.size; unit = a.unit } };
}

impl AdjustedByte {
    /// Returns the size in its unit as a fraction that is not reduced: its bits over the bits of the unit.
    ///
    /// # Examples
    /// ```rust
    /// let (numerator, denominator) = Byte::MEGABYTE.get_adjusted_unit(Unit::KB).get_value();
    /// assert_eq!(rt; numerator, 1000 * denominator);
    /// assert_eq!(rt; denominator, Unit::KB.as_bits_u128());
    /// ```
    pub fn get_value(&self) -> (u128, u128)
        ensures numerator { result.0 ≡ self.now.size * bits_in InBytes }
        ensures denominator { result.1 ≡ bits (shape_of self.now.unit) }
    {
        (
            self.size.as_u128() * Kind::Byte.bits(),
            self.unit.as_bits_u128(),
        )
    }

    /// Returns the unit.
    ///
    /// # Examples
    /// ```rust
    /// assert_eq!(rt; Byte::MEGABYTE.get_adjusted_unit(Unit::KiB).get_unit(), Unit::KiB);
    /// ```
    pub fn get_unit(&self) -> Unit
        ensures { result ≡ self.now.unit }
    {
        self.unit
    }

    /// Returns the size, exactly.
    ///
    /// # Examples
    /// ```rust
    /// assert_eq!(rt; Byte::MEGABYTE.get_adjusted_unit(Unit::KiB).get_byte(), Byte::MEGABYTE);
    /// ```
    pub fn get_byte(&self) -> Byte
        ensures { result ≡ self.now.size }
    {
        self.size
    }

    /// Returns the length of the text under the spec, in bytes: below 65,600. Does not allocate.
    ///
    /// If no width is set, it is at most 129 without a precision, and at most 36 more than a precision, or 39 for a
    /// precision below 3.
    ///
    /// # Examples
    /// ```rust
    /// let adjusted = Byte::from_u64(123_456).get_adjusted_unit(Unit::KB);
    /// assert_eq!(rt; adjusted.text_len(FormatSpec::PLAIN), "123.456 KB".len());
    /// ```
    pub fn text_len(self, spec: FormatSpec) -> usize
        ensures exact { (form : List ℕ) → IsAdjustedForm InBytes self.size self.unit spec form
            → result ≡ length form }
        ensures bound { result < text_limit }
        ensures narrow { result ≤ most_adjusted_text spec }
    {
        byte_unit_format::adjusted_len(self.size.as_u128(), Kind::Byte, self.unit, spec)
    }

    /// Appends the text of the size in its unit.
    ///
    /// If no precision is set, or the unit is `Unit::Bit` or `Unit::B` and `alternate` is not set, the number has
    /// all its digits. With a precision it is rounded to exactly that number of digits after the point, ties to the
    /// even digit; with `alternate` to at most that number, and at most 16, ties to the greater number, and without
    /// trailing zeros.
    ///
    /// Sign, width and alignment apply as in [`Byte::append_text`] to a number with its unit.
    ///
    /// Allocates at most once, before it writes, and uses at most `text_len` of the spare capacity.
    ///
    /// # Errors
    /// `AllocError` if an allocation fails, which happens only if the spare capacity is less than `text_len`. The
    /// text and its capacity are then unchanged.
    ///
    /// # Examples
    /// ```rust
    /// let spec = FormatSpec { precision: Some(2), ..FormatSpec::PLAIN };
    /// let mut text = String::new(alloc);
    /// Byte::from_u64(123_456).get_adjusted_unit(Unit::KB).append_text(spec, &mut text)?;
    /// assert_eq!(rt; text.as_str(), "123.46 KB");
    /// ```
    pub fn append_text<A: Allocator>(
        self,
        spec: FormatSpec,
        text: &mut String<A>,
    ) -> Result<(), AllocError>
        ensures { let IsForm = IsAdjustedForm InBytes self.size self.unit spec in
            AppendsForm IsForm text.old text.new result }
    {
        byte_unit_format::append_adjusted(self.size.as_u128(), Kind::Byte, self.unit, spec, text)
    }

    /// Writes the text to the start of `out`, as [`AdjustedByte::append_text`] appends it, and returns its length.
    ///
    /// If `out` is shorter than the text, nothing is written, and the length of the text is still returned. Does
    /// not allocate.
    ///
    /// # Examples
    /// ```rust
    /// let adjusted = Byte::from_u64(123_456).get_adjusted_unit(Unit::KB);
    /// let mut out = [0; 16];
    /// let len = adjusted.write_text(FormatSpec::PLAIN, &mut out);
    /// assert_eq!(rt; &out[..len], b"123.456 KB".as_slice());
    /// assert_eq!(rt; adjusted.write_text(FormatSpec::PLAIN, &mut []), len);
    /// ```
    #[inline(always)]
    pub fn write_text(self, spec: FormatSpec, out: &mut [u8]) -> usize
        ensures written { let IsForm = IsAdjustedForm InBytes self.size self.unit spec in
            WritesForm IsForm out.old out.new result }
        ensures bound { result < text_limit }
        ensures narrow { result ≤ most_adjusted_text spec }
    {
        byte_unit_format::write_adjusted(self.size.as_u128(), Kind::Byte, self.unit, spec, out)
    }

    /// Returns the text of the size in its unit, as [`AdjustedByte::append_text`] appends it.
    ///
    /// # Errors
    /// `AllocError` if an allocation fails.
    ///
    /// # Examples
    /// ```rust
    /// let adjusted = Byte::from_u64(1536).get_adjusted_unit(Unit::KiB);
    /// assert_eq!(rt; adjusted.to_text(alloc, FormatSpec::PLAIN)?.as_str(), "1.5 KiB");
    /// ```
    pub fn to_text(self, alloc: Global, spec: FormatSpec) -> Result<String, AllocError>
        ensures { IfOk result
            (λ text. IsAdjustedForm InBytes self.size self.unit spec (string_bytes text)) }
    {
        self.to_text_in(alloc, spec)
    }

    /// Returns the text of the size in its unit, as [`AdjustedByte::append_text`] appends it, in memory of any
    /// allocator.
    ///
    /// # Errors
    /// `AllocError` if an allocation fails.
    ///
    /// # Examples
    /// ```rust
    /// let adjusted = Byte::from_u64(1536).get_adjusted_unit(Unit::KiB);
    /// assert_eq!(rt; adjusted.to_text_in(alloc, FormatSpec::PLAIN)?.as_str(), "1.5 KiB");
    /// ```
    pub fn to_text_in<A: Allocator>(
        self,
        alloc: A,
        spec: FormatSpec,
    ) -> Result<String<A>, AllocError>
        ensures { IfOk result
            (λ text. IsAdjustedForm InBytes self.size self.unit spec (string_bytes text)) }
    {
        let mut text = String::new(alloc);
        self.append_text(spec, &mut text)?;
        Ok(text)
    }
}

impl Byte {
    /// Returns the size with the given unit for its text.
    ///
    /// # Examples
    /// ```rust
    /// let adjusted = Byte::from_u64(123_456).get_adjusted_unit(Unit::KB);
    /// assert_eq!(rt; adjusted.to_text(alloc, FormatSpec::PLAIN)?.as_str(), "123.456 KB");
    /// ```
    pub fn get_adjusted_unit(self, unit: Unit) -> AdjustedByte
        ensures size { result.size ≡ self }
        ensures unit { result.unit ≡ unit }
    {
        AdjustedByte { size: self, unit }
    }

    /// Returns the size with the largest unit of bytes of the given type that is at most the size, or with
    /// `Unit::B` if there is none.
    ///
    /// # Examples
    /// ```rust
    /// let size = Byte::from_u64(10_000);
    /// assert_eq!(rt; size.get_appropriate_unit(UnitType::Both).get_unit(), Unit::KiB);
    /// assert_eq!(rt; size.get_appropriate_unit(UnitType::Decimal).get_unit(), Unit::KB);
    /// assert_eq!(rt; Byte::MIN.get_appropriate_unit(UnitType::Both).get_unit(), Unit::B);
    /// ```
    #[inline(always)]
    pub fn get_appropriate_unit(&self, unit_type: UnitType) -> AdjustedByte
        ensures size { result.size ≡ self.now }
        ensures unit { IsAppropriate InBytes unit_type self.now result.unit }
    {
        let unit = appropriate_unit(self.size, Kind::Byte, unit_type);
        self.get_adjusted_unit(unit)
    }
}
