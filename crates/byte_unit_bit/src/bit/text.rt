// Rendered from crates/byte_unit_byte/src/byte/text.rt by `tools/dev render bits`. Do not edit.
//! Formatting of sizes in bits.

ghost use Rattle.std.specs.Prelude.{◌≡◌, ◌<◌, ◌≤◌, ℕ, List, length, IfOk};
ghost use Rattle.std.specs.String.{string_bytes};
ghost use Rattle.byte_unit_format.specs.Forms.{IsText, narrow_text, text_limit};
ghost use Rattle.byte_unit_format.specs.Room.{AppendsForm};
ghost use Rattle.byte_unit_format.specs.Written.{WritesForm};
ghost use Rattle.byte_unit_base.specs.declared.kind.Kind.TheVariants.{Bit as InBits};

use super::Bit;
use byte_unit_base::Kind;
use byte_unit_format::FormatSpec;
use std::alloc::{AllocError, Allocator, Global};

impl Bit {
    /// Returns the length of the text of the size under the spec, in bytes: below 65,600, and at most 37 if no
    /// width is set. Does not allocate.
    ///
    /// # Examples
    /// ```rust
    /// let size = Bit::from_u64(1536);
    /// assert_eq!(rt; size.text_len(FormatSpec::ALTERNATE), "1.5 Kib".len());
    /// assert_eq!(rt; size.text_len(FormatSpec::PLAIN), "1536".len());
    /// ```
    pub fn text_len(self, spec: FormatSpec) -> usize
        ensures exact { (form : List ℕ) → IsText InBits self spec form → result ≡ length form }
        ensures bound { result < text_limit }
        ensures narrow { spec.width ≡ None → result ≤ narrow_text }
    {
        byte_unit_format::text_len(self.size, Kind::Bit, spec)
    }

    /// Appends the text of the size. Without `alternate` that is its digits, with a `+` before them for the sign
    /// `Plus`.
    ///
    /// With `alternate` it is the size in the largest unit of bits, at most the size, that represents it exactly
    /// within the precision (three digits after the point if none is set, at most 28), or in `b` if there is none.
    /// No sign is printed. Between number and unit is one space; for `Plus` the spaces and the unit make four
    /// columns, and for `Minus` there is no space.
    ///
    /// Spaces fill the text up to the width. Digits alone are aligned as set, the extra space of an uneven split
    /// after them, and on the right if no alignment is set. A number with its unit is on the right if that is set,
    /// with the spaces before it; otherwise it is on the left, with the spaces between number and unit.
    ///
    /// Allocates at most once, before it writes, and uses at most `text_len` of the spare capacity.
    ///
    /// # Errors
    /// `AllocError` if an allocation fails, which happens only if the spare capacity is less than `text_len`. The
    /// text and its capacity are then unchanged.
    ///
    /// # Examples
    /// ```rust
    /// let mut text = String::from_str(alloc, "size: ")?;
    /// Bit::from_u64(3_211_776).append_text(FormatSpec::ALTERNATE, &mut text)?;
    /// assert_eq!(rt; text.as_str(), "size: 3136.5 Kib");
    /// ```
    pub fn append_text<A: Allocator>(
        self,
        spec: FormatSpec,
        text: &mut String<A>,
    ) -> Result<(), AllocError>
        ensures { AppendsForm (IsText InBits self spec) text.old text.new result }
    {
        byte_unit_format::append_text(self.size, Kind::Bit, spec, text)
    }

    /// Writes the text of the size to the start of `out`, as [`Bit::append_text`] appends it, and returns its
    /// length: at most 37 if no width is set.
    ///
    /// If `out` is shorter than the text, nothing is written, and the length of the text is still returned. Does
    /// not allocate.
    ///
    /// # Examples
    /// ```rust
    /// let mut out = [0; 16];
    /// let len = Bit::from_u64(1536).write_text(FormatSpec::ALTERNATE, &mut out);
    /// assert!(rt; out.starts_with(b"1.5 Kib".as_slice()));
    /// assert_eq!(rt; len, 7);
    /// assert_eq!(rt; Bit::from_u64(1536).write_text(FormatSpec::ALTERNATE, &mut []), len);
    /// ```
    #[inline(always)]
    pub fn write_text(self, spec: FormatSpec, out: &mut [u8]) -> usize
        ensures written { WritesForm (IsText InBits self spec) out.old out.new result }
        ensures bound { result < text_limit }
        ensures narrow { spec.width ≡ None → result ≤ narrow_text }
    {
        byte_unit_format::write_text(self.size, Kind::Bit, spec, out)
    }

    /// Returns the text of the size, as [`Bit::append_text`] appends it.
    ///
    /// # Errors
    /// `AllocError` if an allocation fails.
    ///
    /// # Examples
    /// ```rust
    /// let size = Bit::from_u64(1536);
    /// assert_eq!(rt; size.to_text(alloc, FormatSpec::ALTERNATE)?.as_str(), "1.5 Kib");
    /// assert_eq!(rt; size.to_text(alloc, FormatSpec::PLAIN)?.as_str(), "1536");
    /// ```
    pub fn to_text(self, alloc: Global, spec: FormatSpec) -> Result<String, AllocError>
        ensures { IfOk result (λ text. IsText InBits self spec (string_bytes text)) }
    {
        self.to_text_in(alloc, spec)
    }

    /// Returns the text of the size, as [`Bit::append_text`] appends it, in memory of any allocator.
    ///
    /// # Errors
    /// `AllocError` if an allocation fails.
    ///
    /// # Examples
    /// ```rust
    /// let text = Bit::from_u64(1536).to_text_in(alloc, FormatSpec::ALTERNATE)?;
    /// assert_eq!(rt; text.as_str(), "1.5 Kib");
    /// ```
    pub fn to_text_in<A: Allocator>(
        self,
        alloc: A,
        spec: FormatSpec,
    ) -> Result<String<A>, AllocError>
        ensures { IfOk result (λ text. IsText InBits self spec (string_bytes text)) }
    {
        let mut text = String::new(alloc);
        self.append_text(spec, &mut text)?;
        Ok(text)
    }
}
