// Rendered from crates/byte_unit_byte/src/byte/approximate.rt by `tools/dev render bits`. Do not edit.
//! The text of a size in bits in its appropriate unit: a few digits, as a person reads it.

ghost use Rattle.std.specs.Prelude.{◌≤◌, IfOk};
ghost use Rattle.std.specs.String.{string_bytes};
ghost use Rattle.byte_unit_format.specs.Adjusted.{IsApproximateForm, most_adjusted_text};
ghost use Rattle.byte_unit_format.specs.Written.{WritesForm};
ghost use Rattle.byte_unit_base.specs.declared.kind.Kind.TheVariants.{Bit as InBits};

use super::Bit;
use byte_unit_choice::UnitType;
use byte_unit_format::FormatSpec;
use std::alloc::{AllocError, Global};

impl Bit {
    /// Writes the text of the size in its unit of [`Bit::get_appropriate_unit`] to the start of `out`, and returns its
    /// length. The text is that of [`Bit::approximate_text`].
    ///
    /// If `out` is shorter than the text, nothing is written, and the length of the text is still returned. Does
    /// not allocate.
    ///
    /// # Examples
    /// ```rust
    /// let one = FormatSpec { precision: Some(1), ..FormatSpec::PLAIN };
    /// let mut out = [0; 16];
    /// let len = Bit::from_u64(10_000).write_approximate_text(UnitType::Binary, one, &mut out);
    /// assert_eq!(rt; &out[..len], b"9.8 Kib".as_slice());
    /// ```
    #[inline(always)]
    pub fn write_approximate_text(
        self,
        unit_type: UnitType,
        spec: FormatSpec,
        out: &mut [u8],
    ) -> usize
        ensures written { WritesForm
            (IsApproximateForm InBits unit_type self spec) out.old out.new result }
        ensures narrow { result ≤ most_adjusted_text spec }
    {
        self.get_appropriate_unit(unit_type).write_text(spec, out)
    }

    /// Returns the text of the size in its unit of [`Bit::get_appropriate_unit`]: the largest of the given type that
    /// is at most the size.
    ///
    /// If no precision is set, the number has all its digits; with a precision it is rounded, as the text of an
    /// adjusted size is. The unit is chosen before that: 999,999 bits with one place are `1000.0 Kb`.
    ///
    /// `append_text` and `to_text_in` of that adjusted size take any allocator.
    ///
    /// # Errors
    /// `AllocError` if an allocation fails.
    ///
    /// # Examples
    /// ```rust
    /// let size = Bit::from_u64(10_000_000);
    /// let one = FormatSpec { precision: Some(1), ..FormatSpec::PLAIN };
    /// assert_eq!(rt; size.approximate_text(alloc, UnitType::Binary, one)?.as_str(), "9.5 Mib");
    /// assert_eq!(rt; size.approximate_text(alloc, UnitType::Decimal, one)?.as_str(), "10.0 Mb");
    /// ```
    pub fn approximate_text(
        self,
        alloc: Global,
        unit_type: UnitType,
        spec: FormatSpec,
    ) -> Result<String, AllocError>
        ensures { IfOk result
            (λ text. IsApproximateForm InBits unit_type self spec (string_bytes text)) }
    {
        self.get_appropriate_unit(unit_type).to_text(alloc, spec)
    }
}
