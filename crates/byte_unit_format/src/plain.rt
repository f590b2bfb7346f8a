//! Formatting of a whole number: digits only.

ghost use Rattle.std.specs.Prelude.{◌≡◌, ◌≤◌, length};
ghost use Rattle.byte_unit_format.specs.Room.{AppendsForm};
ghost use Rattle.byte_unit_format.specs.Plain.{plain};
ghost use Rattle.byte_unit_format.specs.TextParts.{IsReady, parts_text};
ghost use Rattle.byte_unit_format.specs.Written.{WritesForm};

use crate::parts::{Fraction, TextParts};
use crate::spec::{Align, FormatSpec, Sign};
use byte_unit_math::decimal_len;
use std::alloc::{AllocError, Allocator};

/// Returns the length in bytes of a number's digits with their sign, padded to the width. Does not allocate.
pub fn plain_len(size: u128, spec: FormatSpec) -> usize
    ensures exact { result ≡ length (plain size spec) }
    ensures bound { result ≤ u16.MAX }
{
    plain_parts(size, spec).len
}

/// Appends the digits of a number, after a `+` for `Sign::Plus`, padded with spaces to the width. Without an alignment
/// the spaces are on the left.
///
/// # Errors
/// Returns `AllocError` if the string's spare capacity is below `plain_len` and allocation fails; the string and its
/// capacity are then unchanged. It allocates at most once, before it writes.
///
/// # Examples
/// ```rust
/// let mut text = String::new(alloc);
/// append_plain(10240, FormatSpec { width: Some(8), ..FormatSpec::PLAIN }, &mut text)?;
/// assert_eq!(rt; text.as_str(), "   10240");
/// ```
#[tactic(auto, using(crate::proofs::TextParts::appends_same))]
pub fn append_plain<A: Allocator>(
    size: u128,
    spec: FormatSpec,
    text: &mut String<A>,
) -> Result<(), AllocError>
    ensures { AppendsForm (λ form. form ≡ plain size spec) text.old text.new result }
{
    plain_parts(size, spec).append(text)
}

/// Writes what `append_plain` appends to the beginning of `out`, and returns its length. Writes nothing if it does not
/// fit. Does not allocate.
#[tactic(auto, using(crate::proofs::TextParts::writes_form))]
pub fn write_plain(size: u128, spec: FormatSpec, out: &mut [u8]) -> usize
    ensures written { WritesForm (λ form. form ≡ plain size spec) out.old out.new result }
    ensures bound { result ≤ u16.MAX }
{
    plain_parts(size, spec).write(out)
}

/// Returns the parts of a number's digits with their sign and padding.
#[inline(always)]
pub(crate) fn plain_parts(size: u128, spec: FormatSpec) -> TextParts<'static>
    ensures text { parts_text result ≡ plain size spec }
    ensures len { result.len ≡ length (plain size spec) }
    ensures bound { result.len ≤ u16.MAX }
    ensures ready { IsReady result }
{
    let sign = match spec.sign {
        Sign::Plus => "+",
        Sign::Unset | Sign::Minus => "",
    };
    let columns = sign.len() + decimal_len(size);
    let pad = match spec.width {
        None => 0,
        Some(width) => usize::from(width).saturating_sub(columns),
    };
    let before = match spec.align {
        Some(Align::Left) => 0,
        Some(Align::Center) => pad / 2,
        Some(Align::Right) | None => pad,
    };
    TextParts {
        before,
        sign,
        whole: size,
        fraction: Fraction::Last(0, 0),
        after: pad - before,
        name: "",
        len: columns + pad,
    }
}
