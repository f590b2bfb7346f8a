//! Formatting of a number with its unit.

ghost use Rattle.std.specs.Prelude.{◌≡◌, ◌+◌, ◌≤◌, ◌++◌, length, max};
ghost use Rattle.std.specs.Fmt.{decimal};
ghost use Rattle.byte_unit_base.specs.Grammar.Version.{unit_name};
ghost use Rattle.byte_unit_format.specs.Room.{AppendsForm};
ghost use Rattle.byte_unit_format.specs.Layout.{layout, layout_of};
ghost use Rattle.byte_unit_format.specs.TextParts.{fraction_of, places_in, FitsPlaces, IsReady, parts_text};
ghost use Rattle.byte_unit_format.specs.Written.{WritesForm};

use crate::parts::{Fraction, TextParts};
use crate::spec::{Align, FormatSpec, Sign};
use byte_unit_base::Unit;
use byte_unit_math::{Expansion, decimal_len};
use std::alloc::{AllocError, Allocator};

/// Returns the length in bytes of a decimal with `places` digits after the point and its unit. Does not allocate.
pub fn layout_len(e: &Expansion, places: u32, unit: Unit, spec: FormatSpec) -> usize
    ensures exact { result ≡ length (layout_of e.now places unit spec) }
    // The integer part, the point and the unit with its spaces take at most 44 columns.
    ensures bound { result ≤ max u16.MAX (places + 44) }
{
    layout_parts(e.whole(), Fraction::First(e, places), unit, spec).len
}

/// Appends a decimal with exactly `places` digits after the point, and its unit.
///
/// If a width is set, spaces pad the text to it: before the number if it is aligned right, else between number and
/// unit. The sign sets the spaces between number and unit, and is never printed.
///
/// # Errors
/// Returns `AllocError` if the string's spare capacity is below `layout_len` and allocation fails; the string and its
/// capacity are then unchanged. It allocates at most once, before it writes.
///
/// # Examples
/// ```rust
/// let ten = FormatSpec { width: Some(10), ..FormatSpec::ALTERNATE };
/// let mut text = String::new(alloc);
/// append_layout(&Expansion::new(10, 0, 0), 0, Unit::KiB, ten, &mut text)?;
/// assert_eq!(rt; text.as_str(), "10     KiB");
/// ```
#[tactic(auto, using(crate::proofs::TextParts::appends_same))]
pub fn append_layout<A: Allocator>(
    e: &Expansion,
    places: u32,
    unit: Unit,
    spec: FormatSpec,
    text: &mut String<A>,
) -> Result<(), AllocError>
    ensures { AppendsForm (λ form. form
        ≡ layout_of e.now places unit spec) text.old text.new result }
{
    layout_parts(e.whole(), Fraction::First(e, places), unit, spec).append(text)
}

/// Writes what `append_layout` appends to the beginning of `out`, and returns its length. Writes nothing if it does not
/// fit. Does not allocate.
#[inline(always)]
#[tactic(auto, using(crate::proofs::TextParts::writes_form))]
pub fn write_layout(
    e: &Expansion,
    places: u32,
    unit: Unit,
    spec: FormatSpec,
    out: &mut [u8],
) -> usize
    ensures written { let text = layout_of e.now places unit spec in
        WritesForm (λ form. form ≡ text) out.old out.new result }
    ensures bound { result ≤ max u16.MAX (places + 44) }
{
    layout_parts(e.whole(), Fraction::First(e, places), unit, spec).write(out)
}

/// Returns the parts of a number with its unit. With the sign `+`, the spaces and the name, of one to three letters,
/// take four columns.
#[inline(always)]
#[tactic(auto, using(crate::proofs::Widths::name_short))]
pub(crate) fn layout_parts<'a>(
    whole: u128,
    fraction: Fraction<'a>,
    unit: Unit,
    spec: FormatSpec,
) -> TextParts<'a>
    requires short { FitsPlaces fraction }
    ensures text { let number = decimal whole ++ fraction_of fraction.entry in
        parts_text result ≡ layout number (unit_name unit) spec }
    ensures len { result.len ≡ length (parts_text result) }
    ensures bound { result.len ≤ max u16.MAX (places_in fraction.entry + 44) }
    ensures ready { IsReady result }
{
    let number = decimal_len(whole) + fraction.len();
    let name = unit.as_str();
    let gap = match spec.sign {
        Sign::Unset => 1,
        Sign::Plus => 4 - name.len(),
        Sign::Minus => 0,
    };
    let columns = number + gap + name.len();
    let pad = match spec.width {
        None => 0,
        Some(width) => usize::from(width).saturating_sub(columns),
    };
    let before = match spec.align {
        Some(Align::Right) => pad,
        Some(Align::Left) | Some(Align::Center) | None => 0,
    };
    TextParts {
        before,
        sign: "",
        whole,
        fraction,
        after: pad - before + gap,
        name,
        len: columns + pad,
    }
}
