//! Formatting of a size: digits only, or with a unit.

ghost use Rattle.std.specs.Prelude.{◌≡◌, ℕ, ◌<◌, ◌≤◌, List, length, None};
ghost use Rattle.byte_unit_math.specs.Bounds.{size_limit};
ghost use Rattle.byte_unit_base.specs.Grammar.Units.{shape_of};
ghost use Rattle.byte_unit_format.specs.Room.{AppendsForm};
ghost use Rattle.byte_unit_format.specs.TextParts.{IsReady, parts_text};
ghost use Rattle.byte_unit_format.specs.Written.{WritesForm};
ghost use Rattle.byte_unit_format.specs.BinaryString.{IsBinarySpec, has_binary_prefix as is_binary};
ghost use Rattle.byte_unit_format.specs.Forms.{IsText, narrow_text, text_limit, places_of as most_places_of};

use crate::form::put::{NARROW_TEXT, put_form};
use crate::layout::layout_parts;
use crate::parts::{Fraction, TextParts};
use crate::plain::plain_parts;
use crate::spec::FormatSpec;
use byte_unit_base::{Kind, Unit};
use byte_unit_choice::recoverable_unit;
use byte_unit_math::Steps;
use std::alloc::{AllocError, Allocator};

pub(crate) mod put;
mod split;
pub(crate) mod with_digits;

/// The precision of the alternate form if none is set, as in the Rust crate.
const DEFAULT_PRECISION: usize = 3;

/// Returns the length in bytes of a formatted size: at most 37 if no width is set. Does not allocate.
///
/// Precondition (proved at every call): the size is below 10^30.
#[tactic(auto, using(crate::proofs::WrittenForms::text_length_unique))]
pub fn text_len(size: u128, kind: Kind, spec: FormatSpec) -> usize
    requires { size < size_limit }
    ensures exact { (form : List ℕ) → IsText kind size spec form → result ≡ length form }
    ensures bound { result < text_limit }
    ensures narrow { spec.width ≡ None → result ≤ narrow_text }
{
    write_text(size, kind, spec, &mut [])
}

/// Appends a formatted size: its digits, or in the alternate form the size in the largest unit of its kind, not above
/// it, that represents it exactly within the precision (3 places if none is set, at most 28). If no unit does, the unit
/// is `B` or `Bit`.
///
/// Precondition (proved at every call): the size is below 10^30.
///
/// # Errors
/// Returns `AllocError` if the string's spare capacity is below `text_len` and allocation fails; the string and its
/// capacity are then unchanged. It allocates at most once, before it writes.
///
/// # Examples
/// ```rust
/// let mut text = String::new(alloc);
/// append_text(1536, Kind::Byte, FormatSpec::ALTERNATE, &mut text)?;
/// append_text(1536, Kind::Byte, FormatSpec::PLAIN, &mut text)?;
/// assert_eq!(rt; text.as_str(), "1.5 KiB1536");
/// ```
pub fn append_text<A: Allocator>(
    size: u128,
    kind: Kind,
    spec: FormatSpec,
    text: &mut String<A>,
) -> Result<(), AllocError>
    requires { size < size_limit }
    ensures { AppendsForm (IsText kind size spec) text.old text.new result }
{
    text_parts(size, kind, spec).append(text)
}

/// Writes what `append_text` appends to the beginning of `out`, and returns its length: at most 37 if no width is set.
/// Writes nothing if it does not fit. Does not allocate.
///
/// Precondition (proved at every call): the size is below 10^30.
///
/// # Examples
/// ```rust
/// let mut out = [b'.'; 8];
/// assert_eq!(rt; write_text(1536, Kind::Byte, FormatSpec::ALTERNATE, &mut out), 7);
/// assert!(rt; out == *b"1.5 KiB.");
/// ```
#[inline(always)]
#[tactic(auto, using(crate::proofs::TextParts::writes_form))]
pub fn write_text(size: u128, kind: Kind, spec: FormatSpec, out: &mut [u8]) -> usize
    requires { size < size_limit }
    ensures written { WritesForm (IsText kind size spec) out.old out.new result }
    ensures bound { result < text_limit }
    ensures narrow { spec.width ≡ None → result ≤ narrow_text }
{
    if spec == FormatSpec::ALTERNATE && out.len() >= NARROW_TEXT {
        return put_form(size, kind, out);
    }
    text_parts(size, kind, spec).write(out)
}

/// Returns how a size is formatted if a decimal prefix would be read as the binary one: in the alternate form within
/// the precision if the unit that this form chooses has a binary prefix, and else as digits.
///
/// Precondition (proved at every call): the size is below 10^30.
///
/// # Examples
/// ```rust
/// assert_eq!(rt; binary_spec(1536, Kind::Byte, None), FormatSpec::ALTERNATE);
/// assert_eq!(rt; binary_spec(1000, Kind::Byte, None), FormatSpec::PLAIN);
/// ```
#[inline(never)]
pub fn binary_spec(size: u128, kind: Kind, precision: Option<u16>) -> FormatSpec
    requires { size < size_limit }
    ensures spec { IsBinarySpec kind precision size result }
    ensures narrow { result.width ≡ None }
{
    let places = places_of(precision);
    let (_, unit) = recoverable_unit(size, kind, false, places, &mut Steps::new());
    if has_binary_prefix(unit) {
        FormatSpec {
            precision,
            ..FormatSpec::ALTERNATE
        }
    } else {
        FormatSpec::PLAIN
    }
}

/// Returns whether the unit has a binary prefix.
fn has_binary_prefix(unit: Unit) -> bool
    ensures { result ≡ is_binary (shape_of unit) }
{
    !matches!(unit, Unit::Bit | Unit::B) && unit.is_binary_multiples()
}

/// Returns the most digits after the point within the precision.
#[inline(always)]
fn places_of(precision: Option<u16>) -> usize
    ensures { result ≡ most_places_of precision }
{
    match precision {
        Some(precision) => usize::from(precision),
        None => DEFAULT_PRECISION,
    }
}

/// Returns the parts of a formatted size. In the alternate form all digits of the number are shown.
#[inline(always)]
fn text_parts(size: u128, kind: Kind, spec: FormatSpec) -> TextParts<'static>
    requires { size < size_limit }
    ensures text { IsText kind size spec (parts_text result) }
    ensures len { result.len ≡ length (parts_text result) }
    ensures bound { result.len < text_limit }
    ensures ready { IsReady result }
{
    if !spec.alternate {
        return plain_parts(size, spec);
    }
    let places = places_of(spec.precision);
    let (number, unit) = recoverable_unit(size, kind, false, places, &mut Steps::new());
    let fraction = Fraction::Last(number.digits(), number.places());
    layout_parts(number.whole(), fraction, unit, spec)
}
