//! Writes and appends the text of a size.

ghost use Rattle.std.specs.Prelude.{◌≡◌, ◌<◌, ◌≤◌, ◌++◌, ℕ, List, length, replicate, OnOk, true, false};
ghost use Rattle.byte_unit.specs.Bounds.{size_limit};
ghost use Rattle.byte_unit.specs.Forms.{text_limit};
ghost use Rattle.byte_unit.specs.Grammar.Units.{shape_of};
ghost use Rattle.byte_unit_stream.specs.Beginnings.{IsBeginningOf};
ghost use Rattle.byte_unit_command.specs.Formatted.{BeginsWithForm, IsFormText, IsFormatted};
ghost use Rattle.byte_unit_command.specs.Formatted.{exact_spec as spec_of_exact, padded};
ghost use Rattle.byte_unit_command.specs.Values.{kind_by_flag};

use crate::options::{Form, Kind, Options, Unit};
use crate::values::kind_by_flag;
use byte_unit::FormatSpec;
use byte_unit_choice::appropriate_unit;
use byte_unit_format::{binary_spec, write_adjusted, write_text};
use std::alloc::{AllocError, Allocator};

/// The most bytes of a text that are copied in one piece of a constant length. Most texts are shorter.
const AT_ONCE: usize = 64;

/// The length of a buffer that has capacity for the text of any size: 65,535 digits after the point, the greatest
/// precision, and less than 65 bytes more.
pub(crate) const DIGITS: usize = 65600;

/// Appends the text of a size in at least `width` columns to `text`. `digits` is a buffer for it.
///
/// Preconditions (proved at every call): `size` is less than 10^30, and `digits` has capacity for any text.
///
/// # Errors
///
/// Returns `AllocError` if allocation fails.
pub(crate) fn add_in_width<A: Allocator>(
    options: &Options,
    width: usize,
    size: u128,
    digits: &mut [u8],
    text: &mut Vec<u8, A>,
) -> Result<(), AllocError>
    requires bound { size < size_limit }
    requires capacity { text_limit ≤ length digits.old }
    ensures ok { OnOk result ((formatted : List ℕ)
        × IsFormatted (record options.now { width = width }) size formatted
        × (text.new.items ≡ text.old.items ++ formatted)) }
    ensures kept { IsBeginningOf text.old.items text.new.items }
{
    let len = write_size(options, size, digits);
    if width > 0 {
        return add_padded(
            width,
            options.align_left,
            options.suffix,
            &digits[..len],
            text,
        );
    }
    match options.suffix {
        [] => {
            if len > AT_ONCE {
                return text.extend_from_slice(&digits[..len]);
            }
            text.extend_from_slice(&digits[..AT_ONCE])?;
            text.truncate(text.len() - (AT_ONCE - len));
            Ok(())
        }
        [_, ..] => add_padded(
            width,
            options.align_left,
            options.suffix,
            &digits[..len],
            text,
        ),
    }
}

/// Appends `bytes` and the suffix, with the spaces that these lack of a width.
///
/// # Errors
///
/// Returns `AllocError` if allocation fails.
fn add_padded<A: Allocator>(
    width: usize,
    align_left: bool,
    suffix: &[u8],
    bytes: &[u8],
    text: &mut Vec<u8, A>,
) -> Result<(), AllocError>
    ensures ok { OnOk result (text.new.items ≡ text.old.items
        ++ padded width align_left (bytes.now ++ suffix.now)) }
    ensures kept { IsBeginningOf text.old.items text.new.items }
{
    let len = bytes.len().saturating_add(suffix.len());
    let missing = width.saturating_sub(len);
    if align_left {
        text.extend_from_slice(bytes)?;
        text.extend_from_slice(suffix)?;
        add_spaces(missing, text)
    } else {
        add_spaces(missing, text)?;
        text.extend_from_slice(bytes)?;
        text.extend_from_slice(suffix)
    }
}

/// Appends spaces.
///
/// # Errors
///
/// Returns `AllocError` if allocation fails.
fn add_spaces<A: Allocator>(count: usize, text: &mut Vec<u8, A>) -> Result<(), AllocError>
    ensures ok { OnOk result (text.new.items ≡ text.old.items ++ replicate count 32) }
    ensures kept { IsBeginningOf text.old.items text.new.items }
{
    text.resize(text.len().saturating_add(count), b' ')
}

/// Writes a size in the form of the options to the beginning of `out`, and returns its length.
///
/// Preconditions (proved at every call): `size` is less than 10^30, and `out` has capacity for any text.
#[inline(always)]
fn write_size(options: &Options, size: u128, out: &mut [u8]) -> usize
    requires bound { size < size_limit }
    requires capacity { text_limit ≤ length out.old }
    ensures written { BeginsWithForm
        (IsFormText options.now.spec.binary options.now.spec.kind options.now.form options.now.precision size)
        out.new result }
    ensures bound { result < text_limit }
{
    match options.spec.kind {
        Kind::Byte => write_as::<false>(options, size, out),
        Kind::Bit => write_as::<true>(options, size, out),
    }
}

/// Writes a size in bits, or in bytes, as [`write_size`] does.
///
/// Preconditions (proved at every call): `size` is less than 10^30, and `out` has capacity for any text.
#[tactic(auto, using(crate::proofs::Numbers::begins_with))]
#[inline(always)]
fn write_as<const BITS: bool>(options: &Options, size: u128, out: &mut [u8]) -> usize
    requires bound { size < size_limit }
    requires capacity { text_limit ≤ length out.old }
    ensures written { BeginsWithForm
        (IsFormText options.now.spec.binary (kind_by_flag BITS) options.now.form options.now.precision size)
        out.new result }
    ensures bound { result < text_limit }
{
    let kind = kind_by_flag(BITS);
    match options.form {
        Form::Exact if options.spec.binary => {
            let spec = binary_spec(size, kind, options.precision);
            write_text(size, kind, spec, out)
        }
        Form::Exact => write_text(size, kind, exact_spec(options.precision), out),
        Form::Plain => write_text(size, kind, FormatSpec::PLAIN, out),
        Form::InUnit(unit) => {
            let rounded = FormatSpec {
                precision: options.precision,
                ..FormatSpec::PLAIN
            };
            write_adjusted(size, kind, unit, rounded, out)
        }
        Form::NumberOf(unit) => write_number(size, kind, unit, options.precision, out),
        Form::Largest(unit_type) => {
            let unit = appropriate_unit(size, kind, unit_type);
            let rounded = FormatSpec {
                precision: options.precision,
                ..FormatSpec::PLAIN
            };
            write_adjusted(size, kind, unit, rounded, out)
        }
    }
}

/// Returns how a size is formatted with a unit, within this precision.
#[inline(always)]
fn exact_spec(precision: Option<u16>) -> FormatSpec
    ensures { result ≡ spec_of_exact precision }
{
    FormatSpec {
        precision,
        ..FormatSpec::ALTERNATE
    }
}

/// Writes the number of a unit that a size is, and returns its length.
///
/// The unit is written after it, and its length left out, with that of the space before it (1).
#[cold]
#[inline(never)]
fn write_number(size: u128, kind: Kind, unit: Unit, precision: Option<u16>, out: &mut [u8]) -> usize
    requires bound { size < size_limit }
    requires capacity { text_limit ≤ length out.old }
    ensures written { BeginsWithForm
        (IsFormText false kind (Form.NumberOf unit) precision size)
        out.new result }
    ensures bound { result < text_limit }
{
    let rounded = FormatSpec {
        precision,
        ..FormatSpec::PLAIN
    };
    let len = write_adjusted(size, kind, unit, rounded, out);
    len - 1 - unit.as_str().len()
}
