//! Formatting of sizes and names of units into a buffer of the caller.

ghost use Rattle.std.specs.Prelude.{◌≡◌, ◌<◌, ◌≤◌, ◌⊎◌, slice_get, Some, None, IfSome, IfNone};
ghost use Rattle.byte_unit_math.specs.Bounds.{size_limit};
ghost use Rattle.byte_unit_base.specs.Grammar.Version.{unit_name};
ghost use Rattle.byte_unit_format.specs.Forms.{IsText, narrow_text, text_limit};
ghost use Rattle.byte_unit_format.specs.Adjusted.{IsAdjustedForm, IsApproximateForm, most_adjusted_text};
ghost use Rattle.byte_unit_format.specs.Written.{WritesForm};
ghost use Rattle.byte_unit_c.specs.Codes.{unit_at, types};
ghost use Rattle.byte_unit_c.specs.Flags.{kind_at};
ghost use Rattle.byte_unit_c.specs.Values.{number_of};
ghost use Rattle.byte_unit_c.specs.Spec.{spec_at};

use crate::codes::{type_at, unit_at};
use crate::flags::kind_at;
use crate::spec::Spec;
use crate::values::Number;
use byte_unit_base::size;
use byte_unit_choice::appropriate_unit;
use byte_unit_format::{write_adjusted, write_text};

/// Formats a size to the start of `out`, and returns the length of the text. The size is in bytes, or in bits with the
/// flag `BITS` (1). Returns the length and writes nothing if `out` is shorter. Returns 0 and writes nothing if the size
/// is out of range, another flag is set or the spec is invalid.
///
/// For example, 1536 bytes with an alternate spec gives 7, the length of `1.5 KiB`.
#[unsafe(no_mangle)]
pub extern "C" fn byte_unit_text(size: Number, flags: u32, spec: Spec, out: &mut [u8]) -> usize
    ensures text { number_of size < size_limit
        → IfSome (kind_at flags) (λ kind. IfSome (spec_at spec) (λ asked.
        WritesForm (IsText kind (number_of size) asked) out.old out.new result)) }
    ensures rejected { (size_limit ≤ number_of size) ⊎ (kind_at flags ≡ None)
        ⊎ (spec_at spec ≡ None)
        → (result ≡ 0) × (out.new ≡ out.old) }
    ensures bound { result < text_limit }
    ensures narrow { IfSome (spec_at spec) (λ asked. asked.width ≡ None → result ≤ narrow_text) }
{
    match (size::bounded(size.get()), kind_at(flags), spec.get()) {
        (Some(size), Some(kind), Some(spec)) => write_text(size, kind, spec, out),
        _ => 0,
    }
}

/// Formats a size in the unit with a code to the start of `out`, and returns the length of the text. The size is in
/// bytes, or in bits with the flag `BITS` (1). Returns the length and writes nothing if `out` is shorter. Returns 0 and
/// writes nothing if the size is out of range, another flag is set, the code is not that of a unit, or the spec is
/// invalid.
///
/// For example, 1536 bytes in the unit 4 (`KB`) with a zeroed spec gives 8, the length of `1.536 KB`.
#[unsafe(no_mangle)]
pub extern "C" fn byte_unit_adjusted_text(
    size: Number,
    flags: u32,
    unit: u32,
    spec: Spec,
    out: &mut [u8],
) -> usize
    ensures text { number_of size < size_limit
        → IfSome (kind_at flags)
        (λ kind. IfSome (unit_at unit) (λ of. IfSome (spec_at spec) (λ asked.
        WritesForm
        (IsAdjustedForm kind (number_of size) of asked)
        out.old out.new result))) }
    ensures rejected { (size_limit ≤ number_of size) ⊎ (kind_at flags ≡ None)
        ⊎ (unit_at unit ≡ None)
        ⊎ (spec_at spec ≡ None)
        → (result ≡ 0) × (out.new ≡ out.old) }
    ensures bound { result < text_limit }
    ensures narrow { IfSome (spec_at spec) (λ asked. result ≤ most_adjusted_text asked) }
{
    let (size, kind) = (size::bounded(size.get()), kind_at(flags));
    match (size, kind, unit_at(unit), spec.get()) {
        (Some(size), Some(kind), Some(unit), Some(spec)) => {
            write_adjusted(size, kind, unit, spec, out)
        }
        _ => 0,
    }
}

/// Formats a size in its appropriate unit to the start of `out`, and returns the length of the text. The unit is the
/// one that `byte_unit_appropriate_unit` returns for the unit type (0 binary, 1 decimal, 2 both), and the text that of
/// `byte_unit_adjusted_text` in this unit. The size is in bytes, or in bits with the flag `BITS` (1). Returns the
/// length and writes nothing if `out` is shorter. Returns 0 and writes nothing if the size is out of range, another
/// flag is set, the unit type is unknown, or the spec is invalid.
///
/// For example, 10,000 bytes with the unit type 0 and the precision 1 gives 7, the length of `9.8 KiB`.
#[unsafe(no_mangle)]
pub extern "C" fn byte_unit_approximate_text(
    size: Number,
    flags: u32,
    unit_type: u32,
    spec: Spec,
    out: &mut [u8],
) -> usize
    ensures text { number_of size < size_limit
        → IfSome (kind_at flags)
        (λ kind. IfSome (slice_get types unit_type) (λ of. IfSome (spec_at spec) (λ asked.
        WritesForm
        (IsApproximateForm kind of (number_of size) asked)
        out.old out.new result))) }
    ensures rejected { (size_limit ≤ number_of size) ⊎ (kind_at flags ≡ None)
        ⊎ (slice_get types unit_type ≡ None)
        ⊎ (spec_at spec ≡ None)
        → (result ≡ 0) × (out.new ≡ out.old) }
    ensures bound { result < text_limit }
    ensures narrow { IfSome (spec_at spec) (λ asked. result ≤ most_adjusted_text asked) }
{
    let (size, kind) = (size::bounded(size.get()), kind_at(flags));
    match (size, kind, type_at(unit_type), spec.get()) {
        (Some(size), Some(kind), Some(unit_type), Some(spec)) => {
            let unit = appropriate_unit(size, kind, unit_type);
            write_adjusted(size, kind, unit, spec, out)
        }
        _ => 0,
    }
}

/// Writes the name of the unit with a code to the start of `out`, and returns its length. Returns the length and writes
/// nothing if `out` is shorter. Returns 0 and writes nothing if the code is not that of a unit.
///
/// For example, the code 5 gives 3, the length of `KiB`.
#[unsafe(no_mangle)]
pub extern "C" fn byte_unit_unit_name(unit: u32, out: &mut [u8]) -> usize
    ensures name { IfSome (unit_at unit) (λ of.
        WritesForm (λ form. form ≡ unit_name of) out.old out.new result) }
    ensures rejected { IfNone (unit_at unit) ((result ≡ 0) × (out.new ≡ out.old)) }
{
    match unit_at(unit) {
        Some(unit) => write(unit.as_str().as_bytes(), out),
        None => 0,
    }
}

/// Copies bytes to the start of `out` if they fit, and returns their number.
pub fn write(text: &[u8], out: &mut [u8]) -> usize
    ensures { WritesForm (λ form. form ≡ text.now) out.old out.new result }
{
    let len = text.len();
    if len <= out.len() {
        out[..len].copy_from_slice(text);
    }
    len
}
