//! Parsing of many texts in one call.

ghost use Rattle.std.specs.Prelude.{◌≡◌, ◌↔◌, IsTrue, length};
ghost use Rattle.byte_unit_c.specs.Many.{offsets_of, IsLayout, IsParsed, AreParsed, AreManyReturned};

use crate::error::{INVALID_ARGUMENT, NOT_UTF8, OK, code_of};
use crate::flags::any_spec_at;
use crate::offsets::Offsets;
use crate::values::Number;
use byte_unit_base::{ParseSpec, size};

/// Parses many texts, each as `byte_unit_parse_to` does. Text `i` is the bytes of `data` from `offsets[i]` up to
/// `offsets[i + 1]`, so there is one offset more than texts; if there are no texts, there may be no offset either.
/// Returns `OK`, and writes the code of each text to `codes`, and its size to `sizes`, or 0 there if it has none.
///
/// Returns `INVALID_ARGUMENT` and writes nothing if a flag is unknown, the first offset is negative, an offset is less
/// than the one before it, the last is past the end of `data`, or `sizes` or `codes` has not one element for each text.
///
/// For example, the data `1 KB2x` with the offsets 0, 4, 6 gives the codes `OK` and `UNIT` and the sizes 1000 and 0.
#[unsafe(no_mangle)]
pub extern "C" fn byte_unit_parse_many_to(
    data: &[u8],
    offsets: &[i64],
    flags: u32,
    sizes: &mut [Number],
    codes: &mut [u8],
) -> u32
    ensures { AreManyReturned flags «data».now offsets.now result sizes.old sizes.new
        codes.old codes.new }
{
    parse_many(data, Offsets::Long(offsets), flags, sizes, codes)
}

/// Parses many texts, as `byte_unit_parse_many_to` does, with offsets of 32 bits.
#[unsafe(no_mangle)]
pub extern "C" fn byte_unit_parse_many_32_to(
    data: &[u8],
    offsets: &[i32],
    flags: u32,
    sizes: &mut [Number],
    codes: &mut [u8],
) -> u32
    ensures { AreManyReturned flags «data».now offsets.now result sizes.old sizes.new
        codes.old codes.new }
{
    parse_many(data, Offsets::Short(offsets), flags, sizes, codes)
}

/// Parses many texts, as `byte_unit_parse_many_to` does, with offsets of either width.
fn parse_many(
    data: &[u8],
    offsets: Offsets<'_>,
    flags: u32,
    sizes: &mut [Number],
    codes: &mut [u8],
) -> u32
    ensures { AreManyReturned flags «data».now (offsets_of offsets.entry) result sizes.old sizes.new
        codes.old codes.new }
{
    if !is_layout(data, offsets, sizes.len(), codes.len()) {
        return INVALID_ARGUMENT;
    }
    match any_spec_at(flags) {
        Some(spec) => {
            parse_each(data, offsets, spec, sizes, codes);
            OK
        }
        None => INVALID_ARGUMENT,
    }
}

/// Returns whether the offsets ascend within the data, and there is a size and a code for each text.
fn is_layout(data: &[u8], offsets: Offsets<'_>, sizes_len: usize, codes_len: usize) -> bool
    ensures { IsTrue result
        ↔ IsLayout (length «data».now) (offsets_of offsets.entry) sizes_len codes_len }
{
    let texts = offsets.len().saturating_sub(1);
    sizes_len == texts && codes_len == texts && offsets.ascend_to(data.len())
}

/// Parses each text, and writes its code and its size.
///
/// Precondition (proved at every call): the offsets and lengths are a layout.
fn parse_each(
    data: &[u8],
    offsets: Offsets<'_>,
    spec: ParseSpec,
    sizes: &mut [Number],
    codes: &mut [u8],
)
    requires { IsLayout (length «data».now) (offsets_of offsets) (length sizes.old)
        (length codes.old) }
    ensures { AreParsed spec «data».now
        (offsets_of offsets.entry) (length codes.old) codes.new sizes.new }
{
    for i in 0..codes.len() {
        let (code, size) = parse_one(offsets.text_at(data, i), spec);
        codes[i] = code;
        sizes[i] = size;
    }
}

/// Parses one text to its code and its size, which is 0 if there is none.
#[inline(always)]
fn parse_one(text: &[u8], spec: ParseSpec) -> (u8, Number)
    ensures { IsParsed spec text.now result.0 result.1 }
{
    match size::parse_line(text, text.len(), spec) {
        Some(Ok(size)) => (OK as u8, Number::new(size)),
        Some(Err(error)) => (code_of(&error) as u8, Number::ZERO),
        None => (NOT_UTF8 as u8, Number::ZERO),
    }
}
