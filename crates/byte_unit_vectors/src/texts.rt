//! Calls that format: sizes, numbers, and numbers with a given count of digits after the point.

use crate::answers::{Answer, agreed, quoted, shown};
use crate::format::spec_of;
use crate::numbers::{self, expansion_of};
use crate::row_error::RowError;
use crate::words::{TYPES, named, number_of, unit_of};
use byte_unit::{
    AdjustedBit, AdjustedByte, Bit, Byte, FormatSpec, append_layout, append_plain, layout_len,
    plain_len, write_layout, write_plain,
};
use std::alloc::{AllocError, Global};
use std::str;

/// What is in a string before a text is appended to it.
const BEFORE: &str = "=";

/// Evaluates what a call gives that appends a text to a string, and what one gives that writes it to a buffer of a
/// length.
macro_rules! written {
    ($alloc:expr, $text:ident => $append:expr, $buffer:ident [$len:expr] => $write:expr) => {{
        let mut $text = String::from_str($alloc, BEFORE)?;
        $append?;
        let mut bytes = vec![in $alloc; 0u8; $len]?;
        let $buffer = bytes.as_mut_slice();
        let len = $write;
        let appended = $text.as_str().strip_prefix(BEFORE);
        let appended = appended.unwrap_or("a string without what was in it");
        let filled = filled($alloc, bytes.as_slice(), len)?;
        agreed($alloc, &[String::from_str($alloc, appended)?, filled])
    }};
}

/// Evaluates what all calls of a size, or of a size in a unit, give for a spec.
macro_rules! text_of {
    ($alloc:expr, $size:expr, $spec:expr) => {{
        let (size, spec) = ($size, $spec);
        let written = written!($alloc,
            text => size.append_text(spec, &mut text),
            buffer [size.text_len(spec)] => size.write_text(spec, buffer))?;
        let (text, text_in) = (size.to_text($alloc, spec)?, size.to_text_in($alloc, spec)?);
        // `Display` has no flags.
        if spec == FormatSpec::PLAIN {
            return agreed($alloc, &[written, text, text_in, shown($alloc, size)?]);
        }
        agreed($alloc, &[written, text, text_in])
    }};
}

/// Evaluates the text of the size of a type that has the number of a word, by the words after it. A function of this
/// name gives the text of a size in a unit.
macro_rules! text_of_size {
    ($size:ident, $text_in_unit:ident, $alloc:expr, $number:expr, $words:expr) => {{
        let size = $size::from_u128(number_of($number)?).ok_or(RowError::Word)?;
        match $words {
            [spec] => text_of!($alloc, size, spec_of(spec)?),
            ["in", unit, spec] => {
                $text_in_unit($alloc, size.get_adjusted_unit(unit_of(unit)?), spec_of(spec)?)
            }
            ["by", unit_type, spec] => {
                let (unit_type, spec) = (named(unit_type, TYPES)?, spec_of(spec)?);
                let adjusted = size.get_appropriate_unit(unit_type);
                let mut buffer = vec![in $alloc; 0u8; adjusted.text_len(spec)]?;
                let len = size.write_approximate_text(unit_type, spec, buffer.as_mut_slice());
                let answers = [
                    $text_in_unit($alloc, adjusted, spec)?,
                    size.approximate_text($alloc, unit_type, spec)?,
                    filled($alloc, buffer.as_slice(), len)?,
                ];
                agreed($alloc, &answers)
            }
            _ => Err(RowError::NoCall),
        }
    }};
}

/// Returns the answer to a call without a text: one that formats, or one of the other groups.
pub fn answer(alloc: Global, words: &[&str]) -> Answer {
    let text = match words {
        ["text", "byte", number, words @ ..] => byte_answer(alloc, number, words)?,
        ["text", "bit", number, words @ ..] => bit_answer(alloc, number, words)?,
        ["plain", number, spec] => {
            let (number, spec) = (number_of(number)?, spec_of(spec)?);
            written!(alloc,
                text => append_plain(number, spec, &mut text),
                buffer [plain_len(number, spec)] => write_plain(number, spec, buffer))?
        }
        ["layout", number, twos, fives, places, unit, spec] => {
            let (number, places) = (expansion_of(number, twos, fives)?, number_of(places)?);
            let (unit, spec) = (unit_of(unit)?, spec_of(spec)?);
            written!(alloc,
                text => append_layout(&number, places, unit, spec, &mut text),
                buffer [layout_len(&number, places, unit, spec)] => {
                    write_layout(&number, places, unit, spec, buffer)
                })?
        }
        _ => return numbers::answer(alloc, words),
    };
    quoted(alloc, text.as_str())
}

/// Returns the text of a size in bytes.
fn byte_answer(alloc: Global, number: &str, words: &[&str]) -> Answer {
    text_of_size!(Byte, byte_text_in_unit, alloc, number, words)
}

/// Returns the text of a size in bits.
fn bit_answer(alloc: Global, number: &str, words: &[&str]) -> Answer {
    text_of_size!(Bit, bit_text_in_unit, alloc, number, words)
}

/// Returns the text of a size in bytes, in a unit, for a spec.
fn byte_text_in_unit(alloc: Global, size: AdjustedByte, spec: FormatSpec) -> Answer {
    text_of!(alloc, size, spec)
}

/// Returns the text of a size in bits, in a unit, for a spec.
fn bit_text_in_unit(alloc: Global, size: AdjustedBit, spec: FormatSpec) -> Answer {
    text_of!(alloc, size, spec)
}

/// Returns the text that fills a buffer of its very length, of which `len` bytes were written.
fn filled(alloc: Global, buffer: &[u8], len: usize) -> Result<String, AllocError> {
    let text = str::from_utf8(buffer).ok();
    let text = text.filter(|text| text.len() == len);
    String::from_str(alloc, text.unwrap_or("a text of another length"))
}
