//! Parsing with the flag `WORDS`: words for units are read.
//!
//! Calls without the flag are apart, for the row `parse 1.5 KiB` of docs/SPEED.md.

ghost use Rattle.std.specs.Prelude.{◌≡◌, IfSome, IfNone};
ghost use Rattle.byte_unit_c.specs.Flags.{words_spec_at};
ghost use Rattle.byte_unit_c.specs.Error.{invalid_argument};
ghost use Rattle.byte_unit_c.specs.Parse.{Parses};

use crate::error::{Error, INVALID_ARGUMENT};
use crate::flags::words_spec_at;
use crate::parse::parse_as;
use crate::values::Number;

/// Parses as `byte_unit_parse_to` does, with the flag `WORDS` (16) beside the others, of which `BINARY_PREFIXES` (8)
/// may be one: words for units are read too, as in `5 bytes`. A string that is read without words is read as the same
/// size, and one that is no size in words either has the same error.
///
/// Returns `INVALID_ARGUMENT` and writes nothing without that flag, or if another is set.
///
/// For example, `10 MegaBytes` in bytes gives `OK` and the size 10,000,000.
#[unsafe(no_mangle)]
pub extern "C" fn byte_unit_parse_words_to(
    text: &[u8],
    flags: u32,
    size: &mut Number,
    error: &mut [Error],
) -> u32
    ensures reading { IfSome (words_spec_at flags)
        (λ spec. Parses spec text.now result size.old size.new error.old error.new) }
    ensures rejected { IfNone (words_spec_at flags)
        ((result ≡ invalid_argument) × (size.new ≡ size.old) × (error.new ≡ error.old)) }
{
    match words_spec_at(flags) {
        Some(spec) => parse_as(text, spec, size, error),
        None => INVALID_ARGUMENT,
    }
}
