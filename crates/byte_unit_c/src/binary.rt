//! Parsing with the flag `BINARY_PREFIXES`: decimal prefixes mean binary ones.
//!
//! Calls without the flag are apart, for the row `parse 1.5 KiB` of docs/SPEED.md.

ghost use Rattle.std.specs.Prelude.{◌≡◌, IfSome, IfNone};
ghost use Rattle.byte_unit_c.specs.Flags.{binary_spec_at};
ghost use Rattle.byte_unit_c.specs.Error.{invalid_argument};
ghost use Rattle.byte_unit_c.specs.Parse.{Parses};

use crate::error::{Error, INVALID_ARGUMENT};
use crate::flags::binary_spec_at;
use crate::parse::parse_as;
use crate::values::Number;

/// Parses as `byte_unit_parse_to` does, with the flag `BINARY_PREFIXES` (8) beside the others: a decimal prefix means
/// the binary one, so `K` and `KB` are by 1024, as `Ki` and `KiB` are.
///
/// Returns `INVALID_ARGUMENT` and writes nothing without that flag, or if another is set.
///
/// For example, `10m` in bytes gives `OK` and the size 10,485,760.
#[unsafe(no_mangle)]
pub extern "C" fn byte_unit_parse_binary_to(
    text: &[u8],
    flags: u32,
    size: &mut Number,
    error: &mut [Error],
) -> u32
    ensures reading { IfSome (binary_spec_at flags)
        (λ spec. Parses spec text.now result size.old size.new error.old error.new) }
    ensures rejected { IfNone (binary_spec_at flags)
        ((result ≡ invalid_argument) × (size.new ≡ size.old) × (error.new ≡ error.old)) }
{
    match binary_spec_at(flags) {
        Some(spec) => parse_as(text, spec, size, error),
        None => INVALID_ARGUMENT,
    }
}
