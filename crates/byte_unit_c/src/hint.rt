//! Hints for strings that are rejected.

ghost use Rattle.std.specs.Prelude.{◌≡◌, ◌≤◌, MatchOption};
ghost use Rattle.std.specs.Str.{IsUtf8};
ghost use Rattle.byte_unit_base.specs.Errors.Hints.{hint_of, hint_text};
ghost use Rattle.byte_unit_base.specs.Grammar.SizeText.{trim_of};
ghost use Rattle.byte_unit_format.specs.Written.{WritesForm};

use crate::texts::write;
use byte_unit_base::{Hint, hint_of};
use byte_unit_format::put;
use std::str;

/// The greatest length of the words of a hint.
const MAX_LEN: usize = 64;

/// Writes a hint for a string that is rejected to the start of `out`: how the size that was meant is written. Returns
/// its length, at most 64 bytes. Returns the length and writes nothing if `out` is shorter. Returns 0 and writes
/// nothing if the string is in the grammar of sizes, has no hint or is not UTF-8.
///
/// For example, `2 gigs` gives 10, the length of `write 'GB'`.
#[unsafe(no_mangle)]
pub extern "C" fn byte_unit_hint(text: &[u8], out: &mut [u8]) -> usize
    ensures hint { IsUtf8 text.now → MatchOption (hint_of (trim_of text.now))
        ((result ≡ 0) × (out.new ≡ out.old))
        (λ hint. WritesForm (λ words. words ≡ hint_text hint) out.old out.new result) }
    ensures not_utf8 { ¬ IsUtf8 text.now → (result ≡ 0) × (out.new ≡ out.old) }
    ensures bound { result ≤ 64 }
{
    match str::from_utf8(text) {
        Ok(text) => match hint_of(text) {
            Some(hint) => write_hint(hint, out),
            None => 0,
        },
        Err(_) => 0,
    }
}

/// Writes the words of a hint to the start of `out` if they fit, and returns their length.
fn write_hint(hint: Hint, out: &mut [u8]) -> usize
    ensures text { WritesForm (λ words. words ≡ hint_text hint) out.old out.new result }
    ensures bound { result ≤ 64 }
{
    let mut words = [0; MAX_LEN];
    let (before, unit, after) = hint.parts();
    let rest = put(after.as_bytes(), &mut words, MAX_LEN);
    let name = put(unit.as_bytes(), &mut words, rest);
    let begin = put(before.as_bytes(), &mut words, name);
    write(&words[begin..], out)
}
