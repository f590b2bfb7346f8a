//! Loads bytes of a line: eight at once, as a `u64` whose lowest byte is the first.

ghost use Rattle.std.specs.Prelude.{◌≡◌, ◌+◌, ◌<◌, ◌≤◌, length, take, drop};
ghost use lib.Lanes.{number_l};
ghost use Rattle.byte_unit_base.specs.Reading.Ends.{first_eight};

use std::simd::prelude::*;

/// Returns the first eight bytes from an index on. After the end of the bytes they are 0.
#[inline(always)]
#[tactic(auto, using(crate::proofs::Lines::last_bytes))]
pub(crate) fn eight_at(bytes: &[u8], from: usize) -> u64
    requires { from ≤ length bytes.now }
    ensures { result ≡ number_l 256 (first_eight (drop from bytes.now)) }
{
    if bytes.len() - from >= 8 {
        return load_eight(bytes, from);
    }
    if bytes.len() < 8 || from == bytes.len() {
        return few_bytes(&bytes[from..]);
    }
    let start = bytes.len() - 8;
    load_eight(bytes, start) >> (8 * (from - start))
}

/// Returns the eight bytes at an index.
#[inline(always)]
#[tactic(auto, using(crate::proofs::Lines::loaded_eight))]
pub(crate) fn load_eight(bytes: &[u8], from: usize) -> u64
    requires { from + 8 ≤ length bytes.now }
    ensures { result ≡ number_l 256 (first_eight (drop from bytes.now)) }
{
    u64x1::from_le_bytes(u8x8::from_slice(&bytes[from..])).to_array()[0]
}

/// Returns fewer than eight bytes as a number, in which the missing bytes are 0. If there are four or more, the first
/// four and the last four are loaded.
#[inline(always)]
fn few_bytes(bytes: &[u8]) -> u64
    requires { length bytes.now < 8 }
    ensures { result ≡ number_l 256 (first_eight bytes.now) }
{
    let len = bytes.len();
    if len >= 4 {
        let after_four = load_four(bytes, len - 4) >> (8 * (8 - len));
        return load_four(bytes, 0) + (after_four << 32);
    }
    match bytes {
        [] => 0,
        [a] => u64::from(*a),
        [a, b] => u64::from(*a) + u64::from(*b) * 256,
        [a, b, c, ..] => u64::from(*a) + u64::from(*b) * 256 + u64::from(*c) * 65536,
    }
}

/// Returns the four bytes at an index.
#[inline(always)]
#[tactic(auto, using(crate::proofs::Lines::loaded_four))]
fn load_four(bytes: &[u8], from: usize) -> u64
    requires { from + 4 ≤ length bytes.now }
    ensures { result ≡ number_l 256 (take 4 (drop from bytes.now)) }
{
    u64::from(u32x1::from_le_bytes(u8x4::from_slice(&bytes[from..])).to_array()[0])
}
