//! Parses a unit from a line, by tables.

ghost use Rattle.std.specs.Prelude.{◌≡◌, ◌≢◌, Some, ◌≤◌, length, drop};
ghost use lib.Lanes.{digits_l};
ghost use Rattle.byte_unit_base.specs.Grammar.Units.{shape_of};
ghost use Rattle.byte_unit_base.specs.Reading.Machines.{count_of, multiple_of, multiple_shape};
ghost use Rattle.byte_unit_base.specs.Reading.Ends.{word_of, bits_len, IsLineOf, IsUnitEnd};

use crate::Unit;
use crate::read::load::eight_at;
use crate::spec::Flags;
use crate::stop::{ByteStop, UnitStop, letters};
use crate::unit::tables::{BY_POWER, LETTER_POWERS};
use std::simd::prelude::*;

/// Parses a unit from a line, from an index on to its end. Nothing is trimmed. The line is at the beginning of `bytes`.
///
/// There is no branch on the letters where eight bytes can be loaded, for the row `mix` of docs/SPEED.md.
///
/// # Errors
/// Returns what was read and where it stops, by the index counted from `from`: at a character that cannot continue the
/// unit, or at the end if the suffix is incomplete, as only `bi` is, of length 2.
#[inline(always)]
pub(crate) fn read_unit(
    line: &[u8],
    bytes: &[u8],
    from: usize,
    flags: Flags,
) -> Result<Unit, ByteStop<UnitStop>>
    requires line { IsLineOf line.now bytes.now }
    requires from { from ≤ length line.now }
    ensures { IsUnitEnd flags (drop from line.now) result }
{
    if from == line.len() {
        return Ok(unit_with_prefix(0, false, !flags.prefer_byte));
    }
    let text = eight_at(bytes, from);
    let power = usize::from(LETTER_POWERS[(text % 256) as usize]);
    let second = (text / 256 % 256) as u8;
    let binary = (power != 0) & ((second == b'i') | (second == b'I'));
    let start = usize::from(power != 0) + usize::from(binary);
    let suffix = text >> (8 * start);
    let length = suffix_len(suffix);
    let upper = (suffix % 256) as u8 == b'B';
    let end = start + length;
    if end == line.len() - from && length != 2 {
        return Ok(unit_with_prefix(power, binary, counts_bits(length, upper, flags)));
    }
    Err(ByteStop {
        index: end,
        reason: UnitStop {
            has_prefix: power != 0,
            word: letters(length),
        },
    })
}

/// Returns the unit with the prefix of this position, or without a prefix if it is 0.
#[inline(always)]
pub(crate) fn unit_with_prefix(power: usize, binary: bool, bit: bool) -> Unit
    requires bound { power ≤ 9 }
    ensures { shape_of result ≡ multiple_shape (multiple_of power binary) bit }
{
    BY_POWER[power][2 * usize::from(binary) + usize::from(bit)]
}

/// Returns how many of eight bytes are the letters of `bits` in either case, from the first on.
#[inline(always)]
fn suffix_len(word: u64) -> usize
    ensures bound { result ≤ 4 }
    ensures letters { result ≡ bits_len (digits_l 256 8 word) }
{
    // With the bit 0x20 an ASCII letter is in lower case; no byte with it is 0, so the fifth one always differs.
    let bytes = u64x1::splat(word).to_le_bytes() | u8x8::splat(0x20);
    let others = bytes.simd_ne(u8x8::from_array(*b"bits\0\0\0\0"));
    others.to_bitmask().trailing_zeros() as usize
}

/// Returns whether a unit with this suffix, the first `length` letters of `bits`, is of bits. The suffix `b` is of
/// bytes as `B` (`upper`), and with `ignore_case` in lower case too.
#[inline(always)]
fn counts_bits(length: usize, upper: bool, flags: Flags) -> bool
    requires bound { length ≤ 4 }
    requires whole { length ≢ 2 }
    ensures { count_of flags (word_of length upper) ≡ Some result }
{
    (length > 2)
        | ((length == 1) & !upper & !flags.ignore_case)
        | ((length == 0) & !flags.prefer_byte)
}
