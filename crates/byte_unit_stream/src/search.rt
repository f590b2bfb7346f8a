//! Finds where a record ends.

ghost use Rattle.std.specs.Prelude.{◌≡◌, ◌+◌, ◌^◌, ◌<◌, slice_index, take, length, IfSome, IfNone};
ghost use Rattle.byte_unit_stream.specs.Chunks.{IsUnbroken};

use std::simd::prelude::*;

/// The number of bytes that are compared at once: those of a vector `u8x16`.
const LANES: usize = 16;

/// Returns the index of the first end byte, or `None` if there is none.
///
/// # Examples
/// ```rust
/// use byte_unit_stream::end_of;
/// assert_eq!(rt; end_of(b"1 KiB\n2 MiB\n", b'\n'), Some(5));
/// assert_eq!(rt; end_of(b"1 KiB", b'\n'), None);
/// ```
// Inlined for the row `1.5 KiB` of lines in docs/SPEED.md.
#[inline(always)]
pub fn end_of(bytes: &[u8], end: u8) -> Option<usize>
    ensures some { IfSome result (λ n. (n < length bytes.now)
        × (slice_index bytes.now n ≡ end) × IsUnbroken end (take n bytes.now)) }
    ensures none { IfNone result (IsUnbroken end bytes.now) }
    ensures bound { IfSome result (λ n. n + 1 < 2 ^ 64) }
{
    let mut i = 0;
    // A mask finds it with one branch for 16 bytes, for the row `mix` of docs/SPEED.md.
    while bytes.len() - i >= LANES {
        let ends = u8x16::from_slice(&bytes[i..])
            .simd_eq(u8x16::splat(end))
            .to_bitmask();
        if ends != 0 {
            return Some(i + ends.trailing_zeros() as usize);
        }
        i += LANES;
    }
    while i < bytes.len() {
        if bytes[i] == end {
            return Some(i);
        }
        i += 1;
    }
    None
}
