//! Lines with every kind of answer, and functions on lines and bytes that several tests share.
use super::*;

/// One line or more for each kind of answer, with both line ends; the last line has no line end.
pub const INPUT: &[u8] =
    b"1.5 KiB\n1KB\r\n\n1Kbi\nx\n\xFF\n1000 RB\n9999999999999999999999999999999999\n1YB";

/// The answers, one for each line.
pub const REPORT: &[u8] = b"1536 = 1.5 KiB
1000 = 1 KB
no value
bad unit
not a number
not text
out of range
number too long
1000000000000000000000000 = 1 YB
";

/// The number of lines.
pub const LINES: usize = 9;

/// Returns the number of lines that end in these bytes.
pub fn finished(bytes: &[u8]) -> usize {
    let mut ended = 0usize;
    for byte in bytes {
        if *byte == b'\n' {
            ended = ended.saturating_add(1);
        }
    }
    ended
}

/// Returns the first `lines` lines of these bytes, or all bytes if no more lines end in them.
pub fn first_lines(bytes: &[u8], lines: usize) -> &[u8] {
    let mut left = lines;
    for at in 0..bytes.len() {
        if left == 0 {
            return &bytes[..at];
        }
        if bytes[at] == b'\n' {
            left -= 1;
        }
    }
    bytes
}

/// Returns some bytes, repeated, and then the bytes that follow them.
pub fn repeated(
    rt: &(impl Abort + AllocGlobal),
    bytes: &[u8],
    count: usize,
    end: &[u8],
) -> Vec<u8> {
    let mut all = bytes.repeat(rt.alloc(), count).expect(rt, "memory");
    all.extend_from_slice(end).expect(rt, "memory");
    all
}
