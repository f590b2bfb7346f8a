//! Test vectors: lines and their answers.
use super::*;
use std::str;

/// Inputs and their outputs.
type Rows = &'static [(&'static [u8], &'static str)];

/// Sizes in bytes, and numbers of bits that are rounded up to whole bytes; an empty line, and no line.
const WHOLE_SIZES: Rows = &[
    (b"3 KB\n12\n\n", "3000 = 3 KB\n12 = 12 B\nno value\n"),
    (b"9 b\n7 Kb\n  12  \n", "2 = 2 B\n875 = 875 B\n12 = 12 B\n"),
    (b"1.5 KB\n1 K\n", "1500 = 1.5 KB\n1000 = 1 KB\n"),
    (b"", ""),
];

/// Sizes with a decimal point, with small letters, and without a line end after the last line.
const FRACTIONS: Rows = &rows! {
    (b"1.5 KiB\n1.\n1kb\n1zb\n1 K\n",
        "1536 = 1.5 KiB\nnot a number\n125 = 125 B\n125000000000000000000 = 125 EB\n1000 = 1 KB\n"),
    (b"1.5 KiB\n\n1Kbi\nx\n1YB",
        "1536 = 1.5 KiB\nno value\nbad unit\nnot a number\n1000000000000000000000000 = 1 YB\n"),
};

/// Numbers at a bound: 0, 2^64 - 1, 2^64, 10^27 - 1, 10^30 - 1, more (out of range), and 2^112 (number too long).
const BOUNDS: Rows = &rows! {
    (b"999999999999999999999999999\n", "999999999999999999999999999 = 999999999999999999999999.999 KB\n"),
    (b"999999999999999999999999999999.0000000000000000000000000001\n1000 RB\n", "out of range\nout of range\n"),
    (b"5192296858534827628530496329220096\n5192296858534827628530496329220096 x\n",
        "number too long\nnumber too long\n"),
    (b"18446744073709551615\n18446744073709551616\n",
        "18446744073709551615 = 18446744073709551.615 KB\n18446744073709551616 = 16 EiB\n"),
    (b"0\n999999999999999999999999999999\n",
        "0 = 0 B\n999999999999999999999999999999 = 999999999999999999999999999.999 KB\n"),
};

/// Sizes that v1 rejects and the current version accepts.
const SIZES_PAST_THE_BOUNDS_OF_V1: Rows = &rows! {
    (b"79228162514264337593543950336\n1000 YB\n",
        "79228162514264337593543950336 = 64 RiB\n1000000000000000000000000000 = 1 RB\n"),
    (b"999999999999999999999999999.0000000000000000000000000001\n", "1000000000000000000000000000 = 1 RB\n"),
    (b"1RB\n1000RB\n", "1000000000000000000000000000 = 1 RB\nout of range\n"),
    (b"1 RiB\n1rib\n", "1237940039285380274899124224 = 1 RiB\n154742504910672534362390528 = 128 YiB\n"),
};

/// Lines with no value, no number or a bad unit, and bytes that are not UTF-8: one that begins no character (FF), a
/// surrogate (ED A0 80), an overlong form (C0 80) and a character that is cut off (C3).
const PARSE_ERRORS: Rows = &rows! {
    (b"   \n1\tKB\nx\n-1\n", "no value\nbad unit\nnot a number\nnot a number\n"),
    (b"1000 YX\n1KB x\n1 5\n", "bad unit\nbad unit\nbad unit\n"),
    (b"\xFF\n12\n", "not text\n12 = 12 B\n"),
    (b"1\xED\xA0\x80\n1\xC0\x80\n", "not text\nnot text\n"),
    (b"1KB\r\n1\xFF\n1\xC3\n1\x00\n", "1000 = 1 KB\nnot text\nnot text\nbad unit\n"),
};

/// Lines that the documentation explains: a byte order mark (EF BB BF) is no number, `b` means bits and `B` bytes, and
/// words, separators and comments are not accepted.
const DOCUMENTED_LINES: Rows = &rows! {
    (b"\xEF\xBB\xBF1 KB\n2 KB\n", "not a number\n2000 = 2 KB\n"),
    (b"100 MB\n100mB\n100 M\n", "100000000 = 100 MB\n100000000 = 100 MB\n100000000 = 100 MB\n"),
    (b"1 Ki\n1 KiB\n", "1024 = 1 KiB\n1024 = 1 KiB\n"),
    (b"100 mb\n100 Mbit\n100 mbits\n", "12500000 = 12.5 MB\n12500000 = 12.5 MB\n12500000 = 12.5 MB\n"),
    (b"9 b\n", "2 = 2 B\n"),
    (b"1 byte\n12 bytes\n1 kilobyte\n", "bad unit\nbad unit\nbad unit\n"),
    (b"1,000\n1_000\n1e3 KB\n1 KB # note\n1\tKB\n", "bad unit\nbad unit\nbad unit\nbad unit\nbad unit\n"),
    (b"-1\n+1\n.5\n# note\n", "not a number\nnot a number\nnot a number\nnot a number\n"),
    (b"\n \t\n1 KB\r\n", "no value\nno value\n1000 = 1 KB\n"),
    (b"123456789\n", "123456789 = 123456.789 KB\n"),
};

/// Sizes in bits: what is in bytes is multiplied by 8.
const BITS: Rows = &rows! {
    (b"1KiB\n1K\n", "8192 = 8 Kib\n1000 = 1 Kb\n"),
    (b"0\n18446744073709551615\n18446744073709551616\n",
        "0 = 0 b\n18446744073709551615 = 18446744073709551.615 Kb\n18446744073709551616 = 16 Eib\n"),
    (b"1 Rb\n125 RB\n", "1000000000000000000000000000 = 1 Rb\nout of range\n"),
    (b"999999999999999999999999999999\n", "999999999999999999999999999999 = 999999999999999999999999999.999 Kb\n"),
    (b"   \n1\tKb\nx\n5192296858534827628530496329220096\n", "no value\nbad unit\nnot a number\nnumber too long\n"),
    (b"\xFF\n12\n", "not text\n12 = 12 b\n"),
    (b"1\xED\xA0\x80\n1\xC0\x80\n1\xFF\n1\xC3\n1\x00\n", "not text\nnot text\nnot text\nnot text\nbad unit\n"),
};

/// Asserts that each input gives its output. The name is that of the table.
fn give(rt: &(impl Abort + AllocGlobal), name: &str, kind: Kind, rows: Rows) {
    for (input, output) in rows {
        let report = report_of(rt.alloc(), input, kind).expect(rt, "a report");
        assert_is(rt, str::from_utf8(&report).ok(), Some(*output), name);
    }
}

#[test]
fn rows(rt: HostRuntime) {
    give(&rt, "whole sizes", Kind::Byte, WHOLE_SIZES);
    give(&rt, "fractions", Kind::Byte, FRACTIONS);
    give(&rt, "bounds", Kind::Byte, BOUNDS);
    let past = SIZES_PAST_THE_BOUNDS_OF_V1;
    give(&rt, "sizes past the bounds of v1", Kind::Byte, past);
    give(&rt, "parse errors", Kind::Byte, PARSE_ERRORS);
    give(&rt, "documented lines", Kind::Byte, DOCUMENTED_LINES);
    give(&rt, "bits", Kind::Bit, BITS);
}
