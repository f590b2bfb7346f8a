//! Long lines, large reports and many reads. Lines of 17 MB and of 1 GB are left to `tools/dev test scale`, since
//! `rt try` takes a minute for the first.
use super::ended::{check, ran_in};
use super::mixed::repeated;
use super::*;
use byte_unit_stream::paced::{AT_ONCE, Pace, Then};

/// Asserts the report on some bytes, repeated, and then the bytes that follow them.
fn expect(rt: &(impl Abort + AllocGlobal), bytes: &str, count: usize, end: &[u8], report: &[u8]) {
    let input = repeated(rt, bytes.as_bytes(), count, end);
    let paces = [(AT_ONCE, AT_ONCE)];
    check(rt, &input, &paces, (Ok(()), report), bytes, count);
}

/// A byte, the number of its repetitions, what follows it, and the report. The first lines are longer than one chunk of
/// 65,536 bytes, than three and than four. The others end near the end of a chunk.
const ROWS: &[(&str, usize, &[u8], &[u8])] = &rows! {
    ("0", 100_000, b"1", b"1 = 1 B\n"),
    ("0", 100_000, b"1.5 KiB\n2KB\n", b"1536 = 1.5 KiB\n2000 = 2 KB\n"),
    (" ", 100_000, b"1KB", b"1000 = 1 KB\n"),
    ("1", 100_000, b"", b"number too long\n"),
    ("x", 100_000, b"", b"not a number\n"),
    ("0", 100_000, b"\xFF\n1KB", b"not text\n1000 = 1 KB\n"),
    ("0", 200_000, b"1.5 KiB\n2KB\n", b"1536 = 1.5 KiB\n2000 = 2 KB\n"),
    ("x", 200_000, b"\n1KB", b"not a number\n1000 = 1 KB\n"),
    ("0", 300_000, b"1", b"1 = 1 B\n"),
    ("x", 300_000, b"", b"not a number\n"),
    ("0", 65_532, b"\n1KB", b"0 = 0 B\n1000 = 1 KB\n"),
    ("0", 65_532, b"\r\n1KB", b"0 = 0 B\n1000 = 1 KB\n"),
    ("0", 65_533, b"\n1KB", b"0 = 0 B\n1000 = 1 KB\n"),
    ("0", 65_533, b"\r\n1KB", b"0 = 0 B\n1000 = 1 KB\n"),
    ("0", 65_534, b"\n1KB", b"0 = 0 B\n1000 = 1 KB\n"),
    ("0", 65_534, b"\r\n1KB", b"0 = 0 B\n1000 = 1 KB\n"),
    ("0", 65_535, b"\n1KB", b"0 = 0 B\n1000 = 1 KB\n"),
    ("0", 65_535, b"\r\n1KB", b"0 = 0 B\n1000 = 1 KB\n"),
    ("0", 65_536, b"\n1KB", b"0 = 0 B\n1000 = 1 KB\n"),
    ("0", 65_536, b"\r\n1KB", b"0 = 0 B\n1000 = 1 KB\n"),
    ("0", 65_537, b"\n1KB", b"0 = 0 B\n1000 = 1 KB\n"),
    ("0", 65_537, b"\r\n1KB", b"0 = 0 B\n1000 = 1 KB\n"),
    ("0", 65_538, b"\n1KB", b"0 = 0 B\n1000 = 1 KB\n"),
    ("0", 65_538, b"\r\n1KB", b"0 = 0 B\n1000 = 1 KB\n"),
};

#[test]
fn long_lines(rt: HostRuntime) {
    for (character, count, end, report) in ROWS {
        expect(&rt, character, *count, end, report);
    }
}

#[test]
fn many_lines(rt: HostRuntime) {
    // A line has 9 bytes, so a chunk of 65,536 bytes ends at each place of a line and between them.
    let lines = repeated(&rt, b"1.5 KiB\r\n", 7400, b"");
    let report = repeated(&rt, b"1536 = 1.5 KiB\n", 7400, b"");
    for shift in 0..9 {
        expect(&rt, " ", shift, &lines, &report);
    }
    // A thousand short lines, and a long one after them.
    let last = repeated(&rt, b"0", 10_000, b"1\n");
    let report = repeated(&rt, b"1000 = 1 KB\n", 1000, b"1 = 1 B\n");
    expect(&rt, "1KB\n", 1000, &last, &report);
}

/// The pace of writes of a report of 2,700,000 bytes, all given to one read; the result, and the number of bytes that
/// are written. All are written in one call, and in three; in the last row the third accepts none.
const BY_WRITES: &[(Pace, Result<(), RunError>, usize)] = &rows! {
    (Pace { step: usize::MAX, calls: 1, then: Then::Fail }, Ok(()), 2_700_000),
    (Pace { step: 1_000_000, calls: 3, then: Then::Fail }, Ok(()), 2_700_000),
    (Pace { step: 1_000_000, calls: 2, then: Then::AtMost(0) }, Err(RunError::Write), 2_000_000),
};

#[test]
fn answers_of_several_megabytes(rt: HostRuntime) {
    let input = repeated(&rt, b"\n", 300_000, b"");
    let report = repeated(&rt, b"no value\n", 300_000, b"");
    for (writes, wanted, count) in BY_WRITES {
        let mut buffer = b" ".repeat(rt.alloc(), 300_000).expect(&rt, "memory");
        let ended = ran_in(rt.alloc(), &mut buffer, &input, AT_ONCE, *writes);
        let front = report.get(..*count).unwrap_or(&report);
        ended.expect(&rt, *wanted, front, "bytes", &[*count]);
    }
}

#[test]
fn many_reads(rt: HostRuntime) {
    let input = repeated(&rt, b"1KB\nx\n\n12\n", 20_000, b"");
    let report = b"1000 = 1 KB\nnot a number\nno value\n12 = 12 B\n";
    let report = repeated(&rt, report, 20_000, b"");
    // The input has 200,000 bytes, and one more read returns 0 for its end.
    let reads = [(Pace::new(1, 200_001, Then::Fail), AT_ONCE)];
    check(&rt, &input, &reads, (Ok(()), &report), "reads", 200_001);
    let reads = [(Pace::new(1, 200_000, Then::Fail), AT_ONCE)];
    let wanted = (Err(RunError::Read), report.as_slice());
    check(&rt, &input, &reads, wanted, "reads", 200_000);
}
