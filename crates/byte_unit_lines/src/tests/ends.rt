//! Inputs in pieces, and streams that slow down, end or fail at any call.
use super::ended::{check, ran_in};
use super::mixed::{self, finished, first_lines, repeated};
use super::*;
use byte_unit_stream::paced::{ALL_BUT_ONE, AT_ONCE, BYTE_BY_BYTE, Pace, Then};

/// Five lines, the last one without a line end.
const INPUT: &[u8] = b"1.5 KiB\n\n1Kbi\nx\n1YB";

/// Their answers.
const OUTPUT: &[u8] =
    b"1536 = 1.5 KiB\nno value\nbad unit\nnot a number\n1000000000000000000000000 = 1 YB\n";

/// Each pair of a pace of reads and one of writes.
const PAIRS: [(Pace, Pace); 9] = [
    (BYTE_BY_BYTE, BYTE_BY_BYTE),
    (BYTE_BY_BYTE, ALL_BUT_ONE),
    (BYTE_BY_BYTE, AT_ONCE),
    (ALL_BUT_ONE, BYTE_BY_BYTE),
    (ALL_BUT_ONE, ALL_BUT_ONE),
    (ALL_BUT_ONE, AT_ONCE),
    (AT_ONCE, BYTE_BY_BYTE),
    (AT_ONCE, ALL_BUT_ONE),
    (AT_ONCE, AT_ONCE),
];

/// Returns pairs of paces by a number. The first three are of reads: that number of bytes in each call; that number in
/// the first call, and then all; and two bytes in each of that number of calls, and then byte by byte. The others are
/// of writes: that number of bytes in each call; and one, seven or `len` bytes in each of that number of calls, and
/// then byte by byte.
fn paces_by(number: usize, len: usize) -> [(Pace, Pace); 7] {
    let steps = Pace::new(number, usize::MAX, Then::Fail);
    [
        (steps, AT_ONCE),
        (Pace::new(number, 1, Then::AtMost(usize::MAX)), AT_ONCE),
        (Pace::new(2, number, Then::AtMost(1)), AT_ONCE),
        (AT_ONCE, steps),
        (AT_ONCE, Pace::new(1, number, Then::AtMost(1))),
        (AT_ONCE, Pace::new(7, number, Then::AtMost(1))),
        (AT_ONCE, Pace::new(len, number, Then::AtMost(1))),
    ]
}

/// Asserts the report on an input that is read and written at each pace.
fn each_pace_of(rt: &(impl Abort + AllocGlobal), input: &[u8], report: &[u8]) {
    check(rt, input, &PAIRS, (Ok(()), report), "pairs", 0);
    for number in 1..=report.len() {
        let paces = paces_by(number, report.len());
        check(rt, input, &paces, (Ok(()), report), "number", number);
    }
}

#[test]
fn each_pace(rt: HostRuntime) {
    each_pace_of(&rt, INPUT, OUTPUT);
    each_pace_of(&rt, mixed::INPUT, mixed::REPORT);
}

/// Asserts what is written if a read of `step` bytes fails after each number of such reads.
fn each_failing_read(rt: &(impl Abort + AllocGlobal), input: &[u8], report: &[u8], step: usize) {
    for calls in 0..=input.len() {
        let read = calls.saturating_mul(step);
        if read > input.len() {
            return;
        }
        let paces = [(Pace::new(step, calls, Then::Fail), AT_ONCE)];
        let front = first_lines(report, finished(&input[..read]));
        check(
            rt,
            input,
            &paces,
            (Err(RunError::Read), front),
            "reads before",
            calls,
        );
    }
}

/// Asserts what is written if a write of the report fails or accepts nothing: of its bytes, and of its lines, since
/// each answer is written by its own call if the input is read byte by byte.
fn each_failing_write(rt: &(impl Abort + AllocGlobal), input: &[u8], report: &[u8]) {
    let reads = Pace::new(1, usize::MAX, Then::Fail);
    let failed = Err(RunError::Write);
    for calls in 0..report.len() {
        let bytes = [
            (AT_ONCE, Pace::new(1, calls, Then::Fail)),
            (AT_ONCE, Pace::new(1, calls, Then::AtMost(0))),
        ];
        check(
            rt,
            input,
            &bytes,
            (failed, &report[..calls]),
            "bytes before",
            calls,
        );
    }
    for calls in 0..finished(report) {
        let lines = [
            (reads, Pace::new(usize::MAX, calls, Then::Fail)),
            (reads, Pace::new(usize::MAX, calls, Then::AtMost(0))),
        ];
        let front = first_lines(report, calls);
        check(rt, input, &lines, (failed, front), "lines before", calls);
    }
}

#[test]
fn each_failing_stream(rt: HostRuntime) {
    for step in 1..=mixed::INPUT.len() {
        each_failing_read(&rt, INPUT, OUTPUT, step);
        each_failing_read(&rt, mixed::INPUT, mixed::REPORT, step);
    }
    each_failing_write(&rt, INPUT, OUTPUT);
    each_failing_write(&rt, mixed::INPUT, mixed::REPORT);
}

/// The answer to the unfinished line after each number of bytes of the input, from 0 on, or nothing if there is none.
const LAST: &[&[u8]] = &[
    b"",
    b"1 = 1 B\n",
    b"not a number\n",
    b"2 = 2 B\n",
    b"2 = 2 B\n",
    b"1500 = 1.5 KB\n",
    b"1536 = 1.5 KiB\n",
    b"1536 = 1.5 KiB\n",
    b"",
    b"",
    b"1 = 1 B\n",
    b"1000 = 1 KB\n",
    b"125 = 125 B\n",
    b"bad unit\n",
    b"",
    b"not a number\n",
    b"",
    b"1 = 1 B\n",
    b"1000000000000000000000000 = 1 YB\n",
    b"1000000000000000000000000 = 1 YB\n",
];

#[test]
fn each_end_of_the_input(rt: HostRuntime) {
    for calls in 0..=INPUT.len() {
        let lines = first_lines(OUTPUT, finished(&INPUT[..calls]));
        let report = repeated(&rt, lines, 1, LAST[calls]);
        let paces = [(Pace::new(1, calls, Then::AtMost(0)), AT_ONCE)];
        check(
            &rt,
            INPUT,
            &paces,
            (Ok(()), &report),
            "reads before the end",
            calls,
        );
    }
}

#[test]
fn failing_after_a_piece(rt: HostRuntime) {
    // One read of six bytes, in which one line ends, and then one that fails.
    let reads = [(Pace::new(6, 1, Then::Fail), AT_ONCE)];
    let wanted = (Err(RunError::Read), b"1000 = 1 KB\n".as_slice());
    check(&rt, b"1KB\n2K", &reads, wanted, "a read", 1);
    // One write of five bytes, which are a part of the answer, and then one that fails.
    let writes = [
        (AT_ONCE, Pace::new(5, 1, Then::Fail)),
        (AT_ONCE, Pace::new(5, 1, Then::AtMost(0))),
    ];
    let wanted = (Err(RunError::Write), b"1000 ".as_slice());
    check(&rt, b"1KB", &writes, wanted, "a write", 1);
}

#[test]
fn each_size_of_buffer(rt: HostRuntime) {
    // Up to a buffer that is longer than the input, which has 19 bytes.
    let mut buffer = [0u8; 32];
    for size in 1..=buffer.len() {
        let buffer = &mut buffer[..size];
        let ended = ran_in(rt.alloc(), buffer, INPUT, AT_ONCE, AT_ONCE);
        ended.expect(&rt, Ok(()), OUTPUT, "size", &[size]);
    }
}
