//! Inputs and outputs of several chunks.
use super::ended::{check, ran};
use super::mixed::{INPUT, REPORT, finished, first_lines, repeated};
use super::*;
use byte_unit_stream::paced::{ALL_BUT_ONE, AT_ONCE, BYTE_BY_BYTE, Pace, Then};
use byte_unit_stream::run::CHUNK;

/// The number of times that the mixed lines are repeated: the input has more than two chunks and less than three.
const TIMES: usize = 2100;

/// Returns the mixed lines, repeated, each with its line end.
fn long_input(rt: &(impl Abort + AllocGlobal)) -> Vec<u8> {
    let line = repeated(rt, INPUT, 1, b"\n");
    repeated(rt, &line, TIMES, b"")
}

/// The paces of reads and of writes: each slow one of one stream, and the slowest of both.
const PACES: &[(Pace, Pace)] = &[
    (BYTE_BY_BYTE, AT_ONCE),
    (ALL_BUT_ONE, AT_ONCE),
    (AT_ONCE, BYTE_BY_BYTE),
    (AT_ONCE, ALL_BUT_ONE),
    (BYTE_BY_BYTE, BYTE_BY_BYTE),
];

#[test]
fn each_slow_stream(rt: HostRuntime) {
    let input = long_input(&rt);
    let report = repeated(&rt, REPORT, TIMES, b"");
    assert_is(&rt, input.len() / CHUNK, 2, "whole chunks");
    check(&rt, &input, PACES, (Ok(()), &report), "paces", 0);
}

#[test]
fn each_failing_stream(rt: HostRuntime) {
    let input = long_input(&rt);
    let report = repeated(&rt, REPORT, TIMES, b"");
    for calls in 0..5usize {
        let read = calls.saturating_mul(CHUNK).min(input.len());
        let front = first_lines(&report, finished(&input[..read]));
        // Three reads return the input, and a fourth returns 0 for its end.
        let reads = [(Pace::new(usize::MAX, calls, Then::Fail), AT_ONCE)];
        let ended = if calls < 4 {
            Err(RunError::Read)
        } else {
            Ok(())
        };
        check(&rt, &input, &reads, (ended, front), "reads before", calls);
        // The answers to a chunk are written by one call.
        let writes = [
            (AT_ONCE, Pace::new(usize::MAX, calls, Then::Fail)),
            (AT_ONCE, Pace::new(usize::MAX, calls, Then::AtMost(0))),
        ];
        let ended = if calls < 3 {
            Err(RunError::Write)
        } else {
            Ok(())
        };
        check(&rt, &input, &writes, (ended, front), "writes before", calls);
    }
}

#[test]
fn each_failing_part_of_a_write(rt: HostRuntime) {
    let input = long_input(&rt);
    let report = repeated(&rt, REPORT, TIMES, b"");
    let mut least = 0;
    // The report has 270,900 bytes, so far fewer than 100 writes of 40,000 bytes are enough for a run that succeeds.
    for calls in 0..100 {
        let ended = ran(
            rt.alloc(),
            &input,
            AT_ONCE,
            Pace::new(40_000, calls, Then::Fail),
        );
        let taken = ended.taken.len();
        assert_is(&rt, taken >= least, true, "more is written");
        if ended.result.is_ok() {
            ended.expect(&rt, Ok(()), &report, "writes before", &[calls]);
            return;
        }
        let front = report.get(..taken).unwrap_or(&report);
        ended.expect(&rt, Err(RunError::Write), front, "writes before", &[calls]);
        least = taken.saturating_add(1);
    }
    panic!(rt; "each run failed");
}
