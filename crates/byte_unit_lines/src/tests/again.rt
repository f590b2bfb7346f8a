//! Runs in the buffers of an earlier run.
use super::ended::ran_with;
use super::*;
use crate::report::Buffers;
use byte_unit_stream::paced::{AT_ONCE, Pace, Then};

/// Streams that transfer all bytes in each call.
const OPEN: (Pace, Pace) = (AT_ONCE, AT_ONCE);

/// The paces of runs in the same buffers, one after another, their inputs, results and reports. After the first run no
/// line is unfinished; each of the next three leaves an unfinished line or an answer that waits.
const RUNS: &[((Pace, Pace), &[u8], Result<(), RunError>, &[u8])] = &rows! {
    (OPEN, b"1 KB\n", Ok(()), b"1000 = 1 KB\n"),
    (OPEN, b"2 KB", Ok(()), b"2000 = 2 KB\n"),
    ((Pace { step: 80, calls: 1, then: Then::Fail }, AT_ONCE), b"3 KB\n4", Err(RunError::Read), b"3000 = 3 KB\n"),
    ((AT_ONCE, Pace { step: 80, calls: 0, then: Then::Fail }), b"5 KB\n", Err(RunError::Write), b""),
    (OPEN, b"6 KB", Ok(()), b"6000 = 6 KB\n"),
};

#[test]
fn runs_in_the_same_buffers(rt: HostRuntime) {
    let mut buffers = Buffers::new(rt.alloc());
    for (number, (paces, input, wanted, report)) in RUNS.iter().enumerate() {
        let buffer = &mut [0u8; 80];
        let ended = ran_with(rt.alloc(), &mut buffers, buffer, input, *paces);
        ended.expect(&rt, *wanted, report, "run", &[number]);
    }
}
