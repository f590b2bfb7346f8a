//! The endings of calls of the program, with their exit statuses and their lines for standard error.
use super::ended::{Ended, streams};
use super::*;
use crate::ending::{Ending, serve};
use byte_unit_stream::paced::{AT_ONCE, Pace, Then};
use std::alloc::AllocError;

/// An input of one line.
const INPUT: &[u8] = b"1 KB\n";

/// Returns the arguments as the program receives them.
pub fn words(alloc: Global, words: &[&str]) -> Result<Vec<String>, AllocError> {
    let mut texts = Vec::new(alloc);
    for word in words {
        texts.push(String::from_str(alloc, word)?)?;
    }
    Ok(texts)
}

/// Streams that transfer all bytes in each call.
const OPEN: (Pace, Pace) = (AT_ONCE, AT_ONCE);

/// One read of the whole input, one of its end, and then reads that fail.
const READS: Pace = Pace {
    step: 5,
    calls: 2,
    then: Then::Fail,
};

/// One write of the whole output, and then writes that fail.
const WRITES: Pace = Pace {
    step: 20,
    calls: 1,
    then: Then::Fail,
};

/// A call: its arguments and the kind that they ask for, the paces of its streams, its ending, the output, and what is
/// left of the input.
type Call = (
    &'static [&'static str],
    Option<Kind>,
    (Pace, Pace),
    Ending,
    &'static [u8],
    &'static [u8],
);

/// Calls with valid and invalid arguments, and with streams that fail.
const CALLS: &[Call] = &rows! {
    (&[], Some(Kind::Byte), OPEN, Ending::Done, b"1000 = 1 KB\n", b""),
    (&["byte"], Some(Kind::Byte), OPEN, Ending::Done, b"1000 = 1 KB\n", b""),
    (&["bit"], Some(Kind::Bit), OPEN, Ending::Done, b"8000 = 8 Kb\n", b""),
    (&["bits"], None, OPEN, Ending::Usage, b"", INPUT),
    (&["bit", "bit"], None, OPEN, Ending::Usage, b"", INPUT),
    // These streams fail at any further call, and none is made. Then a read fails after the input, and the write of the
    // output fails.
    (&["bit"], Some(Kind::Bit), (READS, WRITES), Ending::Done, b"8000 = 8 Kb\n", b""),
    (&["bit"], Some(Kind::Bit), (Pace { step: 5, calls: 1, then: Then::Fail }, WRITES),
        Ending::Failed(RunError::Read), b"8000 = 8 Kb\n", b""),
    (&["bit"], Some(Kind::Bit), (READS, Pace { step: 20, calls: 0, then: Then::Fail }),
        Ending::Failed(RunError::Write), b"", b""),
};

#[test]
fn endings_of_calls(rt: HostRuntime) {
    for (number, (asked, kind, paces, ending, output, left)) in CALLS.iter().enumerate() {
        let words = words(rt.alloc(), asked).expect(&rt, "memory");
        let (mut reader, mut writer) = streams(rt.alloc(), INPUT, paces.0, paces.1);
        let result = serve(rt.alloc(), &words, &mut reader, &mut writer);
        let ended = Ended::new(Ok(()), reader, writer);
        let found = (
            number,
            kind_of(&words),
            result,
            ended.taken.as_slice(),
            ended.left,
        );
        assert_is(
            &rt,
            found,
            (number, *kind, *ending, *output, *left),
            "a call",
        );
    }
}

/// Each ending, its exit status, and its line for standard error.
const STATUSES: &[(Ending, u8, Option<&str>)] = &[
    (Ending::Done, 0, None),
    (Ending::Failed(RunError::Memory), 1, Some("out of memory")),
    (Ending::Failed(RunError::Read), 1, Some("read failed")),
    (Ending::Failed(RunError::Write), 1, Some("write failed")),
    (Ending::Usage, 2, Some("usage: byte_unit_lines [byte|bit]")),
];

/// Each error of a run, and the line for standard error.
const FAULTS: &[(RunError, &str)] = &[
    (RunError::Read, "read failed"),
    (RunError::Write, "write failed"),
    (RunError::Memory, "out of memory"),
];

#[test]
fn words_of_errors(rt: HostRuntime) {
    for (error, words) in FAULTS {
        let found = (*error, fault_words(*error));
        assert_is(&rt, found, (*error, *words), "the words of an error");
    }
}

#[test]
fn statuses_and_lines_of_endings(rt: HostRuntime) {
    for (ending, status, line) in STATUSES {
        let found = (*ending, ending.status(), ending.line());
        assert_is(&rt, found, (*ending, *status, *line), "a status and a line");
    }
}
