//! Tests of runs of the command `byte-unit` over streams in memory that go in small steps or fail, one run after
//! another in the same buffers. What a run converts is tested from outside, by `command/tests`.
mod uses;

use byte_unit_command::error::RunError;
use byte_unit_command::field_list::{FieldList, fields_of};
use byte_unit_command::options::{Form, Invalid, Options, ParseSpec};
use byte_unit_command::run::{RunBuffers, run_with_buffers};
use byte_unit_command::streams::Streams;
use byte_unit_command::tally::Tally;
use byte_unit_stream::paced::{
    ALL_BUT_ONE, AT_ONCE, BYTE_BY_BYTE, MemoryReader, MemoryWriter, Pace, Then,
};
use byte_unit_stream::{Reading, Writing};
use std::process::Abort;

/// Whether a call copies the first two lines, and goes on at a rejected field.
const HEADER: bool = true;

const PLAIN: bool = false;

/// Returns the options of a call that converts these fields.
fn options_of<'a>(fields: &'a FieldList, has_header: bool) -> Options<'a> {
    Options {
        spec: ParseSpec::BYTES,
        form: Form::Exact,
        precision: None,
        suffix: b"",
        width: 0,
        align_left: false,
        separator: None,
        fields,
        record_end: b'\n',
        output_end: b'\n',
        header: if has_header { 2 } else { 0 },
        invalid: if has_header {
            Invalid::Warn
        } else {
            Invalid::Abort
        },
        total: false,
        max: None,
        min: None,
        hints: true,
    }
}

/// Streams in memory: the input, the output, and the messages.
type MemoryStreams<'a> = Streams<MemoryReader<'a>, MemoryWriter, Vec<u8>>;

/// Returns streams over an input in memory, with reads and writes at these paces.
fn streams_of<'a>(
    rt: &(impl Abort + AllocGlobal),
    input: &'a [u8],
    (reads, writes): (Pace, Pace),
) -> MemoryStreams<'a> {
    Streams {
        reader: Reading::new(MemoryReader {
            rest: input,
            pace: reads,
        }),
        word: "line",
        writer: Writing::new(MemoryWriter {
            taken: Vec::new(rt.alloc()),
            pace: writes,
        }),
        errors: Writing::new(Vec::new(rt.alloc())),
    }
}

/// Returns what was written, and the messages.
fn output_of(streams: MemoryStreams<'_>) -> (Vec<u8>, Vec<u8>) {
    let Streams {
        reader: _reader,
        word: _,
        writer,
        errors,
    } = streams;
    (writer.into_inner().taken, errors.into_inner())
}

/// Whether there is a header, the paces of reads and of writes, and the input; the sum and whether a field was
/// rejected, or why the run ends early; the output and the messages.
type Row = (
    bool,
    (Pace, Pace),
    &'static [u8],
    Result<(u128, bool), RunError>,
    &'static [u8],
    &'static [u8],
);

/// An input, and what is written for it.
const INPUT: &[u8] = b"1024\n1.5 KiB\n100 MB\n7";

const OUTPUT: &[u8] = b"1 KiB\n1.5 KiB\n100 MB\n7 B\n";

/// What is written for an input whose third line is rejected, and the message.
const COPIED: &[u8] = b"5 KB\nname\nx\n7 B\n";

const REJECTED: &[u8] =
    b"byte-unit: line 3: 'x': the character 'x' is not a number (character 1); hint: a size begins \
      with a number as in '12' or '1.5'\n";

/// Runs in the same buffers, one after another. Some leave a part of a record, a text that waits, or a message.
const ROWS: &[Row] = &[
    (
        HEADER,
        (AT_ONCE, AT_ONCE),
        b"x",
        Ok((0, false)),
        b"x\n",
        b"",
    ),
    (
        PLAIN,
        (BYTE_BY_BYTE, BYTE_BY_BYTE),
        INPUT,
        Ok((100_002_567, false)),
        OUTPUT,
        b"",
    ),
    (
        PLAIN,
        (ALL_BUT_ONE, ALL_BUT_ONE),
        INPUT,
        Ok((100_002_567, false)),
        OUTPUT,
        b"",
    ),
    // Reads of five bytes, before one that fails.
    (
        PLAIN,
        (
            Pace {
                step: 5,
                calls: 0,
                then: Then::Fail,
            },
            AT_ONCE,
        ),
        INPUT,
        Err(RunError::Read),
        b"",
        b"",
    ),
    (
        PLAIN,
        (
            Pace {
                step: 5,
                calls: 3,
                then: Then::Fail,
            },
            AT_ONCE,
        ),
        INPUT,
        Err(RunError::Read),
        b"1 KiB\n1.5 KiB\n",
        b"",
    ),
    (
        HEADER,
        (AT_ONCE, AT_ONCE),
        b"5 KB\nname\nx\n7",
        Ok((7, true)),
        COPIED,
        REJECTED,
    ),
    // Writes of three bytes, before one that fails or accepts no byte.
    (
        HEADER,
        (
            AT_ONCE,
            Pace {
                step: 3,
                calls: 0,
                then: Then::Fail,
            },
        ),
        b"5 KB\nname\nx\n",
        Err(RunError::Write),
        b"",
        b"",
    ),
    (
        PLAIN,
        (
            AT_ONCE,
            Pace {
                step: 3,
                calls: 3,
                then: Then::AtMost(0),
            },
        ),
        INPUT,
        Err(RunError::Write),
        b"1 KiB\n1.5",
        b"",
    ),
    (
        PLAIN,
        (AT_ONCE, AT_ONCE),
        b"6 KB\n",
        Ok((6000, false)),
        b"6 KB\n",
        b"",
    ),
];

#[test]
fn runs_in_the_same_buffers(rt: HostRuntime) {
    let Ok(Some(fields)) = fields_of(rt.alloc(), None) else {
        panic!(rt; "out of memory");
    };
    let both = [options_of(&fields, PLAIN), options_of(&fields, HEADER)];
    runs_with(&rt, &both);
}

/// Runs all rows, with the options of a call without a header and of one with it.
fn runs_with<'a>(rt: &(impl Abort + AllocGlobal), [plain, with_header]: &'a [Options<'a>; 2]) {
    let mut buffers = RunBuffers::new(rt.alloc(), plain);
    for (number, (has_header, paces, input, wanted, output, messages)) in ROWS.iter().enumerate() {
        let options = if *has_header { with_header } else { plain };
        let mut streams = streams_of(rt, input, *paces);
        let end = run_with_buffers(&mut buffers, options, &mut [0u8; 80], &mut streams);
        let (written, told) = output_of(streams);
        let counted = match end {
            Ok(
                Tally {
                    total,
                    beyond: false,
                    rejected,
                },
            ) => Ok((total, rejected)),
            Ok(_) => panic!(rt; "a size is beyond a limit in run {number}"),
            Err(error) => Err(error),
        };
        let found = (counted, written.as_slice(), told.as_slice());
        assert_eq!(rt; found, (*wanted, *output, *messages), "run {number}");
    }
}
