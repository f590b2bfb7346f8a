//! Runs in memory, their results, and the assertions on them that several tests share.
ghost use Rattle.std.specs.Prelude.{◌<◌, length};

use super::*;
use crate::report::{Buffers, run_with_buffers};
use byte_unit_stream::paced::{AT_ONCE, MemoryReader, MemoryWriter, Pace};

/// The result of a run, the bytes that it has written, and what is left of its input.
#[derive(Drop)]
pub struct Ended<'a> {
    /// The result.
    pub result: Result<(), RunError>,
    /// The bytes that were written.
    pub taken: Vec<u8>,
    /// The bytes of the input that were not read.
    pub left: &'a [u8],
}

impl<'a> Ended<'a> {
    /// Creates the result of a run over these streams.
    pub fn new(
        end: Result<(), RunError>,
        reader: Reading<MemoryReader<'a>>,
        writer: Writing<MemoryWriter>,
    ) -> Ended<'a> {
        Ended {
            result: end,
            taken: writer.into_inner().taken,
            left: reader.into_inner().rest,
        }
    }

    /// Asserts the result and the written bytes. A name and numbers tell which of a test's runs it was. The message has
    /// the number of bytes, since reports can be too long to be printed.
    pub fn expect(
        &self,
        rt: &impl Abort,
        wanted: Result<(), RunError>,
        report: &[u8],
        name: &str,
        numbers: &[usize],
    ) {
        let taken = self.taken.as_slice();
        let found = (self.result, taken.len(), taken == report);
        assert_eq!(rt; found, (wanted, report.len(), true), "{name} {numbers:?}");
    }
}

/// Runs over this input with reads and writes at each pair of paces, and asserts the result and the written bytes. The
/// name, the number and the index of the pair tell which run it was.
pub fn check(
    rt: &(impl Abort + AllocGlobal),
    input: &[u8],
    paces: &[(Pace, Pace)],
    (wanted, report): (Result<(), RunError>, &[u8]),
    name: &str,
    number: usize,
) {
    for (index, (reads, writes)) in paces.iter().enumerate() {
        let ended = ran(rt.alloc(), input, *reads, *writes);
        ended.expect(rt, wanted, report, name, &[number, index]);
    }
}

/// Runs over this input, with reads and writes at these paces.
pub fn ran(alloc: Global, input: &[u8], reads: Pace, writes: Pace) -> Ended<'_> {
    let (mut reader, mut writer) = streams(alloc, input, reads, writes);
    let result = run(alloc, &mut reader, &mut writer, Kind::Byte);
    Ended::new(result, reader, writer)
}

/// Returns a reader of this input and a writer, with these paces.
pub fn streams(
    alloc: Global,
    input: &[u8],
    reads: Pace,
    writes: Pace,
) -> (Reading<MemoryReader<'_>>, Writing<MemoryWriter>) {
    let reader = MemoryReader {
        rest: input,
        pace: reads,
    };
    let writer = MemoryWriter {
        taken: Vec::new(alloc),
        pace: writes,
    };
    (Reading::new(reader), Writing::new(writer))
}

/// Runs with reads of at most the length of `buffer`.
pub fn ran_in<'a>(
    alloc: Global,
    buffer: &mut [u8],
    input: &'a [u8],
    reads: Pace,
    writes: Pace,
) -> Ended<'a>
    requires { 0 < length buffer.old }
{
    let mut buffers = Buffers::new(alloc);
    let paces = (reads, writes);
    ran_with(alloc, &mut buffers, buffer, input, paces)
}

/// Runs as `ran_in` does, in these buffers.
pub fn ran_with<'a>(
    alloc: Global,
    buffers: &mut Buffers<Global>,
    buffer: &mut [u8],
    input: &'a [u8],
    paces: (Pace, Pace),
) -> Ended<'a>
    requires { 0 < length buffer.old }
{
    let (mut reader, mut writer) = streams(alloc, input, paces.0, paces.1);
    let result = run_with_buffers(buffers, buffer, &mut reader, &mut writer, Kind::Byte);
    Ended::new(result, reader, writer)
}
