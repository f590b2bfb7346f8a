//! Tests of the program with input and output in memory, and what the modules of tests share: they import all names
//! here, of which some are for them alone.

ghost use Rattle.std.specs.Prelude.{IfOk};
ghost use Rattle.byte_unit_lines.specs.Report.{IsReport};

use crate::{Kind, Reading, RunError, Writing, fault_words, kind_of, run};
use std::alloc::Global;
use std::fmt::Debug;
use std::process::Abort;

/// Creates a table, as an array of rows. A macro, since `rt fmt` leaves each row on its line in the braces of a call.
macro_rules! rows {
    ($($row:expr),* $(,)?) => {
        [$($row),*]
    };
}

mod again;
mod chunks;
mod ended;
mod endings;
mod ends;
mod large;
mod mixed;
mod names;
mod order;
mod rows;

/// Asserts that what was found is what is wanted. A name tells which of a test's rows it was.
fn assert_is<S: PartialEq + Debug + Drop>(rt: &impl Abort, found: S, wanted: S, name: &str) {
    assert_eq!(rt; found, wanted, "{name}");
}

/// Returns what the program writes for an input in memory.
fn report_of(alloc: Global, input: &[u8], kind: Kind) -> Result<Vec<u8>, RunError>
    ensures { IfOk result (λ output. IsReport kind input.now output.items) }
{
    let mut reader = Reading::new(input);
    let mut writer = Writing::new(Vec::new(alloc));
    match run(alloc, &mut reader, &mut writer, kind) {
        Ok(()) => Ok(writer.into_inner()),
        Err(error) => Err(error),
    }
}
