//! Reads lines from standard input and writes the answer to each: the size that it represents, or its parse error.
#![tactic(auto)]

mod ending;
mod laws;
mod line;
mod report;
#[cfg(test)]
mod tests;

pub use byte_unit::Kind;
pub use byte_unit_stream::{Reading, Writing};
pub use ending::{fault_words, kind_of};
use ending::{Ending, serve};
pub use report::{RunError, run};
use std::process::ExitCode;
use std::{env, io};

/// Returns the program's arguments, without its name.
///
/// # Errors
/// Returns an error of kind `OutOfMemory` if allocation fails, and one of another kind if an argument is not UTF-8.
fn words_after_name(rt: &HostRuntime) -> io::Result<Vec<String>> {
    let mut words = Vec::new(rt.alloc());
    for word in env::args(rt)?.skip(1) {
        words.push(word)?;
    }
    Ok(words)
}

/// Answers the lines of standard input on standard output.
///
/// If the arguments cannot be read, returns `Ending::Failed` for out of memory and `Ending::Usage` for any other error.
fn answer(rt: &HostRuntime) -> Ending {
    match words_after_name(rt) {
        Ok(words) => {
            let mut reader = Reading::new(rt.reader());
            let mut writer = Writing::new(io::writer(rt));
            serve(rt.alloc(), &words, &mut reader, &mut writer)
        }
        Err(error) if error.kind() == io::ErrorKind::OutOfMemory => {
            Ending::Failed(RunError::Memory)
        }
        Err(_) => Ending::Usage,
    }
}

/// Runs the program, prints the line of its ending on standard error if it has one, and exits with its status.
fn main(rt: HostRuntime) -> ExitCode {
    let ending = answer(&rt);
    if let Some(line) = ending.line() {
        // If standard error is closed, the exit status still reports the ending.
        let _ = eprintln!(rt; "{line}");
    }
    ExitCode::from(ending.status())
}
