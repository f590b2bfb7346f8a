//! Answers the rows of the test vectors, read from standard input, by the public calls of the library.
//!
//! A row is `ID: CALL = ANSWER`; the head of the crate's file `stdin` has the forms. Each row whose answer is another
//! is printed on standard output, as `ID: wanted WANTED, got GOT`. A row that is malformed, or has no such call, is
//! wrong too. The last line, on standard error, is `N rows, N wrong`. The exit status is 0 if no row is wrong, 1 if
//! some are, and 2 if the rows cannot be read, the output cannot be written, or memory runs out.
#![tactic(auto)]

mod answers;
mod constants;
mod escapes;
mod format;
mod hints;
mod numbers;
mod parsing;
mod row;
mod row_error;
mod sizes;
mod texts;
mod units;
mod words;

use escapes::{escaped, unescaped};
use row::Row;
use row_error::RowError;
use std::alloc::{AllocError, Global};
use std::io;
use std::process::ExitCode;

/// The exit status if some rows are wrong.
const WRONG: u8 = 1;

/// The exit status if not all rows could be read and compared.
const FAILED: u8 = 2;

/// Returns what is wrong with the row of a line, or `None` if its answer is that of the library.
///
/// # Errors
/// Returns `AllocError` if allocation fails.
fn wrong_in(alloc: Global, line: &str) -> Result<Option<String>, AllocError> {
    match compare(alloc, line) {
        Ok(text) => Ok(text),
        Err(RowError::OutOfMemory(error)) => Err(error),
        Err(error) => Ok(Some(format!(in alloc; "{line}: {error}")?)),
    }
}

/// Answers the row of a line. Returns the ID with both answers if they differ.
///
/// # Errors
/// Returns an error if the row is malformed or has no such call, or if allocation fails.
fn compare(alloc: Global, line: &str) -> Result<Option<String>, RowError> {
    let row = Row::of(alloc, line)?;
    let wanted = unescaped(alloc, row.answer)?;
    let words = row.words.as_slice();
    let found = match &row.text {
        Some(text) => match words {
            ["words" | "hint", ..] => hints::answer(alloc, words, text.as_str())?,
            _ => parsing::answer(alloc, words, text.as_str())?,
        },
        None => texts::answer(alloc, words)?,
    };
    if found.as_str() == wanted.as_str() {
        return Ok(None);
    }
    let found = escaped(alloc, found.as_str())?;
    let id = row.id;
    let wanted = row.answer;
    Ok(Some(format!(in alloc; "{id}: wanted {wanted}, got {found}")?))
}

/// Answers the rows of standard input, prints those that are wrong, and returns the exit status.
///
/// # Errors
/// Returns an error if the rows cannot be read, a row cannot be written, or allocation fails.
fn check_rows(rt: &HostRuntime) -> io::Result<u8> {
    let (mut rows, mut wrong) = (0u64, 0u64);
    for line in rt.lines(rt.alloc()) {
        let line = line?;
        let line = line.as_str();
        if line.is_empty() || line.starts_with('#') {
            continue;
        }
        rows = rows.saturating_add(1);
        if let Some(text) = wrong_in(rt.alloc(), line)? {
            wrong = wrong.saturating_add(1);
            println!(rt; "{text}")?;
        }
    }
    // Ignored on failure: the exit status says the same.
    let _ = eprintln!(rt; "{rows} rows, {wrong} wrong");
    Ok(if wrong == 0 { 0 } else { WRONG })
}

/// Runs the program, and exits with its status.
fn main(rt: HostRuntime) -> ExitCode {
    match check_rows(&rt) {
        Ok(status) => ExitCode::from(status),
        Err(error) => {
            let _ = eprintln!(rt; "byte_unit_vectors: {error}");
            ExitCode::from(FAILED)
        }
    }
}
