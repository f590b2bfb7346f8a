//! A row of the test vectors, `ID: CALL = ANSWER`: its parts.

use crate::escapes::unescaped;
use crate::row_error::RowError;
use std::alloc::Global;

/// A row.
#[derive(Drop)]
pub struct Row<'a> {
    /// The name of the row.
    pub id: &'a str,
    /// The words of the call, without its text.
    pub words: Vec<&'a str>,
    /// The text of the call, with nothing escaped, if it has one.
    pub text: Option<String>,
    /// The answer as the line has it, with escapes.
    pub answer: &'a str,
}

impl<'a> Row<'a> {
    /// Parses a line.
    ///
    /// # Errors
    /// Returns an error if the line has not the form of a row, or if allocation fails.
    pub fn of(alloc: Global, line: &'a str) -> Result<Row<'a>, RowError> {
        let (id, rest) = line.split_once(": ").ok_or(RowError::NoId)?;
        let (call, text, answer) = parts_of(rest)?;
        let words = call.split_whitespace().collect(alloc)?;
        let text = text.map(|text| unescaped(alloc, text)).transpose()?;
        Ok(Row {
            id,
            words,
            text,
            answer,
        })
    }
}

/// Splits `CALL = ANSWER` into the words of the call, its text without the quotes, and the answer.
fn parts_of(rest: &str) -> Result<(&str, Option<&str>, &str), RowError> {
    let (call, answer) = rest.split_once(" = ").ok_or(RowError::NoAnswer)?;
    if !call.contains('"') {
        return Ok((call, None, answer));
    }
    // The text may have a ` = `, so it is split off first.
    let (call, rest) = rest.split_once('"').ok_or(RowError::OpenText)?;
    let (text, rest) = rest.split_once('"').ok_or(RowError::OpenText)?;
    let answer = rest.strip_prefix(" = ").ok_or(RowError::NoAnswer)?;
    Ok((call, Some(text), answer))
}
