//! The forms of answers: what a call returns, as the rows have it.

use crate::row_error::RowError;
use byte_unit::{JsonSizeError, ParseError, UnitParseError, ValueParseError};
use serde_json::Value;
use std::alloc::Global;
use std::fmt::Display;

/// The answer to a call, or the error if there is no such call, a word of it is invalid, or allocation fails.
pub type Answer = Result<String, RowError>;

/// Returns what several calls return, or all that they return if they differ: that is no answer of a row.
pub fn agreed(alloc: Global, answers: &[String]) -> Answer {
    match answers {
        [first, others @ ..] if others.iter().all(|other| other == first) => shown(alloc, first),
        _ => Ok(answers.join(alloc, " or ")?),
    }
}

/// Returns a number or a unit.
pub fn shown<T: Display + Drop>(alloc: Global, value: T) -> Answer {
    Ok(format!(in alloc; "{value}")?)
}

/// Returns a number or a unit, or `none`.
pub fn or_none<T: Display + Drop>(alloc: Global, value: Option<T>) -> Answer {
    match value {
        Some(value) => shown(alloc, value),
        None => shown(alloc, "none"),
    }
}

/// Returns two numbers, or a number and a unit.
pub fn both<T: Display + Drop, U: Display + Drop>(alloc: Global, first: T, second: U) -> Answer {
    Ok(format!(in alloc; "{first} {second}")?)
}

/// Returns a text, or the message of an error, between quotes.
pub fn quoted<T: Display + Drop>(alloc: Global, text: T) -> Answer {
    Ok(format!(in alloc; "\"{text}\"")?)
}

/// Returns the text of a JSON string between quotes.
pub fn string_of(alloc: Global, value: &Value) -> Answer {
    match value.as_str() {
        Some(text) => quoted(alloc, text),
        None => shown(alloc, "not a string"),
    }
}

/// Returns a size, a number or a unit that was read, or the name and the fields of the error.
pub fn read<T: Display + Drop>(alloc: Global, value: Result<T, JsonSizeError>) -> Answer {
    match value {
        Ok(value) => shown(alloc, value),
        Err(JsonSizeError::NotString) => shown(alloc, "NotString"),
        Err(JsonSizeError::Parse(error)) => parse_error(alloc, &error),
    }
}

/// Returns a size, a number or a unit that was parsed, or the name and the fields of the error. `None` if what is given
/// is not UTF-8.
pub fn parsed<T: Display + Drop>(alloc: Global, value: Option<Result<T, ParseError>>) -> Answer {
    match value {
        Some(Ok(value)) => shown(alloc, value),
        Some(Err(error)) => parse_error(alloc, &error),
        None => shown(alloc, "not UTF-8"),
    }
}

/// Returns the name and the fields of the error of a size.
fn parse_error(alloc: Global, error: &ParseError) -> Answer {
    match error {
        ParseError::Value(ValueParseError::NoValue) => shown(alloc, "NoValue"),
        ParseError::Value(ValueParseError::NotNumber(character)) => {
            both(alloc, "NotNumber", quoted(alloc, *character)?)
        }
        ParseError::Value(ValueParseError::NumberTooLong) => shown(alloc, "NumberTooLong"),
        ParseError::Value(ValueParseError::ExceededBounds(number)) => {
            both(alloc, "ExceededBounds", *number)
        }
        ParseError::Unit(error) => unit_error(alloc, error),
    }
}

/// Returns the name and the fields of the error of a unit.
fn unit_error(alloc: Global, error: &UnitParseError) -> Answer {
    let mut text = format!(in alloc; "Unit \"{}\" [", error.character)?;
    for character in error.expected_characters {
        text.push(*character)?;
    }
    text.push(']')?;
    if error.also_expect_no_character {
        text.push_str(" end")?;
    }
    Ok(text)
}
