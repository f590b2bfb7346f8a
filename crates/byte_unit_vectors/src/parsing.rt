//! Calls that parse a text: sizes, units, numbers with units, JSON, and the positions of errors.

use crate::answers::{Answer, agreed, both, or_none, parsed, quoted, read, shown};
use crate::row_error::RowError;
use crate::words::{CASES, KINDS, PREFERRED, named};
use byte_unit::{
    AdjustedBit, AdjustedByte, Bit, Byte, JsonSizeError, JsonUnitError, Kind, ParseError, Unit,
    read_size, unit_from_json,
};
use serde_json::{Category, Value};
use std::alloc::{AllocError, Global};

/// Evaluates the answer to a call that parses a size of a type, whose calls take these arguments after the text.
macro_rules! size_parsed {
    ($size:ident, $alloc:expr, $call:expr, $text:expr $(, $ignore_case:expr)?) => {{
        let (text, bytes) = ($text, $text.as_bytes());
        match $call {
            "parse" => {
                // The line ends at a line feed.
                let lines = format!(in $alloc; "{text}\n7")?;
                let lines = lines.as_str().as_bytes();
                let of_line = match lines.get(text.len()) {
                    Some(b'\n') => $size::parse_line(lines, text.len() $(, $ignore_case)?),
                    _ => None,
                };
                let answers = [
                    parsed($alloc, Some($size::parse_str(text $(, $ignore_case)?)))?,
                    parsed($alloc, $size::parse_bytes(bytes $(, $ignore_case)?))?,
                    parsed($alloc, of_line)?,
                ];
                agreed($alloc, &answers)
            }
            "parse_binary" => {
                let answers = [
                    parsed($alloc, Some($size::parse_str_binary(text $(, $ignore_case)?)))?,
                    parsed($alloc, $size::parse_bytes_binary(bytes $(, $ignore_case)?))?,
                ];
                agreed($alloc, &answers)
            }
            _ => match $size::parse_str(text $(, $ignore_case)?) {
                Ok(size) => shown($alloc, size),
                Err(error) => quoted($alloc, error),
            },
        }
    }};
}

/// Evaluates the size of a JSON value, or its error: as a size, and as one in a unit, of which this call gets it.
macro_rules! size_from_json {
    ($size:ident, $adjusted:ident, $get:ident, $alloc:expr, $value:expr) => {{
        let adjusted = $adjusted::from_json($value).map(|adjusted| adjusted.$get());
        agreed($alloc, &[read($alloc, $size::from_json($value))?, read($alloc, adjusted)?])
    }};
}

/// Returns the answer to a call with a text.
pub fn answer(alloc: Global, words: &[&str], text: &str) -> Answer {
    match words {
        [call @ ("parse" | "parse_binary" | "says"), kind, case] => {
            let (kind, ignore_case) = (named(kind, KINDS)?, named(case, CASES)?);
            parse(alloc, call, kind, ignore_case, text)
        }
        ["unit", case, prefer] => {
            let unit = Unit::parse_str(text, named(case, CASES)?, named(prefer, PREFERRED)?);
            parsed(alloc, Some(unit.map_err(ParseError::Unit)))
        }
        ["read", case, prefer] => {
            match read_size(text, named(case, CASES)?, named(prefer, PREFERRED)?) {
                Ok((number, unit)) => both(alloc, number, unit),
                Err(error) => parsed::<Unit>(alloc, Some(Err(error))),
            }
        }
        ["position", "byte"] => or_none(alloc, Byte::error_position(text)),
        ["position", "bit"] => or_none(alloc, Bit::error_position(text)),
        ["position", "unit"] => or_none(alloc, Unit::error_position(text)),
        ["from_json", kind] => {
            let value = &json_of(alloc, text)?;
            match named(kind, KINDS)? {
                Kind::Byte => size_from_json!(Byte, AdjustedByte, get_byte, alloc, value),
                Kind::Bit => size_from_json!(Bit, AdjustedBit, get_bit, alloc, value),
            }
        }
        ["unit_from_json"] => {
            let unit = unit_from_json(&json_of(alloc, text)?).map_err(|error| match error {
                JsonUnitError::NotString => JsonSizeError::NotString,
                JsonUnitError::Unit(error) => JsonSizeError::Parse(ParseError::Unit(error)),
            });
            read(alloc, unit)
        }
        _ => Err(RowError::NoCall),
    }
}

/// Returns the size of a text or its error, or the message of the error, by a call of this name.
fn parse(alloc: Global, call: &str, kind: Kind, ignore_case: bool, text: &str) -> Answer {
    match (kind, ignore_case) {
        (Kind::Byte, _) => size_parsed!(Byte, alloc, call, text, ignore_case),
        (Kind::Bit, false) => size_parsed!(Bit, alloc, call, text),
        // Bits have no call that ignores case.
        (Kind::Bit, true) => Err(RowError::NoCall),
    }
}

/// Returns the JSON value of a text.
fn json_of(alloc: Global, text: &str) -> Result<Value, RowError> {
    match Value::from_str(alloc, text) {
        Ok(value) => Ok(value),
        Err(error) if error.classify() == Category::Memory => Err(RowError::from(AllocError)),
        Err(_) => Err(RowError::Json),
    }
}
