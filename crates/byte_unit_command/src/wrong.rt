//! What is wrong with a call, as a message; and the escapes in a message of clap.

ghost use Rattle.std.specs.Prelude.{◌≡◌, ◌++◌, List, ℕ, OnOk, IfOk};
ghost use Rattle.std.specs.String.{string_bytes};
ghost use Rattle.byte_unit_command.specs.WrongText.{AreReasonWords, IsWrongMessage, quoted_value};

use crate::notice::{add_error, add_quoted};
use byte_unit::UnitParseError;
use byte_unit_base::{LocatedError, Quoted};
use std::alloc::{AllocError, Global};
use std::fmt::Write;

/// What is wrong with a call: an option, its value, and the reason.
#[derive(Drop)]
pub struct Wrong<'a> {
    /// The option.
    pub option: &'static str,
    /// Its value, if it is told.
    pub value: Option<&'a str>,
    /// The reason.
    pub reason: ValueError,
}

/// Why the value of an option is wrong.
#[derive(Drop)]
pub enum ValueError {
    /// It is neither a form nor a unit; this is the error of the unit.
    Unit(UnitParseError),
    /// It is neither a form nor a unit, but white space or nothing.
    Blank,
    /// It does not say how prefixes are read.
    From,
    /// The form has no one unit that could be left out.
    NoUnit,
    /// The exact form never has that number of digits after the point.
    Precision,
    /// It is not a delimiter.
    Delimiter,
    /// Nothing separates fields.
    NoDelimiter,
    /// It is not a list of fields.
    Fields,
    /// It is not a width.
    Padding,
    /// It is not a mode.
    Mode,
    /// It is not a size; this is the error, with its location.
    Size(LocatedError),
}

impl<'a> Wrong<'a> {
    /// Returns the message, without its line end: the option, its value in quotes if it is told, and the reason.
    ///
    /// The value is quoted as a message about a field quotes it.
    ///
    /// # Errors
    ///
    /// Returns `AllocError` if allocation fails.
    pub fn message(&self, alloc: Global) -> Result<String, AllocError>
        ensures { IfOk result (λ message. IsWrongMessage self.now (string_bytes message)) }
    {
        let mut message = String::new(alloc);
        message.push_str(self.option)?;
        message.push_str(": ")?;
        add_value(self.value, &mut message)?;
        add_reason(alloc, &self.reason, &mut message)?;
        Ok(message)
    }
}

/// Appends a value in quotes and a colon, or nothing without a value.
///
/// # Errors
///
/// Returns `AllocError` if allocation fails.
fn add_value(value: Option<&str>, message: &mut String) -> Result<(), AllocError>
    ensures { OnOk result
        (string_bytes message.new ≡ string_bytes message.old ++ quoted_value value.entry) }
{
    match value {
        None => Ok(()),
        Some(value) => add_quoted(value.as_bytes(), message),
    }
}

/// Appends the words for a reason.
///
/// # Errors
///
/// Returns `AllocError` if allocation fails.
fn add_reason(alloc: Global, reason: &ValueError, message: &mut String) -> Result<(), AllocError>
    ensures { OnOk result ((words : List ℕ) × AreReasonWords reason.now words
        × (string_bytes message.new ≡ string_bytes message.old ++ words)) }
{
    match reason {
        ValueError::Unit(error) => {
            // Not to `message`: no contract says what `write!` leaves in its target for an error with a character that
            // is not ASCII, and the option and its value in `message` have to stay.
            let mut words = String::new(alloc);
            write!(words, "{error}")?;
            message.push_str("not a form or a unit: ")?;
            message.push_str(words.as_str())
        }
        ValueError::Blank => message.push_str("not a form or a unit"),
        ValueError::From => message.push_str("not auto, si, iec or iec-i"),
        ValueError::NoUnit => {
            message.push_str("needs --to=plain or --to with a unit, such as --to=MiB")
        }
        ValueError::Precision => message.push_str("above 28 in the form exact"),
        ValueError::Delimiter => message.push_str("not one character of one byte"),
        ValueError::NoDelimiter => {
            message.push_str("needs -d or --blanks, by which fields are separated")
        }
        ValueError::Fields => message.push_str("not a list of fields"),
        ValueError::Padding => message.push_str("not a number from 1 to 65535, or its negative"),
        ValueError::Mode => message.push_str("not abort, fail, warn or ignore"),
        ValueError::Size(error) => add_error(error, &mut String::new(alloc), message),
    }
}

/// Returns the words of a call with a zero byte, which no word has, in place of each line feed.
///
/// So [`escaped_lines`] can tell the line feeds of the words from those that end the lines of a message of clap.
///
/// # Errors
///
/// Returns `AllocError` if allocation fails.
pub fn with_marks(alloc: Global, words: &[String]) -> Result<Vec<String>, AllocError> {
    let mut marked = Vec::new(alloc);
    for word in words {
        marked.push(with_mark(alloc, word.as_str())?)?;
    }
    Ok(marked)
}

/// Returns a word with a zero byte in place of each line feed.
fn with_mark(alloc: Global, word: &str) -> Result<String, AllocError> {
    let mut marked = String::new(alloc);
    for c in word.chars() {
        marked.push(if c == '\n' { '\0' } else { c })?;
    }
    Ok(marked)
}

/// Returns a text with each character as [`Quoted`] writes it, but for the line feeds that end its lines. A zero byte
/// is escaped as the line feed in whose place it is.
///
/// # Errors
///
/// Returns `AllocError` if allocation fails.
pub fn escaped_lines(alloc: Global, text: &str) -> Result<String, AllocError> {
    let mut escaped = String::new(alloc);
    for c in text.chars() {
        match c {
            '\n' => escaped.push(c)?,
            '\0' => escaped.push_str("\\u{a}")?,
            _ => write!(escaped, "{}", Quoted(c.encode_utf8(&mut [0; 4]).as_bytes()))?,
        }
    }
    Ok(escaped)
}
