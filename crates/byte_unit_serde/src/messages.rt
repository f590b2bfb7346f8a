//! The messages of errors.

ghost use Rattle.std.specs.Prelude.{◌≡◌, ◌≤◌, length};
ghost use Rattle.std.specs.Fmt.InlineText.{inline_text};
ghost use Rattle.byte_unit.specs.Errors.Meaning.{size_fault};
ghost use Rattle.byte_unit_serde.specs.Messages.{IsMessage, reason_of};

use byte_unit::{ParseError, ValueParseError};
use std::fmt::InlineText;

/// Returns the message for a string that is rejected for a reason: the reason, and the string in quotes, cut if it is
/// long.
///
/// Precondition (proved at every call): the reason has at most 16 bytes.
pub(crate) fn message_for(reason: &str, text: &str) -> InlineText<64>
    requires { length reason.now ≤ 16 }
    ensures { IsMessage reason.now text.now (inline_text result) }
{
    InlineText::new()
        .and_str(reason, 16)
        .and_str(": ", 2)
        .and(format_args!("{text:?}"), 40)
}

/// The reason for a string that is not a unit.
pub(crate) const BAD_UNIT: &str = "bad unit";

/// Returns the reason for a string that is rejected with this error.
pub(crate) fn size_reason(error: &ParseError) -> &'static str
    ensures reason { result.now ≡ reason_of (size_fault error.now) }
    ensures short { length result.now ≤ 16 }
{
    match error {
        ParseError::Value(ValueParseError::ExceededBounds(_)) => "out of range",
        ParseError::Value(ValueParseError::NotNumber(_)) => "not a number",
        ParseError::Value(ValueParseError::NoValue) => "no value",
        ParseError::Value(ValueParseError::NumberTooLong) => "number too long",
        ParseError::Unit(_) => BAD_UNIT,
    }
}
