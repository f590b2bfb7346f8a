//! Tests of the messages of errors: by themselves, as other errors and with the flags of a formatter, and of errors
//! that no string has.
use super::asserting::assert_display;
use super::flags::assert_printed_with_each_flag;
use byte_unit::{
    Decimal, ExceededBoundsError, JsonSizeError, JsonUnitError, ParseError, UnitParseError,
    ValueParseError,
};
use std::alloc::Global;
use std::error::Error;
use std::process::Abort;

/// Asserts the message of an error through the bound `Error`, and that the flags of a formatter do not change it.
fn assert_text_and_flags<E: Error>(rt: &impl Abort, alloc: Global, error: &E, wanted: &str) {
    assert_display(rt, alloc, error, wanted);
    assert_printed_with_each_flag(rt, alloc, error, wanted);
}

/// Asserts the message of a number error by itself, as a parse error and as an error of a JSON string.
fn assert_value_text(rt: &impl Abort, alloc: Global, error: ValueParseError, wanted: &str) {
    assert_text_and_flags(rt, alloc, &error, wanted);
    let read: ParseError = error.into();
    assert_text_and_flags(rt, alloc, &read, wanted);
    assert_display(rt, alloc, &JsonSizeError::Parse(read), wanted);
}

/// Creates a unit error from its fields.
fn unit_error(
    character: char,
    expected_characters: &'static [char],
    also_expect_no_character: bool,
) -> UnitParseError {
    UnitParseError {
        character,
        expected_characters,
        also_expect_no_character,
    }
}

/// Asserts the message of a unit error by itself, as a parse error and as an error of a JSON string.
fn assert_unit_text(
    rt: &impl Abort,
    alloc: Global,
    fields: (char, &'static [char], bool),
    wanted: &str,
) {
    let (character, expected, or_end) = fields;
    let alone = unit_error(character, expected, or_end);
    assert_text_and_flags(rt, alloc, &alone, wanted);
    let read: ParseError = alone.into();
    assert_text_and_flags(rt, alloc, &read, wanted);
    assert_display(rt, alloc, &JsonSizeError::Parse(read), wanted);
    let stored = JsonUnitError::Unit(unit_error(character, expected, or_end));
    assert_display(rt, alloc, &stored, wanted);
}

/// Asserts the message of each unit error.
fn assert_unit_texts(rt: &impl Abort, alloc: Global, rows: &[(char, &'static [char], bool, &str)]) {
    for (character, expected, or_end, wanted) in rows {
        assert_unit_text(rt, alloc, (*character, *expected, *or_end), wanted);
    }
}

/// The characters that can start a unit.
const TEN: [char; 10] = ['B', 'K', 'M', 'G', 'T', 'P', 'E', 'Z', 'Y', 'R'];

/// The message for an `x` where a unit could start.
const NO_UNIT: &str =
    "the character 'x' is incorrect ('B', 'K', 'M', 'G', 'T', 'P', 'E', 'Z', 'Y' or 'R' or no character is expected)";

/// The character, those expected, whether the end is expected too, and the message. But for the first, no string has
/// such an error, and a caller can create it: the expected characters, which are none, one, two and more, are escaped.
const UNIT_ERROR_MESSAGES: &[(char, &[char], bool, &str)] = &rows! {
    ('x', &TEN, true, NO_UNIT),
    ('x', &['B', 'K', 'M'], false, "the character 'x' is incorrect ('B', 'K' or 'M' is expected)"),
    ('x', &['\n', '\'', 'é'], false, "the character 'x' is incorrect ('\\n', '\\'' or 'é' is expected)"),
    ('\u{1F600}', &[], false, "the character '\u{1F600}' is incorrect (no character is expected)"),
    ('x', &['\u{1F600}'], true, "the character 'x' is incorrect ('\u{1F600}' or no character is expected)"),
    ('x', &['B', '\u{1F600}'], true, "the character 'x' is incorrect ('B' or '\u{1F600}' or no character is expected)"),
    ('x', &['B', '\u{1F600}', '\u{10FFFF}', 'b'], true,
        "the character 'x' is incorrect ('B', '\u{1F600}', '\\u{10ffff}' or 'b' or no character is expected)"),
    ('\0', &['B', 'b'], true, "the character '\\0' is incorrect ('B' or 'b' or no character is expected)"),
};

#[test]
fn messages_of_unit_errors(rt: HostRuntime) {
    assert_unit_texts(&rt, rt.alloc(), UNIT_ERROR_MESSAGES);
}

#[test]
fn messages_of_number_errors(rt: HostRuntime) {
    let price = Decimal::from_u128_with_scale(5084, 2).expect(&rt, "a decimal");
    for (error, wanted) in rows! {
        (ValueParseError::ExceededBounds(price), "the value 50.84 exceeds the valid range"),
        (ValueParseError::NotNumber('é'), "the character 'é' is not a number"),
        (ValueParseError::NotNumber('\0'), "the character '\\0' is not a number"),
        (ValueParseError::NoValue, "no value can be found"),
        (ValueParseError::NumberTooLong, "value number is too long"),
    } {
        assert_value_text(&rt, rt.alloc(), error, wanted);
    }
}

#[test]
fn messages_without_fields(rt: HostRuntime) {
    let alloc = rt.alloc();
    let exceeded = "value exceeds the valid range";
    assert_text_and_flags(&rt, alloc, &ExceededBoundsError, exceeded);
    assert_display(&rt, alloc, &JsonSizeError::NotString, "not a JSON string");
    assert_display(&rt, alloc, &JsonUnitError::NotString, "not a JSON string");
}
