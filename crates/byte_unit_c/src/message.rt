//! The messages of errors, with their locations.

ghost use Rattle.std.specs.Prelude.{◌≡◌, ◌<◌, ◌≤◌, ◌∷◌, ◌++◌, length, [], Some, IfSome, IsTrue, codes};
ghost use Rattle.std.specs.Fmt.{debug_char, ◌++?◌};
ghost use Rattle.std.specs.Fmt.Cut.{IsTextOrCut};
ghost use Rattle.std.specs.Fmt.InlineText.{inline_text};
ghost use Rattle.byte_unit_base.specs.Errors.Position.{location_words};
ghost use Rattle.byte_unit_base.specs.Errors.Meaning.{size_fault};
ghost use Rattle.byte_unit_base.specs.Errors.Expected.{expected_codes, named_in};
ghost use Rattle.byte_unit_base.specs.Errors.Text.{parse_text, expected_text, located_text};
ghost use Rattle.byte_unit_format.specs.Written.{WritesForm};
ghost use Rattle.byte_unit_math.specs.PutBefore.{IsPutBefore};
ghost use Rattle.byte_unit_c.specs.Parse.{IsErrorText, quoting};

use crate::texts::write;
use byte_unit_base::{Expected, LocatedError, Location, ParseError, ValueParseError};
use byte_unit_format::put;
use byte_unit_math::{decimal_len, put_u128};
use std::fmt::InlineText;

/// The words for the end of a text.
const END: &[u8] = b" (at the end of the text)";

/// Writes the message of an error, and after it its location, to the start of `out` if they fit, and returns their
/// length, at most 256 bytes.
///
/// Most messages are known but for a character and its number, and are put together without a `Formatter`, for the row
/// `explain 1 byte` of docs/SPEED.md.
///
/// Precondition (proved at every call): `error.expected` is what the error names as expected.
pub fn write_message(error: &LocatedError, out: &mut [u8]) -> usize
    requires { expected_codes error.now.expected ≡ named_in (size_fault error.now.error) }
    ensures positive { 0 < result }
    ensures text { WritesForm (IsErrorText error.now.error error.now.location) out.old out.new result }
    ensures bound { result ≤ 256 }
{
    match message_parts(error) {
        Some((character, rest)) => write_quoted(character, rest, error.location, out),
        None => write_formatted(error, out),
    }
}

/// Writes a message as `write_message` does, by its `Display`.
#[cold]
#[inline(never)]
fn write_formatted(error: &LocatedError, out: &mut [u8]) -> usize
    ensures positive { 0 < result }
    ensures text { WritesForm (IsErrorText error.now.error error.now.location) out.old out.new result }
    ensures bound { result ≤ 256 }
{
    write(some_message(message_of(error).as_str().as_bytes()), out)
}

/// Returns the character that the message of an error quotes, and what follows it there. Returns `None` if it quotes no
/// character, or not as it is.
fn message_parts(error: &LocatedError) -> Option<(u8, &'static [u8])>
    requires { expected_codes error.now.expected ≡ named_in (size_fault error.now.error) }
    ensures text { IfSome result (λ found. parse_text error.now.error
        ≡ Some (codes "the character '" ++ found.0 ∷ found.1.now)) }
    // So the whole message has at most 256 bytes.
    ensures bound { IfSome result (λ found. length found.1.now ≤ 100) }
{
    match &error.error {
        ParseError::Value(ValueParseError::NotNumber(c)) if is_plain(*c) => {
            Some((*c as u8, b"' is not a number"))
        }
        ParseError::Unit(unit) if is_plain(unit.character) => {
            let rest = rest_of_message(error.expected, unit.also_expect_no_character)?;
            Some((unit.character as u8, rest))
        }
        _ => None,
    }
}

/// Returns whether a message has the character between quotes (39) as it is.
#[tactic(auto, using(crate::proofs::Escapes::letter))]
fn is_plain(c: char) -> bool
    ensures { IsTrue result → (c < 128) × (debug_char c ≡ Some (39 ∷ c ∷ 39 ∷ [])) }
{
    // The printable ASCII characters, without the two that `Debug` escapes.
    (' ' <= c) & (c <= '~') & (c != '\'') & (c != '\\')
}

/// Returns the rest of the message of an error in the unit, after its character, from what is expected and whether the
/// string could end there. Returns `None` if no parser returns such an error.
#[tactic(auto, using(crate::proofs::Escapes::letter))]
fn rest_of_message(expected: Expected, may_end: bool) -> Option<&'static [u8]>
    ensures text { IfSome result (λ rest. Some (codes "' is incorrect")
        ++? expected_text (expected_codes expected) may_end ≡ Some rest.now) }
    ensures bound { IfSome result (λ rest. length rest.now ≤ 100) }
{
    match (expected, may_end) {
        (Expected::Beginning, true) => Some(
            b"' is incorrect ('B', 'K', 'M', 'G', 'T', 'P', 'E', 'Z', 'Y' or 'R' or no character is expected)",
        ),
        (Expected::EitherB, true) => Some(
            b"' is incorrect ('B' or 'b' or no character is expected)",
        ),
        (Expected::UpperB, true) => Some(b"' is incorrect ('B' or no character is expected)"),
        (Expected::LowerB, true) => Some(b"' is incorrect ('b' or no character is expected)"),
        (Expected::I, true) => Some(b"' is incorrect ('i' or no character is expected)"),
        (Expected::T, false) => Some(b"' is incorrect ('t' is expected)"),
        (Expected::S, true) => Some(b"' is incorrect ('s' or no character is expected)"),
        (Expected::Nothing, true) => Some(b"' is incorrect (no character is expected)"),
        _ => None,
    }
}

/// Writes `the character '`, a character of ASCII, the rest of a message and the words for a location to the start of
/// `out` if they fit, and returns their length.
fn write_quoted(character: u8, rest: &[u8], location: Location, out: &mut [u8]) -> usize
    requires { length rest.now ≤ 100 }
    ensures text { WritesForm (λ form. form ≡ quoting character rest.now location) out.old out.new result }
    ensures bound { result ≤ 256 }
{
    // The beginning has 15 bytes, and the character one.
    let len = 16 + rest.len() + location_len(location);
    if len <= out.len() {
        put_quoted(character, rest, location, out, len);
    }
    len
}

/// Returns the length of the words for a location.
fn location_len(location: Location) -> usize
    ensures len { result ≡ length (location_words location) }
    ensures bound { result ≤ 52 }
{
    match location {
        Location::Whole => 0,
        // ` (character ` has 12 bytes, and `)` one.
        Location::Character(number) => 13 + decimal_len(number as u128),
        Location::End => END.len(),
    }
}

/// Writes what `write_quoted` does so that it ends before the index `end`, and returns the index where it begins.
fn put_quoted(character: u8, rest: &[u8], location: Location, out: &mut [u8], end: usize) -> usize
    requires room { length (quoting character rest.now location) ≤ end }
    requires end_bound { end ≤ length out.old }
    ensures { IsPutBefore (quoting character rest.now location) end out.old out.new result }
{
    let after = put_location(location, out, end);
    let quote = put(rest, out, after);
    let beginning = put(&[character], out, quote);
    put(b"the character '", out, beginning)
}

/// Writes the words for a location so that they end before the index `end`, and returns the index where they begin.
fn put_location(location: Location, out: &mut [u8], end: usize) -> usize
    requires room { length (location_words location) ≤ end }
    requires end_bound { end ≤ length out.old }
    ensures { IsPutBefore (location_words location) end out.old out.new result }
{
    match location {
        Location::Whole => end,
        Location::Character(number) => {
            let digits = put(b")", out, end);
            let words = put_u128(number as u128, out, digits);
            put(b" (character ", out, words)
        }
        Location::End => put(END, out, end),
    }
}

/// Returns the message of an error. The longest message has some 150 bytes, so none is truncated.
fn message_of(error: &LocatedError) -> InlineText<256>
    ensures { IfSome (located_text error.now.error error.now.location)
        (λ words. IsTextOrCut 256 words (inline_text result)) }
{
    InlineText::of(error)
}

/// Returns the message, or `the text is not a size` if it is empty. No message is empty, but std specifies no message
/// that quotes a character past ASCII.
fn some_message(message: &[u8]) -> &[u8]
    ensures kept { 0 < length message.now → result.now ≡ message.now }
    ensures missing { length message.now ≡ 0 → result.now ≡ codes "the text is not a size" }
{
    if message.is_empty() {
        b"the text is not a size"
    } else {
        message
    }
}
