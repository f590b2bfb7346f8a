//! The errors of the parsers and of conversions to sizes.

ghost use Rattle.std.specs.Prelude.{◌≡◌, ⊤, Some};
ghost use Rattle.std.specs.Fmt.{DisplaysOnOk};
ghost use Rattle.byte_unit_base.specs.Errors.Text.{expected_text, others_text};

use crate::stop::Expected;
use byte_unit_math::Decimal;
use std::alloc::AllocError;
use std::error::Error;
use std::fmt;
use std::marker::Model;

/// The error returned when a number is negative or exceeds the maximum size.
///
/// # Examples
/// ```rust
/// assert!(rt; matches!(Byte::try_from(-1i8), Err(ExceededBoundsError)));
/// ```
#[derive(Clone, Copy, Debug, PartialEq, Eq)]
pub struct ExceededBoundsError;

/// The error of the number of a string.
///
/// # Examples
/// ```rust
/// let error = Byte::parse_str("x KB", false);
/// assert!(rt; matches!(error, Err(ParseError::Value(ValueParseError::NotNumber('x')))));
/// ```
#[derive(Clone, Copy, Debug)]
pub enum ValueParseError {
    /// The size is 10^30 or more. Holds the number as it was written, without its unit. `read_size` never returns it.
    ExceededBounds(Decimal),
    /// A digit is required in place of this character, or after it if the string ends in a point.
    NotNumber(char),
    /// The string is empty or white space alone.
    NoValue,
    /// The whole part exceeds 2^112 - 1, or more than 28 digits follow the point.
    NumberTooLong,
}

/// The error of the unit of a string.
///
/// # Examples
/// ```rust
/// let error = Unit::parse_str("Kx", false, true);
/// assert!(rt; matches!(error, Err(UnitParseError { character: 'x', also_expect_no_character: true, .. })));
/// ```
#[derive(Copy, Debug)]
pub struct UnitParseError {
    /// The first character that cannot continue a unit. If the string ends after the `bi` of a suffix, the character is
    /// `i`, also for an `I`.
    pub character: char,
    /// The characters that the message names as expected in its place, in this order. Others are valid there too, such
    /// as the other case of a letter, or an `i` after a prefix.
    pub expected_characters: &'static [char],
    /// Whether the string could end in its place.
    pub also_expect_no_character: bool,
}

/// The model is the record of the fields. It hides the reference from the borrow checker, which has no rule for passing
/// on a result that holds one beside a size.
impl Model for UnitParseError {
    ghost use Rattle.byte_unit_base.specs.Errors.UnitErrorView.{UnitErrorView};

    ghost Value = { UnitErrorView };

    ghost view = { λ e. record {
      character = e.character;
      expected_characters = e.expected_characters;
      also_expect_no_character = e.also_expect_no_character;
    } };

    ghost inverse = { λ e. record {
      character = e.character;
      expected_characters = e.expected_characters;
      also_expect_no_character = e.also_expect_no_character;
    } };
}

/// The error of a string that is not a size: the first error from the left.
///
/// # Examples
/// ```rust
/// assert!(rt; matches!(Byte::parse_str("20 mB?", false), Err(ParseError::Unit(_))));
/// assert_eq!(rt; Byte::parse_str("20 mB?", false).unwrap_or(Byte::GIBIBYTE), Byte::GIBIBYTE);
/// ```
#[derive(Copy, Debug)]
pub enum ParseError {
    /// The number is invalid, or the size is too large.
    Value(ValueParseError),
    /// The unit is invalid.
    Unit(UnitParseError),
}

/// Where a string is wrong, as messages have it.
#[derive(Clone, Copy)]
pub enum Location {
    /// All of the string: only its size is too large.
    Whole,
    /// At its first wrong character. Holds the number of the character, counted from 1.
    Character(usize),
    /// At its end, before white space there: it ends too early.
    End,
}

/// The error of a string that is not a size, and where the string is wrong: `size::explain` returns it.
#[derive(Drop)]
pub struct LocatedError {
    /// The error.
    pub error: ParseError,
    /// What the message names as expected: `Nothing` if it is no error of a unit.
    pub expected: Expected,
    /// Where the string is wrong.
    pub location: Location,
}

/// The error of a JSON value that is not a size.
///
/// # Examples
/// ```rust
/// use serde_json::Value;
///
/// assert!(rt; matches!(Byte::from_json(&Value::Bool(true)), Err(JsonSizeError::NotString)));
/// ```
#[derive(Copy, Debug)]
pub enum JsonSizeError {
    /// The value is not a string.
    NotString,
    /// The string is not a size.
    Parse(ParseError),
}

impl UnitParseError {
    /// The error of a string that ends after the `bi` of a suffix: it could have ended before that `i`.
    pub(crate) const STOPS_AT_BI: UnitParseError = UnitParseError {
        character: 'i',
        expected_characters: &[],
        also_expect_no_character: true,
    };
}

// `Clone` is written by hand where a model hides a reference: a derived `clone` of a type that is `Copy` is a copy, and
// the borrow checker has no rule for one here.

impl Clone for UnitParseError {
    ghost is_clone = { λ error copy. copy ≡ error };

    ghost is_infallible = { λ _. ⊤ };

    fn clone(&self) -> Result<UnitParseError, AllocError> {
        Ok(UnitParseError {
            character: self.character,
            expected_characters: self.expected_characters,
            also_expect_no_character: self.also_expect_no_character,
        })
    }
}

impl Clone for ParseError {
    ghost is_clone = { λ error copy. copy ≡ error };

    ghost is_infallible = { λ _. ⊤ };

    fn clone(&self) -> Result<ParseError, AllocError> {
        Ok(match self {
            ParseError::Value(error) => ParseError::Value(*error),
            ParseError::Unit(error) => ParseError::Unit(error.clone()?),
        })
    }
}

impl Clone for JsonSizeError {
    ghost is_clone = { λ error copy. copy ≡ error };

    ghost is_infallible = { λ _. ⊤ };

    fn clone(&self) -> Result<JsonSizeError, AllocError> {
        Ok(match self {
            JsonSizeError::NotString => JsonSizeError::NotString,
            JsonSizeError::Parse(error) => JsonSizeError::Parse(error.clone()?),
        })
    }
}

// `output` is what `Display` writes without flags of the formatter, and `styled_output` what it writes under any.

impl fmt::Display for ExceededBoundsError {
    ghost use Rattle.byte_unit_base.specs.Errors.Text.{exceeded_text};

    ghost output = { exceeded_text };

    ghost styled_output = { λ error spec. exceeded_text error };

    fn fmt<W: fmt::Write>(&self, f: &mut fmt::Formatter<W>) -> fmt::Result {
        f.write_str("value exceeds the valid range")
    }
}

impl Error for ExceededBoundsError {}

impl fmt::Display for ValueParseError {
    ghost use Rattle.byte_unit_base.specs.Errors.Text.{value_text, styled_value_text};

    ghost output = { value_text };

    ghost styled_output = { λ error spec. styled_value_text error };

    fn fmt<W: fmt::Write>(&self, f: &mut fmt::Formatter<W>) -> fmt::Result {
        match self {
            ValueParseError::ExceededBounds(value) => {
                // Not by `write!`, whose contract leaves out the flags of the formatter.
                f.write_str("the value ")?;
                fmt::Display::fmt(value, f)?;
                f.write_str(" exceeds the valid range")
            }
            ValueParseError::NotNumber(c) => write!(f, "the character {c:?} is not a number"),
            ValueParseError::NoValue => f.write_str("no value can be found"),
            ValueParseError::NumberTooLong => f.write_str("value number is too long"),
        }
    }
}

impl Error for ValueParseError {}

impl fmt::Display for UnitParseError {
    ghost use Rattle.byte_unit_base.specs.Errors.Text.{unit_text};

    ghost output = { unit_text };

    fn fmt<W: fmt::Write>(&self, f: &mut fmt::Formatter<W>) -> fmt::Result {
        write!(f, "the character {:?} is incorrect", self.character)?;
        write_expected(self.expected_characters, self.also_expect_no_character, f)
    }
}

impl Error for UnitParseError {}

impl From<ValueParseError> for ParseError {
    ghost use Rattle.byte_unit_base.specs.declared.errors.ParseError.TheVariants.{Value};

    ghost from_gives = { λ error result. result ≡ Value error };

    fn from(error: ValueParseError) -> Self {
        Self::Value(error)
    }
}

impl From<UnitParseError> for ParseError {
    ghost use Rattle.byte_unit_base.specs.declared.errors.ParseError.TheVariants.{Unit as UnitError};

    ghost from_gives = { λ error result. result ≡ UnitError error };

    fn from(error: UnitParseError) -> Self {
        Self::Unit(error)
    }
}

impl fmt::Display for ParseError {
    ghost use Rattle.byte_unit_base.specs.Errors.Text.{parse_text, styled_parse_text};

    ghost output = { parse_text };

    ghost styled_output = { λ error spec. styled_parse_text error };

    fn fmt<W: fmt::Write>(&self, f: &mut fmt::Formatter<W>) -> fmt::Result {
        match self {
            ParseError::Value(error) => fmt::Display::fmt(error, f),
            ParseError::Unit(error) => fmt::Display::fmt(error, f),
        }
    }
}

impl Error for ParseError {}

impl fmt::Display for LocatedError {
    ghost use Rattle.byte_unit_base.specs.Errors.Text.{located_text};

    ghost output = { λ e. located_text e.error e.location };

    fn fmt<W: fmt::Write>(&self, f: &mut fmt::Formatter<W>) -> fmt::Result {
        fmt::Display::fmt(&self.error, f)?;
        fmt::Display::fmt(&self.location, f)
    }
}

/// Writes the words that follow a message, with a space before them, or nothing if all of the string is wrong.
impl fmt::Display for Location {
    ghost use Rattle.byte_unit_base.specs.Errors.Position.{location_words};

    ghost output = { λ location. Some (location_words location) };

    fn fmt<W: fmt::Write>(&self, f: &mut fmt::Formatter<W>) -> fmt::Result {
        match self {
            Location::Whole => Ok(()),
            Location::Character(number) => write!(f, " (character {number})"),
            Location::End => f.write_str(" (at the end of the text)"),
        }
    }
}

/// Writes the part of the message that names the expected characters.
fn write_expected<W: fmt::Write>(
    expected: &[char],
    also_expect_no_character: bool,
    f: &mut fmt::Formatter<W>,
) -> fmt::Result
    ensures { DisplaysOnOk W.write_str_gives f.old result
        (expected_text expected.now also_expect_no_character) f.new }
{
    match expected {
        [] => f.write_str(" (no character is expected)"),
        [first, others @ ..] => {
            write!(f, " ({first:?}")?;
            write_others(others, f)?;
            if also_expect_no_character {
                f.write_str(" or no character")?;
            }
            f.write_str(" is expected)")
        }
    }
}

/// Writes the expected characters after the first.
fn write_others<W: fmt::Write>(others: &[char], f: &mut fmt::Formatter<W>) -> fmt::Result
    ensures { DisplaysOnOk W.write_str_gives f.old result (others_text others.now) f.new }
{
    let mut left = others;
    while let [c, rest @ ..] = left {
        let before = if rest.is_empty() { " or " } else { ", " };
        write!(f, "{before}{c:?}")?;
        left = rest;
    }
    Ok(())
}

impl fmt::Display for JsonSizeError {
    ghost use Rattle.byte_unit_base.specs.Errors.Text.{json_text, styled_json_text};

    ghost output = { json_text };

    ghost styled_output = { λ error spec. styled_json_text error };

    fn fmt<W: fmt::Write>(&self, f: &mut fmt::Formatter<W>) -> fmt::Result {
        match self {
            JsonSizeError::NotString => f.write_str("not a JSON string"),
            JsonSizeError::Parse(error) => fmt::Display::fmt(error, f),
        }
    }
}

impl Error for JsonSizeError {}
