//! Where and why the parsers stop, the character there, and the error by these.

ghost use Rattle.std.specs.Prelude.{◌≡◌, ℕ, Bool, ◌≤◌, length};
ghost use Rattle.byte_unit_base.specs.Reading.Ends.{word_of, letters_of, number_stop_fault, stop_fault};
ghost use Rattle.std.specs.Str.{IsAscii, chars};
ghost use Rattle.byte_unit_base.specs.Errors.Meaning.{size_fault, value_fault};
ghost use Rattle.byte_unit_base.specs.Errors.Expected.{expected_codes, named_in};
ghost use Rattle.byte_unit_base.specs.Errors.Position.{begins_character, character_number, location_at, next_char};

use crate::spec::Flags;
use crate::unit::tables::BEGINNING;
use crate::{Location, ParseError, UnitParseError, ValueParseError};

/// The letters of a suffix (`B`, `b`, `bit`, `bits`) read so far, in either case.
#[derive(Clone, Copy)]
pub enum Word {
    /// Nothing.
    Empty,
    /// `B` or `b`.
    B,
    /// `bi`.
    Bi,
    /// `bit`.
    Bit,
    /// `bits`.
    Bits,
}

/// What is kept of a unit in which the parser stops: enough for its error.
#[derive(Clone, Copy)]
pub struct UnitStop {
    /// Whether a prefix has been read.
    pub has_prefix: bool,
    /// What has been read of the suffix.
    pub word: Word,
}

/// Why the parser of a number stops.
#[derive(Clone, Copy)]
pub enum NumberStop {
    /// A digit is missing at the start.
    NoWhole,
    /// A digit is missing after the point.
    NoFraction,
    /// The whole part reaches its limit, or the fraction has more than 28 digits.
    TooLong,
}

/// Why the parser of a number and a unit stops.
#[derive(Clone, Copy)]
pub enum Reason {
    /// A digit is missing, or is one too many.
    InNumber(NumberStop),
    /// A character cannot continue the unit, or the unit is incomplete. Holds what was read before that character.
    InUnit(UnitStop),
}

/// Where a parser stops in bytes that are not trimmed, and why.
#[derive(Clone, Copy)]
pub struct ByteStop<R> {
    /// The index in bytes of the character that is rejected. Only ASCII is before it.
    pub index: usize,
    /// Why it stops.
    pub reason: R,
}

/// Where a parser stops in a string, and why. [`error_at`] makes the error of a size of it, and
/// [`UnitStop::error_before`] that of a unit.
#[derive(Clone, Copy)]
pub struct Stop<R> {
    /// Why it stops.
    pub reason: R,
    /// The first wrong character, or `None` if the string ends too early.
    pub next: Option<char>,
    /// The index in bytes of that character. If there is none, the index of the end, before white space there; of white
    /// space alone, its length.
    pub index: usize,
}

/// The characters that the error of a unit names as expected.
#[derive(Clone, Copy)]
pub enum Expected {
    /// `B` and the capital letters of the prefixes.
    Beginning,
    /// `B` and `b`.
    EitherB,
    /// `B`.
    UpperB,
    /// `b`.
    LowerB,
    /// `i`.
    I,
    /// `t`.
    T,
    /// `s`.
    S,
    /// No character.
    Nothing,
}

impl UnitStop {
    ghost use Rattle.byte_unit_base.specs.Reading.Ends.{stop_parser_state};
    ghost use Rattle.byte_unit_base.specs.Reading.Ends.{unit_stop_fault};
    ghost use Rattle.byte_unit_base.specs.Errors.Expected.{expected_codes, named_in};
    ghost use Rattle.byte_unit_base.specs.Grammar.Version.{current};
    ghost use Rattle.byte_unit_base.specs.Errors.Fault.{fault_at};
    ghost use Rattle.byte_unit_base.specs.Errors.Meaning.{unit_fault};

    /// Returns the error of a string in which the parser of a unit stops here, by the character there.
    ///
    /// # Examples
    /// ```rust
    /// let flags = ParseSpec::BYTES.flags();
    /// let error = read_unit_text("Kix", flags).map_err(|stop| stop.reason.error_before(stop.next, flags));
    /// assert!(rt; matches!(error, Err(UnitParseError { character: 'x', .. })));
    /// ```
    #[inline(always)]
    pub fn error_before(self, next: Option<char>, flags: Flags) -> UnitParseError
        ensures { unit_fault result ≡ unit_stop_fault flags self next }
    {
        match next {
            Some(c) => UnitParseError {
                character: c,
                expected_characters: self.expected(flags).characters(),
                also_expect_no_character: !matches!(self.word, Word::Bi),
            },
            None => UnitParseError::STOPS_AT_BI,
        }
    }

    /// Returns what the error of `error_before` names as expected.
    ///
    /// # Examples
    /// ```rust
    /// let flags = ParseSpec::BYTES.flags();
    /// let named = read_unit_text("Kix", flags).map_err(|stop| stop.reason.expected_before(stop.next, flags));
    /// assert!(rt; matches!(named, Err(Expected::EitherB)));
    /// ```
    #[inline(always)]
    pub fn expected_before(self, next: Option<char>, flags: Flags) -> Expected
        ensures { expected_codes result ≡ named_in (unit_stop_fault flags self next) }
    {
        match next {
            Some(_) => self.expected(flags),
            None => Expected::Nothing,
        }
    }

    /// Returns what is expected in place of a character that cannot continue a unit. After a prefix it is both letters
    /// if case counts, and else the letter of the preferred kind.
    #[inline(always)]
    fn expected(self, flags: Flags) -> Expected
        ensures { (c : ℕ) → expected_codes result
            ≡ named_in (fault_at current flags (stop_parser_state self) c) }
    {
        match self.word {
            Word::Empty if !self.has_prefix => Expected::Beginning,
            Word::Empty if !flags.ignore_case => Expected::EitherB,
            Word::Empty if flags.prefer_byte => Expected::UpperB,
            Word::Empty => Expected::LowerB,
            Word::B => Expected::I,
            Word::Bi => Expected::T,
            Word::Bit => Expected::S,
            Word::Bits => Expected::Nothing,
        }
    }
}

impl NumberStop {
    /// Returns the error of a string in which the parser of a number stops for this reason, by the character there.
    ///
    /// # Examples
    /// ```rust
    /// assert!(rt; matches!(NumberStop::NoWhole.error_before(Some('x')), ValueParseError::NotNumber('x')));
    /// assert!(rt; matches!(NumberStop::NoFraction.error_before(None), ValueParseError::NotNumber('.')));
    /// ```
    #[inline(always)]
    pub fn error_before(self, next: Option<char>) -> ValueParseError
        ensures { value_fault result ≡ number_stop_fault self next }
    {
        match self {
            NumberStop::NoWhole => match next {
                Some(c) => ValueParseError::NotNumber(c),
                None => ValueParseError::NoValue,
            },
            NumberStop::NoFraction => match next {
                Some(c) => ValueParseError::NotNumber(c),
                None => ValueParseError::NotNumber('.'),
            },
            NumberStop::TooLong => ValueParseError::NumberTooLong,
        }
    }
}

/// Returns the error of a string in which the parser stops for this reason, by the character there.
///
/// # Examples
/// ```rust
/// let flags = ParseSpec::BYTES.flags();
/// let error = error_at(Reason::InNumber(NumberStop::NoWhole), Some('x'), flags);
/// assert!(rt; matches!(error, ParseError::Value(ValueParseError::NotNumber('x'))));
/// ```
#[inline(always)]
pub fn error_at(reason: Reason, next: Option<char>, flags: Flags) -> ParseError
    ensures { size_fault result ≡ stop_fault flags reason next }
{
    match reason {
        Reason::InNumber(stop) => ParseError::Value(stop.error_before(next)),
        Reason::InUnit(stop) => ParseError::Unit(stop.error_before(next, flags)),
    }
}

/// Returns what the error of `error_at` names as expected.
#[inline(always)]
pub(crate) fn expected_at(reason: Reason, next: Option<char>, flags: Flags) -> Expected
    ensures { expected_codes result ≡ named_in (stop_fault flags reason next) }
{
    match reason {
        Reason::InNumber(_) => Expected::Nothing,
        Reason::InUnit(stop) => stop.expected_before(next, flags),
    }
}

/// Returns the location of an error at an index in bytes of a UTF-8 text, by the character there, or `None` at the end.
///
/// # Examples
/// ```rust
/// assert!(rt; matches!(location_at("é x".as_bytes(), 3, Some('x')), Location::Character(3)));
/// assert!(rt; matches!(location_at(b"1. ", 2, None), Location::End));
/// ```
pub fn location_at(text: &[u8], index: usize, next: Option<char>) -> Location
    ensures { result ≡ location_at text.now index next }
{
    match next {
        Some(_) => Location::Character(character_number(text, index)),
        None => Location::End,
    }
}

impl Expected {
    ghost use Rattle.byte_unit_base.specs.Errors.Expected.{expected_codes};

    /// Returns the characters.
    #[inline(always)]
    fn characters(self) -> &'static [char]
        ensures { result.now ≡ expected_codes self }
    {
        match self {
            Expected::Beginning => &BEGINNING,
            Expected::EitherB => &['B', 'b'],
            Expected::UpperB => &['B'],
            Expected::LowerB => &['b'],
            Expected::I => &['i'],
            Expected::T => &['t'],
            Expected::S => &['s'],
            Expected::Nothing => &[],
        }
    }
}

/// Returns the first `length` letters of `bits`, for the error of a unit in which the parser stops after them.
#[inline(always)]
pub(crate) fn letters(length: usize) -> Word
    requires bound { length ≤ 4 }
    ensures { (upper : Bool) → letters_of (word_of length upper) ≡ result }
{
    match length {
        0 => Word::Empty,
        1 => Word::B,
        2 => Word::Bi,
        3 => Word::Bit,
        _ => Word::Bits,
    }
}

/// Returns the number of the character at an index in bytes of a UTF-8 text, counted from 1.
fn character_number(text: &[u8], index: usize) -> usize
    ensures { result ≡ character_number text.now index }
{
    let before = text.get(..index).unwrap_or(text);
    before
        .iter()
        .filter(|byte| begins_character(**byte))
        .count()
        + 1
}

/// Returns `true` if a character of a UTF-8 text can begin with this byte. The bytes 0x80 to 0xBF continue one.
pub(crate) fn begins_character(byte: u8) -> bool
    ensures { result ≡ begins_character byte }
{
    !matches!(byte, 0x80..=0xBF)
}

/// Returns the first character of a string.
pub fn first_char(s: &str) -> Option<char>
    ensures { result ≡ next_char (chars s.now) }
{
    s.chars().next()
}

/// Returns the first character of ASCII bytes.
#[inline(always)]
pub fn first_ascii(bytes: &[u8]) -> Option<char>
    requires { IsAscii bytes.now }
    ensures { result ≡ next_char (chars bytes.now) }
{
    match bytes {
        [first, ..] => Some(char::from(*first)),
        [] => None,
    }
}
