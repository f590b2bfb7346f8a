//! The errors of parsing in the C API: a code, and a struct of details.

ghost use Rattle.std.specs.Prelude.{◌≡◌, ℕ, List, slice_set};
ghost use Rattle.byte_unit_base.specs.Errors.Meaning.{size_fault, value_fault};
ghost use Rattle.byte_unit_base.specs.Errors.Expected.{expected_codes};
ghost use Rattle.byte_unit_base.specs.Errors.Fault.{bad_unit};
ghost use Rattle.byte_unit_c.specs.Error.{code_of, expected_bytes, IsErrorOf};

use crate::values::DecimalParts;
use byte_unit_base::{Expected, ParseError, ValueParseError};

/// The details of a parse error. A field that the error's code does not use is zero.
#[repr(C)]
#[derive(Clone, Copy)]
pub struct Error {
    /// With `NOT_NUMBER` and `UNIT`: the code point of the character that was rejected.
    pub character: u32,
    /// With `UNIT`: 1 if the string could end before that character, and else 0.
    pub also_expect_no_character: u8,
    /// With `UNIT`: the characters that are expected in its place, in ASCII, followed by at least one zero byte.
    pub expected: [u8; 16],
    /// With `EXCEEDED_BOUNDS`: the number in the string, without its unit.
    pub number: DecimalParts,
    /// With every other code: the index in bytes of the first wrong character, as `byte_unit_error_position` and
    /// `byte_unit_unit_error_position` write it.
    pub position: usize,
}

/// Success: the string represents a size.
pub const OK: u32 = 0;

/// The string is empty or has only white space.
pub const NO_VALUE: u32 = 1;

/// A digit is expected in place of the character, or after it if the string ends with a decimal point.
pub const NOT_NUMBER: u32 = 2;

/// The integer part is 2^112 or more, or more than 28 digits follow the decimal point.
pub const NUMBER_TOO_LONG: u32 = 3;

/// The size is 10^30 or more.
pub const EXCEEDED_BOUNDS: u32 = 4;

/// The unit is misspelled.
pub const UNIT: u32 = 5;

/// The bytes are not UTF-8.
pub const NOT_UTF8: u32 = 6;

/// A flag is unknown, or the offsets and lengths of many texts do not fit each other.
pub const INVALID_ARGUMENT: u32 = 7;

impl Error {
    /// Every field zero: what the details of each error begin with.
    pub const NONE: Error = Error {
        character: 0,
        also_expect_no_character: 0,
        expected: [0; 16],
        number: DecimalParts::ZERO,
        position: 0,
    };

    /// Returns the details of an error in the number, at a position. Its code is [`value_code`].
    pub fn of_value(error: ValueParseError, position: usize) -> Error
        ensures details { IsErrorOf (value_fault error) result }
        ensures position { result.position ≡ position }
    {
        let base = Error {
            position,
            ..Error::NONE
        };
        match error {
            ValueParseError::ExceededBounds(number) => {
                let number = DecimalParts::new(number);
                Error { number, ..base }
            }
            ValueParseError::NotNumber(c) => {
                let character = c as u32;
                Error { character, ..base }
            }
            ValueParseError::NoValue => base,
            ValueParseError::NumberTooLong => base,
        }
    }

    /// Returns the details of an error in the unit, from its character, the bytes of the expected characters, whether
    /// the string could end there, and the position. Its code is `UNIT`.
    pub fn of_unit_parts(
        character: char,
        expected: [u8; 16],
        may_end: bool,
        position: usize,
    ) -> Error
        ensures details { (characters : List ℕ) → expected ≡ expected_bytes characters
            → IsErrorOf (bad_unit character characters may_end) result }
        ensures position { result.position ≡ position }
    {
        Error {
            character: character as u32,
            also_expect_no_character: may_end as u8,
            expected,
            position,
            ..Error::NONE
        }
    }

    /// Writes the details to the first of `errors`, if it is not empty.
    pub fn write(self, errors: &mut [Error])
        ensures { errors.new ≡ slice_set errors.old 0 self }
    {
        if !errors.is_empty() {
            errors[0] = self;
        }
    }
}

/// Returns the code of an error.
pub fn code_of(error: &ParseError) -> u32
    ensures { result ≡ code_of (size_fault error.now) }
{
    match error {
        ParseError::Value(error) => value_code(error),
        ParseError::Unit(_) => UNIT,
    }
}

/// Returns the code of an error in the number.
pub fn value_code(error: &ValueParseError) -> u32
    ensures { result ≡ code_of (value_fault error.now) }
{
    match error {
        ValueParseError::ExceededBounds(_) => EXCEEDED_BOUNDS,
        ValueParseError::NotNumber(_) => NOT_NUMBER,
        ValueParseError::NoValue => NO_VALUE,
        ValueParseError::NumberTooLong => NUMBER_TOO_LONG,
    }
}

/// Returns the characters that an error names as expected, all of them ASCII, padded with zeros to 16 bytes, so that C
/// can read them as a string.
pub fn bytes_of(expected: Expected) -> [u8; 16]
    ensures { result ≡ expected_bytes (expected_codes expected) }
{
    EXPECTED_BYTES[expected as usize]
}

/// The bytes of each `Expected`, in their order. `tools/dev render tables` renders them from its characters.
static EXPECTED_BYTES: [[u8; 16]; 8] = [
    *b"BKMGTPEZYR\0\0\0\0\0\0",
    *b"Bb\0\0\0\0\0\0\0\0\0\0\0\0\0\0",
    *b"B\0\0\0\0\0\0\0\0\0\0\0\0\0\0\0",
    *b"b\0\0\0\0\0\0\0\0\0\0\0\0\0\0\0",
    *b"i\0\0\0\0\0\0\0\0\0\0\0\0\0\0\0",
    *b"t\0\0\0\0\0\0\0\0\0\0\0\0\0\0\0",
    *b"s\0\0\0\0\0\0\0\0\0\0\0\0\0\0\0",
    [0; 16],
];
