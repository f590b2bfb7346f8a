//! Hints: for a string that is rejected, how the size that was meant is written.

ghost use Rattle.std.specs.Prelude.{◌≡◌, ◌≤◌, ◌+◌, ◌++◌, length, slice_index, not, nat_eq};
ghost use Rattle.std.specs.List.{prefix_len};
ghost use Rattle.std.specs.Option.{option_map};
ghost use Rattle.std.specs.Str.{IsAscii};
ghost use Rattle.byte_unit_base.specs.Grammar.SizeText.{trim_of};
ghost use Rattle.byte_unit_base.specs.Grammar.Units.{shape_of};
ghost use Rattle.byte_unit_base.specs.Errors.Hints.{is_size, number_len, has_other_form, is_hexadecimal};
ghost use Rattle.byte_unit_base.specs.Errors.Hints.{is_other_number, is_grouped, rated_len, is_rate};
ghost use Rattle.byte_unit_base.specs.Errors.Hints.{abbreviated_unit, before_word, meant_unit, word_hint};
ghost use Rattle.byte_unit_base.specs.Errors.Hints.{hint_for, hint_of};

use crate::Unit;
use crate::read::unit::unit_with_prefix;
use crate::read::{read_number_and_unit, trimmed};
use crate::spec::Flags;
use crate::words::{
    ends_in, is_same, letter_power, name_at, read_ascii_in_words, singular, unit_of_word,
    word_start,
};
use std::fmt;

/// How a size is written that a rejected string was meant to be.
#[derive(Clone, Copy, Debug, PartialEq, Eq)]
pub enum Hint {
    /// The string is a size in words, and this is the name of its unit.
    Word(Unit),
    /// This is the name of the unit that is meant.
    Unit(Unit),
    /// The string is a rate, as in `1 Mbps` and `1.5 GB/s`.
    Rate,
    /// The digits are grouped, or the decimal point is a comma.
    Grouped,
    /// The size is negative.
    Negative,
    /// A number is expected at the beginning, and has another form.
    Number,
}

/// Returns a hint for a string that is rejected. Returns `None` if the string is in the grammar or has none.
///
/// # Examples
/// ```rust
/// assert_eq!(rt; hint_of("5 bytes"), Some(Hint::Word(Unit::B)));
/// assert_eq!(rt; hint_of("2 gigs"), Some(Hint::Unit(Unit::GB)));
/// assert_eq!(rt; (hint_of("1 Mbps"), hint_of("1,024")), (Some(Hint::Rate), Some(Hint::Grouped)));
/// assert_eq!(rt; (hint_of("5 B"), hint_of("5 bb")), (None, None));
/// ```
pub fn hint_of(s: &str) -> Option<Hint>
    ensures { result ≡ hint_of (trim_of s.now) }
{
    let text = trimmed(s);
    if text.is_ascii() {
        hint_for(text.as_bytes())
    } else {
        None
    }
}

/// Returns a hint for a text of ASCII.
fn hint_for(text: &[u8]) -> Option<Hint>
    requires { IsAscii text.now }
    ensures { result ≡ hint_for text.now }
{
    if is_size(text) {
        None
    } else if byte_at(text, 0) == b'-' {
        Some(Hint::Negative)
    } else if is_other_number(text) {
        Some(Hint::Number)
    } else if is_grouped(text) {
        Some(Hint::Grouped)
    } else if is_rate(text) {
        Some(Hint::Rate)
    } else {
        word_hint(text)
    }
}

/// Returns a hint for a text that ends in a word.
fn word_hint(text: &[u8]) -> Option<Hint>
    requires { IsAscii text.now }
    ensures { result ≡ word_hint text.now }
{
    match read_ascii_in_words(text, Flags::ANY) {
        Some(found) => Some(Hint::Word(found.unit)),
        None => Some(Hint::Unit(meant_unit(text)?)),
    }
}

/// Returns whether a text is in the grammar.
fn is_size(text: &[u8]) -> bool
    requires { IsAscii text.now }
    ensures { result ≡ is_size text.now }
{
    match read_number_and_unit::<true>(text, text, Flags::ANY) {
        Ok(_) => true,
        Err(_) => false,
    }
}

/// Returns the byte at an index, or 0 past the end.
fn byte_at(text: &[u8], index: usize) -> u8
    ensures { result ≡ slice_index text.now index }
{
    if index < text.len() { text[index] } else { 0 }
}

/// Returns how many bytes at the beginning of a text are digits or points.
fn number_len(text: &[u8]) -> usize
    ensures len { result ≡ number_len text.now }
    ensures bound { result ≤ length text.now }
{
    let mut len = 0;
    'number: while len < text.len() && (text[len].is_ascii_digit() || text[len] == b'.') {
        len += 1;
    }
    len
}

/// Returns whether a number that goes on with these bytes has another form.
fn has_other_form(next: u8, after: u8) -> bool
    ensures { result ≡ has_other_form next after }
{
    let exponent = after.is_ascii_digit() || after == b'+' || after == b'-';
    ((next == b'e' || next == b'E') && exponent) || next == b'^' || next == b'*' || next == b'%'
}

/// Returns whether a text begins with `0x`.
fn is_hexadecimal(text: &[u8]) -> bool
    ensures { result ≡ is_hexadecimal text.now }
{
    let next = byte_at(text, 1);
    byte_at(text, 0) == b'0' && (next == b'x' || next == b'X')
}

/// Returns whether a text does not begin with a number as the grammar has it.
fn is_other_number(text: &[u8]) -> bool
    ensures { result ≡ is_other_number text.now }
{
    let len = number_len(text);
    !byte_at(text, 0).is_ascii_digit()
        || byte_at(text, len.saturating_sub(1)) == b'.'
        || has_other_form(byte_at(text, len), byte_at(text, len + 1))
        || is_hexadecimal(text)
}

/// Returns whether digits are grouped.
fn is_grouped(text: &[u8]) -> bool
    ensures { result ≡ is_grouped text.now }
{
    let len = number_len(text);
    let next = byte_at(text, len);
    byte_at(text, len + 1).is_ascii_digit()
        && (next == b',' || next == b' ' || next == b'_' || next == b'\'')
}

/// Returns how long a text is before `ps` at its end, or before its first `/`.
fn rated_len(text: &[u8]) -> usize
    ensures len { result ≡ rated_len text.now }
    ensures bound { result ≤ length text.now }
{
    if ends_in(text, b"ps") {
        text.len() - 2
    } else {
        slash_index(text)
    }
}

/// Returns the index of the first `/` of a text, or its length if it has none.
fn slash_index(text: &[u8]) -> usize
    ensures index { result ≡ prefix_len (λ c. not (nat_eq c 47)) text.now }
    ensures bound { result ≤ length text.now }
{
    let mut index = 0;
    'bytes: while index < text.len() && text[index] != b'/' {
        index += 1;
    }
    index
}

/// Returns whether a text is a size and what it is per second.
fn is_rate(text: &[u8]) -> bool
    requires { IsAscii text.now }
    ensures { result ≡ is_rate text.now }
{
    let size = &text[..rated_len(text)];
    size.len() < text.len() && (is_size(size) || read_ascii_in_words(size, Flags::ANY).is_some())
}

/// Returns the unit of bytes with the prefix whose name begins with a word of at least three letters.
#[tactic(auto, using(crate::proofs::UnitLetters::power_few))]
fn abbreviated_unit(word: &[u8]) -> Option<Unit>
    ensures { option_map shape_of result ≡ abbreviated_unit word.now }
{
    let one = singular(word);
    let power = letter_power(byte_at(one, 0));
    if power == 0 {
        return None;
    }
    let name = name_at(power, false);
    if one.len() >= 3 && one.len() <= name.len() && is_same(one, &name[..one.len()]) {
        Some(unit_with_prefix(power, false, false))
    } else {
        None
    }
}

/// Returns the text before the word at its end, and before a hyphen there.
fn before_word(text: &[u8]) -> &[u8]
    ensures { result.now ≡ before_word text.now }
{
    let front = &text[..word_start(text)];
    if ends_in(front, b"-") {
        &front[..front.len() - 1]
    } else {
        front
    }
}

/// Returns the unit that the word at the end of a text means, if a size is before it.
fn meant_unit(text: &[u8]) -> Option<Unit>
    requires { IsAscii text.now }
    ensures { option_map shape_of result ≡ meant_unit text.now }
{
    if !is_size(before_word(text)) {
        return None;
    }
    let word = &text[word_start(text)..];
    match unit_of_word(word) {
        Some(unit) => Some(unit),
        None => abbreviated_unit(word),
    }
}

impl Hint {
    ghost use Rattle.byte_unit_base.specs.Errors.Hints.{hint_text};

    /// Returns the words of the hint: what is before the name of a unit, the name, and what is after it, at most 64
    /// bytes in all. Words without a unit are in the first part.
    ///
    /// # Examples
    /// ```rust
    /// assert_eq!(rt; Hint::Unit(Unit::GB).parts(), ("write '", "GB", "'"));
    /// assert_eq!(rt; Hint::Negative.parts(), ("a size is not negative", "", ""));
    /// ```
    pub fn parts(self) -> (&'static str, &'static str, &'static str)
        ensures words { hint_text self ≡ result.0.now ++ (result.1.now ++ result.2.now) }
        ensures room { length result.0.now + length result.2.now ≤ 61 }
        ensures short { length result.1.now ≤ 3 }
    {
        match self {
            Hint::Word(unit) => (
                "write '",
                unit.as_str(),
                "', or read it with the option 'words'",
            ),
            Hint::Unit(unit) => ("write '", unit.as_str(), "'"),
            Hint::Rate => (
                "a size has no rate: leave out what it is per second",
                "",
                "",
            ),
            Hint::Grouped => ("digits are not grouped, and the point is '.'", "", ""),
            Hint::Negative => ("a size is not negative", "", ""),
            Hint::Number => ("a size begins with a number as in '12' or '1.5'", "", ""),
        }
    }
}

/// Writes the words of the hint. The flags of the formatter are ignored.
impl fmt::Display for Hint {
    ghost use Rattle.std.specs.Prelude.{Some};
    ghost use Rattle.byte_unit_base.specs.Errors.Hints.{hint_text};

    ghost output = { λ hint. Some (hint_text hint) };

    fn fmt<W: fmt::Write>(&self, f: &mut fmt::Formatter<W>) -> fmt::Result {
        let (before, unit, after) = self.parts();
        write!(f, "{before}{unit}{after}")
    }
}
