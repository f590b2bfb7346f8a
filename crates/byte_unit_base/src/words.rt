//! Words for units, as in `5 bytes`, `10 MegaBytes` and `3 kibibits`, and the parser of a size in words.

ghost use Rattle.std.specs.Prelude.{◌≡◌, ◌≤◌, ◌<◌, length, IfSome, if◌then◌else◌};
ghost use Rattle.std.specs.Option.{option_map};
ghost use Rattle.std.specs.Str.{IsUtf8, IsAscii, chars, str_eq_ignore_ascii_case};
ghost use Rattle.byte_unit_base.specs.Grammar.Units.{shape_of};
ghost use Rattle.byte_unit_base.specs.Grammar.SizeText.{trim_of};
ghost use Rattle.byte_unit_base.specs.Reading.Machines.{letter_power};
ghost use Rattle.byte_unit_base.specs.Reading.Words.{names_at, prefix_of_word, ends_in, counted_by_word, singular};
ghost use Rattle.byte_unit_base.specs.Reading.Words.{unit_of_word, word_start, measure_of_text, words_measure, in_words};

use crate::Unit;
use crate::read::unit::unit_with_prefix;
use crate::read::{Measure, read_number_and_unit, trimmed};
use crate::spec::{Flags, ParseSpec};
use crate::unit::tables::LETTER_POWERS;
use std::str;

/// Parses a number and a unit in words from a string that the grammar rejects, if words are read. White space at its
/// ends is ignored. Returns `None` if the string is not ASCII, or does not end in a word for a unit, or if what is
/// before the word is no size.
///
/// # Examples
/// ```rust
/// let found = measure_in_words(b" 10 MegaBytes ", ParseSpec::BYTES.reading_words(true));
/// assert!(rt; matches!(found, Some(Measure { unit: Unit::MB, .. })));
/// assert!(rt; measure_in_words(b"10 MegaBytes", ParseSpec::BYTES).is_none());
/// assert!(rt; measure_in_words(b"5 byte s", ParseSpec::BYTES.reading_words(true)).is_none());
/// ```
#[inline(always)]
pub fn measure_in_words(bytes: &[u8], spec: ParseSpec) -> Option<Measure>
    ensures { IsUtf8 bytes.now
        → option_map (λ found. (found.number, shape_of found.unit)) result ≡ in_words spec (trim_of bytes.now) }
{
    if spec.words {
        read_string_in_words(bytes, spec.flags())
    } else {
        None
    }
}

/// Parses the string that the bytes are, trimmed, in words.
#[cold]
#[inline(never)]
fn read_string_in_words(bytes: &[u8], flags: Flags) -> Option<Measure>
    ensures { IsUtf8 bytes.now
        → option_map (λ found. (found.number, shape_of found.unit)) result ≡ words_measure flags (trim_of bytes.now) }
{
    let text = str::from_utf8(bytes).ok()?;
    read_in_words(trimmed(text), flags)
}

/// Parses a trimmed string in words.
fn read_in_words(text: &str, flags: Flags) -> Option<Measure>
    ensures { option_map (λ found. (found.number, shape_of found.unit)) result ≡ words_measure flags (chars text.now) }
{
    if text.is_ascii() {
        read_ascii_in_words(text.as_bytes(), flags)
    } else {
        None
    }
}

/// Parses a text of ASCII in words.
pub(crate) fn read_ascii_in_words(text: &[u8], flags: Flags) -> Option<Measure>
    requires { IsAscii text.now }
    ensures { option_map (λ found. (found.number, shape_of found.unit)) result ≡ measure_of_text flags text.now }
{
    let (before, word) = text.split_at(word_start(text));
    match unit_of_word(word) {
        Some(unit) => match read_number_and_unit::<true>(before, before, flags) {
            Ok(found) => Some(Measure {
                unit,
                number: found.number,
            }),
            Err(_) => None,
        },
        None => None,
    }
}

/// Returns where the letters at the end of a text start.
pub(crate) fn word_start(text: &[u8]) -> usize
    ensures start { result ≡ word_start text.now }
    ensures bound { result ≤ length text.now }
{
    let mut start = text.len();
    'letters: while start > 0 && text[start - 1].is_ascii_alphabetic() {
        start -= 1;
    }
    start
}

/// Returns the unit that a word means: `KiloBytes` is KB, and `gig` means none.
pub(crate) fn unit_of_word(word: &[u8]) -> Option<Unit>
    ensures { option_map shape_of result ≡ unit_of_word word.now }
{
    let one = singular(word);
    let (len, bit) = counted_by_word(one)?;
    let (power, binary) = prefix_of_word(&one[..one.len() - len])?;
    Some(unit_with_prefix(power, binary, bit))
}

/// Returns how many letters at the end of a word say what is counted, and whether that is bits.
fn counted_by_word(word: &[u8]) -> Option<(usize, bool)>
    ensures { result ≡ counted_by_word word.now }
{
    if ends_in(word, b"byte") {
        Some((4, false))
    } else if ends_in(word, b"octet") {
        Some((5, false))
    } else if ends_in(word, b"bit") {
        Some((3, true))
    } else {
        None
    }
}

/// Returns a word without the `s` of its plural.
pub(crate) fn singular(word: &[u8]) -> &[u8]
    ensures { result.now ≡ singular word.now }
{
    if ends_in(word, b"s") {
        &word[..word.len() - 1]
    } else {
        word
    }
}

/// Returns whether a word ends in these letters, in either case.
pub(crate) fn ends_in(word: &[u8], letters: &[u8]) -> bool
    ensures { result ≡ ends_in word.now letters.now }
{
    is_same(&word[word.len().saturating_sub(letters.len())..], letters)
}

/// Returns whether two words are the same, in either case.
pub(crate) fn is_same(word: &[u8], other: &[u8]) -> bool
    ensures { result ≡ str_eq_ignore_ascii_case word.now other.now }
{
    word.eq_ignore_ascii_case(other)
}

/// Returns the position of a prefix, and whether it is binary, by its letters or by its name.
#[tactic(auto, using(crate::proofs::UnitLetters::power_few))]
fn prefix_of_word(prefix: &[u8]) -> Option<(usize, bool)>
    ensures prefix { result ≡ prefix_of_word prefix.now }
    ensures bound { IfSome result (λ found. found.0 ≤ 9) }
{
    let (letter, rest) = match prefix.split_first() {
        Some(parts) => parts,
        None => return Some((0, false)),
    };
    let power = letter_power(*letter);
    if power == 0 {
        None
    } else if is_same(rest, b"") || is_same(prefix, name_at(power, false)) {
        Some((power, false))
    } else if is_same(rest, b"i") || is_same(prefix, name_at(power, true)) {
        Some((power, true))
    } else {
        None
    }
}

/// Returns the position of the prefix of a letter, from 1, or 0 if it is that of none.
#[tactic(auto, using(crate::proofs::UnitLetters::power_in_table))]
pub(crate) fn letter_power(letter: u8) -> usize
    ensures { result ≡ letter_power letter }
{
    usize::from(LETTER_POWERS[letter as usize])
}

/// The decimal (SI) and the binary (IEC) name of each prefix.
const PREFIX_NAMES: [[&str; 2]; 9] = [
    ["kilo", "kibi"],
    ["mega", "mebi"],
    ["giga", "gibi"],
    ["tera", "tebi"],
    ["peta", "pebi"],
    ["exa", "exbi"],
    ["zetta", "zebi"],
    ["yotta", "yobi"],
    ["ronna", "robi"],
];

/// Returns the name of the prefix of a position, from 1 to 9.
pub(crate) fn name_at(power: usize, binary: bool) -> &'static [u8]
    requires { (0 < power) × (power ≤ 9) }
    ensures { result.now ≡ (if binary then (names_at power).1 else (names_at power).0) }
{
    PREFIX_NAMES[power - 1][usize::from(binary)].as_bytes()
}
