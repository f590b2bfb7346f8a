//! The flags words of the C API. A flags word is a sum of flags: 1 for sizes of bits (and else of bytes), 2 for parsing
//! that ignores case, 4 for units of either kind, 8 for parsing in which decimal prefixes mean binary ones, and 16 for
//! parsing that reads words for units.

ghost use Rattle.std.specs.Prelude.{◌≡◌};
ghost use Rattle.byte_unit_c.specs.Flags.{kind_at, parse_spec_at, binary_spec_at, plain_spec_at, words_spec_at};
ghost use Rattle.byte_unit_c.specs.Flags.{any_spec_at, choice_flags_at};

use byte_unit_base::{Kind, ParseSpec};

/// The flag of sizes that are bits.
const BITS: u32 = 1;

/// The flag of parsing that ignores case.
const IGNORE_CASE: u32 = 2;

/// Both flags of a parsing call.
const BITS_AND_IGNORE_CASE: u32 = BITS | IGNORE_CASE;

/// The flag of a choice among the units of either kind.
const EITHER_KIND: u32 = 4;

/// The flag of parsing in which decimal prefixes mean binary ones.
const BINARY_PREFIXES: u32 = 8;

/// The flag of parsing that reads words for units.
const WORDS: u32 = 16;

/// The decoded flags of a choice of a unit.
#[derive(Clone, Copy)]
pub struct ChoiceFlags {
    /// The kind of the size.
    pub kind: Kind,
    /// Whether the units of either kind are chosen from.
    pub of_either: bool,
}

/// Returns the kind of sizes, by a word with the flag `BITS` or none. Returns `None` if the word has another flag.
pub fn kind_at(flags: u32) -> Option<Kind>
    ensures { result ≡ kind_at flags }
{
    match flags {
        0 => Some(Kind::Byte),
        BITS => Some(Kind::Bit),
        _ => None,
    }
}

/// Returns how to parse, by a word with the flags `BITS` and `IGNORE_CASE`, one of them, or none. Returns `None` if the
/// word has another flag.
pub fn parse_spec_at(flags: u32) -> Option<ParseSpec>
    ensures { result ≡ parse_spec_at flags }
{
    match flags {
        0 => Some(ParseSpec::BYTES),
        BITS => Some(ParseSpec::BITS),
        IGNORE_CASE => Some(ParseSpec::BYTES.ignoring_case(true)),
        BITS_AND_IGNORE_CASE => Some(ParseSpec::BITS.ignoring_case(true)),
        _ => None,
    }
}

/// Returns how to parse, by a word with the flag `BINARY_PREFIXES` and, beside it, `BITS` and `IGNORE_CASE`, one of
/// them, or none. Returns `None` if the word does not have the flag `BINARY_PREFIXES`, or has another flag.
pub fn binary_spec_at(flags: u32) -> Option<ParseSpec>
    ensures { result ≡ binary_spec_at flags }
{
    if flags < BINARY_PREFIXES {
        return None;
    }
    let spec = parse_spec_at(flags - BINARY_PREFIXES)?;
    Some(ParseSpec {
        binary: true,
        ..spec
    })
}

/// Returns how to parse without words, by a word with any of the flags of [`binary_spec_at`]. Returns `None` if the
/// word has another flag.
fn plain_spec_at(flags: u32) -> Option<ParseSpec>
    ensures { result ≡ plain_spec_at flags }
{
    if flags < BINARY_PREFIXES {
        parse_spec_at(flags)
    } else {
        binary_spec_at(flags)
    }
}

/// Returns how to parse, by a word with the flag `WORDS` and, beside it, any of the flags of [`binary_spec_at`].
/// Returns `None` if the word does not have the flag `WORDS`, or has another flag.
pub fn words_spec_at(flags: u32) -> Option<ParseSpec>
    ensures { result ≡ words_spec_at flags }
{
    if flags < WORDS {
        return None;
    }
    let spec = plain_spec_at(flags - WORDS)?;
    Some(spec.reading_words(true))
}

/// Returns how to parse, by a word with any of the flags of [`words_spec_at`]. Returns `None` if the word has another
/// flag.
pub fn any_spec_at(flags: u32) -> Option<ParseSpec>
    ensures { result ≡ any_spec_at flags }
{
    if flags < WORDS {
        plain_spec_at(flags)
    } else {
        words_spec_at(flags)
    }
}

/// Returns how to choose a unit, by a word with the flags `BITS` and `EITHER_KIND`, one of them, or none. Returns
/// `None` if the word has another flag.
#[tactic(auto, unfolding(crate::specs::Flags::choice_flags_at))]
pub fn choice_flags_at(flags: u32) -> Option<ChoiceFlags>
    ensures { result ≡ choice_flags_at flags }
{
    // The words with `EITHER_KIND` are 4 and 5; a greater one is left with an unknown flag.
    let of_either = flags >= EITHER_KIND;
    let kind = kind_at(if of_either {
        flags - EITHER_KIND
    } else {
        flags
    })?;
    Some(ChoiceFlags { kind, of_either })
}
