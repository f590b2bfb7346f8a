//! Calls that read sizes in words, and hints.

use crate::answers::{Answer, parsed, quoted, shown};
use crate::row_error::RowError;
use crate::words::{CASES, KINDS, PREFIXES, named};
use byte_unit::{Bit, Byte, Kind, ParseSpec, hint_of};
use std::alloc::Global;

/// Returns the answer to a call with a text.
pub fn answer(alloc: Global, words: &[&str], text: &str) -> Answer {
    match words {
        ["words", kind, prefixes, case] => {
            let spec = ParseSpec {
                kind: named(kind, KINDS)?,
                ignore_case: named(case, CASES)?,
                binary: named(prefixes, PREFIXES)?,
                words: true,
            };
            match spec.kind {
                Kind::Byte => parsed(alloc, Some(Byte::parse_str_as(text, spec))),
                Kind::Bit => parsed(alloc, Some(Bit::parse_str_as(text, spec))),
            }
        }
        ["hint"] => match hint_of(text) {
            Some(hint) => quoted(alloc, hint),
            None => shown(alloc, "none"),
        },
        _ => Err(RowError::NoCall),
    }
}
