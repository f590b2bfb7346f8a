//! Calls on sizes: from numbers, as numbers, as JSON, in a unit, arithmetic and constants.

use crate::answers::{Answer, agreed, both, or_none, shown, string_of};
use crate::constants::constant;
use crate::row_error::RowError;
use crate::words::{KINDS, SETS, decimal_of, named, number_of, unit_of};
use byte_unit::{Bit, Byte, Steps};
use std::alloc::Global;

/// Evaluates the size of a type that has the number of a word.
macro_rules! size_of {
    ($size:ident, $number:expr) => {
        $size::from_u128(number_of($number)?).ok_or(RowError::Word)?
    };
}

/// Evaluates the answer to a call that makes a size of a type or calculates with it. A function answers the others.
macro_rules! made {
    ($size:ident, $other:ident, $alloc:expr, $words:expr) => {
        match $words {
            ["make_in", _, number, unit] => {
                or_none($alloc, $size::from_u128_with_unit(number_of(number)?, unit_of(unit)?))
            }
            ["make_decimal", _, number, unit] => {
                or_none($alloc, $size::from_decimal_with_unit(decimal_of(number)?, unit_of(unit)?))
            }
            // The nearest number of 64 bits, and the size itself if it fits.
            ["as_u64", _, number] => match $size::from_u128(number_of(number)?) {
                Some(size) => both($alloc, size.as_u64(), or_none($alloc, size.as_u64_checked())?),
                None => shown($alloc, "none"),
            },
            ["compute", _, size, operation, number] => {
                let size = size_of!($size, size);
                let computed = match *operation {
                    "add" => size.add(size_of!($size, number)),
                    "subtract" => size.subtract(size_of!($size, number)),
                    "multiply" => size.multiply(number_of(number)?),
                    "divide" => size.divide(number_of(number)?),
                    _ => return Err(RowError::Word),
                };
                or_none($alloc, computed)
            }
            _ => $other($alloc, $words),
        }
    };
}

/// Evaluates the answer to a call that gives a size of a type as JSON or in a unit.
macro_rules! in_unit {
    ($size:ident, $alloc:expr, $words:expr) => {
        match $words {
            ["json", _, size] => string_of($alloc, &size_of!($size, size).to_json($alloc)?),
            [call @ ("json" | "value"), _, size, "in", unit] => {
                let adjusted = size_of!($size, size).get_adjusted_unit(unit_of(unit)?);
                if *call == "json" {
                    return string_of($alloc, &adjusted.to_json($alloc)?);
                }
                let (bits, unit_bits) = adjusted.get_value();
                Ok(format!(in $alloc; "{bits}/{unit_bits}")?)
            }
            ["exact", _, set, size] => {
                let (number, unit) = size_of!($size, size).get_exact_unit(named(set, SETS)?);
                both($alloc, number, unit)
            }
            // By the call that counts steps, too.
            [call @ ("recoverable" | "steps"), _, set, places, size] => {
                let (size, set) = (size_of!($size, size), named(set, SETS)?);
                let (places, mut steps) = (number_of(places)?, Steps::new());
                let (number, unit) = size.get_recoverable_unit_counted(set, places, &mut steps);
                if *call == "steps" {
                    return shown($alloc, steps.count());
                }
                let counted = both($alloc, number, unit)?;
                let (number, unit) = size.get_recoverable_unit(set, places);
                agreed($alloc, &[both($alloc, number, unit)?, counted])
            }
            _ => Err(RowError::NoCall),
        }
    };
}

/// Returns the answer to a call on sizes.
pub fn answer(alloc: Global, words: &[&str]) -> Answer {
    match words {
        ["constant", kind, name] => shown(alloc, constant(named(kind, KINDS)?, name)?),
        [_, "byte", ..] => byte_answer(alloc, words),
        [_, "bit", ..] => bit_answer(alloc, words),
        _ => Err(RowError::NoCall),
    }
}

/// Returns the answer to a call on sizes in bytes.
fn byte_answer(alloc: Global, words: &[&str]) -> Answer {
    made!(Byte, byte_in_unit, alloc, words)
}

/// Returns the answer to a call on sizes in bits.
fn bit_answer(alloc: Global, words: &[&str]) -> Answer {
    made!(Bit, bit_in_unit, alloc, words)
}

/// Returns the answer to a call that gives a size in bytes as JSON or in a unit.
fn byte_in_unit(alloc: Global, words: &[&str]) -> Answer {
    in_unit!(Byte, alloc, words)
}

/// Returns the answer to a call that gives a size in bits as JSON or in a unit.
fn bit_in_unit(alloc: Global, words: &[&str]) -> Answer {
    in_unit!(Bit, alloc, words)
}
