//! Calls on units, and those that choose one.

use crate::answers::{Answer, both, or_none, shown, string_of};
use crate::sizes;
use crate::words::{FAMILIES, TYPES, bits_of, named, number_in, number_of, unit_of};
use byte_unit::{Byte, Steps, choose_unit, largest_unit, unit_to_json};
use std::alloc::Global;

/// Returns the answer to a call on a unit, to one that chooses it, or to one on sizes.
pub fn answer(alloc: Global, words: &[&str]) -> Answer {
    match words {
        ["properties", unit] => {
            let unit = unit_of(unit)?;
            let bits = unit.as_bits_u128();
            let kind = if unit.is_bit() { "bits" } else { "bytes" };
            let is_binary = unit.is_binary_multiples();
            let prefix = if is_binary { "binary" } else { "decimal" };
            let (twos, fives) = unit.powers();
            Ok(format!(in alloc; "{bits} {kind} {prefix} 2^{twos} 5^{fives}")?)
        }
        ["binary_unit", unit] => shown(alloc, unit_of(unit)?.to_binary()),
        ["unit_json", unit] => string_of(alloc, &unit_to_json(alloc, unit_of(unit)?)?),
        ["largest", size, set, unit_type, bits] => {
            let (size, set, bits) = (number_of(size)?, named(set, FAMILIES)?, bits_of(bits)?);
            let unit_type = named(unit_type, TYPES)?;
            or_none(alloc, largest_unit(size, set, unit_type, bits))
        }
        ["choose", size, set, bits, places] => {
            let size = number_in(size, 0, Byte::MAX.as_u128())?;
            let (set, bits, places) = (named(set, FAMILIES)?, bits_of(bits)?, number_of(places)?);
            match choose_unit(size, set, bits, places, &mut Steps::new()) {
                Some((number, unit)) => both(alloc, number, unit),
                None => shown(alloc, "none"),
            }
        }
        _ => sizes::answer(alloc, words),
    }
}
