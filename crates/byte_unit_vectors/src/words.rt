//! The words of calls: numbers, kinds, units and other arguments.

ghost use Rattle.std.specs.Prelude.{◌≡◌, ◌≤◌, ◌⊎◌, IfOk};

use crate::row_error::RowError;
use byte_unit::{Decimal, Family, Kind, Unit, UnitType};
use std::str::FromStr;

/// The kinds of sizes.
pub const KINDS: &[(&str, Kind)] = &[("byte", Kind::Byte), ("bit", Kind::Bit)];

/// Whether case is ignored.
pub const CASES: &[(&str, bool)] = &[("uncased", true), ("cased", false)];

/// Whether decimal prefixes mean binary ones.
pub const PREFIXES: &[(&str, bool)] = &[("binary", true), ("decimal", false)];

/// Whether a unit without a suffix is of bytes.
pub const PREFERRED: &[(&str, bool)] = &[("bytes", true), ("bits", false)];

/// Whether units of either kind are allowed, or those of the size's own kind.
pub const SETS: &[(&str, bool)] = &[("any", true), ("own", false)];

/// The types of units.
pub const TYPES: &[(&str, UnitType)] = &[
    ("binary", UnitType::Binary),
    ("decimal", UnitType::Decimal),
    ("both", UnitType::Both),
];

/// The unit sets.
pub const FAMILIES: &[(&str, Family)] = &[
    ("all", Family::All),
    ("bytes", Family::Bytes),
    ("bits", Family::Bits),
];

/// Returns the value of a word in a list.
pub fn named<T: Copy>(word: &str, names: &[(&str, T)]) -> Result<T, RowError> {
    for (name, value) in names {
        if *name == word {
            return Ok(*value);
        }
    }
    Err(RowError::Word)
}

/// Returns the number of bits that each one of a size has, by a word: 8 or 1.
pub fn bits_of(word: &str) -> Result<u128, RowError>
    ensures { IfOk result (λ bits. (bits ≡ 8) ⊎ (bits ≡ 1)) }
{
    match word {
        "8" => Ok(8),
        "1" => Ok(1),
        _ => Err(RowError::Word),
    }
}

/// Returns the unit with a name.
pub fn unit_of(name: &str) -> Result<Unit, RowError> {
    let unit = Unit::parse_str(name, false, true).ok();
    let unit = unit.filter(|unit| unit.as_str() == name);
    unit.ok_or(RowError::Word)
}

/// Returns the number of a word.
pub fn number_of<T: FromStr + Drop>(word: &str) -> Result<T, RowError>
where
    T::Err: Drop,
{
    word.parse::<T>().ok().ok_or(RowError::Word)
}

/// Returns the number of a word, which is from `least` to `most`.
pub fn number_in(word: &str, least: u128, most: u128) -> Result<u128, RowError>
    ensures { IfOk result (λ number. (least ≤ number) × (number ≤ most)) }
{
    match number_of::<u128>(word)? {
        number if least <= number && number <= most => Ok(number),
        _ => Err(RowError::Word),
    }
}

/// Returns the decimal of a word such as `50.84`.
pub fn decimal_of(word: &str) -> Result<Decimal, RowError> {
    let (whole, digits) = word.split_once('.').unwrap_or((word, "0"));
    let places = u32::try_from(digits.len()).ok().ok_or(RowError::Word)?;
    let whole = Decimal::from_u128(number_of(whole)?).ok_or(RowError::Word)?;
    let fraction = Decimal::from_u128_with_scale(number_of(digits)?, places).ok_or(RowError::Word)?;
    Decimal::new(whole.whole(), fraction.fraction()).ok_or(RowError::Word)
}
