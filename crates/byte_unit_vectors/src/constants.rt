//! The constants of both types of sizes, by their names.

use crate::row_error::RowError;
use byte_unit::{Bit, Byte, Kind};

/// Evaluates an array of the constants that both types have, with their names.
macro_rules! constants {
    ($($constant:ident)*) => {
        [$((stringify!($constant), Byte::$constant, Bit::$constant)),*]
    };
}

/// Returns the number of bytes or bits of a constant.
///
/// # Errors
/// Returns an error if there is no such constant.
pub fn constant(kind: Kind, name: &str) -> Result<u128, RowError> {
    let constants = constants![
        MIN MAX
        KILOBYTE MEGABYTE GIGABYTE TERABYTE PETABYTE EXABYTE ZETTABYTE YOTTABYTE RONNABYTE
        KIBIBYTE MEBIBYTE GIBIBYTE TEBIBYTE PEBIBYTE EXBIBYTE ZEBIBYTE YOBIBYTE ROBIBYTE
        KILOBIT MEGABIT GIGABIT TERABIT PETABIT EXABIT ZETTABIT YOTTABIT RONNABIT
        KIBIBIT MEBIBIT GIBIBIT TEBIBIT PEBIBIT EXBIBIT ZEBIBIT YOBIBIT ROBIBIT
    ];
    let found = constants.iter().find(|constant| constant.0 == name);
    match (kind, name, found) {
        (Kind::Byte, "BYTE", _) => Ok(Byte::BYTE.as_u128()),
        (Kind::Bit, "BIT", _) => Ok(Bit::BIT.as_u128()),
        (Kind::Byte, _, Some(constant)) => Ok(constant.1.as_u128()),
        (Kind::Bit, _, Some(constant)) => Ok(constant.2.as_u128()),
        _ => Err(RowError::Word),
    }
}
