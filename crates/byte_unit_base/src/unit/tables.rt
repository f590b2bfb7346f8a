//! The table of prefixes, the tables of units that are made from it, and the positions of prefix letters by their byte.
//!
//! They are tables, and not a `match` over the units, for the row `mix` of docs/SPEED.md.

ghost use Rattle.std.specs.Prelude.{◌≡◌, ◌≤◌, ◌-◌, slice_index, slice_get};
ghost use Rattle.byte_unit_base.specs.Grammar.Units.{units};
ghost use Rattle.byte_unit_base.specs.Grammar.Version.{current};

use crate::unit::{Shape, Unit, UnitData};

/// The number of prefixes.
pub const PREFIXES: usize = 9;

/// Calls a macro with all prefixes: of each, its letter, its units, its position, its value as a decimal (SI) prefix, a
/// power of 1000, and its value as a binary (IEC) prefix, a power of 1024.
#[macro_export]
macro_rules! with_prefixes {
    ($table:ident $kind:ident) => {
        $table![$kind
            'K' Kbit Kibit KB KiB 1 1_000 1_024,
            'M' Mbit Mibit MB MiB 2 1_000_000 1_048_576,
            'G' Gbit Gibit GB GiB 3 1_000_000_000 1_073_741_824,
            'T' Tbit Tibit TB TiB 4 1_000_000_000_000 1_099_511_627_776,
            'P' Pbit Pibit PB PiB 5 1_000_000_000_000_000 1_125_899_906_842_624,
            'E' Ebit Eibit EB EiB 6 1_000_000_000_000_000_000 1_152_921_504_606_846_976,
            'Z' Zbit Zibit ZB ZiB 7 1_000_000_000_000_000_000_000 1_180_591_620_717_411_303_424,
            'Y' Ybit Yibit YB YiB 8 1_000_000_000_000_000_000_000_000 1_208_925_819_614_629_174_706_176,
            'R' Rbit Ribit RB RiB 9 1_000_000_000_000_000_000_000_000_000 1_237_940_039_285_380_274_899_124_224
        ]
    };
}

/// Writes the data of one unit.
macro_rules! unit {
    ($name:expr, $power:literal, $binary:literal, $bit:literal) => {
        UnitData {
            name: $name,
            shape: Shape {
                power: $power,
                binary: $binary,
                bit: $bit,
            },
        }
    };
}

/// Writes a table: `data`, `bits` and `variants` have a row for each unit, in the order of the variants of `Unit`;
/// `units` one for no prefix and one for each prefix; `letters` one for each prefix; `expected` has `B` before these.
macro_rules! table {
    (data
        $($letter:literal $bit:ident $ibit:ident $b:ident $ib:ident $n:literal $decimal:literal $binary:literal),*
    ) => {
        [
            unit!("b", 0, false, true),
            unit!("B", 0, true, false),
            $(
                unit!(concat!($letter, "b"), $n, false, true),
                unit!(concat!($letter, "ib"), $n, true, true),
                unit!(concat!($letter, "B"), $n, false, false),
                unit!(concat!($letter, "iB"), $n, true, false),
            )*
        ]
    };
    (bits
        $($letter:literal $bit:ident $ibit:ident $b:ident $ib:ident $n:literal $decimal:literal $binary:literal),*
    ) => {
        [1, 8, $($decimal, $binary, $decimal * 8, $binary * 8),*]
    };
    (units
        $($letter:literal $bit:ident $ibit:ident $b:ident $ib:ident $n:literal $decimal:literal $binary:literal),*
    ) => {
        [
            [Unit::B, Unit::Bit, Unit::B, Unit::Bit],
            $([Unit::$b, Unit::$bit, Unit::$ib, Unit::$ibit],)*
        ]
    };
    (variants
        $($letter:literal $bit:ident $ibit:ident $b:ident $ib:ident $n:literal $decimal:literal $binary:literal),*
    ) => {
        [Unit::Bit, Unit::B, $(Unit::$bit, Unit::$ibit, Unit::$b, Unit::$ib),*]
    };
    (letters
        $($letter:literal $bit:ident $ibit:ident $b:ident $ib:ident $n:literal $decimal:literal $binary:literal),*
    ) => {
        [$($letter as u8),*]
    };
    (expected
        $($letter:literal $bit:ident $ibit:ident $b:ident $ib:ident $n:literal $decimal:literal $binary:literal),*
    ) => {
        ['B', $($letter),*]
    };
}

/// The name and the shape of each of the 38 units, in the order of the variants: two have no prefix, and each of the
/// nine prefixes has four.
pub(crate) static UNITS: [UnitData; 38] = with_prefixes!(table data);

/// The bits of each unit, in the order of the variants.
pub(crate) static UNIT_BITS: [u128; 38] = with_prefixes!(table bits);

/// The units by the position of the prefix, from 0 for none to 9 for R: those of bytes and of bits, with the decimal
/// prefix and then with the binary one.
pub(crate) static BY_POWER: [[Unit; 4]; 10] = with_prefixes!(table units);

/// The units, in the order of the variants.
static VARIANTS: [Unit; 38] = with_prefixes!(table variants);

/// The position of the prefix of each letter in either case, by its byte: from 1 for K to 9 for R, or 0 if the byte is
/// no prefix letter. `tools/dev render tables` renders it from `with_prefixes`.
pub(crate) static LETTER_POWERS: [u8; 256] = [
    0, 0, 0, 0, 0, 0, 0, 0, 0, 0, 0, 0, 0, 0, 0, 0, 0, 0, 0, 0, 0, 0, 0, 0, 0, 0, 0, 0, 0, 0, 0, 0,
    0, 0, 0, 0, 0, 0, 0, 0, 0, 0, 0, 0, 0, 0, 0, 0, 0, 0, 0, 0, 0, 0, 0, 0, 0, 0, 0, 0, 0, 0, 0, 0,
    0, 0, 0, 0, 0, 6, 0, 3, 0, 0, 0, 1, 0, 2, 0, 0, 5, 0, 9, 0, 4, 0, 0, 0, 0, 8, 7, 0, 0, 0, 0, 0,
    0, 0, 0, 0, 0, 6, 0, 3, 0, 0, 0, 1, 0, 2, 0, 0, 5, 0, 9, 0, 4, 0, 0, 0, 0, 8, 7, 0, 0, 0, 0, 0,
    0, 0, 0, 0, 0, 0, 0, 0, 0, 0, 0, 0, 0, 0, 0, 0, 0, 0, 0, 0, 0, 0, 0, 0, 0, 0, 0, 0, 0, 0, 0, 0,
    0, 0, 0, 0, 0, 0, 0, 0, 0, 0, 0, 0, 0, 0, 0, 0, 0, 0, 0, 0, 0, 0, 0, 0, 0, 0, 0, 0, 0, 0, 0, 0,
    0, 0, 0, 0, 0, 0, 0, 0, 0, 0, 0, 0, 0, 0, 0, 0, 0, 0, 0, 0, 0, 0, 0, 0, 0, 0, 0, 0, 0, 0, 0, 0,
    0, 0, 0, 0, 0, 0, 0, 0, 0, 0, 0, 0, 0, 0, 0, 0, 0, 0, 0, 0, 0, 0, 0, 0, 0, 0, 0, 0, 0, 0, 0, 0,
];

/// The letters of the prefixes.
static LETTERS: [u8; PREFIXES] = with_prefixes!(table letters);

/// What is expected at the beginning of a unit: `B` and the letters of the prefixes.
pub(crate) static BEGINNING: [char; PREFIXES + 1] = with_prefixes!(table expected);

/// Returns the letter of the prefix of a position, from 1 for K to 9 for R.
///
/// Precondition (proved at every call): `1 <= power` and `power <= 9`.
///
/// # Examples
/// ```rust
/// assert_eq!(rt; (prefix_letter(1), prefix_letter(9)), (b'K', b'R'));
/// ```
#[inline(always)]
pub fn prefix_letter(power: u32) -> u8
    requires positive { 1 ≤ power }
    requires known { power ≤ 9 }
    ensures { result ≡ slice_index current.letters (power - 1) }
{
    LETTERS[power as usize - 1]
}

/// Returns the unit at an index, from 0 to 37, in the order of the variants, or `None` if the index is greater.
///
/// # Examples
/// ```rust
/// assert_eq!(rt; (unit_at(0), unit_at(37), unit_at(38)), (Some(Unit::Bit), Some(Unit::RiB), None));
/// ```
pub fn unit_at(index: usize) -> Option<Unit>
    ensures { result ≡ slice_get units index }
{
    if index < 38 {
        Some(VARIANTS[index])
    } else {
        None
    }
}
