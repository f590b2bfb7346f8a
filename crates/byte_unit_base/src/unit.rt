//! The units of bits and bytes: their names, their bits and their prefixes.

ghost use Rattle.std.specs.Prelude.{◌≡◌, ◌≤◌};
ghost use Rattle.byte_unit_math.specs.Bounds.{unit_limit};
ghost use Rattle.byte_unit_base.specs.Grammar.Shape.{bits, twos, fives};
ghost use Rattle.byte_unit_base.specs.Grammar.Units.{shape_of};
ghost use Rattle.byte_unit_base.specs.Grammar.Version.{unit_name};
ghost use Rattle.byte_unit_base.specs.Reading.ParseSpec.{binary_of};

use crate::read::unit::unit_with_prefix;
use crate::unit::tables::{UNIT_BITS, UNITS};
use std::fmt;

pub(crate) mod parse;
pub(crate) mod tables;

/// A unit of bits or bytes, with a decimal (SI) prefix, with a binary (IEC) prefix, or without one.
///
/// The variants are in ascending order of their prefixes, from K to R, and within a prefix in ascending order of their
/// bits.
#[derive(Clone, Copy, Debug, PartialEq, Eq)]
pub enum Unit {
    /// One bit.
    Bit,
    /// One byte: 8 bits.
    B,
    /// 10^3 bits.
    Kbit,
    /// 2^10 bits.
    Kibit,
    /// 10^3 bytes.
    KB,
    /// 2^10 bytes.
    KiB,
    /// 10^6 bits.
    Mbit,
    /// 2^20 bits.
    Mibit,
    /// 10^6 bytes.
    MB,
    /// 2^20 bytes.
    MiB,
    /// 10^9 bits.
    Gbit,
    /// 2^30 bits.
    Gibit,
    /// 10^9 bytes.
    GB,
    /// 2^30 bytes.
    GiB,
    /// 10^12 bits.
    Tbit,
    /// 2^40 bits.
    Tibit,
    /// 10^12 bytes.
    TB,
    /// 2^40 bytes.
    TiB,
    /// 10^15 bits.
    Pbit,
    /// 2^50 bits.
    Pibit,
    /// 10^15 bytes.
    PB,
    /// 2^50 bytes.
    PiB,
    /// 10^18 bits.
    Ebit,
    /// 2^60 bits.
    Eibit,
    /// 10^18 bytes.
    EB,
    /// 2^60 bytes.
    EiB,
    /// 10^21 bits.
    Zbit,
    /// 2^70 bits.
    Zibit,
    /// 10^21 bytes.
    ZB,
    /// 2^70 bytes.
    ZiB,
    /// 10^24 bits.
    Ybit,
    /// 2^80 bits.
    Yibit,
    /// 10^24 bytes.
    YB,
    /// 2^80 bytes.
    YiB,
    /// 10^27 bits.
    Rbit,
    /// 2^90 bits.
    Ribit,
    /// 10^27 bytes.
    RB,
    /// 2^90 bytes.
    RiB,
}

/// The prefix and the base unit of a unit.
#[derive(Clone, Copy)]
pub(crate) struct Shape {
    /// The position of the prefix letter, from 1 for K, or 0 if there is no prefix.
    pub(crate) power: u32,
    /// Whether the prefix is binary (IEC).
    pub(crate) binary: bool,
    /// Whether the unit counts bits, and not bytes.
    pub(crate) bit: bool,
}

/// The name and the shape of a unit.
#[derive(Clone, Copy)]
pub(crate) struct UnitData {
    pub(crate) name: &'static str,
    pub(crate) shape: Shape,
}

impl Unit {
    ghost use Rattle.byte_unit_base.specs.Grammar.Units.{shape_of};

    /// Returns the number of bits of the unit: from 1 to 2^93.
    ///
    /// # Examples
    /// ```rust
    /// assert_eq!(rt; (Unit::KiB.as_bits_u128(), Unit::RiB.as_bits_u128()), (8192, 1 << 93));
    /// ```
    pub fn as_bits_u128(self) -> u128
        ensures bits { result ≡ bits (shape_of self) }
        ensures some { 1 ≤ result }
        ensures bound { result ≤ unit_limit }
    {
        UNIT_BITS[self as usize]
    }

    /// Returns the name of the unit, of one to three ASCII letters: the prefix letter if there is one, an `i` if the
    /// prefix is binary, and `b` for bits or `B` for bytes.
    ///
    /// # Examples
    /// ```rust
    /// assert_eq!(rt; (Unit::Kibit.as_str(), Unit::MB.as_str()), ("Kib", "MB"));
    /// ```
    pub fn as_str(self) -> &'static str
        ensures { result.now ≡ unit_name self }
    {
        UNITS[self as usize].name
    }

    /// Returns `true` if the unit counts bits, and `false` if it counts bytes.
    ///
    /// # Examples
    /// ```rust
    /// assert!(rt; Unit::Kbit.is_bit() && !Unit::KB.is_bit());
    /// ```
    pub fn is_bit(self) -> bool
        ensures { result ≡ (shape_of self).bit }
    {
        UNITS[self as usize].shape.bit
    }

    /// Returns `true` if the prefix is binary (IEC). Of the units without a prefix, `B` counts as binary and `Bit` does
    /// not, as in the Rust crate.
    ///
    /// # Examples
    /// ```rust
    /// assert!(rt; Unit::KiB.is_binary_multiples() && !Unit::KB.is_binary_multiples());
    /// assert!(rt; Unit::B.is_binary_multiples() && !Unit::Bit.is_binary_multiples());
    /// ```
    pub fn is_binary_multiples(self) -> bool
        ensures { result ≡ (shape_of self).binary }
    {
        UNITS[self as usize].shape.binary
    }

    /// Returns the exponents of 2 and of 5 in the number of bits of the unit, which has no other prime factor.
    ///
    /// # Examples
    /// ```rust
    /// assert_eq!(rt; Unit::KB.powers(), (6, 3)); // 8000 is 2^6 * 5^3.
    /// ```
    pub fn powers(self) -> (u32, u32)
        ensures twos { result.0 ≡ twos (shape_of self) }
        ensures fives { result.1 ≡ fives (shape_of self) }
    {
        let Shape { power, binary, bit } = self.shape();
        // A byte is 2^3 bits, and a decimal prefix is (2^3 * 5^3)^power.
        let byte = if bit { 0 } else { 3 };
        if binary {
            (10 * power + byte, 0)
        } else {
            (3 * power + byte, 3 * power)
        }
    }

    /// Returns the unit with the binary (IEC) prefix of the same letter, in bits or bytes as before. A unit without a
    /// prefix, or with a binary one, is returned as it is.
    ///
    /// # Examples
    /// ```rust
    /// assert_eq!(rt; (Unit::MB.to_binary(), Unit::Kbit.to_binary()), (Unit::MiB, Unit::Kibit));
    /// assert_eq!(rt; (Unit::B.to_binary(), Unit::GiB.to_binary()), (Unit::B, Unit::GiB));
    /// ```
    #[tactic(auto, using(crate::proofs::Names::unit_known, crate::proofs::UnitLetters::binary_shape))]
    pub fn to_binary(self) -> Unit
        ensures { shape_of result ≡ binary_of (shape_of self) }
    {
        let Shape { power, bit, .. } = self.shape();
        unit_with_prefix(power as usize, true, bit)
    }

    /// Returns the shape of the unit, which determines its name and its bits.
    fn shape(self) -> Shape
        ensures power { result.power ≡ (shape_of self).power }
        ensures binary { result.binary ≡ (shape_of self).binary }
        ensures bit { result.bit ≡ (shape_of self).bit }
    {
        UNITS[self as usize].shape
    }
}

/// Converts a unit to its number of bits, as `as_bits_u128` does.
impl From<Unit> for u128 {
    ghost use Rattle.byte_unit_base.specs.Grammar.Units.{shape_of};

    ghost from_gives = { λ unit n. n ≡ bits (shape_of unit) };

    fn from(unit: Unit) -> u128 {
        unit.as_bits_u128()
    }
}

/// Writes the name of the unit. The flags of the formatter are ignored.
impl fmt::Display for Unit {
    ghost use Rattle.std.specs.Prelude.{Some};
    ghost use Rattle.byte_unit_base.specs.Grammar.Units.{shape_of};

    // What is written without flags, and under any.
    ghost output = { λ unit. Some (unit_name unit) };

    ghost styled_output = { λ unit spec. Some (unit_name unit) };

    fn fmt<W: fmt::Write>(&self, f: &mut fmt::Formatter<W>) -> fmt::Result {
        f.write_str(self.as_str())
    }
}
