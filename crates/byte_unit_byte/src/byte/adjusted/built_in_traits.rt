//! The traits of std that `AdjustedByte` implements.

ghost use Rattle.std.specs.Prelude.{◌≡◌, nat_eq, Some};
ghost use Rattle.std.specs.Cmp.{partial_order_from_own_ties, partial_equiv_from_equiv};
ghost use Rattle.std.specs.Cmp.Rules.{comparing};
ghost use Rattle.std.specs.Ordering.{nat_cmp, as_partial_cmp};
ghost use Rattle.std.proofs.Common.{rules};
ghost use Rattle.byte_unit_format.specs.Adjusted.{adjusted_text};
ghost use Rattle.byte_unit_choice.specs.AdjustedSize.{IsAdjustedReading};
ghost use Rattle.byte_unit_choice.specs.Choice.{IsAppropriate};
ghost use Rattle.byte_unit_base.specs.declared.kind.Kind.TheVariants.{Byte as InBytes};
ghost use Rattle.byte_unit_choice.specs.declared.unit_type.UnitType.TheVariants.{Both};

use super::AdjustedByte;
use crate::byte::Byte;
use byte_unit_base::{Kind, ParseError, Unit};
use byte_unit_choice::UnitType;
use std::cmp::Ordering;
use std::fmt;
use std::str::FromStr;

/// Writes the size in its unit with all its digits, a space and the unit's name, as `FormatSpec::PLAIN` does. The
/// formatter's flags have no effect; [`AdjustedByte::to_text`] takes a spec instead.
impl fmt::Display for AdjustedByte {
    // What is written without flags, and under any.
    ghost output = { λ a. Some (adjusted_text InBytes a.size a.unit) };

    ghost styled_output = { λ a spec. Some (adjusted_text InBytes a.size a.unit) };

    fn fmt<W: fmt::Write>(&self, f: &mut fmt::Formatter<W>) -> fmt::Result {
        let size = self.get_byte().as_u128();
        byte_unit_format::display_adjusted(size, Kind::Byte, self.get_unit(), f)
    }
}

// In these four traits the laws that std asks for are those of natural numbers. A search over std's rules proves them.

/// Compares the sizes for equality, whatever the units.
impl PartialEq for AdjustedByte {
    ghost eq = { λ a b. nat_eq a.size b.size };

    ghost laws = { partial_equiv_from_equiv (Prim.search (comparing, rules)) };

    fn eq(&self, other: &AdjustedByte) -> bool {
        self.get_byte() == other.get_byte()
    }
}

impl Eq for AdjustedByte {
    ghost laws = { Prim.search (comparing, rules) };
}

/// Compares the sizes, whatever the units.
impl Ord for AdjustedByte {
    ghost cmp = { λ a b. nat_cmp a.size b.size };

    ghost total = { Prim.search (comparing, rules) };

    ghost matches_partial_cmp = { Prim.search (comparing, rules) };

    ghost matches_eq = { Prim.search (comparing, rules) };

    fn cmp(&self, other: &AdjustedByte) -> Ordering {
        self.get_byte().cmp(&other.get_byte())
    }
}

impl PartialOrd for AdjustedByte {
    ghost partial_cmp = { λ a b. as_partial_cmp nat_cmp a.size b.size };

    ghost laws = { partial_order_from_own_ties (Prim.search (comparing, rules)) (Prim.search (comparing, rules)) };

    fn partial_cmp(&self, other: &AdjustedByte) -> Option<Ordering> {
        Some(self.cmp(other))
    }
}

/// Returns the size with the largest unit of bytes that is at most the size, or with `Unit::B` if there is none.
impl From<Byte> for AdjustedByte {
    ghost from_gives = { λ size a. (a.size ≡ size) × IsAppropriate InBytes Both size a.unit };

    fn from(size: Byte) -> AdjustedByte {
        size.get_appropriate_unit(UnitType::Both)
    }
}

/// Returns the size, exactly.
impl From<AdjustedByte> for Byte {
    ghost from_gives = { λ a size. size ≡ a.size };

    fn from(adjusted: AdjustedByte) -> Byte {
        adjusted.get_byte()
    }
}

/// Returns the unit.
impl From<AdjustedByte> for Unit {
    ghost from_gives = { λ a unit. unit ≡ a.unit };

    fn from(adjusted: AdjustedByte) -> Unit {
        adjusted.get_unit()
    }
}

/// Parses a size, as [`Byte`] does, with the largest unit of bytes that is at most the size, or with `Unit::B` if
/// there is none.
impl FromStr for AdjustedByte {
    type Err = ParseError;

    ghost from_str_gives = { IsAdjustedReading InBytes };

    fn from_str(s: &str) -> Result<AdjustedByte, ParseError> {
        let size: Byte = s.parse()?;
        Ok(AdjustedByte::from(size))
    }
}
