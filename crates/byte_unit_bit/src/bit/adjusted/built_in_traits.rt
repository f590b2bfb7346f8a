// Rendered from crates/byte_unit_byte/src/byte/adjusted/built_in_traits.rt by `tools/dev render bits`. Do not edit.
//! The traits of std that `AdjustedBit` implements.

ghost use Rattle.std.specs.Prelude.{◌≡◌, nat_eq, Some};
ghost use Rattle.std.specs.Cmp.{partial_order_from_own_ties, partial_equiv_from_equiv};
ghost use Rattle.std.specs.Cmp.Rules.{comparing};
ghost use Rattle.std.specs.Ordering.{nat_cmp, as_partial_cmp};
ghost use Rattle.std.proofs.Common.{rules};
ghost use Rattle.byte_unit_format.specs.Adjusted.{adjusted_text};
ghost use Rattle.byte_unit_choice.specs.AdjustedSize.{IsAdjustedReading};
ghost use Rattle.byte_unit_choice.specs.Choice.{IsAppropriate};
ghost use Rattle.byte_unit_base.specs.declared.kind.Kind.TheVariants.{Bit as InBits};
ghost use Rattle.byte_unit_choice.specs.declared.unit_type.UnitType.TheVariants.{Both};

use super::AdjustedBit;
use crate::bit::Bit;
use byte_unit_base::{Kind, ParseError, Unit};
use byte_unit_choice::UnitType;
use std::cmp::Ordering;
use std::fmt;
use std::str::FromStr;

/// Writes the size in its unit with all its digits, a space and the unit's name, as `FormatSpec::PLAIN` does. The
/// formatter's flags have no effect; [`AdjustedBit::to_text`] takes a spec instead.
impl fmt::Display for AdjustedBit {
    // What is written without flags, and under any.
    ghost output = { λ a. Some (adjusted_text InBits a.size a.unit) };

    ghost styled_output = { λ a spec. Some (adjusted_text InBits a.size a.unit) };

    fn fmt<W: fmt::Write>(&self, f: &mut fmt::Formatter<W>) -> fmt::Result {
        let size = self.get_bit().as_u128();
        byte_unit_format::display_adjusted(size, Kind::Bit, self.get_unit(), f)
    }
}

// In these four traits the laws that std asks for are those of natural numbers. A search over std's rules proves them.

/// Compares the sizes for equality, whatever the units.
impl PartialEq for AdjustedBit {
    ghost eq = { λ a b. nat_eq a.size b.size };

    ghost laws = { partial_equiv_from_equiv (Prim.search (comparing, rules)) };

    fn eq(&self, other: &AdjustedBit) -> bool {
        self.get_bit() == other.get_bit()
    }
}

impl Eq for AdjustedBit {
    ghost laws = { Prim.search (comparing, rules) };
}

/// Compares the sizes, whatever the units.
impl Ord for AdjustedBit {
    ghost cmp = { λ a b. nat_cmp a.size b.size };

    ghost total = { Prim.search (comparing, rules) };

    ghost matches_partial_cmp = { Prim.search (comparing, rules) };

    ghost matches_eq = { Prim.search (comparing, rules) };

    fn cmp(&self, other: &AdjustedBit) -> Ordering {
        self.get_bit().cmp(&other.get_bit())
    }
}

impl PartialOrd for AdjustedBit {
    ghost partial_cmp = { λ a b. as_partial_cmp nat_cmp a.size b.size };

    ghost laws = { partial_order_from_own_ties (Prim.search (comparing, rules)) (Prim.search (comparing, rules)) };

    fn partial_cmp(&self, other: &AdjustedBit) -> Option<Ordering> {
        Some(self.cmp(other))
    }
}

/// Returns the size with the largest unit of bits that is at most the size, or with `Unit::Bit` if there is none.
impl From<Bit> for AdjustedBit {
    ghost from_gives = { λ size a. (a.size ≡ size) × IsAppropriate InBits Both size a.unit };

    fn from(size: Bit) -> AdjustedBit {
        size.get_appropriate_unit(UnitType::Both)
    }
}

/// Returns the size, exactly.
impl From<AdjustedBit> for Bit {
    ghost from_gives = { λ a size. size ≡ a.size };

    fn from(adjusted: AdjustedBit) -> Bit {
        adjusted.get_bit()
    }
}

/// Returns the unit.
impl From<AdjustedBit> for Unit {
    ghost from_gives = { λ a unit. unit ≡ a.unit };

    fn from(adjusted: AdjustedBit) -> Unit {
        adjusted.get_unit()
    }
}

/// Parses a size, as [`Bit`] does, with the largest unit of bits that is at most the size, or with `Unit::Bit` if
/// there is none.
impl FromStr for AdjustedBit {
    type Err = ParseError;

    ghost from_str_gives = { IsAdjustedReading InBits };

    fn from_str(s: &str) -> Result<AdjustedBit, ParseError> {
        let size: Bit = s.parse()?;
        Ok(AdjustedBit::from(size))
    }
}
