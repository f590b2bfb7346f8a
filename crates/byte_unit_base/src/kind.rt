//! The kind of a size: bytes or bits.

ghost use Rattle.std.specs.Prelude.{◌≡◌, ◌≤◌};
ghost use Rattle.byte_unit_base.specs.Grammar.Units.{shape_of};

use crate::unit::Unit;

/// The kind of a size: what it counts.
#[derive(Debug, Clone, Copy, PartialEq, Eq)]
pub enum Kind {
    /// Bytes, of eight bits each.
    Byte,
    /// Bits.
    Bit,
}

impl Kind {
    ghost use Rattle.byte_unit_base.specs.Sizes.Kinds.{bits_in, own_unit};

    /// Returns the number of bits in one of the kind: 8 or 1.
    ///
    /// # Examples
    /// ```rust
    /// assert_eq!(rt; (Kind::Byte.bits(), Kind::Bit.bits()), (8, 1));
    /// ```
    pub fn bits(self) -> u128
        ensures bits { result ≡ bits_in self }
        ensures some { 1 ≤ result }
        ensures bound { result ≤ 8 }
    {
        match self {
            Kind::Byte => 8,
            Kind::Bit => 1,
        }
    }

    /// Returns the base unit of the kind, which has no prefix: `B` or `Bit`.
    ///
    /// # Examples
    /// ```rust
    /// assert_eq!(rt; (Kind::Byte.unit(), Kind::Bit.unit()), (Unit::B, Unit::Bit));
    /// ```
    pub fn unit(self) -> Unit
        ensures { shape_of result ≡ own_unit self }
    {
        match self {
            Kind::Byte => Unit::B,
            Kind::Bit => Unit::Bit,
        }
    }
}
