// Rendered from crates/byte_unit_byte/src/byte/units.rt by `tools/dev render bits`. Do not edit.
//! The units that represent a size in bits exactly.

ghost use Rattle.std.specs.Prelude.{◌≡◌, ◌*◌, ◌≤◌};
ghost use Rattle.byte_unit_math.specs.Bounds.{scale};
ghost use Rattle.byte_unit_math.specs.Steps.{saturating_add};
ghost use Rattle.byte_unit_base.specs.Grammar.Shape.{bits};
ghost use Rattle.byte_unit_base.specs.Grammar.Units.{shape_of};
ghost use Rattle.byte_unit_base.specs.Sizes.Kinds.{bits_in};
ghost use Rattle.byte_unit_choice.specs.Choice.{IsRecovered, CountsChoice, most_steps};
ghost use Rattle.byte_unit_base.specs.declared.kind.Kind.TheVariants.{Bit as InBits};

use super::Bit;
use byte_unit_base::{Kind, Unit};
use byte_unit_choice::{exact_unit, recoverable_unit};
use byte_unit_math::{Decimal, Steps};

impl Bit {
    /// Returns the size as a whole number of the largest unit that divides it, with that unit.
    ///
    /// The unit is a multiple of bits, or with `allow_in_bytes` of bits or of bytes, and at most the size. If there
    /// is none, it is `Unit::Bit`.
    ///
    /// # Examples
    /// ```rust
    /// assert_eq!(rt; Bit::from_u64(50_840_000).get_exact_unit(false), (50_840, Unit::Kbit));
    /// assert_eq!(rt; Bit::MEGABYTE.get_exact_unit(true), (1, Unit::MB));
    /// assert_eq!(rt; Bit::from_u64(999).get_exact_unit(false), (999, Unit::Bit));
    /// ```
    pub fn get_exact_unit(self, allow_in_bytes: bool) -> (u128, Unit)
        ensures recovered { IsRecovered InBits allow_in_bytes self 0 result.1 }
        ensures exact { result.0 * bits (shape_of result.1) ≡ self * bits_in InBits }
    {
        exact_unit(self.size, Kind::Bit, allow_in_bytes)
    }

    /// Returns the size as a decimal of at most `precision` digits after the point, with its unit: number times
    /// unit is the size, exactly.
    ///
    /// The unit is the largest one that allows this. It is a multiple of bits, or with `allow_in_bytes` of bits or
    /// of bytes, and at most the size. If there is none, it is `Unit::Bit`. A precision above 28 counts as 28; 3 is
    /// the usual one.
    ///
    /// # Examples
    /// ```rust
    /// let (number, unit) = Bit::from_u64(50_840_000).get_recoverable_unit(false, 2);
    /// assert_eq!(rt; Some(number), Decimal::from_u128_with_scale(5084, 2));
    /// assert_eq!(rt; unit, Unit::Mbit);
    /// assert_eq!(rt; Bit::from_u64(50_840_000).get_recoverable_unit(false, 1).1, Unit::Kbit);
    /// assert_eq!(rt; Bit::MEGABYTE.get_recoverable_unit(true, 3).1, Unit::MB);
    /// ```
    pub fn get_recoverable_unit(self, allow_in_bytes: bool, precision: usize) -> (Decimal, Unit)
        ensures recovered { IsRecovered InBits allow_in_bytes self precision result.1 }
        ensures exact { result.0 * bits (shape_of result.1) ≡ self * bits_in InBits * scale }
    {
        self.get_recoverable_unit_counted(allow_in_bytes, precision, &mut Steps::new())
    }

    /// Returns what [`Bit::get_recoverable_unit`] returns, and adds to `steps` those of trial and long division.
    ///
    /// A step is one factor 2 or 5 of the size, one of the two trials that fail, or one digit of the decimal after
    /// the point. That is at most 119 steps; a size of zero takes none. Few of these divisions are made, so the count
    /// bounds no running time. It saturates at its maximum.
    ///
    /// # Examples
    /// ```rust
    /// let mut steps = Steps::new();
    /// Bit::from_u128_unsafe(7 << 90).get_recoverable_unit_counted(true, 27, &mut steps);
    /// assert_eq!(rt; steps.count(), 119);
    /// ```
    pub fn get_recoverable_unit_counted(
        self,
        allow_in_bytes: bool,
        precision: usize,
        steps: &mut Steps,
    ) -> (Decimal, Unit)
        ensures recovered { IsRecovered InBits allow_in_bytes self precision result.1 }
        ensures exact { result.0 * bits (shape_of result.1) ≡ self * bits_in InBits * scale }
        ensures steps { CountsChoice self result.0 steps.old steps.new }
        ensures few_steps { steps.new ≤ saturating_add steps.old (most_steps InBits) }
    {
        recoverable_unit(self.size, Kind::Bit, allow_in_bytes, precision, steps)
    }
}
