//! The units that represent a size in bytes exactly.

ghost use Rattle.std.specs.Prelude.{◌≡◌, ◌*◌, ◌≤◌};
ghost use Rattle.byte_unit_math.specs.Bounds.{scale};
ghost use Rattle.byte_unit_math.specs.Steps.{saturating_add};
ghost use Rattle.byte_unit_base.specs.Grammar.Shape.{bits};
ghost use Rattle.byte_unit_base.specs.Grammar.Units.{shape_of};
ghost use Rattle.byte_unit_base.specs.Sizes.Kinds.{bits_in};
ghost use Rattle.byte_unit_choice.specs.Choice.{IsRecovered, CountsChoice, most_steps};
ghost use Rattle.byte_unit_base.specs.declared.kind.Kind.TheVariants.{Byte as InBytes};

use super::Byte;
use byte_unit_base::{Kind, Unit};
use byte_unit_choice::{exact_unit, recoverable_unit};
use byte_unit_math::{Decimal, Steps};

impl Byte {
    /// Returns the size as a whole number of the largest unit that divides it, with that unit.
    ///
    /// The unit is a multiple of bytes, or with `allow_in_bits` of bytes or of bits, and at most the size. If there
    /// is none, it is `Unit::B`.
    ///
    /// # Examples
    /// ```rust
    /// assert_eq!(rt; Byte::from_u64(50_840_000).get_exact_unit(false), (50_840, Unit::KB));
    /// assert_eq!(rt; Byte::MEGABIT.get_exact_unit(true), (1, Unit::Mbit));
    /// assert_eq!(rt; Byte::from_u64(999).get_exact_unit(false), (999, Unit::B));
    /// ```
    pub fn get_exact_unit(self, allow_in_bits: bool) -> (u128, Unit)
        ensures recovered { IsRecovered InBytes allow_in_bits self 0 result.1 }
        ensures exact { result.0 * bits (shape_of result.1) ≡ self * bits_in InBytes }
    {
        exact_unit(self.size, Kind::Byte, allow_in_bits)
    }

    /// Returns the size as a decimal of at most `precision` digits after the point, with its unit: number times
    /// unit is the size, exactly.
    ///
    /// The unit is the largest one that allows this. It is a multiple of bytes, or with `allow_in_bits` of bytes or
    /// of bits, and at most the size. If there is none, it is `Unit::B`. A precision above 28 counts as 28; 3 is
    /// the usual one.
    ///
    /// # Examples
    /// ```rust
    /// let (number, unit) = Byte::from_u64(50_840_000).get_recoverable_unit(false, 2);
    /// assert_eq!(rt; Some(number), Decimal::from_u128_with_scale(5084, 2));
    /// assert_eq!(rt; unit, Unit::MB);
    /// assert_eq!(rt; Byte::from_u64(50_840_000).get_recoverable_unit(false, 1).1, Unit::KB);
    /// assert_eq!(rt; Byte::MEGABIT.get_recoverable_unit(true, 3).1, Unit::Mbit);
    /// ```
    pub fn get_recoverable_unit(self, allow_in_bits: bool, precision: usize) -> (Decimal, Unit)
        ensures recovered { IsRecovered InBytes allow_in_bits self precision result.1 }
        ensures exact { result.0 * bits (shape_of result.1) ≡ self * bits_in InBytes * scale }
    {
        self.get_recoverable_unit_counted(allow_in_bits, precision, &mut Steps::new())
    }

    /// Returns what [`Byte::get_recoverable_unit`] returns, and adds to `steps` those of trial and long division.
    ///
    /// A step is one factor 2 or 5 of the size, one of the two trials that fail, or one digit of the decimal after
    /// the point. That is at most 116 steps; a size of zero takes none. Few of these divisions are made, so the count
    /// bounds no running time. It saturates at its maximum.
    ///
    /// # Examples
    /// ```rust
    /// let mut steps = Steps::new();
    /// Byte::from_u128_unsafe(7 << 87).get_recoverable_unit_counted(true, 27, &mut steps);
    /// assert_eq!(rt; steps.count(), 116);
    /// ```
    pub fn get_recoverable_unit_counted(
        self,
        allow_in_bits: bool,
        precision: usize,
        steps: &mut Steps,
    ) -> (Decimal, Unit)
        ensures recovered { IsRecovered InBytes allow_in_bits self precision result.1 }
        ensures exact { result.0 * bits (shape_of result.1) ≡ self * bits_in InBytes * scale }
        ensures steps { CountsChoice self result.0 steps.old steps.new }
        ensures few_steps { steps.new ≤ saturating_add steps.old (most_steps InBytes) }
    {
        recoverable_unit(self.size, Kind::Byte, allow_in_bits, precision, steps)
    }
}
