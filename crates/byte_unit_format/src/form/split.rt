//! The unit of a size at the default precision, three places, found without a search: the size is a number of eighths
//! of a binary prefix, or of thousandths of a decimal one.

ghost use Rattle.std.specs.Prelude.{◌≡◌, ◌+◌, ◌*◌, ◌-◌, ◌%◌, ◌^◌, ◌<◌, ◌≤◌, true, false};
ghost use Rattle.byte_unit_math.specs.Bounds.{size_limit};
ghost use Rattle.byte_unit_base.specs.declared.kind.Kind.{Kind as OfKind};
ghost use Rattle.byte_unit_choice.specs.Choice.{IsRecoveredIn};
ghost use Rattle.byte_unit_base.specs.Sizes.Kinds.{counts_bits};
ghost use Rattle.byte_unit_base.specs.Grammar.Shape.{shape};
ghost use Rattle.byte_unit_base.specs.Grammar.Version.{current};
ghost use Rattle.byte_unit_format.specs.FewPlaces.{IsGreatestPower};
ghost use Rattle.byte_unit_format.specs.UnitFraction.{IsProperFraction, IsSplit};

use byte_unit_math::div_rem_thousand;

/// What follows the whole part of a size in a unit: the digits after the point, and the unit.
#[derive(Clone, Copy)]
pub(crate) enum UnitFraction {
    /// No digits, and the kind's own unit.
    Own,
    /// Eighths of a unit with a binary prefix, and the position of the prefix, from 1.
    Eighths(u64, u32),
    /// Thousandths of a unit with a decimal prefix, and the position of the prefix, from 1.
    Thousandths(u64, u32),
}

/// Splits a size in the largest unit of its kind, not above it, in which it is exact within three decimal places, into
/// its whole part and what follows. Below 1000 there is no such unit, and the whole part is the size.
#[inline(always)]
pub(crate) fn split(size: u128) -> (u128, UnitFraction)
    requires { size < size_limit }
    ensures split { (kind : OfKind) → IsSplit kind size result.0 result.1 }
    ensures whole { result.0 < 10 ^ 27 }
    ensures prefix { IsProperFraction result.1 }
{
    // No prefix is below 1000.
    if size < 1000 {
        return (size, UnitFraction::Own);
    }
    let (whole, thousandths, power) = in_thousands(size);
    let binary = binary_power(size);
    // A binary prefix is larger than the decimal one of its position, and smaller than the next decimal one.
    if binary < power {
        (whole, UnitFraction::Thousandths(thousandths, power))
    } else {
        in_eighths(size, binary)
    }
}

/// Splits a size that is a number of eighths of the unit with a binary prefix.
#[inline(always)]
pub(crate) fn in_eighths(size: u128, power: u32) -> (u128, UnitFraction)
    requires bound { size < size_limit }
    requires positive { 1 ≤ power }
    requires power_bound { power ≤ 9 }
    requires eighths { size % 2 ^ (10 * power - 3) ≡ 0 }
    ensures split { (kind : OfKind)
        → IsRecoveredIn current kind false size 3 (shape power true (counts_bits kind))
        → IsSplit kind size result.0 result.1 }
    ensures whole { result.0 < 10 ^ 27 }
    ensures prefix { IsProperFraction result.1 }
{
    let eighths = size >> (10 * power - 3);
    (
        eighths / 8,
        UnitFraction::Eighths((eighths % 8) as u64, power),
    )
}

/// Returns the size in the largest decimal prefix, not above it, in which it is exact within three decimal places:
/// whole units, thousandths of one, and the position of the prefix.
#[inline(always)]
fn in_thousands(size: u128) -> (u128, u64, u32)
    requires large { 1000 ≤ size }
    requires bound { size < size_limit }
    ensures positive { 1 ≤ result.2 }
    ensures bound { result.2 ≤ 9 }
    ensures greatest { IsGreatestPower 10 3 size result.2 }
    ensures value { (result.0 * 1000 + result.1) * 10 ^ (3 * result.2) ≡ size * 1000 }
    ensures thousandths { result.1 < 1000 }
{
    let (first, rest) = div_rem_thousand(size);
    let mut whole = first;
    let mut thousandths = rest;
    let mut power = 1;
    // The goals about the loop have their names from this label.
    'groups: while thousandths == 0 && whole >= 1000 {
        let (next, rest) = div_rem_thousand(whole);
        whole = next;
        thousandths = rest;
        power += 1;
    }
    (whole, thousandths, power)
}

/// Returns the position of the largest binary prefix, not above the size, in which it is exact within three decimal
/// places, or 0 if there is none: 2^(10 n) divides 1000 times the size if 2^(10 n - 3) divides the size.
#[inline(always)]
pub(crate) fn binary_power(size: u128) -> u32
    requires positive { 1 ≤ size }
    requires bound { size < size_limit }
    ensures bound { result ≤ 9 }
    ensures greatest { IsGreatestPower 2 10 size result }
    ensures eighths { size % 2 ^ (10 * result - 3) ≡ 0 }
{
    let twos = size.trailing_zeros() + 3;
    let last_bit = u128::BITS - 1 - size.leading_zeros();
    twos.min(last_bit) / 10
}
