//! Units of sizes: the choice of a unit for a size, and sizes from a number of a unit.

ghost use Rattle.std.specs.Prelude.{◌≡◌, ℕ, ◌*◌, ◌<◌, ◌≤◌, ◌⊎◌, Some, None, false, slice_get, IfSome, if◌then◌else◌};
ghost use Rattle.byte_unit_math.specs.Bounds.{scale, size_limit};
ghost use Rattle.byte_unit_base.specs.Grammar.Shape.{bits};
ghost use Rattle.byte_unit_base.specs.Grammar.Version.{current};
ghost use Rattle.byte_unit_base.specs.Grammar.Units.{shape_of};
ghost use Rattle.byte_unit_base.specs.Sizes.Kinds.{bits_in};
ghost use Rattle.byte_unit_choice.specs.Choice.{IsRecoveredIn, IsAppropriateIn};
ghost use Rattle.byte_unit_base.specs.Sizes.Least.{IsLeastOf};
ghost use Rattle.byte_unit_base.specs.Sizes.OrNone.{IsSizeOrNone};
ghost use Rattle.byte_unit_c.specs.Codes.{unit_at, types, CodesUnit};
ghost use Rattle.byte_unit_c.specs.Flags.{kind_at, choice_flags_at};
ghost use Rattle.byte_unit_c.specs.Values.{number_of, AreDecimalParts};

use crate::codes::{type_at, unit_at, unit_code};
use crate::flags::{choice_flags_at, kind_at};
use crate::values::{DecimalParts, Number};
use byte_unit_base::size;
use byte_unit_choice::{appropriate_unit, exact_unit, recoverable_unit};
use byte_unit_math::Steps;

/// The code that no unit has.
pub const NO_UNIT: u32 = u32::MAX;

/// Returns the code of the largest unit, not above the size, that divides it, or of the base unit (`B` or `b`) if none
/// does, and writes the size in that unit to `count`. The size is in bytes, or in bits with the flag `BITS` (1). The
/// unit is of the size's kind, or of either kind with the flag `EITHER_KIND` (4). Returns `NO_UNIT` and writes nothing
/// if the size is out of range or another flag is set.
///
/// For example, 50,840,000 bytes gives 4, the code of `KB`, with the count 50,840.
#[unsafe(no_mangle)]
pub extern "C" fn byte_unit_exact_unit(size: Number, flags: u32, count: &mut Number) -> u32
    ensures found { IfSome (choice_flags_at flags) (λ asked. number_of size < size_limit → CodesUnit
        (λ unit. IsRecoveredIn current asked.kind asked.of_either (number_of size) 0 unit
        × (number_of count.new * bits unit ≡ number_of size * bits_in asked.kind))
        result) }
    ensures rejected { (size_limit ≤ number_of size) ⊎ (choice_flags_at flags ≡ None)
        → (result ≡ u32.MAX) × (count.new ≡ count.old) }
{
    let (Some(size), Some(asked)) = (size::bounded(size.get()), choice_flags_at(flags)) else {
        return NO_UNIT;
    };
    let (whole, unit) = exact_unit(size, asked.kind, asked.of_either);
    *count = Number::new(whole);
    unit_code(unit)
}

/// Returns the code of the largest unit, not above the size, that represents it exactly with at most `precision` digits
/// after the decimal point, or of the base unit (`B` or `b`) if none does, and writes the size in that unit to `count`.
/// A precision above 28 counts as 28. The size is in bytes, or in bits with the flag `BITS` (1). The unit is of the
/// size's kind, or of either kind with the flag `EITHER_KIND` (4). Returns `NO_UNIT` and writes nothing if the size is
/// out of range or another flag is set.
///
/// For example, 50,840,000 bytes with precision 2 gives 8, the code of `MB`, with the count 50.84.
#[unsafe(no_mangle)]
pub extern "C" fn byte_unit_recoverable_unit(
    size: Number,
    flags: u32,
    precision: usize,
    count: &mut DecimalParts,
) -> u32
    ensures found { IfSome (choice_flags_at flags) (λ asked. number_of size < size_limit → CodesUnit
        (λ unit. IsRecoveredIn current asked.kind asked.of_either (number_of size) precision unit
        × (number : ℕ) × AreDecimalParts count.new number
        × (number * bits unit ≡ number_of size * bits_in asked.kind * scale))
        result) }
    ensures rejected { (size_limit ≤ number_of size) ⊎ (choice_flags_at flags ≡ None)
        → (result ≡ u32.MAX) × (count.new ≡ count.old) }
{
    let (Some(size), Some(asked)) = (size::bounded(size.get()), choice_flags_at(flags)) else {
        return NO_UNIT;
    };
    let steps = &mut Steps::new();
    let (number, unit) = recoverable_unit(size, asked.kind, asked.of_either, precision, steps);
    *count = DecimalParts::new(number);
    unit_code(unit)
}

/// Returns the code of the largest unit of the size's kind and of the unit type that is not above the size, or of the
/// base unit (`B` or `b`) if there is none. The size is in bytes, or in bits with the flag `BITS` (1). The unit type is
/// 0 for binary, 1 for decimal and 2 for both. Returns `NO_UNIT` if the unit type is unknown or another flag is set.
/// The number may be 10^30 or more.
///
/// For example, 10,000 bytes with the unit type 2 gives 5, the code of `KiB`.
#[unsafe(no_mangle)]
pub extern "C" fn byte_unit_appropriate_unit(size: Number, flags: u32, unit_type: u32) -> u32
    ensures found { IfSome (kind_at flags)
        (λ kind. IfSome (slice_get types unit_type) (λ asked. CodesUnit
        (IsAppropriateIn current kind asked (number_of size))
        result)) }
    ensures rejected { (kind_at flags ≡ None) ⊎ (slice_get types unit_type ≡ None)
        → result ≡ u32.MAX }
{
    match (kind_at(flags), type_at(unit_type)) {
        (Some(kind), Some(unit_type)) => unit_code(appropriate_unit(size.get(), kind, unit_type)),
        _ => NO_UNIT,
    }
}

/// Writes the size of `count` units, rounded up to the next whole byte, or bit with the flag `BITS` (1), and returns
/// `true`. Returns `false` and writes nothing if the size is 10^30 or more, the code is not that of a unit, or another
/// flag is set.
///
/// For example, 17 of the unit 0 (`bit`) in bytes gives `true` and the size 3.
#[unsafe(no_mangle)]
pub extern "C" fn byte_unit_from_unit(
    count: Number,
    unit: u32,
    flags: u32,
    size: &mut Number,
) -> bool
    ensures size { IfSome (kind_at flags) (λ kind. IfSome (unit_at unit) (λ of. IsSizeOrNone
        (IsLeastOf kind (number_of count * scale) (shape_of of))
        (if result then Some (number_of size.new) else None))) }
    ensures rejected { (kind_at flags ≡ None) ⊎ (unit_at unit ≡ None) → result ≡ false }
    ensures unchanged { result ≡ false → size.new ≡ size.old }
{
    let (Some(kind), Some(unit)) = (kind_at(flags), unit_at(unit)) else {
        return false;
    };
    match size::with_unit(count.get(), unit, kind) {
        Some(found) => {
            *size = Number::new(found);
            true
        }
        None => false,
    }
}
