//! Sums, differences, comparisons and 64-bit values of sizes, which are the same for sizes in bytes and in bits.

ghost use Rattle.std.specs.Prelude.{◌≡◌, ◌+◌, ◌-◌, ◌^◌, ◌<◌, ◌≤◌, SomeIff, Some, None, false, if◌then◌else◌};
ghost use Rattle.byte_unit_math.specs.Bounds.{size_limit};
ghost use Rattle.byte_unit_c.specs.Arithmetic.{comparison};
ghost use Rattle.byte_unit_c.specs.Values.{number_of};

use crate::values::Number;
use byte_unit_base::size;

/// Writes the sum of two sizes, and returns `true`. Returns `false` and writes nothing if the sum is 10^30 or more, as
/// it is if `a` or `b` is.
///
/// For example, 1000 and 24 gives `true` and the sum 1024.
#[unsafe(no_mangle)]
pub extern "C" fn byte_unit_add(a: Number, b: Number, sum: &mut Number) -> bool
    ensures sum { SomeIff (if result then Some (number_of sum.new) else None)
        (number_of a + number_of b < size_limit) (number_of a + number_of b) }
    ensures unchanged { result ≡ false → sum.new ≡ sum.old }
{
    write_size(sum_of(a.get(), b.get()), sum)
}

/// Writes the difference of two sizes, and returns `true`. Returns `false` and writes nothing if `b` is greater than
/// `a`, or if `a` is 10^30 or more.
///
/// For example, 1024 and 24 gives `true` and the difference 1000.
#[unsafe(no_mangle)]
pub extern "C" fn byte_unit_subtract(a: Number, b: Number, difference: &mut Number) -> bool
    ensures difference { SomeIff (if result then Some (number_of difference.new) else None)
        ((number_of b ≤ number_of a) × (number_of a < size_limit)) (number_of a - number_of b) }
    ensures unchanged { result ≡ false → difference.new ≡ difference.old }
{
    write_size(difference_of(a.get(), b.get()), difference)
}

/// Returns -1 if `a` is less than `b`, 0 if they are equal, and 1 if `a` is greater. The numbers may be 10^30 or more.
///
/// For example, 1000 and 1024 gives -1.
#[unsafe(no_mangle)]
pub extern "C" fn byte_unit_compare(a: Number, b: Number) -> i32
    ensures { result ≡ comparison (number_of a) (number_of b) }
{
    let (a, b) = (a.get(), b.get());
    if a < b {
        -1
    } else if a == b {
        0
    } else {
        1
    }
}

/// Returns the size of a number of 64 bits, which is always in range.
///
/// For example, 1536 gives the size 1536.
#[unsafe(no_mangle)]
pub extern "C" fn byte_unit_from_u64(value: u64) -> Number
    ensures { number_of result ≡ value }
{
    Number {
        low: value,
        high: 0,
    }
}

/// Writes a size as a number of 64 bits, and returns `true`. Returns `false` and writes nothing if it is 2^64 or more.
///
/// For example, 1536 gives `true` and the number 1536.
#[unsafe(no_mangle)]
pub extern "C" fn byte_unit_to_u64(size: Number, value: &mut u64) -> bool
    ensures value { SomeIff (if result then Some value.new else None)
        (number_of size < 2 ^ 64) (number_of size) }
    ensures unchanged { result ≡ false → value.new ≡ value.old }
{
    if size.high != 0 {
        return false;
    }
    *value = size.low;
    true
}

/// Returns the sum, or `None` if it is 10^30 or more.
fn sum_of(a: u128, b: u128) -> Option<u128>
    ensures { SomeIff result (a + b < size_limit) (a + b) }
{
    size::bounded(a.checked_add(b)?)
}

/// Returns the difference, or `None` if `b` is greater than `a`, or `a` is 10^30 or more.
fn difference_of(a: u128, b: u128) -> Option<u128>
    ensures { SomeIff result ((b ≤ a) × (a < size_limit)) (a - b) }
{
    size::bounded(a)?.checked_sub(b)
}

/// Writes a size, if there is one, and returns whether there is.
fn write_size(found: Option<u128>, size: &mut Number) -> bool
    ensures size { found ≡ (if result then Some (number_of size.new) else None) }
    ensures unchanged { result ≡ false → size.new ≡ size.old }
{
    match found {
        Some(n) => {
            *size = Number::new(n);
            true
        }
        None => false,
    }
}
