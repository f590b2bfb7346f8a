//! Tests of `Decimal`: its order, its parts from integers and its digits; and of the digits of an `Expansion`.
use super::asserting::{assert_each, assert_for, assert_is};
use byte_unit::{Decimal, Expansion};
use std::cmp::Ordering;
use std::hash::{DefaultHasher, Hash, Hasher};
use std::process::Abort;

/// Returns the integer part, and the fraction scaled by 10^28.
fn parts_of(number: Decimal) -> (u128, u128) {
    (number.whole(), number.fraction())
}

/// Asserts order, hash and default through the trait bounds, as in a generic caller.
fn assert_compared<T: Ord + Hash + Default + Copy>(rt: &impl Abort, small: T, great: T) {
    let is_ordered = small < great && great > small && small != great;
    assert_for(rt, is_ordered, "order");
    let is_ordered = small.max(great) == great && small.cmp(&small) == Ordering::Equal;
    assert_for(rt, is_ordered, "greater and equal");
    assert_for(rt, T::default() < small, "default");
    let (mut first, mut second) = (DefaultHasher::new(), DefaultHasher::new());
    small.hash(&mut first);
    small.hash(&mut second);
    assert_is(rt, first.finish(), second.finish());
}

#[test]
fn decimals_are_ordered_by_value(rt: HostRuntime) {
    let half = Decimal::from_u128_with_scale(5, 1).expect(&rt, "a decimal");
    let most = Decimal::from_u128_with_scale(99, 2).expect(&rt, "a decimal");
    assert_compared(&rt, half, most);
    assert_compared(&rt, most, Decimal::from(1u8));
    assert_for(&rt, Decimal::default() == Decimal::ZERO, "default");
}

#[test]
fn decimals_from_integers(rt: HostRuntime) {
    // A fraction of one (10^28 when scaled), and an integer part of 2^112, are just out of range.
    let one = 10_000_000_000_000_000_000_000_000_000;
    let wholes = 5_192_296_858_534_827_628_530_496_329_220_096;
    let greatest = Decimal::new(wholes - 1, one - 1).expect(&rt, "a decimal");
    let seven = Some((7, 0));
    assert_each(
        &rt,
        &rows! {
            ("u8", Some(parts_of(Decimal::from(7u8))), seven),
            ("u16", Some(parts_of(Decimal::from(7u16))), seven),
            ("u32", Some(parts_of(Decimal::from(7u32))), seven),
            ("u64", Some(parts_of(Decimal::from(7u64))), seven),
            ("u128", Decimal::from_u128(7).map(parts_of), seven),
            ("a fraction of one", Decimal::new(0, one).map(parts_of), None),
            ("2^112", Decimal::new(wholes, 0).map(parts_of), None),
            ("2^112 from u128", Decimal::from_u128(wholes).map(parts_of), None),
            ("the greatest", Some(parts_of(greatest)), Some((wholes - 1, one - 1))),
        },
    );
    assert_is(&rt, greatest.places(), 28);
    assert_is(&rt, Decimal::from(7u8).places(), 0);
    let whole = Decimal::from(u64::MAX).whole();
    assert_is(&rt, whole, 18_446_744_073_709_551_615);
}

/// The mantissa, the scale, the digits after the decimal point as a number, and the number of these digits. Zeros at
/// their end do not count; those at their beginning do.
const DIGITS_AFTER_THE_POINT: &[(u128, u32, u128, u32)] = &[
    (5084, 2, 84, 2),
    (50_084, 3, 84, 3),
    (1000, 2, 0, 0),
    (90, 2, 9, 1),
    (1, 28, 1, 28),
];

/// Asserts the digits of each decimal, and that `from_digits` creates the same decimal from them.
fn assert_digits(rt: &impl Abort, rows: &[(u128, u32, u128, u32)]) {
    for (mantissa, scale, digits, places) in rows {
        let d = Decimal::from_u128_with_scale(*mantissa, *scale).expect(rt, "a decimal");
        let found = (*mantissa, d.digits(), d.places());
        assert_is(rt, found, (*mantissa, *digits, *places));
        let made = Decimal::from_digits(d.whole(), d.digits(), d.places());
        assert_is(rt, (*mantissa, parts_of(made)), (*mantissa, parts_of(d)));
    }
}

#[test]
fn digits_of_decimals(rt: HostRuntime) {
    assert_digits(&rt, DIGITS_AFTER_THE_POINT);
}

/// Asserts the integer part, the number of decimals, the last of them, and that there are none after it.
fn assert_expanded(rt: &impl Abort, e: &Expansion, whole: u128, places: u32, last: u8) {
    let found = (e.whole(), e.places(), e.digit(places.max(1)));
    assert_is(rt, found, (whole, places, last));
    let past = (e.digit(places.saturating_add(1)), e.digit(u32::MAX));
    assert_is(rt, past, (0, 0));
}

/// 10, 50.84 and 10^-28; and 1 / 2^93, a bit in RiB, whose digits are those of 5^93, which end with 5.
#[test]
fn digits_of_expansions(rt: HostRuntime) {
    for (mantissa, scale, whole, places, last) in rows! {
        (1000, 2, 10, 0, 0),
        (5084, 2, 50, 2, 4),
        (1, 28, 0, 28, 1),
    } {
        let d = Decimal::from_u128_with_scale(mantissa, scale).expect(&rt, "a decimal");
        assert_expanded(&rt, &Expansion::from_decimal(d), whole, places, last);
    }
    assert_expanded(&rt, &Expansion::new(1, 93, 0), 0, 93, 5);
}
