//! Tests of std's traits on sizes and units, each through its bound: order, hash, conversions and `FromStr`.
use super::asserting::{assert_are, assert_for, assert_is};
use super::numbers::convert;
use byte_unit::{AdjustedBit, AdjustedByte, Bit, Byte, ParseError, Unit, ValueParseError};
use std::alloc::Global;
use std::cmp::Ordering;
use std::collections::HashSet;
use std::hash::Hash;
use std::process::Abort;
use std::str::FromStr;

/// Returns the default, through the bound `Default`.
fn first<S: Default>() -> S {
    S::default()
}

/// Returns the greater of two values, through the bound `Ord`.
fn greater<S: Ord + Copy>(left: S, right: S) -> S {
    left.max(right)
}

/// Compares through the bound `PartialOrd`.
fn partial_order<S: PartialOrd>(left: &S, right: &S) -> Option<Ordering> {
    left.partial_cmp(right)
}

/// Parses through the bound `FromStr`.
fn parsed<S: FromStr>(text: &str) -> Result<S, S::Err> {
    S::from_str(text)
}

/// The default, the order and parsing of both types. `10 b` is two bytes, rounded up.
#[test]
fn sizes_by_their_bounds(rt: HostRuntime) {
    assert_are(
        &rt,
        &[
            (first::<Byte>(), Byte::MIN),
            (greater(Byte::KILOBYTE, Byte::KIBIBYTE), Byte::KIBIBYTE),
        ],
    );
    let order = partial_order(&Byte::KILOBYTE, &Byte::KIBIBYTE);
    assert_is(&rt, order, Some(Ordering::Less));
    assert_is(&rt, parsed::<Byte>("10 b").ok(), Some(Byte::from_u64(2)));
    assert_are(
        &rt,
        &[
            (first::<Bit>(), Bit::MIN),
            (greater(Bit::KILOBIT, Bit::KIBIBIT), Bit::KIBIBIT),
        ],
    );
    let order = partial_order(&Bit::KILOBIT, &Bit::KIBIBIT);
    assert_is(&rt, order, Some(Ordering::Less));
    assert_is(&rt, parsed::<Bit>("10 B").ok(), Some(Bit::from_u64(80)));
}

/// Units from their names, in which case counts and no suffix means bytes, and their bits.
#[test]
fn units_by_their_bounds(rt: HostRuntime) {
    assert_is(&rt, parsed::<Unit>("").ok(), Some(Unit::B));
    assert_is(&rt, parsed::<Unit>("kib").ok(), Some(Unit::Kibit));
    assert_is(&rt, parsed::<Unit>("Kix").is_err(), true);
    assert_is(&rt, convert::<Unit, u128>(Unit::KB), 8000);
    assert_is(&rt, Unit::Kbit.as_str(), "Kb");
}

#[test]
fn errors_by_their_bounds(rt: HostRuntime) {
    let is_wanted = matches!(
        "1.".parse::<Byte>(),
        Err(ParseError::Value(ValueParseError::NotNumber('.')))
    );
    assert_for(&rt, is_wanted, "a decimal point without a digit");
    let is_wanted = matches!(parsed::<Bit>("20 GX"), Err(ParseError::Unit(_)));
    assert_for(&rt, is_wanted, "no unit");
}

/// Asserts whether a set has two elements or one after both sizes are inserted.
fn assert_distinct<S: Hash + Eq + Drop>(
    rt: &impl Abort,
    alloc: Global,
    sizes: (S, S),
    wanted: bool,
) {
    let mut seen = HashSet::new(alloc);
    seen.insert(sizes.0).expect(rt, "memory");
    let is_new = seen.insert(sizes.1).expect(rt, "memory");
    assert_for(rt, is_new == wanted, "elements of a set");
}

#[test]
fn sizes_in_sets(rt: HostRuntime) {
    let alloc = rt.alloc();
    assert_distinct(&rt, alloc, (Byte::KILOBYTE, Byte::KIBIBYTE), true);
    assert_distinct(&rt, alloc, (Byte::KILOBYTE, Byte::from_u64(1000)), false);
    assert_distinct(&rt, alloc, (Bit::KILOBIT, Bit::KIBIBIT), true);
    assert_distinct(&rt, alloc, (Bit::KILOBIT, Bit::from_u64(1000)), false);
}

/// Compares through the bound `Eq`.
fn are_equal<S: Eq>(left: &S, right: &S) -> bool {
    left == right
}

/// Compares through the bound `Ord`.
fn order<S: Ord>(left: &S, right: &S) -> Ordering {
    left.cmp(right)
}

/// Asserts the order of adjusted sizes, which does not depend on their units.
fn assert_ordered<S: Ord + PartialOrd + Copy>(rt: &impl Abort, less: S, size: S, same: S) {
    assert_for(rt, are_equal(&size, &same), "equal");
    assert_for(rt, !are_equal(&size, &less), "not equal");
    assert_is(rt, order(&less, &size), Ordering::Less);
    assert_is(rt, order(&size, &same), Ordering::Equal);
    assert_is(rt, order(&size, &less), Ordering::Greater);
    assert_is(rt, partial_order(&less, &size), Some(Ordering::Less));
}

#[test]
fn adjusted_sizes_compare_as_their_sizes(rt: HostRuntime) {
    let binary = Byte::KIBIBYTE.get_adjusted_unit(Unit::KiB);
    let decimal = Byte::KIBIBYTE.get_adjusted_unit(Unit::GB);
    let less = Byte::KILOBYTE.get_adjusted_unit(Unit::B);
    assert_ordered(&rt, less, binary, decimal);
    assert_is(&rt, greater(less, decimal).get_unit(), Unit::GB);
    let more = Byte::from_u64(1025).get_adjusted_unit(Unit::YB);
    assert_is(&rt, order(&binary, &more), Ordering::Less);
    let binary = Bit::KIBIBIT.get_adjusted_unit(Unit::Kibit);
    let decimal = Bit::KIBIBIT.get_adjusted_unit(Unit::GB);
    let less = Bit::KILOBIT.get_adjusted_unit(Unit::Bit);
    assert_ordered(&rt, less, binary, decimal);
    assert_is(&rt, greater(less, decimal).get_unit(), Unit::GB);
}

#[test]
fn adjusted_sizes_from_and_into(rt: HostRuntime) {
    let bytes: AdjustedByte = convert(Byte::from_u64(10_000));
    assert_is(&rt, bytes.get_unit(), Unit::KiB);
    assert_is(
        &rt,
        convert::<AdjustedByte, Byte>(bytes),
        Byte::from_u64(10_000),
    );
    assert_is(&rt, convert::<AdjustedByte, Unit>(bytes), Unit::KiB);
    let kib = Byte::from_u64(1024).get_adjusted_unit(Unit::GB);
    assert_is(&rt, Byte::from(kib), Byte::from_u64(1024));
    assert_is(&rt, Unit::from(kib), Unit::GB);
    let bits: AdjustedBit = convert(Bit::from_u64(10_000));
    assert_is(&rt, bits.get_unit(), Unit::Kibit);
    assert_is(
        &rt,
        convert::<AdjustedBit, Bit>(bits),
        Bit::from_u64(10_000),
    );
    assert_is(&rt, convert::<AdjustedBit, Unit>(bits), Unit::Kibit);
    let bytes = parsed::<AdjustedByte>("50.84 MB")
        .ok()
        .expect(&rt, "a size");
    assert_is(&rt, bytes.get_byte(), Byte::from_u64(50_840_000));
    assert_is(&rt, bytes.get_unit(), Unit::MiB);
    let bits = parsed::<AdjustedBit>("50.84 Mb").ok().expect(&rt, "a size");
    assert_is(&rt, bits.get_bit(), Bit::from_u64(50_840_000));
    assert_is(&rt, bits.get_unit(), Unit::Mibit);
}
