//! Tests that the flags of a formatter do not change the text of a number, a unit or a size, and that the default spec
//! is plain. `error_texts` imports the assertion.
use super::asserting::{assert_for, assert_same};
use byte_unit::{Bit, Byte, Decimal, Expansion, FormatSpec, Unit};
use std::alloc::Global;
use std::fmt::Display;
use std::process::Abort;

/// Asserts that a value is printed as `wanted`, which has no line feed, with no flag and with each flag.
pub fn assert_printed_with_each_flag<D: Display>(
    rt: &impl Abort,
    alloc: Global,
    value: &D,
    wanted: &str,
) {
    let printed = format!(in alloc;
        "{value}\n{value:>200}\n{value:*^040}\n{value:+}\n{value:.1}\n{value:#}"
    );
    let printed = printed.expect(rt, "memory");
    for line in printed.as_str().split('\n') {
        assert_same(rt, line, wanted);
    }
}

/// Returns the default of a type.
fn default_of<T: Default>() -> T {
    T::default()
}

#[test]
fn formatter_flags_are_ignored(rt: HostRuntime) {
    let alloc = rt.alloc();
    let bytes = Byte::from_u64(1_555_000);
    let bits = Bit::from_u64(1_555_000);
    let number = Decimal::from_u128_with_scale(1555, 3).expect(&rt, "a decimal");
    assert_printed_with_each_flag(&rt, alloc, &bytes, "1555000");
    assert_printed_with_each_flag(&rt, alloc, &bits, "1555000");
    assert_printed_with_each_flag(&rt, alloc, &bytes.get_adjusted_unit(Unit::MB), "1.555 MB");
    assert_printed_with_each_flag(&rt, alloc, &bits.get_adjusted_unit(Unit::Mbit), "1.555 Mb");
    assert_printed_with_each_flag(&rt, alloc, &number, "1.555");
    assert_printed_with_each_flag(&rt, alloc, &Expansion::from_decimal(number), "1.555");
    assert_printed_with_each_flag(&rt, alloc, &Unit::KiB, "KiB");
    let is_plain = default_of::<FormatSpec>() == FormatSpec::PLAIN;
    assert_for(&rt, is_plain, "the default spec is plain");
}
