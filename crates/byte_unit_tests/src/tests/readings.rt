//! Tests of the calls that read bytes that are no text, and that make a size from numbers of other types. The rows of
//! `byte_unit_vectors` say what strings and numbers of a unit are, by each call that reads them.
use super::asserting::{assert_are, assert_is};
use byte_unit::{Bit, Byte, Decimal, Unit};

/// Bytes that are not UTF-8: FF begins no character, and C2 one that is cut off.
#[test]
fn bytes_that_are_no_text(rt: HostRuntime) {
    assert_is(&rt, Byte::parse_bytes(b"1 KiB\xFF", false).is_none(), true);
    assert_is(&rt, Bit::parse_bytes(b"\xC2").is_none(), true);
    assert_is(
        &rt,
        Byte::parse_bytes_binary(b"1 K\xFF", false).is_none(),
        true,
    );
    assert_is(&rt, Bit::parse_bytes_binary(b"1 K\xFF").is_none(), true);
}

#[test]
fn numbers_of_other_types_in_a_unit(rt: HostRuntime) {
    // 50.84, which is rounded up to 51.
    let price = Decimal::from_u128_with_scale(5084, 2).expect(&rt, "a decimal");
    assert_are(
        &rt,
        &rows! {
            (Byte::from_u64_with_unit(15, Unit::KB), Some(Byte::from_u64(15_000))),
            (Byte::from_i128_with_unit(15, Unit::KB), Some(Byte::from_u64(15_000))),
            (Byte::from_i64_with_unit(15, Unit::KB), Some(Byte::from_u64(15_000))),
            (Byte::from_i64_with_unit(-1, Unit::KB), None),
            (Byte::from_decimal(price), Some(Byte::from_u64(51))),
        },
    );
    assert_are(
        &rt,
        &rows! {
            (Bit::from_u64_with_unit(15, Unit::Kbit), Some(Bit::from_u64(15_000))),
            (Bit::from_i128_with_unit(15, Unit::Kbit), Some(Bit::from_u64(15_000))),
            (Bit::from_i64_with_unit(15, Unit::Kbit), Some(Bit::from_u64(15_000))),
            (Bit::from_i64_with_unit(-1, Unit::Kbit), None),
            (Bit::from_decimal(price), Some(Bit::from_u64(51))),
        },
    );
}
