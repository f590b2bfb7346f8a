//! Tests of conversions and comparisons between sizes and integers, by method and through trait bounds. Other tests
//! import `convert`.
use super::asserting::{assert_each, assert_for, assert_is};
use byte_unit::{Bit, Byte, ExceededBoundsError, TryFromIntError};
use std::cmp::Ordering;
use std::process::Abort;

/// The maximum size.
const MAX_SIZE: u128 = 999_999_999_999_999_999_999_999_999_999;

/// The order of 1024 and each number.
const ORDERS: &[(u64, Ordering)] = &[
    (1025, Ordering::Less),
    (1024, Ordering::Equal),
    (1000, Ordering::Greater),
];

/// Asserts the order of 1024 bytes, and of 1024 bits, and the number.
fn assert_order(rt: &impl Abort, number: u64, order: Ordering) {
    let (bytes, bits) = (Byte::from_u64(1024), Bit::from_u64(1024));
    let wide = u128::from(number);
    let is_equal = order.is_eq();
    assert_each(
        rt,
        &[
            ("bytes, 64 bits", bytes.cmp_u64(number), order),
            ("bytes, 128 bits", bytes.cmp_u128(wide), order),
            ("bits, 64 bits", bits.cmp_u64(number), order),
            ("bits, 128 bits", bits.cmp_u128(wide), order),
        ],
    );
    assert_each(
        rt,
        &[
            ("bytes, 64 bits", bytes.eq_u64(number), is_equal),
            ("bytes, 128 bits", bytes.eq_u128(wide), is_equal),
            ("bits, 64 bits", bits.eq_u64(number), is_equal),
            ("bits, 128 bits", bits.eq_u128(wide), is_equal),
        ],
    );
}

#[test]
fn comparisons_with_numbers(rt: HostRuntime) {
    for (number, order) in ORDERS {
        assert_order(&rt, *number, *order);
    }
    let (bytes, bits) = (Byte::from_u64(1024), Bit::from_u64(1024));
    assert_each(
        &rt,
        &[
            ("bytes", bytes.cmp_u128(u128::MAX), Ordering::Less),
            ("bits", bits.cmp_u128(u128::MAX), Ordering::Less),
        ],
    );
}

/// Converts through the bound `From`.
pub fn convert<N, S: From<N>>(number: N) -> S {
    S::from(number)
}

/// Converts through the bound `TryFrom`.
fn try_convert<N, S: TryFrom<N>>(number: N) -> Result<S, S::Error> {
    S::try_from(number)
}

/// Tests the conversions of integers into a type of sizes, by methods and by traits.
macro_rules! from_integers {
    ($rt:expr, $size:ident) => {
        let five = $size::from_u64(5);
        assert_each(
            $rt,
            &[
                ("u8", convert::<u8, $size>(5), five),
                ("u16", convert::<u16, $size>(5), five),
                ("u32", convert::<u32, $size>(5), five),
                ("u64", convert::<u64, $size>(5), five),
                ("usize", convert::<usize, $size>(5), five),
            ],
        );
        assert_each(
            $rt,
            &rows! {
                ("i8", try_convert::<i8, $size>(5).ok(), Some(five)),
                ("i16", try_convert::<i16, $size>(5).ok(), Some(five)),
                ("i32", try_convert::<i32, $size>(5).ok(), Some(five)),
                ("isize", try_convert::<isize, $size>(5).ok(), Some(five)),
                ("i64", try_convert::<i64, $size>(5).ok(), Some(five)),
                ("i128", try_convert::<i128, $size>(5).ok(), Some(five)),
                ("u128", try_convert::<u128, $size>(5).ok(), Some(five)),
                ("from_i64", $size::from_i64(5), Some(five)),
                ("from_i64 below 0", $size::from_i64(-5), None),
                ("from_i128", $size::from_i128(5), Some(five)),
                ("from_i128 below 0", $size::from_i128(i128::MIN), None),
                ("from_u128", $size::from_u128(MAX_SIZE), Some($size::MAX)),
                ("from_u128_unsafe", Some($size::from_u128_unsafe(5)), Some(five)),
            },
        );
        let error = Some(ExceededBoundsError);
        assert_each(
            $rt,
            &rows! {
                ("below 0", try_convert::<i64, $size>(-1).err(), error),
                ("10^30", try_convert::<u128, $size>(MAX_SIZE + 1).err(), error),
            },
        );
    };
}

#[test]
fn bytes_from_integers(rt: HostRuntime) {
    from_integers!(&rt, Byte);
}

#[test]
fn bits_from_integers(rt: HostRuntime) {
    from_integers!(&rt, Bit);
}

/// Returns `true` if a conversion through the bound `TryFrom` fails, with std's error.
fn rejects<N, S: TryFrom<N, Error = TryFromIntError> + Drop>(size: N) -> bool {
    S::try_from(size).is_err()
}

/// Tests the conversions of a type of sizes into integers, with its constant of 1024. A `u64` is cut to its maximum;
/// `usize` and the smaller types reject a size that exceeds theirs.
macro_rules! into_integers {
    ($rt:expr, $size:ident, $kibi:expr) => {
        for (number, holds) in rows! {
            ("u128", convert::<$size, u128>($size::MAX) == MAX_SIZE),
            ("u64, cut", convert::<$size, u64>($size::MAX) == u64::MAX),
            ("u64", convert::<$size, u64>($kibi) == 1024),
            ("u8", try_convert::<$size, u8>($size::from_u64(255)).ok() == Some(255)),
            ("u16", try_convert::<$size, u16>($size::from_u64(300)).ok() == Some(300)),
            ("u32", try_convert::<$size, u32>($size::from_u64(4_294_967_295)).ok() == Some(4_294_967_295)),
            ("usize", try_convert::<$size, usize>($kibi).ok() == Some(1024)),
            ("no u8", rejects::<$size, u8>($size::from_u64(300))),
            ("no u16", rejects::<$size, u16>($size::from_u64(65_536))),
            ("no u32", rejects::<$size, u32>($size::from_u64(4_294_967_296))),
            ("no usize", rejects::<$size, usize>($size::MAX)),
        } {
            assert_for($rt, holds, number);
        }
    };
}

#[test]
fn bytes_into_integers(rt: HostRuntime) {
    into_integers!(&rt, Byte, Byte::KIBIBYTE);
}

#[test]
fn bits_into_integers(rt: HostRuntime) {
    into_integers!(&rt, Bit, Bit::KIBIBIT);
}
