//! Tests of texts in a buffer that is longer or too short, and after reserved capacity. The rows of `byte_unit_vectors`
//! say the text of each size by each spec, by each call that formats it.
use super::asserting::{assert_for, assert_is, assert_same};
use byte_unit::{Bit, Byte, Expansion, FormatSpec, Sign, Unit, write_layout, write_plain};
use std::alloc::AllocError;
use std::process::Abort;

/// Asserts the number of bytes written, and the bytes at the start of the buffer.
fn assert_written(rt: &impl Abort, written: usize, len: usize, out: &[u8], front: &[u8]) {
    assert_is(rt, written, len);
    assert_for(rt, out.starts_with(front), "the bytes at the start");
}

/// Each text is written over the one before, of which the rest stays; a text that does not fit is not written.
#[test]
fn texts_in_buffers(rt: HostRuntime) {
    let mut out = [b'~'; 12];
    let len = Byte::from_u64(1537).write_text(FormatSpec::ALTERNATE, &mut out);
    assert_written(&rt, len, 8, &out, b"1.537 KB~~~~");
    let plus = FormatSpec {
        sign: Sign::Plus,
        ..FormatSpec::PLAIN
    };
    let len = write_plain(10, plus, &mut out);
    assert_written(&rt, len, 3, &out, b"+1037 KB~~~~");
    let adjusted = Bit::from_u64(10).get_adjusted_unit(Unit::B);
    let len = adjusted.write_text(FormatSpec::PLAIN, &mut out);
    assert_written(&rt, len, 6, &out, b"1.25 BKB~~~~");
    let mut short = [b'~'; 4];
    let ten = Expansion::new(10, 0, 0);
    let len = write_layout(&ten, 0, Unit::KB, FormatSpec::ALTERNATE, &mut short);
    assert_written(&rt, len, 5, &short, b"~~~~");
}

/// The longest text without a width, of 37 bytes, is written to a buffer that it just fits, and not to a shorter one.
#[test]
fn the_longest_text_in_buffers(rt: HostRuntime) {
    // The largest size below 10^30 with five decimals in KiB.
    let size = Byte::from_u128(999_999_999_999_999_999_999_999_999_968).expect(&rt, "a size");
    let five = FormatSpec {
        precision: Some(5),
        ..FormatSpec::ALTERNATE
    };
    let mut out = [b'~'; 37];
    let len = size.write_text(five, &mut out[..36]);
    assert_written(&rt, len, 37, &out, &[b'~'; 37]);
    let len = size.write_text(five, &mut out);
    assert_written(&rt, len, 37, &out, b"976562499999999999999999999.96875 KiB");
}

/// Appends both texts of a size after reserving the capacity for both: the second cannot fail to allocate.
fn append_both(size: Byte, text: &mut String) -> Result<(), AllocError> {
    let len = size.text_len(FormatSpec::PLAIN) + size.text_len(FormatSpec::ALTERNATE);
    text.try_reserve_exact(len)?;
    size.append_text(FormatSpec::PLAIN, text)?;
    size.append_text(FormatSpec::ALTERNATE, text).unwrap();
    Ok(())
}

#[test]
fn appended_texts(rt: HostRuntime) {
    let mut text = String::new(rt.alloc());
    append_both(Byte::from_u64(1536), &mut text).expect(&rt, "memory");
    assert_same(&rt, text.as_str(), "15361.5 KiB");
}
