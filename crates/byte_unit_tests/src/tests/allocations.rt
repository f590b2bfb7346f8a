//! Tests of the allocations of calls that make or append a text: each makes one, or none if the text fits the capacity,
//! and if it fails, neither text nor capacity is changed. Calls of `Bit` are as those of `Byte`.
//!
//! Each test makes three allocations, and ends with the error of one that fails. The command `tools/dev test memory`
//! runs these tests under `rt try --test --fail-alloc N`, which makes the Nth allocation of each test fail: they have
//! to end with that error for N = 1, 2 and 3, and to pass for each other N. So a call that allocates more often is
//! seen.
use super::asserting::{assert_for, assert_is};
use byte_unit::{
    AdjustedBit, AdjustedByte, Bit, Byte, Expansion, FormatSpec, Unit, UnitType, append_layout,
    append_plain, unit_to_json,
};
use serde_json::Value;
use std::alloc::{AllocError, Global};
use std::process::Abort;

/// Returns 1536 bytes in KB.
fn bytes_in_kb() -> AdjustedByte {
    Byte::from_u64(1536).get_adjusted_unit(Unit::KB)
}

/// Returns 8192 bits in Kb.
fn bits_in_kbit() -> AdjustedBit {
    Bit::from_u64(8192).get_adjusted_unit(Unit::Kbit)
}

/// What is appended to a string.
#[derive(Clone, Copy)]
enum Added {
    /// 1536 bytes.
    Bytes(FormatSpec),
    /// 1536 bytes in KB.
    BytesIn,
    /// 8192 bits in Kb.
    BitsIn,
    /// The number 10.
    Plain,
    /// The number 10 with a unit.
    Layout,
}

/// Appends a text.
fn append(added: Added, text: &mut String) -> Result<(), AllocError> {
    let ten = Expansion::new(10, 0, 0);
    match added {
        Added::Bytes(spec) => Byte::from_u64(1536).append_text(spec, text),
        Added::BytesIn => bytes_in_kb().append_text(FormatSpec::PLAIN, text),
        Added::BitsIn => bits_in_kbit().append_text(FormatSpec::ALTERNATE, text),
        Added::Plain => append_plain(10, FormatSpec::PLAIN, text),
        Added::Layout => append_layout(&ten, 0, Unit::KiB, FormatSpec::PLAIN, text),
    }
}

/// Returns the string `ab`, with this capacity.
fn with_capacity(alloc: Global, capacity: usize) -> Result<String, AllocError> {
    let mut text = String::new(alloc);
    text.try_reserve_exact(capacity)?;
    text.push_str("ab")?;
    Ok(text)
}

/// Asserts that a call makes one allocation if the capacity is one byte too little, and none if it is enough. A failed
/// one changes nothing, and a second call succeeds as if the first had not been made.
fn assert_appended(
    rt: &impl Abort,
    alloc: Global,
    added: Added,
    whole: &str,
) -> Result<(), AllocError> {
    let mut text = with_capacity(alloc, whole.len().saturating_sub(1))?;
    let capacity = text.capacity();
    let appended = append(added, &mut text);
    if appended.is_err() {
        assert_is(rt, text.as_str(), "ab");
        assert_is(rt, text.capacity(), capacity);
        assert_for(rt, append(added, &mut text).is_ok(), whole);
    }
    assert_is(rt, text.as_str(), whole);
    let mut text = with_capacity(alloc, whole.len())?;
    assert_for(rt, append(added, &mut text).is_ok(), whole);
    assert_is(rt, text.as_str(), whole);
    assert_is(rt, text.capacity(), whole.len());
    appended
}

#[test]
fn appended_bytes(rt: HostRuntime) -> Result<(), AllocError> {
    let added = Added::Bytes(FormatSpec::PLAIN);
    assert_appended(&rt, rt.alloc(), added, "ab1536")
}

#[test]
fn appended_bytes_with_a_unit(rt: HostRuntime) -> Result<(), AllocError> {
    let added = Added::Bytes(FormatSpec::ALTERNATE);
    assert_appended(&rt, rt.alloc(), added, "ab1.5 KiB")
}

#[test]
fn appended_adjusted_bytes(rt: HostRuntime) -> Result<(), AllocError> {
    assert_appended(&rt, rt.alloc(), Added::BytesIn, "ab1.536 KB")
}

#[test]
fn appended_adjusted_bits(rt: HostRuntime) -> Result<(), AllocError> {
    assert_appended(&rt, rt.alloc(), Added::BitsIn, "ab8.192 Kb")
}

#[test]
fn appended_number(rt: HostRuntime) -> Result<(), AllocError> {
    assert_appended(&rt, rt.alloc(), Added::Plain, "ab10")
}

#[test]
fn appended_number_with_a_unit(rt: HostRuntime) -> Result<(), AllocError> {
    assert_appended(&rt, rt.alloc(), Added::Layout, "ab10 KiB")
}

/// A call that returns a text of its own.
#[derive(Clone, Copy)]
enum Made {
    /// `to_text` of 1536 bytes.
    Bytes,
    /// `to_text` of 8192 bits in Kb.
    BitsIn,
    /// `approximate_text` of 10,000 bits.
    Approximate,
    /// `to_json` of 1536 bytes.
    JsonOfBytes,
    /// `to_json` of 8192 bits in Kb.
    JsonOfBitsIn,
    /// `unit_to_json` of Kb.
    JsonOfUnit,
}

/// Returns a text, or the string of a JSON value.
fn make(made: Made, alloc: Global) -> Result<String, AllocError> {
    let spec = FormatSpec::ALTERNATE;
    let value = match made {
        Made::Bytes => Value::String(Byte::from_u64(1536).to_text(alloc, spec)?),
        Made::BitsIn => Value::String(bits_in_kbit().to_text(alloc, spec)?),
        Made::Approximate => {
            let bits = Bit::from_u64(10_000);
            Value::String(bits.approximate_text(alloc, UnitType::Decimal, spec)?)
        }
        Made::JsonOfBytes => Byte::from_u64(1536).to_json(alloc)?,
        Made::JsonOfBitsIn => bits_in_kbit().to_json(alloc)?,
        Made::JsonOfUnit => unit_to_json(alloc, Unit::Kbit)?,
    };
    match value {
        Value::String(text) => Ok(text),
        _ => Ok(String::new(alloc)),
    }
}

/// Asserts the text of a call, which makes one allocation, of just its length.
fn assert_text(rt: &impl Abort, alloc: Global, made: Made, wanted: &str) -> Result<(), AllocError> {
    let text = make(made, alloc)?;
    assert_is(rt, text.as_str(), wanted);
    assert_is(rt, text.capacity(), wanted.len());
    Ok(())
}

/// Asserts the text of three calls, whatever becomes of those before.
fn assert_made(rt: &impl Abort, alloc: Global, made: Made, wanted: &str) -> Result<(), AllocError> {
    let first = assert_text(rt, alloc, made, wanted);
    let second = assert_text(rt, alloc, made, wanted);
    let third = assert_text(rt, alloc, made, wanted);
    first?;
    second?;
    third
}

#[test]
fn text_of_bytes(rt: HostRuntime) -> Result<(), AllocError> {
    assert_made(&rt, rt.alloc(), Made::Bytes, "1.5 KiB")
}

#[test]
fn text_of_adjusted_bits(rt: HostRuntime) -> Result<(), AllocError> {
    assert_made(&rt, rt.alloc(), Made::BitsIn, "8.192 Kb")
}

#[test]
fn approximate_text(rt: HostRuntime) -> Result<(), AllocError> {
    assert_made(&rt, rt.alloc(), Made::Approximate, "10 Kb")
}

#[test]
fn json_string_of_bytes(rt: HostRuntime) -> Result<(), AllocError> {
    assert_made(&rt, rt.alloc(), Made::JsonOfBytes, "1.5 KiB")
}

#[test]
fn json_string_of_adjusted_bits(rt: HostRuntime) -> Result<(), AllocError> {
    assert_made(&rt, rt.alloc(), Made::JsonOfBitsIn, "8.192 Kb")
}

#[test]
fn json_string_of_a_unit(rt: HostRuntime) -> Result<(), AllocError> {
    assert_made(&rt, rt.alloc(), Made::JsonOfUnit, "Kb")
}
