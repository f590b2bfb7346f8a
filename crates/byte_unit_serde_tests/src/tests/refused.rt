//! A test of failed allocations in a call that reads a list, whose error says what failed. The command
//! `tools/dev test memory` runs it under `rt try --test --fail-alloc N`, which makes the Nth allocation fail, for
//! N = 1, 2, ..
use super::asserting::{assert_for, assert_is};
use byte_unit::Byte;
use serde::Deserialize;

/// A list, which `byte_unit_serde` reads.
#[derive(Drop, Deserialize)]
struct Parts {
    #[serde(with = "byte_unit_serde::byte_vec")]
    parts: Vec<Byte>,
}

/// Reading a list of one size makes four allocations: two of `serde_json`, the string and the list. Whichever of them
/// fails, the error is that of a failed allocation.
#[test]
fn list_of_bytes(rt: HostRuntime) {
    match serde_json::from_str::<Parts>(rt.alloc(), "{\"parts\":[\"1 KB\"]}") {
        Ok(list) => assert_is(&rt, list.parts.as_slice(), [Byte::KILOBYTE].as_slice()),
        Err(error) => assert_for(&rt, error.is_memory(), "another error"),
    }
}
