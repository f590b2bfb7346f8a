//! Assertions that the tests of each module call.
use std::alloc::Global;
use std::fmt::{Debug, Display};
use std::process::Abort;

/// Asserts a condition; the message says of what.
pub fn assert_for(rt: &impl Abort, holds: bool, what: &str) {
    assert!(rt; holds, "{what}");
}

/// Asserts that two values are equal.
pub fn assert_is<S: PartialEq + Debug + Drop>(rt: &impl Abort, made: S, wanted: S) {
    assert_eq!(rt; made, wanted);
}

/// Asserts that a result is an error with the expected message.
pub fn assert_error<T: Drop, E: Display + Drop>(
    rt: &impl Abort,
    alloc: Global,
    answer: Result<T, E>,
    wanted: &str,
) {
    match answer {
        Err(error) => {
            let text = format!(in alloc; "{error}").expect(rt, "memory");
            assert_is(rt, text.as_str(), wanted);
        }
        Ok(_) => panic!(rt; "it is read, which was to be rejected: {wanted}"),
    }
}
