//! Assertions that tests call: a call costs the proof of a test less than a macro that asserts.
use std::alloc::Global;
use std::fmt::{Debug, Display};
use std::process::Abort;

/// Asserts a condition; the message says of what.
pub fn assert_for(rt: &impl Abort, holds: bool, what: &str) {
    assert!(rt; holds, "{what}");
}

/// Asserts that two values are equal.
pub fn assert_is<S: PartialEq + Debug + Drop>(rt: &impl Abort, made: S, wanted: S) {
    assert_eq!(rt; made, wanted);
}

/// Asserts that the two values of each pair are equal.
pub fn assert_are<S: PartialEq + Debug>(rt: &impl Abort, rows: &[(S, S)]) {
    for (made, wanted) in rows {
        assert_eq!(rt; made, wanted);
    }
}

/// Asserts that the two values of each row are equal; the message is the name of the row.
pub fn assert_each<S: PartialEq>(rt: &impl Abort, rows: &[(&str, S, S)]) {
    for (name, made, wanted) in rows {
        assert!(rt; *made == *wanted, "{name}");
    }
}

/// Asserts that two texts are equal.
pub fn assert_same(rt: &impl Abort, text: &str, wanted: &str) {
    assert!(rt; text == wanted, "{text} in place of {wanted}");
}

/// Asserts the text of a value through the bound `Display`.
pub fn assert_display<D: Display>(rt: &impl Abort, alloc: Global, value: &D, wanted: &str) {
    let text = format!(in alloc; "{value}").expect(rt, "memory");
    assert_same(rt, text.as_str(), wanted);
}
