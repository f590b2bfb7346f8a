//! The tests of the library, and a macro that they share with `byte_unit_serde_tests`. They are a crate of their own
//! because a crate is proved a second time with its tests: here that second proof covers only the tests.
#![tactic(auto)]

/// Creates a table, as an array of rows. A macro, since `rt fmt` leaves each row on its line in the braces of a call.
#[macro_export]
macro_rules! rows {
    ($($row:expr),* $(,)?) => {
        [$($row),*]
    };
}

#[cfg(test)]
mod tests;
