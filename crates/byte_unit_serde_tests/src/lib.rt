//! The tests of `byte_unit_serde`, a crate of their own, since `byte_unit_tests` need not wait for its proof.
#![tactic(auto)]

#[cfg(test)]
mod tests;
