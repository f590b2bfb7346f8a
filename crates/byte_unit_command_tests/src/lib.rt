//! The tests of `byte_unit_command`, and of `byte_unit_uses`. They are a crate of their own, as `byte_unit_tests` is,
//! which does not wait for the proof of the command.
#![tactic(auto)]

#[cfg(test)]
mod tests;
