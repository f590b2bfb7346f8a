//! Tests of strings and fields that `byte_unit_serde` reads and writes: a module for each subject, and assertions.
mod asserting;
mod refused;
mod serde_strings;
mod serde_ways;
