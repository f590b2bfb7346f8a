//! Tests of what the rows of `byte_unit_vectors` cannot say of the library: traits, memory, and values that no string
//! has. A module for each subject. The assertions that several modules call are in `asserting`, and in a module whose
//! head says so.

mod allocations;
mod asserting;
mod constants;
mod decimals;
mod error_texts;
mod flags;
mod numbers;
mod readings;
mod texts;
mod traits;
