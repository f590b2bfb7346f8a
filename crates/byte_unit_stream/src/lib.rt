//! A reader and a writer that record a failure, the search for the end of a record, and writing all of a buffer; and a
//! reader and a writer in memory, for tests.
#![tactic(auto)]

pub mod paced;
mod reader;
pub mod run;
mod search;
#[cfg(test)]
mod tests;
mod writer;

pub use reader::Reading;
pub use search::end_of;
pub use writer::{Writing, write_whole};
