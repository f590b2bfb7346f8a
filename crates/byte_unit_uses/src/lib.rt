//! Typical uses of `byte_unit`, proved: limits from strings, quotas, a limit from JSON, an option of a command line,
//! entries of a report, a log that is rotated by size, and error messages. Each form of a caller is here once, as the
//! toolchain supports it and the prover accepts it.
#![tactic(auto)]

pub mod adjusted;
pub mod capped;
pub mod command_line;
pub mod entry;
pub mod limit;
pub mod literal;
pub mod log;
pub mod message;
pub mod quota;
pub mod settings;
