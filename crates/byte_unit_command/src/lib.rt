//! What the command `byte-unit` does: it converts the sizes in records of an input to the form that options ask for.
#![tactic(auto)]

pub mod arguments;
mod blanks;
mod converter;
pub mod ending;
pub mod error;
pub mod field_list;
pub mod laws;
pub mod meaning;
mod notice;
pub mod operands;
pub mod options;
pub mod run;
mod size;
pub mod streams;
pub mod tally;
mod text;
pub mod values;
pub mod wrong;
