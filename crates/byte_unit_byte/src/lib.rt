//! Sizes in bytes: [`Byte`], a whole number of bytes below 10^30.
#![tactic(auto)]

mod byte;
pub mod laws;

pub use byte::{AdjustedByte, Byte};
