// Rendered from crates/byte_unit_byte/src/lib.rt by `tools/dev render bits`. Do not edit.
//! Sizes in bits: [`Bit`], a whole number of bits below 10^30.
#![tactic(auto)]

mod bit;
pub mod laws;

pub use bit::{AdjustedBit, Bit};
