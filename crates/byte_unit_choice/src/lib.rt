//! The choice of a unit for a size: the largest of a unit set in which the size is exact, or that is not above it.
//!
//! A size is a number here. Whether it counts bytes or bits is given by the [`Kind`](byte_unit_base::Kind), or by the
//! number of bits of its own unit, 8 or 1.
#![tactic(auto)]

pub use crate::choice::{
    Family, appropriate_unit, choose_unit, exact_unit, largest_unit, recoverable_unit,
};
pub use crate::unit_type::UnitType;

mod choice;
pub mod laws;
mod tables;
mod unit_type;
