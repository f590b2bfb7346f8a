//! Exact decimals with at most 28 digits after the point, for sizes in a unit.

pub use byte_unit_math::Decimal;
