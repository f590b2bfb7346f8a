//! The types of prefixes that a choice of a unit may take: binary, decimal, or either.

/// The type of the prefixes that a choice may take.
///
/// # Examples
/// ```rust
/// assert_eq!(rt; largest_unit(2000, Family::Bytes, UnitType::Binary, 8), Some(Unit::KiB));
/// assert_eq!(rt; largest_unit(2000, Family::Bytes, UnitType::Decimal, 8), Some(Unit::KB));
/// ```
#[derive(Clone, Copy, Debug, PartialEq, Eq)]
pub enum UnitType {
    /// Binary (IEC) prefixes, as in `KiB`.
    Binary,
    /// Decimal (SI) prefixes, as in `KB`.
    Decimal,
    /// Either: the largest unit not above the size, binary or decimal.
    Both,
}
