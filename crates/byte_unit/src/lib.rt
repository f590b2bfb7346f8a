//! Exact sizes in bytes and in bits: parsing, arithmetic, units, formatting and JSON.
//!
//! The examples of the library have the names of this crate in scope; `rt` is the program's `HostRuntime`, and `alloc`
//! its allocator.
//!
//! # Examples
//! ```rust
//! use byte_unit::{Byte, FormatSpec, Unit};
//!
//! let limit = "1.5 GiB".parse::<Byte>()?;
//! let used = Byte::from_u64(900_000_000);
//! assert_eq!(rt; limit.subtract(used), Some(Byte::from_u64(710_612_736)));
//! assert_eq!(rt; used.to_text(alloc, FormatSpec::ALTERNATE)?.as_str(), "900 MB");
//! assert_eq!(rt; limit.get_exact_unit(false), (1536, Unit::MiB));
//! ```
#![tactic(auto)]

pub mod decimal;
pub mod laws;
mod unit_json;

pub use byte_unit_base::size::parse_line;
pub use byte_unit_base::{
    ExceededBoundsError, Hint, JsonSizeError, Kind, ParseError, ParseSpec, Unit, UnitParseError,
    ValueParseError, hint_of, read_size,
};
pub use byte_unit_bit::{AdjustedBit, Bit};
pub use byte_unit_byte::{AdjustedByte, Byte};
pub use byte_unit_choice::{Family, UnitType, choose_unit, largest_unit};
pub use byte_unit_format::{
    Align, FormatSpec, Sign, append_layout, append_plain, layout_len, plain_len, write_layout,
    write_plain, write_with_digits,
};
pub use byte_unit_math::{
    Decimal, Expansion, Steps, Ties, exact_quotient, least_size, least_size_counted, two_five,
};
pub use std::num::TryFromIntError;
pub use unit_json::{JsonUnitError, unit_from_json, unit_to_json};
