//! Formatting of sizes: digits only, a number with its unit, a size, a size in a given unit, and the digits of a size
//! with the size in its unit after them.
//!
//! Sizes in bytes and in bits share these functions, which take their `Kind`.
#![tactic(auto)]

mod adjusted;
mod form;
pub mod laws;
mod layout;
mod parts;
mod plain;
mod spec;

pub use adjusted::{
    adjusted_len, append_adjusted, display_adjusted, number_in_unit, write_adjusted,
};
pub use form::put::NARROW_TEXT;
pub use form::with_digits::write_with_digits;
pub use form::{append_text, binary_spec, text_len, write_text};
pub use layout::{append_layout, layout_len, write_layout};
pub use parts::put;
pub use plain::{append_plain, plain_len, write_plain};
pub use spec::{Align, FormatSpec, Sign};
