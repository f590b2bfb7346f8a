//! Sizes and units as fields of types that derive the traits of `serde`, and in TOML.
#![tactic(auto)]

mod binary;
mod fields;
mod ignore_case;
mod lists;
mod messages;
mod options;
mod sink;
mod sizes;
mod source;
mod stored;
mod strings;
mod toml_values;
mod units;
mod words;

pub use fields::{
    bit, bit_vec, byte, byte_binary, byte_ignore_case, byte_vec, byte_vec_binary,
    byte_vec_ignore_case, byte_vec_words, byte_words, optional_bit, optional_byte,
    optional_byte_binary, optional_byte_ignore_case, optional_byte_words, optional_unit, unit,
};
pub use lists::Lists;
pub use options::OptionalStrings;
pub use sink::Sink;
pub use source::Source;
pub use stored::Stored;
pub use strings::Strings;
pub use toml_values::{
    TomlSizeError, TomlUnitError, bit_from_toml, byte_from_toml, unit_from_toml,
};
