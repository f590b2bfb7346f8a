//! Units of bits and bytes, and the parsers of units and sizes.
//!
//! What sizes in bytes and in bits have in common is here once, as functions that take the [`Kind`].
#![tactic(auto)]

pub use crate::errors::{
    ExceededBoundsError, JsonSizeError, LocatedError, Location, ParseError, UnitParseError,
    ValueParseError,
};
pub use crate::hint::{Hint, hint_of};
pub use crate::kind::Kind;
pub use crate::quoted::{MAX_QUOTE_LEN, Quoted, quote};
pub use crate::read::{Measure, read_size, read_text};
pub use crate::spec::{Flags, ParseSpec};
pub use crate::stop::{Expected, NumberStop, Reason, Stop, UnitStop, error_at, location_at};
pub use crate::unit::Unit;
pub use crate::unit::parse::read_unit_text;
pub use crate::unit::tables::{PREFIXES, prefix_letter, unit_at};
pub use crate::words::measure_in_words;

mod errors;
mod hint;
mod kind;
pub mod laws;
mod quoted;
mod read;
pub mod size;
mod spec;
mod stop;
mod unit;
mod words;
