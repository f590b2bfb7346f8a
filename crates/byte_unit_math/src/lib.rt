//! The arithmetic of sizes: exact decimals, products rounded up, exact quotients with a step count, and decimal
//! expansions.
#![tactic(auto)]

pub use crate::decimal::{DECIMAL_PLACES, Decimal, WHOLE_LIMIT};
pub use crate::decimal_digits::{NUMBER_DIGITS, decimal_len, fmt_u128, put_fraction, put_u128};
pub use crate::dividing::{div_rem, div_rem_thousand, rounded_quotient};
pub use crate::expansion::{EXPANSION_PLACES, Expansion, Ties, glyphs_of};
pub use crate::factors::{Factors, factors_of, two_five};
pub use crate::lanes::{PADDED_DIGITS, put_padded_digits};
pub use crate::least::{least_size, least_size_counted};
pub use crate::quotient::{exact_quotient, factored_quotient};
pub use crate::short::{ShortExpansion, rounded_expansion, short_expansion};
pub use crate::steps::Steps;
pub use crate::tens::power_of_ten;

mod decimal;
mod decimal_digits;
mod dividing;
mod expansion;
mod factors;
mod lanes;
pub mod laws;
mod least;
mod quotient;
mod short;
mod steps;
mod tens;
