//! What is left of a quota from a string, and an error of its own.

ghost use Rattle.std.specs.Prelude.{◌+◌, IfOk, IfErr, false};
ghost use Rattle.byte_unit.specs.Sizes.Accepted.{IsAccepted};
ghost use Rattle.byte_unit.specs.declared.Kind.TheVariants.{Byte as InBytes};
ghost use Rattle.byte_unit_uses.specs.Quota.{IsReason};

use byte_unit::{Byte, ParseError};
use thiserror::Error;

/// The error returned when a quota is invalid or exceeded. `thiserror` derives the messages.
#[derive(Debug, Drop, Error)]
pub enum QuotaError {
    /// The string represents no size.
    #[error("no quota: {0}")]
    Text(ParseError),
    /// More is used than the quota.
    #[error("the quota is exceeded")]
    Exceeded,
}

/// Converts a parse error, for `?`. The contracts name the result, so `from_gives` defines it: the conversion that
/// `thiserror` derives by `#[from]` has no contract.
impl From<ParseError> for QuotaError {
    ghost use Rattle.std.specs.Prelude.{◌≡◌};
    ghost use Rattle.byte_unit_uses.specs.declared.quota.QuotaError.TheVariants.{Text};

    ghost from_gives = { λ error converted. converted ≡ Text error };

    fn from(error: ParseError) -> QuotaError {
        QuotaError::Text(error)
    }
}

/// Parses a quota, and returns what remains of it.
///
/// # Errors
/// Returns `Text` if the string represents no size, and `Exceeded` if more is used than the quota.
pub fn left(text: &str, used: Byte) -> Result<Byte, QuotaError>
    ensures left { IfOk result (λ left. IsAccepted InBytes false text.now (used + left)) }
    ensures reason { IfErr result (IsReason text.now used) }
{
    let quota: Byte = text.parse()?;
    quota.subtract(used).ok_or(QuotaError::Exceeded)
}
