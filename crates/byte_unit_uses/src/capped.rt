//! Limits with a maximum, and matches on an error that holds a size.

ghost use Rattle.std.specs.Prelude.{◌≡◌, ◌≤◌, IfOk, IfErr, false};
ghost use Rattle.byte_unit.specs.Sizes.Accepted.{IsAccepted};
ghost use Rattle.byte_unit.specs.declared.Kind.TheVariants.{Byte as InBytes};
ghost use Rattle.byte_unit_uses.specs.Capped.{IsLimitError, capped_limit, exceeded_max};

use byte_unit::{Byte, ParseError};

/// The error returned when a limit is rejected.
#[derive(Debug, Drop)]
pub enum LimitError {
    /// The string represents no size.
    Parse(ParseError),
    /// The size is above this maximum.
    Above(Byte),
}

/// Parses a limit, which is at most `max`.
///
/// # Errors
/// Returns `Parse` if the string represents no size, and `Above` with `max` if the size is larger.
pub fn read_limit(text: &str, max: Byte) -> Result<Byte, LimitError>
    ensures size { IfOk result (IsAccepted InBytes false text.now) }
    ensures bound { IfOk result (λ limit. limit ≤ max) }
    ensures reason { IfErr result (IsLimitError text.now max) }
{
    let size = Byte::parse_str(text, false).map_err(LimitError::Parse)?;
    if size > max {
        return Err(LimitError::Above(max));
    }
    Ok(size)
}

/// Replaces a limit above the maximum by the maximum.
///
/// The error is matched in a second `match`, because `rt check` fails at the pattern `Err(LimitError::Above(max))`
/// where it binds the size by value.
///
/// # Errors
/// Returns the parse error if the string represents no size.
pub fn cap(read: Result<Byte, LimitError>) -> Result<Byte, ParseError>
    ensures { result ≡ capped_limit read }
{
    match read {
        Ok(limit) => Ok(limit),
        Err(error) => match error {
            LimitError::Above(max) => Ok(max),
            LimitError::Parse(error) => Err(error),
        },
    }
}

/// Returns the maximum that a limit exceeds, for an error message. Returns `None` if the limit is at most the maximum,
/// or the string represents no size.
///
/// In a match on a reference, `rt check` accepts the pattern `Err(LimitError::Above(max))`.
pub fn max_exceeded(read: &Result<Byte, LimitError>) -> Option<Byte>
    ensures { result ≡ exceeded_max read.now }
{
    match read {
        Err(LimitError::Above(max)) => Some(*max),
        _ => None,
    }
}
