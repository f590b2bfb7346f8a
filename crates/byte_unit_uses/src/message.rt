//! Error messages with context, for a program that only prints its errors.

ghost use Rattle.std.specs.Prelude.{ℕ, IfOk, IsOk, false};
ghost use Rattle.byte_unit.specs.Sizes.Accepted.{IsAccepted};
ghost use Rattle.byte_unit.specs.declared.Kind.TheVariants.{Byte as InBytes};

use anyhow::{Context, Result};
use byte_unit::Byte;

/// Parses a limit from a command line argument.
///
/// # Errors
/// Returns an error that names the argument, with the parse error as its cause, if the argument represents no size.
pub fn parse_argument(argument: &str) -> Result<Byte>
    ensures sound { IfOk result (IsAccepted InBytes false argument.now) }
    ensures complete { (limit : ℕ) → IsAccepted InBytes false argument.now limit → IsOk result }
{
    let limit = argument
        .parse::<Byte>()
        .context(format_args!("reading the limit {argument:?}"))?;
    Ok(limit)
}
