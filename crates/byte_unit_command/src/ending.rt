//! The exit status, and the message of a run that ended early.

ghost use Rattle.std.specs.Prelude.{◌≡◌, option_map};
ghost use Rattle.byte_unit_command.specs.Ending.{status_of, message_of};

use crate::error::{EndReason, RunError};
use crate::options::Invalid;
use crate::tally::Tally;

/// Returns the exit status of a run: 1 if a read or a write failed or it was out of memory, 2 for a rejected field in
/// the modes `abort` and `fail` and for a total that is too large, 3 for a size beyond a limit, and else 0.
pub fn status(invalid: Invalid, ended: Result<Tally, RunError>) -> u8
    ensures { result ≡ status_of invalid ended }
{
    match ended {
        Ok(tally) => {
            if tally.rejected && invalid == Invalid::Fail {
                2
            } else if tally.beyond {
                3
            } else {
                0
            }
        }
        Err(error) => match error {
            RunError::Ended(_) => 2,
            RunError::Memory | RunError::Read | RunError::Write => 1,
        },
    }
}

/// Returns the message of a run that ended early, or `None` if the messages about fields have said why.
pub fn message(error: RunError) -> Option<&'static str>
    ensures { option_map (λ text. text.now) result ≡ message_of error }
{
    match error {
        RunError::Memory => Some("out of memory"),
        RunError::Read => Some("read failed"),
        RunError::Write => Some("write failed"),
        RunError::Ended(EndReason::Rejected) => None,
        RunError::Ended(EndReason::Total) => Some("the total is 10^30 or more"),
    }
}
