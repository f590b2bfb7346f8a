//! Sizes as options of a command line.

ghost use Rattle.std.specs.Prelude.{◌≡◌, ℕ, List, Some, None, IfOk, IfErr, codes, true, false};
ghost use Rattle.clap.specs.Walk.{texts};
ghost use Rattle.clap.specs.Words.{found_of, one_text, takes};
ghost use Rattle.byte_unit.specs.Sizes.Accepted.{IsAccepted, IsRejected};
ghost use Rattle.byte_unit.specs.Errors.Meaning.{size_fault};
ghost use Rattle.byte_unit.specs.declared.Kind.TheVariants.{Byte as InBytes};
ghost use Rattle.byte_unit_uses.specs.CommandLine.{IsOption, IsOptionError, copy_app, option_value};

use byte_unit::{Byte, ParseError};
use clap::error::ErrorKind;
use clap::{Arg, ArgMatches, Command, Error};
use std::alloc::Global;

/// Parses the value of the option `--max-size`. Returns `None` if the option is absent. `clap` reads a size by
/// `FromStr`.
///
/// # Errors
///
/// Returns the parse error if the value represents no size.
pub fn size_option(matches: &ArgMatches<'_>) -> Result<Option<Byte>, ParseError>
    ensures absent { one_text (found_of matches.now) (codes "max-size") ≡ None → result ≡ Ok None }
    ensures complete { (value : List ℕ) (size : ℕ)
        → one_text (found_of matches.now) (codes "max-size") ≡ Some value
        → IsAccepted InBytes false value size → result ≡ Ok (Some size) }
    ensures sound { IfOk result (IsOption (one_text (found_of matches.now) (codes "max-size"))) }
    ensures reason { IfErr result (λ error. (value : List ℕ)
        × (one_text (found_of matches.now) (codes "max-size") ≡ Some value)
        × IsRejected InBytes false value (size_fault error)) }
{
    matches.try_get_one::<Byte>("max-size")
}

/// Reads the option `--max-size` from a command line, whose first word is the name of the program. Returns `None` if
/// the option is absent.
///
/// # Errors
///
/// Returns an error that names the value and the reason if the value represents no size, and the error of `clap` if it
/// rejects the command line, or the command line asks for help.
pub fn max_size<'a>(alloc: Global, words: &'a [&'a str]) -> Result<Option<Byte>, Error>
    ensures size { IfOk result (IsOption (option_value words.now)) }
    ensures reason { takes copy_app (texts words.now) ≡ true
        → IfErr result (IsOptionError (option_value words.now)) }
{
    let option = Arg::new(alloc, "max-size").long("max-size");
    let mut command = Command::new(alloc, "copy").arg(option)?;
    let matches = command.try_get_matches_from_mut(words)?;
    match size_option(&matches) {
        Ok(size) => Ok(size),
        Err(error) => {
            let value = matches.get_str("max-size").unwrap_or("");
            let message = format!(in alloc;
                "invalid value '{value}' for '--max-size <max-size>': {error}"
            )?;
            Err(command.error(ErrorKind::ValueValidation, message.as_str())?)
        }
    }
}
