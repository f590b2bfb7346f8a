//! The values of the options of a call, as clap has parsed them.

ghost use Rattle.std.specs.Prelude.{◌≡◌};
ghost use Rattle.byte_unit_command.specs.Values.{HasValues, kind_by_flag};

use crate::options::Kind;
use clap::ArgMatches;

/// The values of the options of a call.
#[derive(Debug, Clone, Copy, Drop)]
pub struct Values<'a> {
    /// The kind of the sizes: bits if `--bits` is given.
    pub kind: Kind,
    /// Whether `--ignore-case` is given.
    pub ignore_case: bool,
    /// Whether `--words` is given.
    pub words: bool,
    /// Whether `--human-readable` is given.
    pub human_readable: bool,
    /// The value of `--from`.
    pub from: Option<&'a str>,
    /// The value of `--to`.
    pub to: Option<&'a str>,
    /// Whether `--no-unit` is given.
    pub no_unit: bool,
    /// The value of `--suffix`.
    pub suffix: Option<&'a str>,
    /// The value of `--precision`.
    pub precision: Option<u16>,
    /// The value of `--delimiter`.
    pub delimiter: Option<&'a str>,
    /// Whether `--blanks` is given.
    pub blanks: bool,
    /// The value of `--field`.
    pub field: Option<&'a str>,
    /// The value of `--header`.
    pub header: Option<u64>,
    /// The value of `--padding`.
    pub padding: Option<&'a str>,
    /// The value of `--invalid`.
    pub invalid: Option<&'a str>,
    /// Whether `--total` is given.
    pub total: bool,
    /// The value of `--max`.
    pub max: Option<&'a str>,
    /// The value of `--min`.
    pub min: Option<&'a str>,
    /// Whether `--no-hints` is given.
    pub no_hints: bool,
    /// Whether `--zero-terminated` is given.
    pub zero_terminated: bool,
    /// Whether there are operands.
    pub has_operands: bool,
}

/// Returns the kind of the sizes, in bits or in bytes.
#[inline(always)]
pub(crate) fn kind_by_flag(bits: bool) -> Kind
    ensures { result ≡ kind_by_flag bits }
{
    if bits { Kind::Bit } else { Kind::Byte }
}

/// Returns the values of the options of a call that clap has parsed.
pub fn values_of<'a>(matches: &ArgMatches<'a>) -> Values<'a>
    ensures { HasValues matches.now result }
{
    Values {
        kind: kind_by_flag(matches.get_flag("bits")),
        precision: matches.get_one::<u16>("precision"),
        header: matches.get_one::<u64>("header"),
        ignore_case: matches.get_flag("ignore-case"),
        words: matches.get_flag("words"),
        human_readable: matches.get_flag("human-readable"),
        from: matches.get_str("from"),
        to: matches.get_str("to"),
        no_unit: matches.get_flag("no-unit"),
        suffix: matches.get_str("suffix"),
        delimiter: matches.get_str("delimiter"),
        blanks: matches.get_flag("blanks"),
        field: matches.get_str("field"),
        padding: matches.get_str("padding"),
        invalid: matches.get_str("invalid"),
        total: matches.get_flag("total"),
        max: matches.get_str("max"),
        min: matches.get_str("min"),
        no_hints: matches.get_flag("no-hints"),
        zero_terminated: matches.get_flag("zero-terminated"),
        has_operands: matches.contains_id("SIZE"),
    }
}
