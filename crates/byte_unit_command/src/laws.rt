//! Laws of the texts of sizes and of totals. The contract of each function is the law; its body calls the laws that it
//! follows from.

ghost use Rattle.byte_unit_command.specs.Laws.{FormattedSizesAreRead, ExactTwiceIsOnce, TotalsAddUp};

use byte_unit::laws;

/// States that a size formatted in the exact form or as digits, unpadded, is parsed as the same size, unless only the
/// call that parses it has `--from=iec`.
pub fn formatted_sizes_are_read()
    ensures { FormattedSizesAreRead }
{
    laws::size_form_reads_back();
    laws::plain_form_reads_back();
    laws::words_change_no_accepted_text();
}

/// States that a second run in the exact form changes nothing, whatever prefixes mean.
pub fn exact_twice_is_once()
    ensures { ExactTwiceIsOnce }
{
    formatted_sizes_are_read();
    laws::size_has_one_form();
}

/// States that fields of the same size raise a total by their number times the size, up to 10^30.
pub fn totals_add_up()
    ensures { TotalsAddUp }
{}
