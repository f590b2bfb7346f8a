//! Laws of answers and reports. The contract of each function is the law; its body calls the laws that it follows from.

ghost use Rattle.byte_unit_lines.specs.Laws.{EachLineHasAnAnswer, EachInputHasOneReport};

use byte_unit::laws;

/// States that each line has an answer, for both kinds: it is not UTF-8, represents a size, or has a parse error.
pub fn each_line_has_an_answer()
    ensures { EachLineHasAnAnswer }
{
    laws::texts_are_accepted_or_refused();
    laws::size_has_one_form();
}

/// States that each input has exactly one report of each kind.
///
/// So what a run has written on `Ok` is determined by the bytes that it has read.
pub fn each_input_has_one_report()
    ensures { EachInputHasOneReport }
{
    each_line_has_an_answer();
    laws::texts_are_accepted_or_refused();
    laws::size_has_one_form();
}
