//! The law of sizes in words. The function does nothing; its contract is the law.

ghost use Rattle.byte_unit_base.specs.Laws.Words.{WordsChangeNoAcceptedText};

/// States that a string which is accepted without words is accepted as the same size where they are read.
pub fn words_change_no_accepted_text()
    ensures { WordsChangeNoAcceptedText }
{}
