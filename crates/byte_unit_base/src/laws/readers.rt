//! Laws of the parsers. Each function does nothing; its contract is the law.

#![tactic(auto, using(crate::proofs::ParsedTexts::parsed_texts))]

ghost use Rattle.byte_unit_base.specs.Laws.Readers.{UnitTextsHaveOneAnswer, SizeTextsHaveOneAnswer};
ghost use Rattle.byte_unit_base.specs.Laws.Readers.{ViableUnitPrefixesAreBeginnings, ViableSizePrefixesAreBeginnings};
ghost use Rattle.byte_unit_base.specs.Laws.Readers.{NamesSpellTheirUnits};
ghost use Rattle.byte_unit_base.specs.Laws.Parsed.{ParsedUnitsAreSpelled, ParsedNumbersAreRepresented};
ghost use Rattle.byte_unit_base.specs.Laws.Parsed.{ParsedSizesAreAccepted};

/// States that under given flags each string spells one unit or has one error, and not both.
pub fn unit_texts_have_one_answer()
    ensures { UnitTextsHaveOneAnswer }
{}

/// States that under given flags each string represents one number and one unit or has one error, and not both.
pub fn size_texts_have_one_answer()
    ensures { SizeTextsHaveOneAnswer }
{}

/// States that the viable prefixes of a unit, by which its error is defined, are exactly the beginnings of spellings.
pub fn unit_fronts_are_beginnings()
    ensures { ViableUnitPrefixesAreBeginnings }
{}

/// States that the viable prefixes of a number and a unit, by which their error is defined, are exactly the beginnings
/// of strings with a number and a unit.
pub fn size_fronts_are_beginnings()
    ensures { ViableSizePrefixesAreBeginnings }
{}

/// States that the name of a unit spells that unit if case counts, whichever kind is preferred.
pub fn names_spell_their_units()
    ensures { NamesSpellTheirUnits }
{}

/// States that `parsed_unit` gives exactly the unit that a string spells, or its error.
pub fn parsed_units_are_spelled()
    ensures { ParsedUnitsAreSpelled }
{}

/// States that `parsed_number` gives exactly the number and unit that a string represents, or its error.
pub fn parsed_numbers_are_represented()
    ensures { ParsedNumbersAreRepresented }
{}

/// States that `parsed_size` gives exactly the size that a string is accepted as, or the error that it is rejected
/// with.
pub fn parsed_sizes_are_accepted()
    ensures { ParsedSizesAreAccepted }
{}
