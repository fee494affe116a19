//! What is logged of the hint rows, and what the applier knows of the last one.

ghost use Rattle.law_journals.specs.HintRows.{HintRowsReadBack};
ghost use Rattle.proof_migration.specs.Program.Hints.{HintsAreKnown};

/// After every journal that is kept the applier knows the last hint row up to its position, and each hint row is of an attempt
/// that was begun.
pub fn hints_are_known()
    ensures { HintsAreKnown }
{}

/// The hint row of an attempt is read back as that attempt's hint.
pub fn hint_rows_read_back()
    ensures { HintRowsReadBack }
{}
