//! What holds of all that is written to a table: each function's contract is a law.

ghost use Rattle.server_seen.specs.Laws.{SeenRowsChange, ChangesAreSeen, SeenRowsPass};

/// Where a change fits the rows that are seen, what is seen after it was written are the changed rows.
pub fn seen_rows_change()
    ensures { SeenRowsChange }
{}

/// Through all changes, each of which fits, the changed rows are seen.
pub fn changes_are_seen()
    ensures { ChangesAreSeen }
{}

/// The seen rows that pass a test are seen of the rows that pass it.
pub fn seen_rows_pass()
    ensures { SeenRowsPass }
{}
