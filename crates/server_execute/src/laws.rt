//! What holds of all that statements say: each function's contract is a law.

ghost use Rattle.server_execute.specs.Laws.{ReportedChangesFit};

/// What a statement changes fits the rows of its table.
pub fn reported_changes_fit()
    ensures { ReportedChangesFit }
{}
