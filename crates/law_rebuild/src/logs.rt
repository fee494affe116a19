//! The log of a run. Each function's contract is the law.

ghost use Rattle.law_rebuild.specs.Laws.{LogsGrow};

/// What the turns of a journal logged stays when more turns are taken: so an event that is logged before the RENAME is still read
/// after the run.
pub fn logs_grow()
    ensures { LogsGrow }
{}
