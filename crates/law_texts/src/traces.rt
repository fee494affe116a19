//! What is printed of a run turn by turn is read as that run.

ghost use Rattle.law_texts.specs.PrintedTraces.{PrintedTracesAreRead};

/// The text of a run of a plan is read as that plan and that run.
pub fn printed_traces_are_read()
    ensures { PrintedTracesAreRead }
{}
