//! What is asked of a case.

use crate::altered::{is_plan_reported, is_reference_run, is_report_reported};
use crate::edges::{end_at_sinks, end_at_sources};
use crate::lines::has_lines;
use std::alloc::{AllocError, Global};
use test_program::{Case, Program, Ran, run};

/// What is asked of a case.
#[derive(Clone, Copy)]
pub enum Asked {
    /// That the call ends with the case's status and prints what is there, and that one at a time gives the same where that is a
    /// report.
    Prints,
    /// That the run is as one at a time, and that the lines that it names are among those that it prints, in their order.
    HasLines,
    /// That what is there, a report altered by hand, isn't what one at a time gives.
    TellsReport,
    /// That the run isn't one of the plan that stands there in place of a report.
    TellsPlan,
    /// All that is asked of one that prints, and that a fault of the source or of the sink at any byte ends the call as it must.
    EndsAtEdges,
}

/// Whether a run ended with the case's status and printed what is in the case.
fn is_written(alloc: Global, case: &Case<'_>, ran: &Ran) -> Result<bool, AllocError> {
    let status = format!(in alloc; "{}", ran.ended.status)?;
    Ok(status.as_str() == case.status && case.prints.as_slice() == ran.printed())
}

/// Whether a run took no turns, or one at a time gives what it printed.
fn is_reference_where_run(alloc: Global, plan: &[u8], ran: &Ran) -> Result<bool, AllocError> {
    Ok(ran.ended.journal.is_empty() || is_reference_run(alloc, plan, ran)?)
}

/// Whether a run printed something else than a report, against which one at a time can't be held: a trace, or the rebuilt table of
/// a migration that was done.
fn printed_no_report(words: &str, ran: &Ran) -> bool {
    words.starts_with("trace") || (words.starts_with("rebuild") && ran.ended.status == 0)
}

/// Whether a case prints what is in it, with the status that it names, and what one at a time gives.
fn is_printed(alloc: Global, program: &Program, case: &Case<'_>) -> Result<bool, AllocError> {
    let plan = case.plan.as_slice();
    let ran = run(alloc, program, case.words, plan)?;
    Ok(
        is_written(alloc, case, &ran)?
            && (printed_no_report(case.words, &ran) || is_reference_where_run(alloc, plan, &ran)?),
    )
}

/// Whether a case is as expected.
pub(crate) fn is_as_expected(
    alloc: Global,
    program: &Program,
    asked: Asked,
    case: &Case<'_>,
) -> Result<bool, AllocError> {
    let is_so = match asked {
        Asked::Prints => is_printed(alloc, program, case)?,
        Asked::HasLines => has_lines(alloc, program, case)?,
        Asked::TellsReport => is_report_reported(alloc, program, case)?,
        Asked::TellsPlan => is_plan_reported(alloc, program, case)?,
        Asked::EndsAtEdges => {
            is_printed(alloc, program, case)?
                && end_at_sources(alloc, program, case)?
                && end_at_sinks(alloc, program, case)?
        }
    };
    Ok(case.is_whole && is_so)
}
