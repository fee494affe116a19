//! Runs beside what isn't theirs.

use std::alloc::{AllocError, Global};
use test_compare::agrees_with_reference;
use test_program::{Case, Program, Ran, run};

/// Whether one at a time gives what the run of this plan printed.
pub(crate) fn is_reference_run(alloc: Global, plan: &[u8], ran: &Ran) -> Result<bool, AllocError> {
    agrees_with_reference(alloc, plan, &ran.ended.journal, ran.printed())
}

/// Whether the run of the case's plan is as one at a time, and the report in the case isn't that of the run.
pub(crate) fn is_report_reported(
    alloc: Global,
    program: &Program,
    case: &Case<'_>,
) -> Result<bool, AllocError> {
    let plan = case.plan.as_slice();
    let ran = run(alloc, program, case.words, plan)?;
    let is_same = agrees_with_reference(alloc, plan, &ran.ended.journal, case.prints.as_slice())?;
    Ok(!is_same && is_reference_run(alloc, plan, &ran)?)
}

/// Whether the run of the case's plan is as one at a time, and isn't one of the plan that stands in place of a report.
pub(crate) fn is_plan_reported(
    alloc: Global,
    program: &Program,
    case: &Case<'_>,
) -> Result<bool, AllocError> {
    let plan = case.plan.as_slice();
    let ran = run(alloc, program, case.words, plan)?;
    let is_same = agrees_with_reference(
        alloc,
        case.prints.as_slice(),
        &ran.ended.journal,
        ran.printed(),
    )?;
    Ok(!is_same && is_reference_run(alloc, plan, &ran)?)
}
