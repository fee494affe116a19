//! Runs whose reports have some lines.

use std::alloc::{AllocError, Global};
use test_compare::agrees_with_reference;
use test_program::{Case, Program, run};

/// Whether these lines are among those of a report, in their order.
fn stand_among(lines: &str, report: &str) -> bool {
    let mut expected = lines.lines();
    let mut next = expected.next();
    for line in report.lines() {
        if let Some(sought) = next {
            if sought == line {
                next = expected.next();
            }
        }
    }
    next.is_none()
}

/// Whether the run of the case's plan is as one at a time, and its report has the lines that the case names.
pub(crate) fn has_lines(
    alloc: Global,
    program: &Program,
    case: &Case<'_>,
) -> Result<bool, AllocError> {
    let plan = case.plan.as_slice();
    let ran = run(alloc, program, case.words, plan)?;
    let is_same = agrees_with_reference(alloc, plan, &ran.ended.journal, ran.printed())?;
    match (
        str::from_utf8(case.prints.as_slice()),
        str::from_utf8(ran.printed()),
    ) {
        (Ok(lines), Ok(report)) => Ok(is_same && stand_among(lines, report)),
        _ => Ok(false),
    }
}
