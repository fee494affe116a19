//! The turns of a run that is as one transaction at a time.

use run_turns::Turns;
use std::alloc::{AllocError, Global};
use test_compare::agrees_with_reference;
use test_program::{Program, Ran, run};

/// Whether one transaction at a time gives what a run of this plan printed.
pub fn is_reference_run(alloc: Global, plan: &[u8], ran: &Ran) -> Result<bool, AllocError> {
    agrees_with_reference(alloc, plan, &ran.ended.journal, ran.printed())
}

/// The turns of a run, if it took any and is as one at a time.
fn taken(ran: Ran, is_so: bool) -> Option<Turns> {
    if is_so && !ran.ended.turns.is_empty() {
        Some(ran.into_turns())
    } else {
        None
    }
}

fn turns_of_plan(
    alloc: Global,
    program: &Program,
    plan: &[u8],
) -> Result<Option<Turns>, AllocError> {
    let ran = run(alloc, program, "replay", plan)?;
    let is_so = is_reference_run(alloc, plan, &ran)?;
    Ok(taken(ran, is_so))
}

/// Whose turns the run of the plan of these lines took, of which the first comes before all others; none where no turn was
/// taken, or one at a time gives something else.
pub fn turns_of_reference(
    alloc: Global,
    program: &Program,
    first: &str,
    others: &str,
) -> Result<Option<Turns>, AllocError> {
    let plan = format!(in alloc; "{first}\n{others}")?;
    turns_of_plan(alloc, program, plan.as_str().as_bytes())
}
