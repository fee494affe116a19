//! Sources that fail at each byte of a plan, and sinks that fail after each byte of a report.

use std::alloc::{AllocError, Global};
use test_program::{Case, Edges, Meeting, Program, run_between};

/// Whether a source that fails at this byte ends the call with the read fault.
fn ends_at_source(
    alloc: Global,
    program: &Program,
    case: &Case<'_>,
    fail_at: usize,
) -> Result<bool, AllocError> {
    let edges = Edges {
        source_fails: Some(fail_at),
        sink_fails: None,
    };
    let ran = run_between(
        alloc,
        program,
        case.words,
        case.plan.as_slice(),
        edges,
        &Meeting::new(0),
    )?;
    let is_reported = ran.printed() == b"read fault\n".as_slice();
    Ok(ran.ended.status == 4 && ran.source.faults() == 1 && is_reported)
}

/// Whether a sink that fails after `fail_at` bytes ends the call with the write fault, and holds just those bytes.
fn ends_at_sink(
    alloc: Global,
    program: &Program,
    case: &Case<'_>,
    fail_at: usize,
) -> Result<bool, AllocError> {
    let edges = Edges {
        source_fails: None,
        sink_fails: Some(fail_at),
    };
    let ran = run_between(
        alloc,
        program,
        case.words,
        case.plan.as_slice(),
        edges,
        &Meeting::new(0),
    )?;
    let is_front = case.prints.get(..fail_at) == Some(ran.printed());
    Ok(ran.ended.status == 5 && ran.sink.faults() == 1 && is_front)
}

/// Whether each source that fails at a byte of the plan ends the call as it must.
pub(crate) fn end_at_sources(
    alloc: Global,
    program: &Program,
    case: &Case<'_>,
) -> Result<bool, AllocError> {
    for fail_at in 0..case.plan.len() {
        if !ends_at_source(alloc, program, case, fail_at)? {
            return Ok(false);
        }
    }
    Ok(true)
}

/// Whether each sink that fails after a byte of the report ends the call as it must.
pub(crate) fn end_at_sinks(
    alloc: Global,
    program: &Program,
    case: &Case<'_>,
) -> Result<bool, AllocError> {
    for fail_at in 0..case.prints.len() {
        if !ends_at_sink(alloc, program, case, fail_at)? {
            return Ok(false);
        }
    }
    Ok(true)
}
