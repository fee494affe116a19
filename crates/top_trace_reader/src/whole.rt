//! The trace as a whole.

ghost use Rattle.std.specs.Prelude.{◌≡◌, map, IfOk};
ghost use Rattle.std.specs.List.{AllByRecursion};
ghost use Rattle.base_values.specs.Faults.{Answers};
ghost use Rattle.sql_create.specs.Laws.{ReadSchemasAreValid};
ghost use Rattle.plan_reader.specs.Plans.{read};
ghost use Rattle.plan_reader.specs.PlanTables.Tables.{IsSound};
ghost use Rattle.top_trace_reader.specs.Lines.{parts_data};
ghost use Rattle.top_trace_reader.specs.Readings.{trace_in};
ghost use Rattle.top_trace_reader.specs.Refusals.{of_lines, of_plan};
ghost use Rattle.top_trace_reader.specs.Traces.{read_parts, read_trace};

use crate::fault::{TraceFault, TraceRefusal};
use crate::lines::{Parts, lines_of, parts_of};
use crate::reading::trace_in;
use base_values::{Fault, because};
use plan_data::Plan;
use plan_reader::read_plan;
use run_audit::Trace;
use std::alloc::Global;

/// The most bytes of a trace. This project's rule.
pub const TRACE_LIMIT: usize = 67_108_864;

fn plan_of(alloc: Global, bytes: &[u8]) -> Result<Plan, TraceFault>
    requires { ReadSchemasAreValid }
    ensures plan { Answers (λ plan. plan) result (of_plan (read bytes.now)) }
    ensures sound { IfOk result (λ plan. AllByRecursion IsSound plan.tables) }
{
    because(read_plan(alloc, bytes), TraceRefusal::Plan)
}

fn run_of(alloc: Global, clients: u32, lines: &[&[u8]]) -> Result<Trace, TraceFault>
    ensures { Answers (λ trace. trace) result (of_lines (trace_in clients (map (λ line. line.now) lines.now))) }
{
    because(trace_in(alloc, clients, lines), TraceRefusal::Line)
}

/// The plan, and its run.
#[tactic(auto, unfolding(crate::specs::Traces::read_parts))]
fn read_parts(alloc: Global, parts: &Parts<'_>) -> Result<(Plan, Trace), TraceFault>
    requires { ReadSchemasAreValid }
    ensures read { Answers (λ read. read) result (read_parts (parts_data parts.now)) }
    ensures sound { IfOk result (λ read. AllByRecursion IsSound read.0.tables) }
{
    let plan = plan_of(alloc, parts.plan.as_slice())?;
    let trace = run_of(alloc, plan.clients().len() as u32, parts.lines)?;
    Ok((plan, trace))
}

/// The plan and the run that a text says: what comes before the last `#journal` line and the line feed ahead of it is the plan, and
/// what comes after it the run. That schemas which are read are valid is a law: `law_texts::schemas` proves it.
#[tactic(auto, unfolding(crate::specs::Traces::read_trace))]
pub fn read_trace(alloc: Global, bytes: &[u8]) -> Result<(Plan, Trace), TraceFault>
    requires { ReadSchemasAreValid }
    ensures read { Answers (λ read. read) result (read_trace bytes.now) }
    ensures sound { IfOk result (λ read. AllByRecursion IsSound read.0.tables) }
{
    if bytes.len() > TRACE_LIMIT {
        return Err(Fault::Refused(TraceRefusal::TooLong));
    }
    let lines = lines_of(alloc, bytes)?;
    let Some(parts) = parts_of(alloc, lines.as_slice())? else {
        return Err(Fault::Refused(TraceRefusal::NoJournal));
    };
    read_parts(alloc, &parts)
}
