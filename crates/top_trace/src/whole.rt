//! The trace as a whole.

ghost use Rattle.std.specs.Prelude.{◌≡◌, ◌++◌, map, IfOk, OnOk};
ghost use Rattle.std.specs.List.{flat_map};
ghost use Rattle.table_store.specs.Databases.{database};
ghost use Rattle.table_print.specs.Names.{names_line};
ghost use Rattle.run_audit.specs.Lines.{printed_table, trace_of};
ghost use Rattle.tool_program.specs.JournalWords.Serials.{tables_left};
ghost use Rattle.top_trace.specs.Texts.{journal_text, trace_text};

use crate::turns::push_turns;
use base_values::Text;
use plan_data::Plan;
use server_model::{Entry, Journal, Verdict};
use std::alloc::{AllocError, Global};
use table_print::push_names_line;
use table_store::paged_tables::Tables;
use top_report::{push_tables_left, push_verdict};

/// Adds the plan's tables but the leftovers as they are left, with all their rows.
fn push_tables(into: &mut Text, plan: &Plan, tables: &Tables) -> Result<(), AllocError>
    ensures { OnOk result (into.new ≡ into.old ++ flat_map (λ table. table) (map printed_table (tables_left plan.now (database tables.now)))) }
{
    push_tables_left(into, true, plan, tables)
}

/// Adds what comes after the plan.
#[tactic(auto, unfolding(crate::specs::Texts::journal_text, run_audit::specs::Lines::trace_of))]
fn push_journal(
    alloc: Global,
    into: &mut Text,
    plan: &Plan,
    journal: &[Entry],
    verdict: &Verdict,
    tables: &Tables,
) -> Result<(), AllocError>
    ensures { OnOk result (into.new ≡ into.old ++ journal_text (trace_of plan.now journal.now verdict.now (database tables.now)) (names_line (database tables.now))) }
{
    into.push_str("#journal\n")?;
    push_turns(into, journal)?;
    push_verdict(into, verdict)?;
    push_tables(into, plan, tables)?;
    push_names_line(alloc, into, tables)
}

/// The text of a trace: the plan as it was given, a line feed, and of its run with this journal and verdict, which left these
/// tables: each turn, the verdict, the plan's tables with all their rows, and the names of all tables that exist. Each line ends in a line feed.
#[tactic(auto, unfolding(crate::specs::Texts::trace_text))]
pub fn print_trace(
    alloc: Global,
    plan_text: &str,
    plan: &Plan,
    journal: &Journal,
    verdict: &Verdict,
    tables: &Tables,
) -> Result<Text, AllocError>
    ensures { IfOk result (λ text. text ≡ trace_text plan_text.now plan.now journal.now verdict.now (database tables.now)) }
{
    let mut text = Text::new(alloc);
    text.push_str(plan_text)?;
    text.push_str("\n")?;
    push_journal(alloc, &mut text, plan, journal.as_slice(), verdict, tables)?;
    Ok(text)
}
