//! The report as a whole.

ghost use Rattle.std.specs.Prelude.{◌≡◌, ◌++◌, IfOk, OnOk};
ghost use Rattle.table_store.specs.Databases.{database};
ghost use Rattle.top_report.specs.ClientLines.Pasts.{history_line};
ghost use Rattle.top_report.specs.ClientLines.Replies.{clients_text};
ghost use Rattle.top_report.specs.Reports.{report, where_shown};
ghost use Rattle.top_report.specs.Turns.{turns_text};

use crate::client_lines::{push_clients, push_history_line};
use crate::tables::push_tables_left;
use crate::turns::push_turns;
use crate::verdict::push_verdict;
use base_values::Text;
use plan_data::Plan;
use server_model::{Entry, Journal, Verdict};
use std::alloc::{AllocError, Global};
use table_print::push_names_line;
use table_store::paged_tables::Tables;

fn push_shown_replies(into: &mut Text, plan: &Plan, journal: &[Entry]) -> Result<(), AllocError>
    ensures { OnOk result (into.new ≡ into.old ++ where_shown plan.now.options.show_replies (clients_text plan.now journal.now)) }
{
    if plan.options().show_replies {
        push_clients(into, plan, journal)
    } else {
        Ok(())
    }
}

fn push_shown_history(
    alloc: Global,
    into: &mut Text,
    plan: &Plan,
    journal: &[Entry],
) -> Result<(), AllocError>
    ensures { OnOk result (into.new ≡ into.old ++ where_shown plan.now.options.show_history (history_line plan.now journal.now)) }
{
    if plan.options().show_history {
        push_history_line(alloc, into, plan, journal)
    } else {
        Ok(())
    }
}

fn push_shown_turns(into: &mut Text, plan: &Plan, journal: &[Entry]) -> Result<(), AllocError>
    ensures { OnOk result (into.new ≡ into.old ++ where_shown plan.now.options.show_turns (turns_text journal.now)) }
{
    if plan.options().show_turns {
        push_turns(into, journal)
    } else {
        Ok(())
    }
}

/// How many bytes most reports have at most.
const USUAL_LENGTH: usize = 4096;

/// The report of a run of the plan with this journal and verdict, which left these tables. Each line ends in a line feed.
#[tactic(auto, unfolding(crate::specs::Reports::report))]
pub fn report(
    alloc: Global,
    plan: &Plan,
    journal: &Journal,
    verdict: &Verdict,
    tables: &Tables,
) -> Result<Text, AllocError>
    ensures { IfOk result (λ text. text ≡ report plan.now journal.now verdict.now (database tables.now)) }
{
    let mut text = Text::with_capacity(alloc, USUAL_LENGTH)?;
    push_verdict(&mut text, verdict)?;
    push_shown_replies(&mut text, plan, journal.as_slice())?;
    push_tables_left(&mut text, plan.options().show_tables, plan, tables)?;
    push_names_line(alloc, &mut text, tables)?;
    push_shown_history(alloc, &mut text, plan, journal.as_slice())?;
    push_shown_turns(&mut text, plan, journal.as_slice())?;
    Ok(text)
}
