//! What holds of the trace of a run: functions that do nothing, whose contracts are the laws.
#![tactic(auto)]

ghost use Rattle.law_traces.specs.AcceptedPlans.{AcceptedPlanLaws};
ghost use Rattle.law_traces.specs.Laws.{TracesAreAudited, WholeTracesAreAudited};
ghost use Rattle.law_traces.specs.Printed.{NamesAreOneLine, PrintedTracesAreAudited, ValuesArePlain, WholePrintedTracesAreAudited};
ghost use Rattle.proof_audit.specs.AuditedTraces.{AuditsNameTheFirst, AuditsSayYes, LinesDecideTables};
ghost use Rattle.proof_audit.specs.Laws.{LinesTellClients, LinesTellSessions, WholeLinesTellClients, WholeLinesTellSessions};

use base_values::laws::stored_values_store_again;
use law_journals::cut_over::renames_come_once;
use law_journals::marked::marked_journals_are_runs;
use law_journals::plans::{
    read_options_allow, read_plans_are_accepted, read_plans_are_runnable, read_plans_are_serial,
    read_plans_are_worded,
};
use law_journals::reverts::renames_find_the_altered;
use law_journals::runs::{accepted_runs_are_serial, accepted_runs_go_on};
use law_texts::traces::printed_traces_are_read;
use proof_resume::start_laws::kept_runs_are_finishable;

/// The lines of a run's trace tell how far each client is, and which actors have a session, also behind the turns of a new tool.
pub fn lines_tell_actors()
    ensures clients { LinesTellClients }
    ensures sessions { LinesTellSessions }
    ensures whole_clients { WholeLinesTellClients }
    ensures whole_sessions { WholeLinesTellSessions }
{}

/// A trace is audited yes exactly where it breaks no rule: clients keep to their scripts, losses and commands are the plan's, the
/// history of the lines is serial and leads to the printed tables, and the verdict holds.
pub fn audits_say_yes()
    ensures { AuditsSayYes }
{}

/// Any other answer names the first that is wrong: the least turn that breaks a rule of turns, else the first table that isn't
/// printed in its place, else the verdict.
pub fn audits_name_the_first()
    ensures { AuditsNameTheFirst }
{}

/// Two traces of one plan with the same lines that are both audited yes have the same tables printed.
pub fn lines_decide_tables()
    ensures { LinesDecideTables }
{}

/// What the laws of traces rest on: what every accepted plan has, and each of its runs.
fn accepted_plans_stand()
    ensures { AcceptedPlanLaws }
{
    accepted_runs_are_serial();
    accepted_runs_go_on();
    marked_journals_are_runs();
    renames_find_the_altered();
    renames_come_once();
    read_plans_are_accepted();
    read_plans_are_runnable();
    read_plans_are_serial();
    read_plans_are_worded();
    read_options_allow();
    stored_values_store_again();
}

/// The trace of every run of every accepted plan is audited yes, with the turns of a new tool behind it where one comes.
pub fn whole_traces_are_audited()
    ensures { WholeTracesAreAudited }
{
    accepted_plans_stand();
}

/// The trace of every run of every accepted plan is audited yes.
pub fn traces_are_audited()
    ensures { TracesAreAudited }
{
    whole_traces_are_audited();
}

/// The values of such a run that numbers its sessions one by one are plain.
pub fn values_are_plain()
    ensures { ValuesArePlain }
{
    read_plans_are_accepted();
    read_plans_are_runnable();
    read_plans_are_serial();
    accepted_runs_go_on();
    stored_values_store_again();
}

/// No name of a table that such a run leaves, or of a column of it, has a line feed, where no name of the plan has.
pub fn names_are_one_line()
    ensures { NamesAreOneLine }
{
    read_plans_are_accepted();
    read_plans_are_runnable();
}

/// The text of a run and of a new tool behind it, where no name of the plan has a line feed and it isn't longer than traces may be, is read
/// as the plan and the trace of both, which is audited yes.
pub fn whole_printed_traces_are_audited()
    ensures { WholePrintedTracesAreAudited }
{
    accepted_plans_stand();
    kept_runs_are_finishable();
    printed_traces_are_read();
    whole_traces_are_audited();
}

/// The text that `trace` prints of such a run, where no name of the plan has a line feed and it isn't longer than traces may be, is read as
/// the plan and the run's trace, which is audited yes.
pub fn printed_traces_are_audited()
    ensures { PrintedTracesAreAudited }
{
    whole_printed_traces_are_audited();
}
