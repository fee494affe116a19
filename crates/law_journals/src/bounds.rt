//! How many turns a run takes, part by part: `proof_bounds` says which part a turn is of, and what each part's term is.

ghost use Rattle.proof_bounds.specs.AttemptTurns.Attempts.{AttemptsGoOn, AttemptTurnsAreFew};
ghost use Rattle.proof_bounds.specs.Attempts.{AttemptsAreFew};
ghost use Rattle.proof_bounds.specs.Clearings.{ClearingTurnsAreFew};
ghost use Rattle.proof_bounds.specs.Guards.{SentriesAreMadeAtOnce};
ghost use Rattle.proof_bounds.specs.Laws.{PartsMakeJournals, LossesStrikeOnce, OperatorTurnsAreFew, ClientTurnsAreFew, RollbacksAreFew};
ghost use Rattle.proof_bounds.specs.Notes.{NotesAreFew, NotesGoOn};
ghost use Rattle.proof_journals.specs.Ghost.Rows.Counts.{RowsAreFew, KeysAreThose};
ghost use Rattle.proof_bounds.specs.Setups.{SetupTurnsAreFew};
ghost use Rattle.proof_bounds.specs.Tries.{TriesAreFew};
ghost use Rattle.proof_migration.specs.InspectorWaits.{InspectorsWaitToSet};
ghost use Rattle.proof_bounds.specs.TaskTurns.Batches.{BatchTurnsAreFew};
ghost use Rattle.proof_bounds.specs.TaskTurns.Chunks.{ChunkTurnsAreFew, NoChunksYet};
ghost use Rattle.proof_bounds.specs.TaskTurns.Totals.{BatchesAlwaysGoOn, ChunksAlwaysGoOn};
ghost use Rattle.law_journals.specs.Bounds.{OperatorIsBounded, ClientsAreBounded, SetupIsBounded, AttemptsAreBounded, ClearingIsBounded, ChunksAreBounded, BatchesAreBounded, RunsAreBounded, AcceptedSmoothRunsAreDone, RoomyRunsEnd};

use crate::completion::smooth_runs_are_done;
use crate::cut_over::journals_are_turned;
use crate::plans::{read_options_allow, read_plans_are_runnable, read_plans_are_serial};
use crate::runs::accepted_runs_go_on;
use crate::server_turns::{definitions_are_done, exclusive_is_alone};
use crate::sessions::waits_are_reported;
use crate::volumes::{chunks_are_few, events_stay_few, rows_stay_few};
use base_values::laws::stored_values_store_again;
use run_turns::due_turns::due_turns_are_kept;

/// Each turn of a journal is of one part.
pub fn parts_make_journals()
    ensures { PartsMakeJournals }
{}

/// A journal that keeps its plan has at most as many turns of the operator's as the plan has commands for it.
pub fn operator_turns_are_few()
    ensures { OperatorTurnsAreFew }
{}

/// A journal that keeps its plan has at most as many turns in which a session is lost as the plan has losses.
pub fn losses_strike_once()
    ensures { LossesStrikeOnce }
{}

/// A journal that is faithful and follows the program has at most as many turns of clients as their lines may take: one
/// each, and as many more as a client's wait is polled.
pub fn client_turns_are_few()
    ensures { ClientTurnsAreFew }
{}

/// After events that fit a table it has at most as many rows as at first, and one more for each WRITE.
pub fn rows_are_few()
    ensures { RowsAreFew }
{}

/// After any events each row's key is that of a row at first, or of one that an event put.
pub fn keys_are_those()
    ensures { KeysAreThose }
{}

/// The copier and the applier each roll back once at most.
pub fn rollbacks_are_few()
    ensures { RollbacksAreFew }
{}

/// After every journal the setup, the chunk and the batch have failed at most as often as the plan lets them, and less
/// often while nothing is reverted.
pub fn tries_are_few()
    ensures { TriesAreFew }
{}

/// After every journal of a runnable plan that is kept, no request of the inspector's waits but the one that sets the new
/// table's counter.
pub fn inspectors_wait_to_set()
    ensures { InspectorsWaitToSet }
{}

/// In every journal of a runnable plan that is kept no CREATE of a sentry waits: while no attempt is under way, nobody but
/// its locker has the sentry's name.
pub fn sentries_are_made_at_once()
    ensures { SentriesAreMadeAtOnce }
{}

/// After every journal that follows the program at most as many attempts are begun as the plan lets a task be tried.
pub fn attempts_are_few()
    ensures { AttemptsAreFew }
{}

/// In every journal of a runnable plan that is kept each call of an attempt goes on: LOCK TABLES, the RENAME and the DROP of the
/// sentry aren't refused; the hint row is written, the listing of waits shows the RENAME, and at an attempt's end the sentry is
/// dropped.
pub fn attempts_go_on()
    ensures { AttemptsGoOn }
{}

/// So such a journal has at most ten turns for each attempt that may be begun, and as many more as two waits are polled; where
/// the migrated table has a counter, twelve, and as many more as three waits are polled.
pub fn attempt_turns_are_few()
    ensures { AttemptTurnsAreFew }
{}

/// Where each turn of the setup that isn't lost goes on, a journal that keeps its plan has at most eight turns of it, and
/// eight for each loss.
pub fn setup_turns_are_few()
    ensures { SetupTurnsAreFew }
{}

/// Where each row of a note comes in its turn, and is written or lost with the inspector's session, a journal that keeps its plan has
/// at most two for each note that may be begun.
pub fn notes_are_few()
    ensures { NotesAreFew }
{}

/// In every journal of a runnable plan that is kept so does each row of a note, where the plan asks for at most a thousand.
pub fn notes_go_on()
    ensures { NotesGoOn }
{}

/// Where what is done after the RENAME goes on, and so do the rows of notes, a journal that keeps its plan has at most five turns of
/// what is cleared up, six for each loss, and two for each note that may be begun.
pub fn clearing_turns_are_few()
    ensures { ClearingTurnsAreFew }
{}

/// A run of an accepted plan has at most as many turns of the operator's, of its clients', of the setup, of attempts, and of
/// losses with what is cleared up and the rows of notes, as their terms say.
pub fn some_parts_are_bounded()
    ensures operator { OperatorIsBounded }
    ensures clients { ClientsAreBounded }
    ensures setup { SetupIsBounded }
    ensures attempts { AttemptsAreBounded }
    ensures clearing { ClearingIsBounded }
{
    operator_turns_are_few();
    client_turns_are_few();
    setup_turns_are_few();
    attempt_turns_are_few();
    clearing_turns_are_few();
    read_options_allow();
    read_plans_are_runnable();
    read_plans_are_serial();
}

/// In every journal of a runnable plan that is kept the copy goes on, where the migrated table's rows are few: each of the
/// copier's calls is done, but the chunk's keys and a row's copy may wait, and a row that doesn't fit is refused.
pub fn chunks_go_on()
    ensures { ChunksAlwaysGoOn }
{
    stored_values_store_again();
    definitions_are_done();
}

/// Where the copy goes on, a journal has at most as many turns of it as the chunks that were begun take with all tries, and
/// none before the first.
pub fn chunk_turns_are_few()
    ensures few { ChunkTurnsAreFew }
    ensures none { NoChunksYet }
{}

/// In every journal of a runnable plan that is kept the applying goes on: each of the applier's calls is done, but a
/// statement may wait, and is refused for a value that doesn't fit, or as an UPDATE for another row's key. Once the RENAME is done the applier has no turn.
pub fn batches_go_on()
    ensures { BatchesAlwaysGoOn }
{
    stored_values_store_again();
    exclusive_is_alone();
    definitions_are_done();
    waits_are_reported();
    journals_are_turned();
}

/// Where the applying goes on, a journal has at most as many turns of it as the events to apply take with all tries.
pub fn batch_turns_are_few()
    ensures { BatchTurnsAreFew }
{
    definitions_are_done();
}

/// A run of an accepted plan has at most as many turns of chunks, and of batches, as their terms say.
pub fn tasks_are_bounded()
    ensures chunks { ChunksAreBounded }
    ensures batches { BatchesAreBounded }
{
    stored_values_store_again();
    exclusive_is_alone();
    definitions_are_done();
    waits_are_reported();
    journals_are_turned();
    rows_stay_few();
    chunks_are_few();
    events_stay_few();
    read_options_allow();
    read_plans_are_runnable();
    read_plans_are_serial();
}

/// A run of an accepted plan that hasn't ended has fewer turns than the sum of the terms.
pub fn runs_are_bounded()
    ensures { RunsAreBounded }
{
    parts_make_journals();
    some_parts_are_bounded();
    tasks_are_bounded();
    accepted_runs_go_on();
    due_turns_are_kept();
}

/// A run of an accepted plan in which nothing hinders the tool, and that has ended, is done; and one which the plan allows as
/// many turns as the bound, has ended once it is over.
pub fn smooth_runs_end()
    ensures smooth { AcceptedSmoothRunsAreDone }
    ensures roomy { RoomyRunsEnd }
{
    smooth_runs_are_done();
    runs_are_bounded();
    read_plans_are_runnable();
}
