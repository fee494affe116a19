//! A turn on the server.

ghost use Rattle.std.specs.Prelude.{◌≡◌, ◌≤◌, ◌<◌, true, false, None, IfOk, OnOk, OnErr};
ghost use Rattle.server_model.specs.Entries.{is_command};
ghost use Rattle.server_model.specs.States.{State, has_work};
ghost use Rattle.tool_program.specs.JournalWords.Journals.{after_entry};
ghost use Rattle.tool_program.specs.JournalWords.Sessions.{live_session};
ghost use Rattle.proof_journals.specs.Run.Counts.{IsAfter};
ghost use Rattle.run_turns.specs.DueTurns.MigrationRun.FreeTurns.{is_free_turn};
ghost use Rattle.run_turns.specs.DueTurns.MigrationRun.ServerTurns.{entry_on, made_for, counts_of};
ghost use Rattle.run_turns.specs.DueTurns.Due.{next_entry};
ghost use Rattle.run_turns.specs.RunTurns.Invariants.{IsDue, IsRun};

use crate::due_turns::migration_run::{Counts, Taken, Turn, has_work, take_turn};
use run_state::RunState;
use server_api::Serve;
use server_model::{Answer, Entry};
use std::alloc::AllocError;

/// The entry of a command, which asks nothing of the server.
fn command_entry(turn: Turn) -> Entry
    requires asked { is_command turn.asked ≡ true }
    requires side { turn.side ≡ None }
    ensures { (server : State) → result ≡ entry_on server 0 turn }
{
    Entry {
        actor: turn.actor,
        session: 0,
        side: None,
        answer: Answer::Ok(0),
        missed: None,
        draw: None,
        asked: turn.into_asked(),
    }
}

/// The turn of a command: it is in no session, and leaves the server as it is.
fn command_turn<V: Serve>(server: &V, counts: Counts, turn: Turn) -> Taken
    requires asked { is_command turn.asked ≡ true }
    requires side { turn.side ≡ None }
    requires counts { counts ≡ counts_of (V.state server.now) }
    ensures entry { result.entry ≡ entry_on (V.state server.now) 0 turn }
    ensures work { result.had_work ≡ has_work (V.state server.now) 0 }
    ensures counts { result.counts ≡ counts_of (V.state server.now) }
{
    Taken {
        had_work: has_work(server, 0),
        counts,
        entry: command_entry(turn),
    }
}

/// How many sessions are made at most after a turn in this session.
fn sessions_after(sessions: u32, session: Option<u32>) -> u32
    requires { session ≡ None → sessions < u32.MAX }
    ensures { result ≡ made_for session sessions }
{
    match session {
        None => sessions + 1,
        Some(_) => sessions,
    }
}

/// Whether no number is left for the session that a turn is to open.
fn is_last(sessions: u32, session: Option<u32>) -> bool
    ensures new { result ≡ true → session ≡ None }
    ensures last { result ≡ true → sessions ≡ u32.MAX }
    ensures left { result ≡ false → session ≡ None → sessions < u32.MAX }
{
    session.is_none() && sessions == u32::MAX
}

/// Takes the turn on the server. Where there is no memory, or no number for a new session is left, the server is as before,
/// but for a session that was made and is lost again. A free turn always succeeds.
#[tactic(auto, using(crate::proofs::RunTurns::Served::run_state_counts, crate::proofs::RunTurns::Served::command_side, crate::proofs::DueTurns::MigrationRun::Costs::opens_one))]
pub fn serve_turn<V: Serve>(
    server: &mut V,
    sessions: &mut u32,
    run_state: &RunState<'_>,
    turn: Turn,
) -> Result<Taken, AllocError>
    requires run { IsRun run_state.now.plan.now run_state.now.journal.items run_state.now sessions.old (V.state server.old) }
    requires due { IsDue run_state.now.plan.now run_state.now.journal.items turn }
    ensures entry { IfOk result (λ taken. taken.entry ≡ next_entry run_state.now.journal.items (V.state server.old) turn) }
    ensures work { IfOk result (λ taken. taken.had_work ≡ has_work (V.state server.old) (next_entry run_state.now.journal.items (V.state server.old) turn).session) }
    ensures counts { IfOk result (λ taken. taken.counts ≡ counts_of (V.state server.new)) }
    ensures ok { OnOk result (V.state server.new ≡ after_entry (V.state server.old) (next_entry run_state.now.journal.items (V.state server.old) turn)) }
    ensures err { OnErr result (IsAfter (V.state server.old) (V.state server.new)) }
    ensures made { (V.state server.new).made ≤ sessions.new }
    ensures costs { OnErr result (is_free_turn (V.state server.old) (live_session run_state.now.journal.items turn.actor) turn ≡ false) }
{
    let counts = Counts {
        load: run_state.load,
        busy: run_state.busy,
    };
    if turn.asked.is_command() {
        return Ok(command_turn(server, counts, turn));
    }
    let session = run_state.session(turn.actor);
    let made = server.made();
    if is_last(made, session) {
        return Err(AllocError);
    }
    *sessions = sessions_after(made, session);
    take_turn(server, session, counts, turn)
}
