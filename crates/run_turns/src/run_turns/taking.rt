//! A turn that is due, taken: first what may want memory, then the server's answer, then the run state.

ghost use Rattle.std.specs.Prelude.{◌≡◌, ◌+◌, ◌<◌, ◌^◌, [], ◌∷◌, ◌++◌, length, false, OnOk, OnErr};
ghost use Rattle.tool_program.specs.JournalWords.Journals.{after_entry};
ghost use Rattle.tool_program.specs.JournalWords.Sessions.{live_session};
ghost use Rattle.proof_journals.specs.Run.Counts.{IsAfter};
ghost use Rattle.run_turns.specs.DueTurns.MigrationRun.FreeTurns.{is_free_turn};
ghost use Rattle.run_turns.specs.DueTurns.Due.{next_entry};
ghost use Rattle.run_turns.specs.RunTurns.Invariants.{IsDue, IsRun};

use crate::due_turns::migration_run::Turn;
use crate::run_turns::answers::serve_turn;
use crate::run_turns::ranges::ahead_of;
use crate::run_turns::records::keep;
use run_state::RunState;
use server_api::Serve;
use std::alloc::{AllocError, Global};

/// Takes the turn that is due. Where there is no memory, all is as before, but for a session that was made and is lost
/// again. A free turn is always taken.
pub fn take<V: Serve>(
    alloc: Global,
    server: &mut V,
    sessions: &mut u32,
    run_state: &mut RunState<'_>,
    turn: Turn,
) -> Result<(), AllocError>
    requires run { IsRun run_state.old.plan.now run_state.old.journal.items run_state.old sessions.old (V.state server.old) }
    requires due { IsDue run_state.old.plan.now run_state.old.journal.items turn }
    requires room { length run_state.old.journal.items < run_state.old.plan.now.options.turn_limit }
    requires few { length run_state.old.journal.items + 1 < 2 ^ 32 }
    ensures run { IsRun run_state.new.plan.now run_state.new.journal.items run_state.new sessions.new (V.state server.new) }
    ensures plan { run_state.new.plan.now ≡ run_state.old.plan.now }
    ensures journal { OnOk result (run_state.new.journal.items ≡ run_state.old.journal.items ++ next_entry run_state.old.journal.items (V.state server.old) turn ∷ []) }
    ensures state { OnOk result (V.state server.new ≡ after_entry (V.state server.old) (next_entry run_state.old.journal.items (V.state server.old) turn)) }
    ensures still { OnErr result (run_state.new.journal.items ≡ run_state.old.journal.items) }
    ensures following { OnErr result (IsAfter (V.state server.old) (V.state server.new)) }
    ensures costs { OnErr result (is_free_turn (V.state server.old) (live_session run_state.old.journal.items turn.actor) turn ≡ false) }
{
    let ahead = ahead_of(alloc, run_state, server.tables(), &turn)?;
    let taken = serve_turn(server, sessions, run_state, turn)?;
    keep(run_state, ahead, taken);
    Ok(())
}
