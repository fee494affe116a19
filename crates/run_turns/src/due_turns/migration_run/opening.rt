//! The session of a turn: one that its actor has, or a new one, which is lost again where there is no memory for its call.

ghost use Rattle.std.specs.Prelude.{◌≡◌, ◌+◌, ◌<◌, ℕ, Bool, not, Some, None, true, false, IfOk, OnErr};
ghost use Rattle.server_model.specs.Entries.{is_client};
ghost use Rattle.server_model.specs.States.{State, connected, is_live, is_waiting};
ghost use Rattle.tool_program.specs.JournalWords.Journals.{opens_if};
ghost use Rattle.proof_journals.specs.Run.Counts.{IsAfter, kind_of};
ghost use Rattle.run_turns.specs.DueTurns.MigrationRun.Sessions.{IsSessionOf};
ghost use Rattle.run_turns.specs.DueTurns.MigrationRun.ServerTurns.{session_for};

use base_script::Actor;
use run_actors::is_client;
use server_api::Serve;
use server_model::Asked;
use std::alloc::AllocError;

/// The actor's session: the one that it has, else a new one, which takes memory.
#[tactic(auto, using(crate::proofs::DueTurns::MigrationRun::Connecting::goes_on, crate::proofs::DueTurns::MigrationRun::Connecting::connects, crate::proofs::DueTurns::MigrationRun::Connecting::opened_live, crate::proofs::DueTurns::MigrationRun::Connecting::opened_fresh))]
pub fn open_session<V: Serve>(
    server: &mut V,
    session: Option<u32>,
    actor: Actor,
) -> Result<u32, AllocError>
    requires { session ≡ None → (V.state server.old).made < u32.MAX }
    ensures session { IfOk result (λ number. (reported : State) → IsAfter reported (V.state server.old) → IsSessionOf reported actor session → IsAfter (opens_if false (not (is_client actor)) number reported) (V.state server.new)) }
    ensures number { IfOk result (λ number. session ≡ None → number ≡ (V.state server.old).made + 1) }
    ensures own { IfOk result (λ number. (own : ℕ) → session ≡ Some own → number ≡ own) }
    ensures next { IfOk result (λ number. number ≡ session_for session (V.state server.old).made) }
    ensures opened { IfOk result (λ number. IsSessionOf (V.state server.old) actor session → V.state server.new ≡ opens_if false (not (is_client actor)) number (V.state server.old)) }
    ensures same { (own : ℕ) → session ≡ Some own → V.state server.new ≡ V.state server.old }
    ensures err { OnErr result (V.state server.new ≡ V.state server.old) }
    ensures costs { OnErr result (session ≡ None) }
{
    match session {
        Some(number) => Ok(number),
        None => server.connect(!is_client(actor)),
    }
}

/// Loses a session that was opened for a turn, since there is no memory for its call.
#[tactic(auto, using(crate::proofs::DueTurns::MigrationRun::Connecting::closes, crate::proofs::DueTurns::MigrationRun::Connecting::may_lose))]
pub fn close_session<V: Serve>(server: &mut V, session: u32)
    requires { is_live (V.state server.old) session ≡ true }
    ensures made { (V.state server.new).made ≡ (V.state server.old).made }
    ensures left { (reported : State) (is_tool : Bool) → kind_of session reported.sessions ≡ None → is_waiting reported session ≡ false → IsAfter (connected session is_tool reported) (V.state server.old) → IsAfter reported (V.state server.new) }
{
    match server.lose(session, None, &Asked::Cut) {
        Ok(_) => {}
        Err(_) => unreachable!(),
    }
}
