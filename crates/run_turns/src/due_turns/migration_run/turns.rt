//! One turn in a session.

ghost use Rattle.std.specs.Prelude.{◌≡◌, ◌≤◌, ◌+◌, ℕ, Bool, true, false, Some, None, IfOk, OnOk, OnErr};
ghost use Rattle.base_script.specs.declared.actor.Side.TheVariants.{Before};
ghost use Rattle.server_model.specs.States.{State, connected, is_live, is_waiting, has_work};
ghost use Rattle.server_model.specs.PlainServer.{serves, state_left, number_drawn, given_at};
ghost use Rattle.tool_program.specs.JournalWords.Journals.{after_entry, heard, missed};
ghost use Rattle.proof_journals.specs.Run.Counts.{IsAfter, kind_of};
ghost use Rattle.run_turns.specs.DueTurns.MigrationRun.FreeTurns.{is_free_in, is_free_turn};
ghost use Rattle.run_turns.specs.DueTurns.MigrationRun.Requests.{MayAsk};
ghost use Rattle.run_turns.specs.DueTurns.MigrationRun.ServerTurns.{session_for, made_for, entry_on, counts_of, is_before, MayTurn};

use crate::due_turns::migration_run::counting::{Counts, has_work, share_after, share_of};
use crate::due_turns::migration_run::opening::{close_session, open_session};
use crate::due_turns::migration_run::requests::{Heard, ask, lost_at_once};
use crate::due_turns::migration_run::turn::Turn;
use base_script::Side;
use server_api::Serve;
use server_model::Entry;
use std::alloc::AllocError;

/// A turn that was taken in a session.
#[derive(Drop)]
pub struct Taken {
    /// Its entry.
    pub entry: Entry,
    /// Whether the session had a transaction, a table lock or a wait before it.
    pub had_work: bool,
    /// The counts after it.
    pub counts: Counts,
}

/// The entry of a turn in this session, with what its actor heard.
fn entry_of(turn: Turn, session: u32, heard: Heard) -> Entry
    ensures actor { result.actor ≡ turn.actor }
    ensures session { result.session ≡ session }
    ensures asked { result.asked ≡ turn.asked }
    ensures side { result.side ≡ turn.side }
    ensures answer { result.answer ≡ heard.answer }
    ensures missed { result.missed ≡ heard.missed }
    ensures draw { result.draw ≡ heard.draw }
{
    Entry {
        actor: turn.actor,
        session,
        side: turn.side,
        answer: heard.answer,
        missed: heard.missed,
        draw: heard.draw,
        asked: turn.into_asked(),
    }
}

/// Asks in the session of a turn, of this number. Where there is no memory, the server is as before; a session that was opened
/// for the turn, since its actor had none, is lost again.
fn ask_in<V: Serve>(
    server: &mut V,
    session: Option<u32>,
    number: u32,
    turn: &Turn,
) -> Result<Heard, AllocError>
    requires may { MayAsk (V.state server.old) number turn.now.side turn.now.asked }
    requires live { is_live (V.state server.old) number ≡ true }
    ensures answer { IfOk result (λ reported. reported.answer ≡ heard turn.now.side (given_at turn.now.side turn.now.asked (serves (V.state server.old) number turn.now.asked).answer)) }
    ensures missed { IfOk result (λ reported. reported.missed ≡ missed turn.now.side (given_at turn.now.side turn.now.asked (serves (V.state server.old) number turn.now.asked).answer)) }
    ensures draw { IfOk result (λ reported. reported.draw ≡ number_drawn turn.now.side (V.state server.old) number turn.now.asked) }
    ensures ok { OnOk result (V.state server.new ≡ state_left turn.now.side (V.state server.old) number turn.now.asked) }
    ensures own { OnErr result ((own : ℕ) → session ≡ Some own → V.state server.new ≡ V.state server.old) }
    ensures new { OnErr result (session ≡ None → (reported : State) (is_tool : Bool) → kind_of number reported.sessions ≡ None → is_waiting reported number ≡ false → IsAfter (connected number is_tool reported) (V.state server.old) → IsAfter reported (V.state server.new)) }
    ensures made { OnErr result ((V.state server.new).made ≡ (V.state server.old).made) }
    ensures costs { OnErr result (is_free_in (V.state server.old) number turn.now.side turn.now.asked ≡ false) }
{
    match (ask(server, number, turn.side, &turn.asked), session) {
        (Ok(heard), _) => Ok(heard),
        (Err(error), Some(_)) => Err(error),
        (Err(error), None) => {
            close_session(server, number);
            Err(error)
        }
    }
}

/// A turn of an actor without a session, whose new one is lost before it asks anything: its number is used up, and no more.
fn pass_turn<V: Serve>(server: &mut V, counts: Counts, turn: Turn) -> Taken
    requires may { MayTurn (V.state server.old) None turn }
    requires lost { turn.side ≡ Some Before }
    requires counts { counts ≡ counts_of (V.state server.old) }
    ensures entry { result.entry ≡ entry_on (V.state server.old) ((V.state server.old).made + 1) turn }
    ensures work { result.had_work ≡ has_work (V.state server.old) ((V.state server.old).made + 1) }
    ensures counts { result.counts ≡ counts_of (V.state server.new) }
    ensures state { V.state server.new ≡ after_entry (V.state server.old) (entry_on (V.state server.old) ((V.state server.old).made + 1) turn) }
    ensures made { (V.state server.new).made ≤ (V.state server.old).made + 1 }
{
    let number = server.pass();
    let had_work = has_work(server, number);
    let heard = lost_at_once();
    Taken {
        entry: entry_of(turn, number, heard),
        had_work,
        counts,
    }
}

/// Asks in the actor's session, or in a new one where it has none. Where there is no memory, the server is as before, but for the
/// number of a session that was opened for the turn and is lost again.
fn ask_turn<V: Serve>(
    server: &mut V,
    session: Option<u32>,
    counts: Counts,
    turn: Turn,
) -> Result<Taken, AllocError>
    requires may { MayTurn (V.state server.old) session turn }
    requires asks { session ≡ None → is_before turn.side ≡ false }
    requires counts { counts ≡ counts_of (V.state server.old) }
    ensures entry { IfOk result (λ taken. taken.entry ≡ entry_on (V.state server.old) (session_for session (V.state server.old).made) turn) }
    ensures work { IfOk result (λ taken. taken.had_work ≡ has_work (V.state server.old) (session_for session (V.state server.old).made)) }
    ensures counts { IfOk result (λ taken. taken.counts ≡ counts_of (V.state server.new)) }
    ensures ok { OnOk result (V.state server.new ≡ after_entry (V.state server.old) (entry_on (V.state server.old) (session_for session (V.state server.old).made) turn)) }
    ensures err { OnErr result (IsAfter (V.state server.old) (V.state server.new)) }
    ensures made { (V.state server.new).made ≤ made_for session (V.state server.old).made }
    ensures costs { OnErr result (is_free_turn (V.state server.old) session turn ≡ false) }
{
    let number = open_session(server, session, turn.actor)?;
    let had_work = has_work(server, number);
    let before = share_of(server, turn.actor, number);
    let heard = ask_in(server, session, number, &turn)?;
    let after = share_after(server, &turn, number);
    Ok(Taken {
        entry: entry_of(turn, number, heard),
        had_work,
        counts: counts.following(before, after),
    })
}

/// Takes a turn in the actor's session, or in a new one where it has none. Where there is no memory, the server is as before,
/// but for the number of a session that was opened for the turn and is lost again. One that is lost before it asks anything isn't
/// opened, and takes none.
pub fn take_turn<V: Serve>(
    server: &mut V,
    session: Option<u32>,
    counts: Counts,
    turn: Turn,
) -> Result<Taken, AllocError>
    requires may { MayTurn (V.state server.old) session turn }
    requires counts { counts ≡ counts_of (V.state server.old) }
    ensures entry { IfOk result (λ taken. taken.entry ≡ entry_on (V.state server.old) (session_for session (V.state server.old).made) turn) }
    ensures work { IfOk result (λ taken. taken.had_work ≡ has_work (V.state server.old) (session_for session (V.state server.old).made)) }
    ensures counts { IfOk result (λ taken. taken.counts ≡ counts_of (V.state server.new)) }
    ensures ok { OnOk result (V.state server.new ≡ after_entry (V.state server.old) (entry_on (V.state server.old) (session_for session (V.state server.old).made) turn)) }
    ensures err { OnErr result (IsAfter (V.state server.old) (V.state server.new)) }
    ensures made { (V.state server.new).made ≤ made_for session (V.state server.old).made }
    ensures costs { OnErr result (is_free_turn (V.state server.old) session turn ≡ false) }
{
    match (session, turn.side) {
        (None, Some(Side::Before)) => Ok(pass_turn(server, counts, turn)),
        _ => ask_turn(server, session, counts, turn),
    }
}
