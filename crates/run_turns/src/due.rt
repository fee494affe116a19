//! The turn that is due.

ghost use Rattle.std.specs.Prelude.{◌≡◌, ◌&&◌, false, Some, option_map, IfOk, OnOk, OnErr};
ghost use Rattle.base_script.specs.declared.actor.Side.TheVariants.{Before};
ghost use Rattle.server_model.specs.LostCalls.{lost_in};
ghost use Rattle.server_model.specs.declared.entry.Asked as asked;
ghost use Rattle.tool_program.specs.JournalWords.KeptPlans.{side_due};
ghost use Rattle.tool_program.specs.JournalWords.Sessions.{live_session};
ghost use Rattle.tool_program.specs.Tools.{moment};
ghost use Rattle.proof_journals.specs.Run.Counts.{IsAfter};
ghost use Rattle.run_state.specs.Books.{IsRunState};
ghost use Rattle.run_state.specs.NextAsked.{asked_of};
ghost use Rattle.run_turns.specs.DueTurns.Due.{due, own_turn, MayCost};
ghost use Rattle.run_turns.specs.DueTurns.MigrationRun.FreeTurns.{is_free_turn, is_numbered};
ghost use Rattle.run_turns.specs.DueTurns.NextTurns.{turn_in};
ghost use Rattle.run_turns.specs.InHand.{is_exchange, AreLeft, HasRenames};

use crate::due_turns::migration_run::Turn;
use crate::renames::{is_exchange, take_rename};
use base_script::{Actor, Side};
use run_state::{NextAsked, RunState};
use server_api::Serve;
use server_model::{Asked, LostCall, Request, TurnAsked};
use std::alloc::{AllocError, Global};

/// What is due where an actor is to take a turn.
#[derive(Clone, Copy)]
pub enum NextTurn<'a> {
    /// The loss of this actor's session between calls.
    Cut(Actor),
    /// What the actor asks.
    Given(NextAsked<'a>),
}

/// What is due where the actor is to take a turn; none where nothing is given to it.
#[tactic(auto, using(crate::proofs::RunTurns::Planned::given_turns), unfolding(crate::specs::DueTurns::Due::due))]
pub fn next_turn<'b, V: Serve>(
    run_state: &'b RunState<'_>,
    server: &'b V,
    actor: Actor,
) -> Option<NextTurn<'b>>
    requires run_state { IsRunState run_state.now.plan.now run_state.now.journal.items run_state.now }
    requires state { IsAfter (moment run_state.now.plan.now run_state.now.journal.items).server (V.state server.now) }
    ensures { option_map (turn_in run_state.now actor) result ≡ due run_state.now.plan.now run_state.now.journal.items actor }
{
    match run_state.cut_due() {
        Some(other) => Some(NextTurn::Cut(other)),
        None => run_state.next(server, actor).map(NextTurn::Given),
    }
}

/// What is asked by this, where it is lost before it is done and this is kept of it.
fn lost_in_turn(run_state: &RunState<'_>, next: NextAsked<'_>, lost: LostCall) -> TurnAsked
    ghost what: { asked.Asked }
    requires what { asked_of run_state.now next ≡ what }
    requires lost { lost_in what ≡ Some lost }
    ensures { result ≡ what }
{
    let _ = run_state;
    let _ = next;
    TurnAsked::lost(lost)
}

/// Whether there is a session for a turn of the actor's: a live one, or the number of a new one.
fn is_numbered<V: Serve>(run_state: &RunState<'_>, server: &V, actor: Actor) -> bool
    requires { IsRunState run_state.now.plan.now run_state.now.journal.items run_state.now }
    ensures { result ≡ is_numbered (V.state server.now) (live_session run_state.now.journal.items actor) }
{
    run_state.session(actor).is_some() || server.made() < u32::MAX
}

/// Whether what is asked is in hand: the exchange, where there is a session for it.
fn is_in_hand<V: Serve>(
    run_state: &RunState<'_>,
    server: &V,
    actor: Actor,
    next: NextAsked<'_>,
) -> bool
    requires { IsRunState run_state.now.plan.now run_state.now.journal.items run_state.now }
    ensures { result ≡ (is_exchange next.entry && is_numbered (V.state server.now) (live_session run_state.now.journal.items actor)) }
{
    is_exchange(next) && is_numbered(run_state, server, actor)
}

/// What an actor asks that is lost before it is done. It takes no memory: of a call the journal keeps what there is to keep of it, and a
/// RENAME is in hand.
#[tactic(auto, using(crate::proofs::InHand::all_left))]
fn asked_lost<V: Serve>(
    alloc: Global,
    run_state: &RunState<'_>,
    server: &V,
    renames: &mut Vec<Request>,
    actor: Actor,
    next: NextAsked<'_>,
) -> Result<TurnAsked, AllocError>
    requires run_state { IsRunState run_state.now.plan.now run_state.now.journal.items run_state.now }
    requires lost { side_due run_state.now.plan.now run_state.now.journal.items actor ≡ Some Before }
    requires renames { HasRenames run_state.now.plan.now run_state.now.journal.items renames.old.items }
    ensures asked { IfOk result (λ asked. asked ≡ asked_of run_state.now next.entry) }
    ensures left { OnOk result (AreLeft run_state.now.plan.now run_state.now.journal.items (V.state server.now) (own_turn run_state.now.plan.now run_state.now.journal.items actor (asked_of run_state.now next.entry)) renames.new.items) }
    ensures err { OnErr result (renames.new.items ≡ renames.old.items) }
    ensures costs { OnErr result (is_free_turn (V.state server.now) (live_session run_state.now.journal.items actor) (own_turn run_state.now.plan.now run_state.now.journal.items actor (asked_of run_state.now next.entry)) ≡ false) }
{
    match run_state.lost(next) {
        Some(lost) => Ok(lost_in_turn(run_state, next, lost)),
        None => {
            if is_in_hand(run_state, server, actor, next) {
                Ok(TurnAsked::all(Asked::Call(take_rename(renames))))
            } else {
                Ok(TurnAsked::all(run_state.asked(alloc, next)?))
            }
        }
    }
}

/// The turn that is due. A free turn takes no memory here.
#[tactic(auto, using(crate::proofs::RunTurns::Costs::asked_costs, crate::proofs::RunTurns::Costs::due_costs, crate::proofs::InHand::all_left, crate::proofs::InHand::left_same))]
pub fn turn_of<V: Serve>(
    alloc: Global,
    run_state: &RunState<'_>,
    server: &V,
    renames: &mut Vec<Request>,
    actor: Actor,
    next: NextTurn<'_>,
) -> Result<Turn, AllocError>
    requires run_state { IsRunState run_state.now.plan.now run_state.now.journal.items run_state.now }
    requires due { Some (turn_in run_state.now actor next) ≡ due run_state.now.plan.now run_state.now.journal.items actor }
    requires renames { HasRenames run_state.now.plan.now run_state.now.journal.items renames.old.items }
    ensures turn { IfOk result (λ turn. turn ≡ turn_in run_state.now actor next.entry) }
    ensures left { IfOk result (λ turn. AreLeft run_state.now.plan.now run_state.now.journal.items (V.state server.now) turn renames.new.items) }
    ensures err { OnErr result (renames.new.items ≡ renames.old.items) }
    ensures costs { OnErr result (MayCost run_state.now.plan.now run_state.now.journal.items (V.state server.now) actor) }
{
    match next {
        NextTurn::Cut(other) => Ok(Turn {
            actor: other,
            side: None,
            asked: TurnAsked::all(Asked::Cut),
        }),
        NextTurn::Given(next) => {
            let side = run_state.side_due(actor);
            match side {
                Some(Side::Before) => Ok(Turn {
                    actor,
                    side,
                    asked: asked_lost(alloc, run_state, server, renames, actor, next)?,
                }),
                Some(Side::After) | None => Ok(Turn {
                    actor,
                    side,
                    asked: TurnAsked::all(run_state.asked(alloc, next)?),
                }),
            }
        }
    }
}
