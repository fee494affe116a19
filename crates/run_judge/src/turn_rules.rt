//! The rules of losses and commands, and the turn of the ALTER. Nothing here takes memory.

ghost use Rattle.std.specs.Prelude.{◌≡◌, ◌&&◌, List, slice_get};
ghost use Rattle.run_audit.specs.declared.line.TraceLine.{TraceLine as Line};
ghost use Rattle.run_audit.specs.Rules.{commands_in, is_done, is_rename, is_struck, is_word, keeps_commands, same_side};
ghost use Rattle.tool_program.specs.JournalWords.KeptPlans.{words_of};
ghost use Rattle.run_judge.specs.TurnsSeen.{commanded, cut_among, cut_by, is_op};

use crate::actor_marks::{ActorMarks, marks_of};
use crate::outcomes::is_cut;
use base_script::{Actor, Loss, OperatorWord, Side};
use plan_data::Plan;
use run_actors::same_actor;
use run_audit::{LineAnswer, LineAsked, TraceLine};
use tool_program::tool_setup::Operator;

/// The actor whose session this loss takes away in this turn, where it has one.
fn cut_by(actors: &[ActorMarks], turn: u64, loss: &Loss) -> Option<Actor>
    ensures { result ≡ cut_by actors.now turn loss.now }
{
    match loss {
        Loss::Nth { .. } => None,
        Loss::Turn {
            turn: number,
            actor,
        } => {
            if u64::from(*number) == turn && marks_of(actors, *actor).has_session {
                Some(*actor)
            } else {
                None
            }
        }
    }
}

/// The actor whose session the first loss between calls takes away that can be taken in this turn.
#[tactic(auto, unfolding(crate::specs::TurnsSeen::cut_among))]
pub fn cut_among(actors: &[ActorMarks], turn: u64, losses: &[Loss]) -> Option<Actor>
    ensures { result ≡ cut_among actors.now turn losses.now }
{
    for loss in losses {
        let actor = cut_by(actors, turn, loss);
        if actor.is_some() {
            return actor;
        }
    }
    None
}

fn same_side(side: Option<Side>, other: Option<Side>) -> bool
    ensures { result ≡ same_side side other }
{
    match (side, other) {
        (None, None) => true,
        (Some(Side::Before), Some(Side::Before)) => true,
        (Some(Side::After), Some(Side::After)) => true,
        _ => false,
    }
}

/// Whether a session is lost in the turn exactly as it has to be: this actor's between calls, else in the call on this side.
pub fn is_struck(cut: Option<Actor>, side: Option<Side>, line: &TraceLine) -> bool
    ensures { result ≡ is_struck cut side line.now }
{
    match cut {
        Some(actor) => same_actor(line.actor, actor) && is_cut(line.asked),
        None => !is_cut(line.asked) && same_side(line.side, side),
    }
}

/// The operator, after so many of its commands.
fn operator_after(plan: &Plan, taken: u64) -> Operator
    ensures { result.taken ≡ taken }
{
    Operator {
        taken,
        ..Operator::new(&plan.options())
    }
}

/// The command after so many.
pub fn command_after(plan: &Plan, taken: u64) -> Option<OperatorWord>
    ensures { result ≡ slice_get (words_of plan.now) taken }
{
    operator_after(plan, taken).next(plan)
}

fn is_op(actor: Actor) -> bool
    ensures { result ≡ is_op actor }
{
    matches!(actor, Actor::Op)
}

/// Whether the operator takes a command that is left after so many, and nobody else takes one.
#[tactic(auto, using(crate::proofs::SeenTurns::word_kept, crate::proofs::SeenTurns::call_kept))]
pub fn keeps_commands(plan: &Plan, taken: u64, line: &TraceLine) -> bool
    ensures { (before : List Line) → taken ≡ commands_in before → result ≡ keeps_commands plan.now before line.now.actor line.now.asked }
{
    match line.asked {
        LineAsked::Cut => true,
        LineAsked::Word => is_op(line.actor) && operator_after(plan, taken).is_left(plan),
        LineAsked::Call | LineAsked::Rename | LineAsked::Poll => !is_op(line.actor),
    }
}

fn is_word(asked: LineAsked) -> bool
    ensures { result ≡ is_word asked }
{
    matches!(asked, LineAsked::Word)
}

/// How many commands were taken after a turn, after so many.
pub fn commands_after(taken: u64, asked: LineAsked) -> u64
    ensures { result ≡ commanded (is_word asked) taken }
{
    if is_word(asked) {
        taken.saturating_add(1)
    } else {
        taken
    }
}

fn is_done(answer: &LineAnswer) -> bool
    ensures { result ≡ is_done answer.now }
{
    matches!(answer, LineAnswer::Ok(_) | LineAnswer::LostDone)
}

/// Whether the turn is of a RENAME: its call, or a poll of it.
fn is_rename(renames: bool, asked: LineAsked) -> bool
    ensures { result ≡ is_rename renames asked }
{
    match asked {
        LineAsked::Rename => true,
        LineAsked::Poll => renames,
        LineAsked::Call | LineAsked::Cut | LineAsked::Word => false,
    }
}

/// Whether a RENAME was done in the turn, where the actor's last call is one or isn't.
pub fn alters_in(renames: bool, line: &TraceLine) -> bool
    ensures { result ≡ (is_rename renames line.now.asked && is_done line.now.answer) }
{
    is_rename(renames, line.asked) && is_done(&line.answer)
}
