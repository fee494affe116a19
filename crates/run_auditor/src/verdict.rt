//! Whether a verdict is that of its turns. Nothing here takes memory.

ghost use Rattle.std.specs.Prelude.{◌≡◌, option_map, slice_get};
ghost use Rattle.std.specs.List.{list_all};
ghost use Rattle.run_audit.specs.declared.line.TraceLine.{TraceLine as Line};
ghost use Rattle.run_audit.specs.Audits.{cause_holds, is_apply, is_mover, is_over_after, is_panic, is_panic_at, is_refusal, is_unfit_at, line_at, may_fail_at, verdict_holds};
ghost use Rattle.run_audit.specs.Rules.{commands_in, has_altered as altered_by, is_word};
ghost use Rattle.tool_program.specs.JournalWords.KeptPlans.{words_of};

use base_script::{Actor, OperatorWord};
use plan_data::Plan;
use run_audit::{LineAnswer, LineAsked, TraceLine};
use run_judge::actor_marks::is_loss;
use run_judge::outcomes::is_cut;
use run_judge::turn_rules::{command_after, commands_after};
use server_model::{Cause, Verdict};

/// The line of a turn, from 1.
fn line_at(lines: &[TraceLine], turn: u64) -> Option<&TraceLine>
    ensures { option_map (λ line. line.now) result ≡ line_at lines.now turn }
{
    if turn == 0 {
        None
    } else {
        lines.get(turn as usize - 1)
    }
}

fn is_word(asked: LineAsked) -> bool
    ensures { result ≡ is_word asked }
{
    matches!(asked, LineAsked::Word)
}

/// How many commands were taken in these turns.
fn commands_in(lines: &[TraceLine]) -> u64
    ensures { result ≡ commands_in lines.now }
{
    let mut count = 0;
    for line in lines {
        count = commands_after(count, line.asked);
    }
    count
}

fn is_panic(word: Option<OperatorWord>) -> bool
    ensures { result ≡ is_panic word }
{
    matches!(word, Some(OperatorWord::Panic))
}

/// Whether a command was taken in this turn, which the plan allows, and it is panic.
#[tactic(auto, using(crate::proofs::VerdictTurns::turn_from_one, crate::proofs::VerdictTurns::turn_inside))]
fn is_panic_at(plan: &Plan, lines: &[TraceLine], turn: u64) -> bool
    ensures { result ≡ is_panic_at plan.now lines.now turn (line_at lines.now turn) }
{
    let Some(line) = line_at(lines, turn) else {
        return false;
    };
    let is_past = u64::from(plan.options().turn_limit) < turn;
    let before = &lines[..turn as usize - 1];
    is_word(line.asked) && !is_past && is_panic(command_after(plan, commands_in(before)))
}

fn is_mover(actor: Actor) -> bool
    ensures { result ≡ is_mover actor }
{
    matches!(actor, Actor::Copy | Actor::Apply)
}

/// Whether a value was refused with this number.
fn is_refusal(number: u16, answer: &LineAnswer) -> bool
    ensures { result ≡ is_refusal number answer.now }
{
    match answer {
        LineAnswer::Error(other) => u64::from(number) == *other,
        _ => false,
    }
}

/// Whether a value of the copier or the applier was refused with this number in the turn.
fn is_unfit_at(number: u16, line: Option<&TraceLine>) -> bool
    ensures { result ≡ is_unfit_at number (option_map (λ line. line.now) line.entry) }
{
    match line {
        Some(line) => is_mover(line.actor) && is_refusal(number, &line.answer),
        None => false,
    }
}

/// Whether a wait was over after so many polls.
fn is_over_after(polls: u32, answer: &LineAnswer) -> bool
    ensures { result ≡ is_over_after polls answer.now }
{
    match answer {
        LineAnswer::TimedOut(waited) => *waited == u64::from(polls),
        _ => false,
    }
}

fn is_apply(actor: Actor) -> bool
    ensures { result ≡ is_apply actor }
{
    matches!(actor, Actor::Apply)
}

/// Whether a try may have failed in the turn: a loss, a wait that was over, or a turn of the applier's.
fn may_fail_at(plan: &Plan, line: Option<&TraceLine>) -> bool
    ensures { result ≡ may_fail_at plan.now (option_map (λ line. line.now) line.entry) }
{
    match line {
        Some(line) => {
            is_loss(&line.answer)
                || is_cut(line.asked)
                || is_over_after(plan.options().tool_wait, &line.answer)
                || is_apply(line.actor)
        }
        None => false,
    }
}

/// Whether a try may have failed in each of these turns.
fn may_fail(plan: &Plan, lines: &[TraceLine], turns: &[u64]) -> bool
    ensures { result ≡ list_all (λ turn. may_fail_at plan.now (line_at lines.now turn)) turns.now }
{
    turns
        .iter()
        .all(|turn| may_fail_at(plan, line_at(lines, *turn)))
}

/// Whether the cause is one of these turns.
fn cause_holds(plan: &Plan, lines: &[TraceLine], cause: &Cause) -> bool
    ensures { result ≡ cause_holds plan.now lines.now cause.now }
{
    match cause {
        Cause::Unfit { turn, number, .. } => is_unfit_at(*number, line_at(lines, *turn)),
        Cause::Spent { turns, .. } => may_fail(plan, lines, turns.as_slice()),
        Cause::Panic { turn } => is_panic_at(plan, lines, *turn),
    }
}

/// Whether the verdict is one of these turns, in which the ALTER was done or wasn't.
pub fn verdict_holds(plan: &Plan, lines: &[TraceLine], has_altered: bool, verdict: &Verdict) -> bool
    ensures { has_altered ≡ altered_by lines.now → result ≡ verdict_holds plan.now lines.now verdict.now }
{
    match verdict {
        Verdict::Done => has_altered,
        Verdict::Reverted(cause) => !has_altered && cause_holds(plan, lines, cause),
        Verdict::Unfinished => true,
    }
}
