//! A turn's own line.

ghost use Rattle.std.specs.Prelude.{◌≡◌, ◌+◌, length, map};
ghost use Rattle.server_model.specs.Entries.{is_client};
ghost use Rattle.plan_orders.specs.Actors.{actor_among};
ghost use Rattle.top_trace_reader.specs.Turns.{asked_in, fits, fits_actor, fits_side, is_number, turn_in, turn_of, turn_read, was_missed};

use crate::answers::{AnswerRead, answer_in};
use base_script::{Actor, Side};
use plan_orders::{actor_of, is_among};
use run_audit::{LineAnswer, LineAsked, TraceLine};
use std::alloc::Global;
use top_words::number_of;

/// A turn's own line.
#[derive(Drop)]
pub struct TurnRead {
    /// What it says.
    pub line: TraceLine,
    /// How many lines of rows follow.
    pub rows: u64,
}

/// What was asked, and on which side of the call the session was lost.
#[tactic(auto, unfolding(crate::specs::Turns::asked_in))]
fn asked_in(word: &str) -> Option<(LineAsked, Option<Side>)>
    ensures { result ≡ asked_in word.now }
{
    if word == "call" {
        Some((LineAsked::Call, None))
    } else if word == "call-before" {
        Some((LineAsked::Call, Some(Side::Before)))
    } else if word == "call-after" {
        Some((LineAsked::Call, Some(Side::After)))
    } else if word == "rename" {
        Some((LineAsked::Rename, None))
    } else if word == "rename-before" {
        Some((LineAsked::Rename, Some(Side::Before)))
    } else if word == "rename-after" {
        Some((LineAsked::Rename, Some(Side::After)))
    } else if word == "poll" {
        Some((LineAsked::Poll, None))
    } else if word == "poll-before" {
        Some((LineAsked::Poll, Some(Side::Before)))
    } else if word == "poll-after" {
        Some((LineAsked::Poll, Some(Side::After)))
    } else if word == "cut" {
        Some((LineAsked::Cut, None))
    } else if word == "word" {
        Some((LineAsked::Word, None))
    } else {
        None
    }
}

/// The actor of a plan with `clients` clients whose word this is.
fn actor_among(clients: u32, word: &str) -> Option<Actor>
    ensures { result ≡ actor_among clients word.now }
{
    let actor = actor_of(word.as_bytes())?;
    if is_among(clients, actor) {
        Some(actor)
    } else {
        None
    }
}

/// Whether it is an answer that nobody heard, since the session was lost after the call.
fn was_missed(answer: &LineAnswer) -> bool
    ensures { result ≡ was_missed answer.now }
{
    match answer {
        LineAnswer::LostDone | LineAnswer::LostWaited | LineAnswer::LostRefused => true,
        _ => false,
    }
}

fn fits_side(side: Option<Side>, answer: &LineAnswer) -> bool
    ensures { result ≡ fits_side side answer.now }
{
    match side {
        None | Some(Side::Before) => !was_missed(answer),
        Some(Side::After) => was_missed(answer),
    }
}

fn is_client(actor: Actor) -> bool
    ensures { result ≡ is_client actor }
{
    matches!(actor, Actor::Client(_))
}

fn fits_actor(actor: Actor, answer: &LineAnswer) -> bool
    ensures { result ≡ fits_actor actor answer.now }
{
    match answer {
        LineAnswer::Rows(_) => is_client(actor),
        _ => true,
    }
}

/// Whether this actor may have got the answer, where its session was lost on this side.
fn fits(actor: Actor, side: Option<Side>, answer: &LineAnswer) -> bool
    ensures { result ≡ fits actor side answer.now }
{
    fits_side(side, answer) && fits_actor(actor, answer)
}

fn turn_read(actor: Actor, asked: (LineAsked, Option<Side>), read: AnswerRead) -> TurnRead
    ensures { result ≡ turn_read actor asked read }
{
    let line = TraceLine {
        actor,
        asked: asked.0,
        side: asked.1,
        answer: read.answer,
        drawn: read.drawn,
    };
    TurnRead {
        line,
        rows: read.rows,
    }
}

#[tactic(auto, unfolding(crate::specs::Turns::turn_of))]
fn turn_of(
    alloc: Global,
    clients: u32,
    actor: &str,
    asked: &str,
    answer: &[&str],
) -> Option<TurnRead>
    ensures { result ≡ turn_of clients actor.now asked.now (map (λ word. word.now) answer.now) }
{
    let actor = actor_among(clients, actor)?;
    let asked = asked_in(asked)?;
    let read = answer_in(alloc, answer)?;
    if fits(actor, asked.1, &read.answer) {
        Some(turn_read(actor, asked, read))
    } else {
        None
    }
}

/// Whether the number is that of the turn after so many.
fn is_next(before: usize, number: Option<u64>) -> bool
    ensures { result ≡ is_number (before + 1) number }
{
    match number {
        Some(number) => number > 0 && number - 1 == before as u64,
        None => false,
    }
}

/// What words say, where they are the turn after so many in a run of a plan with `clients` clients.
#[tactic(auto, unfolding(crate::specs::Turns::turn_in))]
pub(crate) fn turn_in(
    alloc: Global,
    clients: u32,
    before: usize,
    words: &[&str],
) -> Option<TurnRead>
    ensures { result ≡ turn_in clients (before + 1) (map (λ word. word.now) words.now) }
{
    match words {
        [] => None,
        [_] => None,
        [_, _] => None,
        [number, actor, asked, answer @ ..] => {
            if is_next(before, number_of(number)) {
                turn_of(alloc, clients, actor, asked, answer)
            } else {
                None
            }
        }
    }
}
