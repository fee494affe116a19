//! What one turn asks of the server.

ghost use Rattle.std.specs.Prelude.{◌≡◌, true, false, None, IfOk, OnOk, OnErr};
ghost use Rattle.server_model.specs.declared.answer.Answer.TheVariants.{Lost};
ghost use Rattle.server_model.specs.PlainServer.{loses, serves, state_left, number_drawn, given_at};
ghost use Rattle.server_model.specs.States.{is_live};
ghost use Rattle.tool_program.specs.JournalWords.Journals.{heard, missed};
ghost use Rattle.run_turns.specs.DueTurns.MigrationRun.FreeTurns.{is_free_in};
ghost use Rattle.run_turns.specs.DueTurns.MigrationRun.Requests.{MayAsk};

use base_script::Side;
use server_api::Serve;
use server_model::{Answer, Asked, AskedView, TurnAsked};
use std::alloc::AllocError;

/// What an actor hears of the server's answer, and what it misses.
#[derive(Drop)]
pub struct Heard {
    /// The answer; `Lost` where the session was lost.
    pub answer: Answer,
    /// The answer that nobody heard, where the session was lost after it.
    pub missed: Option<Answer>,
    /// The number that the statement drew, also where nobody hears the answer.
    pub draw: Option<u64>,
}

/// The actor hears the answer.
fn reported(answer: Answer, draw: Option<u64>) -> Heard
    ensures answer { result.answer ≡ answer }
    ensures missed { result.missed ≡ None }
    ensures draw { result.draw ≡ draw }
{
    Heard {
        answer,
        missed: None,
        draw,
    }
}

/// The session is lost, and nobody hears the answer.
fn lost(side: Option<Side>, inner: Option<Answer>, draw: Option<u64>) -> Heard
    ensures answer { result.answer ≡ Lost }
    ensures missed { result.missed ≡ missed side inner }
    ensures draw { result.draw ≡ draw }
{
    Heard {
        answer: Answer::Lost,
        missed: match side {
            Some(Side::After) => inner,
            _ => None,
        },
        draw,
    }
}

/// The session is lost, and nothing was done in it.
pub(crate) fn lost_at_once() -> Heard
    ensures answer { result.answer ≡ Lost }
    ensures missed { result.missed ≡ None }
    ensures draw { result.draw ≡ None }
{
    Heard {
        answer: Answer::Lost,
        missed: None,
        draw: None,
    }
}

/// Loses the session before what it asks is done, or between calls: to the server the two are one. It takes no memory.
#[tactic(auto, using(crate::proofs::DueTurns::MigrationRun::Connecting::may_lose, crate::proofs::DueTurns::MigrationRun::Connecting::cut_left))]
fn lose_at_once<V: Serve>(server: &mut V, session: u32) -> Heard
    requires { is_live (V.state server.old) session ≡ true }
    ensures answer { result.answer ≡ Lost }
    ensures missed { result.missed ≡ None }
    ensures draw { result.draw ≡ None }
    ensures state { V.state server.new ≡ loses session (V.state server.old) }
{
    match server.lose(session, None, &Asked::Cut) {
        Ok(_) => lost_at_once(),
        Err(_) => unreachable!(),
    }
}

/// Asks in the session, which may be lost in the turn. Where there is no memory, the server is as before.
#[tactic(auto, using(crate::proofs::DueTurns::MigrationRun::Costs::unless_free, crate::proofs::DueTurns::MigrationRun::Costs::lost_costs, crate::proofs::DueTurns::MigrationRun::Connecting::lost_live, crate::proofs::DueTurns::MigrationRun::Connecting::cut_left, crate::proofs::DueTurns::MigrationRun::Connecting::commanded_left, crate::proofs::DueTurns::MigrationRun::Connecting::lost_left, crate::proofs::DueTurns::MigrationRun::Connecting::given_before, crate::proofs::DueTurns::MigrationRun::Connecting::drawn_before))]
pub fn ask<V: Serve>(
    server: &mut V,
    session: u32,
    side: Option<Side>,
    asked: &TurnAsked,
) -> Result<Heard, AllocError>
    requires { MayAsk (V.state server.old) session side asked.now }
    ensures answer { IfOk result (λ reported. reported.answer ≡ heard side (given_at side asked.now (serves (V.state server.old) session asked.now).answer)) }
    ensures missed { IfOk result (λ reported. reported.missed ≡ missed side (given_at side asked.now (serves (V.state server.old) session asked.now).answer)) }
    ensures draw { IfOk result (λ reported. reported.draw ≡ number_drawn side (V.state server.old) session asked.now) }
    ensures ok { OnOk result (V.state server.new ≡ state_left side (V.state server.old) session asked.now) }
    ensures err { OnErr result (V.state server.new ≡ V.state server.old) }
    ensures costs { OnErr result (is_free_in (V.state server.old) session side asked.now ≡ false) }
{
    match (side, asked.view()) {
        (None, AskedView::All(Asked::Call(request))) => {
            let answer = server.call(session, request)?;
            Ok(reported(answer, server.last_drawn()))
        }
        (None, AskedView::All(Asked::Poll)) => {
            let answer = server.poll(session)?;
            Ok(reported(answer, server.last_drawn()))
        }
        (None, AskedView::All(Asked::Command(_))) => Ok(reported(Answer::Ok(0), None)),
        (Some(Side::Before), _) => Ok(lose_at_once(server, session)),
        (None, AskedView::All(Asked::Cut)) => Ok(lose_at_once(server, session)),
        (Some(Side::After), AskedView::All(asked)) => {
            let inner = server.lose(session, side, asked)?;
            Ok(lost(side, inner, server.last_drawn()))
        }
        // This never comes: all is kept of what the server has to know, and no contract can say so.
        (None | Some(Side::After), AskedView::Lost(..)) => Err(AllocError),
    }
}
