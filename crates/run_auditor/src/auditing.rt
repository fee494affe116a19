//! An audit, turn by turn.

ghost use Rattle.std.specs.Prelude.{◌≡◌, ◌∷◌, ◌++◌, [], true, false, not, ◌&&◌, if◌then◌else◌, length, List, Some, None, IfOk, OnOk};
ghost use Rattle.std.specs.List.{AllByRecursion};
ghost use Rattle.base_script.specs.declared.actor.Actor.TheVariants.{Client};
ghost use Rattle.server_model.specs.Entries.{is_client};
ghost use Rattle.server_model.specs.LockedRows.Coverage.{IsWellFormedTable};
ghost use Rattle.run_audit.specs.declared.line.TraceLine.{TraceLine as Line};
ghost use Rattle.run_audit.specs.Audits.{bad_turns, is_unfinished, least, least_with, misdraws, unended};
ghost use Rattle.run_audit.specs.Rules.{alters_in, breaks, has_altered, is_astray, keeps_script};
ghost use Rattle.run_auditor.specs.Auditing.{HasJudged, IsAuditing, IsReady, is_noted, is_unended, noted_turns};
ghost use Rattle.run_auditor.specs.Judging.{AltersTables};
ghost use Rattle.run_judge.specs.Leasts.{lesser};
ghost use Rattle.run_judge.specs.TurnsSeen.{IsSeen};
ghost use Rattle.run_auditor.specs.AllClients.{is_of_plan};

use crate::judge::Judge;
use crate::opening::opening_tables;
use crate::trace_clients::{all_are_over, follow, is_astray, may_draw, new_clients, was_lost};
use base_script::Actor;
use plan_data::Plan;
use run_audit::{Trace, TraceLine};
use run_judge::least::{least_with, lesser};
use run_judge::trace_client::TraceClient;
use run_judge::turns_seen::TurnsSeen;
use server_model::Verdict;
use std::alloc::{AllocError, Global};

/// An audit after some turns.
#[derive(Drop)]
pub struct Auditing {
    /// What is kept of the turns so far.
    pub seen: TurnsSeen,
    /// What is kept of the clients.
    pub clients: Vec<TraceClient>,
    /// The least turn that breaks a rule of turns, or has a number that no statement drew.
    pub noted: Option<u64>,
    /// The judge of what ended.
    pub judge: Judge,
}

fn is_unfinished(verdict: &Verdict) -> bool
    ensures { result ≡ is_unfinished verdict.now }
{
    matches!(verdict, Verdict::Unfinished)
}

/// The least of these turns, and of this one where it is noted.
fn least_noted(is_noted: bool, turn: u64, least: Option<u64>) -> Option<u64>
    ensures { result ≡ (if is_noted then least_with turn least else least) }
{
    if is_noted {
        least_with(turn, least)
    } else {
        least
    }
}

fn turn_if(is_there: bool, turn: u64) -> Option<u64>
    ensures { result ≡ (if is_there then Some turn else None) }
{
    if is_there { Some(turn) } else { None }
}

impl Auditing {
    /// Before the first turn.
    pub fn new(alloc: Global, plan: &Plan) -> Result<Auditing, AllocError>
        requires { AllByRecursion IsWellFormedTable plan.now.tables }
        ensures auditing { IfOk result (λ auditing. IsAuditing plan.now [] auditing) }
        ensures noted { IfOk result (λ auditing. auditing.noted ≡ None) }
    {
        let tables = opening_tables(alloc, plan)?;
        let judge = Judge::new(alloc, tables);
        let clients = new_clients(alloc, plan)?;
        let seen = TurnsSeen::new(alloc);
        Ok(Auditing {
            seen,
            clients,
            noted: None,
            judge,
        })
    }

    /// Whether the next turn is astray.
    fn is_astray(&self, plan: &Plan, line: &TraceLine) -> bool
        requires { IsReady plan.now line.now self.now }
        ensures { (before : List Line) → IsAuditing plan.now before self.now → result ≡ is_astray plan.now before line.now.asked line.now.actor }
    {
        is_astray(plan, &self.clients, line)
    }

    /// Whether the next turn keeps to its client's script.
    fn keeps_script(&self, plan: &Plan, line: &TraceLine) -> bool
        requires { IsReady plan.now line.now self.now }
        ensures { (before : List Line) → IsAuditing plan.now before self.now → result ≡ keeps_script plan.now before line.now }
    {
        !(was_lost(plan, &self.clients, line.actor) || self.is_astray(plan, line))
    }

    /// Whether the next turn breaks a rule of turns.
    fn breaks(&self, plan: &Plan, line: &TraceLine) -> bool
        requires { IsReady plan.now line.now self.now }
        ensures { (before : List Line) → IsAuditing plan.now before self.now → result ≡ breaks plan.now before line.now }
    {
        !self.keeps_script(plan, line)
            || (self.seen.is_within(plan) && !self.seen.keeps_losses(plan, line))
            || (self.seen.alters(line) && self.seen.has_altered)
    }

    /// Whether the next turn has a number that no statement drew.
    fn misdraws(&self, alloc: Global, plan: &Plan, line: &TraceLine) -> Result<bool, AllocError>
        requires { IsReady plan.now line.now self.now }
        ensures { (before : List Line) → IsAuditing plan.now before self.now → IfOk result (λ wrong. wrong ≡ misdraws plan.now before line.now) }
    {
        match line.drawn {
            Some(_) => {
                let tables = self.judge.tables();
                Ok(!may_draw(alloc, plan, &self.clients, tables, line.actor)?)
            }
            None => Ok(false),
        }
    }

    /// Whether the next turn breaks a rule of turns, or has a number that no statement drew.
    fn is_noted(&self, alloc: Global, plan: &Plan, line: &TraceLine) -> Result<bool, AllocError>
        requires { IsReady plan.now line.now self.now }
        ensures { (before : List Line) → IsAuditing plan.now before self.now → IfOk result (λ noted. noted ≡ is_noted plan.now before line.now) }
    {
        let misdraws = self.misdraws(alloc, plan, line)?;
        Ok(self.breaks(plan, line) || misdraws)
    }

    /// Notes the next turn where it breaks a rule of turns, or has a number that no statement drew.
    fn note(&mut self, alloc: Global, plan: &Plan, line: &TraceLine) -> Result<(), AllocError>
        requires { IsReady plan.now line.now self.old }
        ensures noted { (before : List Line) → IsAuditing plan.now before self.old → self.old.noted ≡ least (noted_turns plan.now before) → OnOk result (self.new.noted ≡ least (noted_turns plan.now (before ++ line.now ∷ []))) }
        ensures rest { self.new ≡ record self.old { noted = self.new.noted } }
    {
        let is_noted = self.is_noted(alloc, plan, line)?;
        self.noted = least_noted(is_noted, self.seen.next_turn(), self.noted);
        Ok(())
    }

    /// Judges what ended with the next turn, which is a client's.
    fn judge_client(
        &mut self,
        alloc: Global,
        plan: &Plan,
        number: u32,
        line: &TraceLine,
    ) -> Result<(), AllocError>
        requires ready { IsReady plan.now line.now self.old }
        requires actor { line.now.actor ≡ Client number }
        ensures judged { (before : List Line) → IsAuditing plan.now before self.old → is_astray plan.now before line.now.asked line.now.actor ≡ false → OnOk result (HasJudged plan.now before line.now self.new) }
        ensures seen { self.new.seen ≡ self.old.seen }
        ensures noted { self.new.noted ≡ self.old.noted }
    {
        let turn = self.seen.next_turn();
        match follow(alloc, plan, &mut self.clients, number, turn, line)? {
            Some(txn) => {
                self.judge.end(alloc, &txn)?;
                Ok(())
            }
            None => Ok(()),
        }
    }

    /// Whether the next turn is the first that does the ALTER.
    fn alters_first(&self, line: &TraceLine) -> bool
        ensures alters { (before : List Line) → IsSeen before self.now.seen → result ≡ (alters_in before line.now && not (has_altered before)) }
        ensures first { result ≡ true → self.now.seen.has_altered ≡ false }
    {
        self.seen.alters(line) && !self.seen.has_altered
    }

    /// Judges the ALTER, where the next turn, which isn't a client's, is the first that does it.
    fn judge_tool(&mut self, alloc: Global, plan: &Plan, line: &TraceLine) -> Result<(), AllocError>
        requires ready { IsReady plan.now line.now self.old }
        requires tool { is_client line.now.actor ≡ false }
        ensures judged { (before : List Line) → IsAuditing plan.now before self.old → OnOk result (HasJudged plan.now before line.now self.new) }
        ensures seen { self.new.seen ≡ self.old.seen }
        ensures noted { self.new.noted ≡ self.old.noted }
    {
        if !self.alters_first(line) {
            return Ok(());
        }
        let turn = self.seen.next_turn();
        self.judge.alter(alloc, plan, turn)?;
        Ok(())
    }

    /// Judges what ended with the next turn.
    fn judge_turn(&mut self, alloc: Global, plan: &Plan, line: &TraceLine) -> Result<(), AllocError>
        requires { IsReady plan.now line.now self.old }
        ensures judged { (before : List Line) → IsAuditing plan.now before self.old → is_astray plan.now before line.now.asked line.now.actor ≡ false → OnOk result (HasJudged plan.now before line.now self.new) }
        ensures seen { self.new.seen ≡ self.old.seen }
        ensures noted { self.new.noted ≡ self.old.noted }
    {
        match line.actor {
            Actor::Client(number) => self.judge_client(alloc, plan, number, line),
            Actor::Op | Actor::Insp | Actor::Copy | Actor::Apply | Actor::Lock | Actor::Ren =>
                self.judge_tool(alloc, plan, line),
        }
    }

    /// After the next turn, which isn't astray.
    #[tactic(auto, using(crate::proofs::AuditedTurns::taken))]
    fn take(&mut self, alloc: Global, plan: &Plan, line: &TraceLine) -> Result<(), AllocError>
        requires { IsReady plan.now line.now self.old }
        ensures auditing { (before : List Line) → IsAuditing plan.now before self.old → is_astray plan.now before line.now.asked line.now.actor ≡ false → OnOk result (IsAuditing plan.now (before ++ line.now ∷ []) self.new) }
        ensures noted { self.new.noted ≡ self.old.noted }
    {
        self.judge_turn(alloc, plan, line)?;
        self.seen.take(line)
    }

    /// The least turn that is wrong so far.
    fn worst(&self) -> Option<u64>
        ensures { result ≡ lesser self.now.noted self.now.judge.worst }
    {
        lesser(self.noted, self.judge.worst)
    }

    /// Whether the run ended, within the turns that the plan allows, and left a script that wasn't gone through.
    fn is_unended(&self, plan: &Plan, trace: &Trace) -> bool
        requires { length self.now.clients.items ≡ length plan.now.clients }
        ensures { IsAuditing plan.now trace.now.lines self.now → result ≡ is_unended plan.now trace.now }
    {
        let is_past = u64::from(plan.options().turn_limit) < trace.lines.len() as u64;
        !is_unfinished(&trace.verdict) && !is_past && !all_are_over(plan, &self.clients)
    }

    /// The turn after the last, where the run ended and left a script that wasn't gone through.
    fn unended(&self, plan: &Plan, trace: &Trace) -> Option<u64>
        requires { length self.now.clients.items ≡ length plan.now.clients }
        ensures { IsAuditing plan.now trace.now.lines self.now → result ≡ least (unended plan.now trace.now) }
    {
        let turns = trace.lines.as_slice().len() as u64;
        let is_unended = self.is_unended(plan, trace);
        turn_if(is_unended, turns + 1)
    }

    /// The least turn that breaks a rule, with all that the turns ended judged. Nothing is judged from the first turn on in which a
    /// client asks something else than its script has next.
    pub fn least_bad_turn(
        &mut self,
        alloc: Global,
        plan: &Plan,
        trace: &Trace,
    ) -> Result<Option<u64>, AllocError>
        requires known { AllByRecursion (λ line. is_of_plan plan.now line.actor ≡ true) trace.now.lines }
        requires alters { AltersTables plan.now }
        requires auditing { IsAuditing plan.now [] self.old }
        requires noted { self.old.noted ≡ None }
        ensures turn { IfOk result (λ turn. turn ≡ least (bad_turns plan.now trace.now)) }
        ensures auditing { IfOk result (λ turn. turn ≡ None → IsAuditing plan.now trace.now.lines self.new) }
    {
        for line in trace.lines.as_slice() {
            self.note(alloc, plan, line)?;
            if self.is_astray(plan, line) {
                let worst = self.worst();
                return Ok(worst);
            }
            self.take(alloc, plan, line)?;
        }
        let straight = self.worst();
        let unended = self.unended(plan, trace);
        Ok(lesser(straight, unended))
    }
}
