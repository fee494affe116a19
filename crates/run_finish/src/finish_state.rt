//! What is kept of a run that is finished, but its server.

ghost use Rattle.std.specs.Prelude.{◌≡◌, ◌≤◌, ◌<◌, ◌+◌, ◌-◌, [], ◌∷◌, ◌++◌, length, map, slice_get, Some, None, Ok, true, false, vec_len, vec_capacity, IfSome, IfOk, OnOk, OnErr};
ghost use Rattle.tool_finish.specs.Finishes.{is_over, stage_behind, finish_verdict};
ghost use Rattle.tool_finish.specs.Stages.{IsSeen};
ghost use Rattle.tool_program.specs.JournalWords.Sessions.{live_session};
ghost use Rattle.run_turns.specs.DueTurns.MigrationRun.ServerTurns.{MayTurn};
ghost use Rattle.base_values.specs.ToolNames.{log_name};
ghost use Rattle.tool_program.specs.JournalWords.Journals.{state_at};
ghost use Rattle.proof_journals.specs.Run.Counts.{IsAfter};
ghost use Rattle.run_finish.specs.Sessions.{sessions_at, session_after};
ghost use Rattle.tool_state.specs.Verdicts.{verdict_meant};
ghost use Rattle.run_finish.specs.Invariants.{run_of, turns_in, IsStageAt, IsFinishState, Reads, IsNext, TakesTurn, Advances, IsStill, IsAnswered};

use crate::sessions::{LiveSession, first_actor, keep_sessions, session_of};
use base_values::Names;
use plan_data::Plan;
use run_turns::due_turns::migration_run::{Counts, Taken, Turn, take_turn};
use server_api::Serve;
use server_model::{Entry, TurnAsked};
use std::alloc::{AllocError, Global};
use std::mem;
use tool_finish::{FinishView, Stage};
use tool_state::VerdictView;

/// The journal of a run and of the new tool behind it, with what is kept of it.
#[derive(Drop)]
pub struct FinishState<'a> {
    /// The plan, which the whole run borrows.
    pub plan: &'a Plan,
    /// The run's turns, and the new tool's.
    pub journal: Vec<Entry>,
    /// How many of them are the run's.
    pub run_turns: usize,
    /// The tables whose events the applier reads.
    pub names: Names,
    /// The live session of each actor, in the fixed order.
    pub sessions: Vec<LiveSession>,
    /// What is counted of the server.
    pub counts: Counts,
    /// How many sessions the server made at most.
    pub made: u32,
    /// How far the new tool is. What is read or copied of an answer takes memory, so the last answer is taken before the next turn.
    pub stage: Stage,
    /// Whether the last answer is still to be taken.
    pub is_answered: bool,
}

/// The last turn.
fn last_entry(journal: &[Entry]) -> &Entry
    requires { 1 ≤ length journal.now }
    ensures { slice_get journal.now (length journal.now - 1) ≡ Some result.now }
{
    &journal[journal.len() - 1]
}

impl FinishState<'_> {
    /// What the new tool looks at.
    fn view<'b, V: Serve>(&'b self, server: &'b V) -> FinishView<'b, V>
        requires names { self.now.names ≡ self.now.plan.now.table ∷ log_name self.now.plan.now.table ∷ [] }
        requires sessions { self.now.sessions.items ≡ sessions_at self.now.plan.now self.now.journal.items }
        ensures seen { IsSeen result.plan.now result.journal.now result.live result.names.now }
        ensures plan { result.plan.now ≡ self.now.plan.now }
        ensures journal { result.journal.now ≡ self.now.journal.items }
        ensures server { V.state result.server.now ≡ V.state server.now }
    {
        FinishView {
            plan: self.plan,
            journal: self.journal.as_slice(),
            live: first_actor(self.sessions.as_slice()),
            server,
            names: &self.names,
        }
    }

    /// Takes the last answer at a stage.
    fn take_last<V: Serve>(
        &self,
        alloc: Global,
        server: &V,
        stage: &mut Stage,
    ) -> Result<(), AllocError>
        requires names { self.now.names ≡ self.now.plan.now.table ∷ log_name self.now.plan.now.table ∷ [] }
        requires sessions { self.now.sessions.items ≡ sessions_at self.now.plan.now self.now.journal.items }
        requires following { IsAfter (state_at self.now.plan.now self.now.journal.items) (V.state server.now) }
        requires bound { self.now.run_turns ≤ length self.now.journal.items }
        requires answered { IsAnswered self.now.plan.now (run_of self.now) (turns_in self.now) stage.old }
        ensures ok { OnOk result (stage.new ≡ stage_behind self.now.plan.now (run_of self.now) (turns_in self.now)) }
        ensures err { OnErr result (stage.new ≡ stage.old) }
    {
        let entry = last_entry(self.journal.as_slice());
        let view = self.view(server);
        stage.took(alloc, &view, &entry.answer)
    }

    /// Takes the last answer, where that isn't done yet. Where there is no memory, all is as before.
    fn read_last<V: Serve>(&mut self, alloc: Global, server: &V) -> Result<(), AllocError>
        requires { IsFinishState self.old (V.state server.now) }
        ensures ok { OnOk result (Reads self.old self.new) }
        ensures err { OnErr result (self.new ≡ self.old) }
    {
        if !self.is_answered {
            return Ok(());
        }
        let mut stage = mem::replace(&mut self.stage, Stage::Done);
        let taken = self.take_last(alloc, server, &mut stage);
        self.stage = stage;
        taken?;
        self.is_answered = false;
        Ok(())
    }

    /// Whether the new tool is over.
    pub fn ended(&self) -> bool
        requires { IsStageAt self.now.plan.now (run_of self.now) (turns_in self.now) self.now.is_answered self.now.stage }
        ensures { result ≡ is_over (stage_behind self.now.plan.now (run_of self.now) (turns_in self.now)) }
    {
        if self.is_answered {
            self.stage.ends()
        } else {
            self.stage.is_over()
        }
    }

    /// How the new tool ended, and why; unfinished until it is over.
    pub fn verdict(&self) -> VerdictView<'_>
        requires bound { self.now.run_turns ≤ length self.now.journal.items }
        requires stage { IsStageAt self.now.plan.now (run_of self.now) (turns_in self.now) self.now.is_answered self.now.stage }
        ensures { verdict_meant result ≡ finish_verdict self.now.plan.now (run_of self.now) (turns_in self.now) }
    {
        let journal = self.journal.as_slice();
        if self.is_answered {
            self.stage.verdict_behind(self.plan, journal)
        } else {
            self.stage.verdict(self.plan, journal)
        }
    }

    /// The turn that comes next; none where the new tool is over.
    fn next_turn<V: Serve>(&self, alloc: Global, server: &V) -> Result<Option<Turn>, AllocError>
        requires state { IsFinishState self.now (V.state server.now) }
        requires taken { self.now.is_answered ≡ false }
        ensures turn { IfOk result (λ next. IfSome next (λ turn. IsNext self.now turn)) }
        ensures none { result ≡ Ok None → is_over self.now.stage ≡ true }
    {
        match self.stage.next(alloc, &self.view(server))? {
            Some((actor, asked)) => Ok(Some(Turn {
                actor,
                side: None,
                asked: TurnAsked::all(asked),
            })),
            None => Ok(None),
        }
    }

    /// Makes the room for one entry more, and counts the session that it may open. There is none where the server gave its last
    /// number.
    fn make_room(&mut self, session: Option<u32>) -> Result<(), AllocError>
        ensures items { self.new.journal.items ≡ self.old.journal.items }
        ensures same { self.new ≡ record self.old { journal = self.new.journal; made = self.new.made } }
        ensures room { OnOk result (vec_len self.new.journal < vec_capacity self.new.journal) }
        ensures made { self.old.made ≤ self.new.made }
        ensures opens { OnOk result (session ≡ None → self.new.made ≡ self.old.made + 1) }
        ensures most { self.new.made ≤ u32.MAX }
    {
        let made = self.made;
        self.journal.reserve(1)?;
        if session.is_none() {
            if made == u32::MAX {
                return Err(AllocError);
            }
            self.made = made + 1;
        }
        Ok(())
    }

    /// Writes a turn into the journal.
    fn keep(&mut self, taken: Taken)
        requires { vec_len self.old.journal < vec_capacity self.old.journal }
        ensures journal { self.new.journal.items ≡ self.old.journal.items ++ taken.entry ∷ [] }
        ensures sessions { self.new.sessions.items ≡ map (session_after taken.entry) self.old.sessions.items }
        ensures same { self.new ≡ record self.old { journal = self.new.journal; sessions = self.new.sessions; counts = taken.counts; is_answered = true } }
    {
        keep_sessions(&mut self.sessions, &taken.entry);
        self.counts = taken.counts;
        self.is_answered = true;
        self.journal.push_reserved(taken.entry);
    }

    /// Takes the turn on the server. Where there is no memory, all is as before, but for a session that was made and is lost
    /// again.
    fn take<V: Serve>(&mut self, server: &mut V, turn: Turn) -> Result<(), AllocError>
        requires state { IsFinishState self.old (V.state server.old) }
        requires taken { self.old.is_answered ≡ false }
        requires next { IsNext self.old turn }
        ensures state { IsFinishState self.new (V.state server.new) }
        ensures ok { OnOk result (TakesTurn self.old (V.state server.old) turn self.new (V.state server.new)) }
        ensures err { OnErr result (IsStill self.old (V.state server.old) self.new (V.state server.new)) }
    {
        let session = session_of(self.sessions.as_slice(), turn.actor);
        self.make_room(session)?;
        let taken = take_turn(server, session, self.counts, turn)?;
        self.keep(taken);
        Ok(())
    }

    /// Takes the turn that comes next; `false` where there is none, since the new tool is over. Where there is no memory, all is as
    /// before, but for a session that was made and is lost again.
    pub fn advance<V: Serve>(&mut self, alloc: Global, server: &mut V) -> Result<bool, AllocError>
        requires { IsFinishState self.old (V.state server.old) }
        ensures state { IsFinishState self.new (V.state server.new) }
        ensures took { result ≡ Ok true → Advances self.old (V.state server.old) self.new (V.state server.new) }
        ensures over { result ≡ Ok false → is_over (stage_behind self.old.plan.now (run_of self.old) (turns_in self.old)) ≡ true }
        ensures err { OnErr result (IsStill self.old (V.state server.old) self.new (V.state server.new)) }
    {
        self.read_last(alloc, server)?;
        match self.next_turn(alloc, server)? {
            Some(turn) => {
                self.take(server, turn)?;
                Ok(true)
            }
            None => Ok(false),
        }
    }
}
