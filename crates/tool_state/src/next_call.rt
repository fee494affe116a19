//! What an actor of the tool asks next: a small value, found without memory, of which the request is made.

ghost use Rattle.std.specs.Prelude.{◌≡◌, Some, false, List, IfOk, OnErr};
ghost use Rattle.plan_data.specs.PlanData.{PlanData};
ghost use Rattle.server_model.specs.declared.entry.Entry.{Entry};
ghost use Rattle.server_model.specs.LostCalls.{lost_in};
ghost use Rattle.tool_program.specs.FreeCalls.{is_freely_asked};
ghost use Rattle.tool_state.specs.Feeds.{feed_call};
ghost use Rattle.tool_state.specs.NextCalls.{asked_in};
ghost use Rattle.tool_state.specs.ToolState.Meanings.{work_of};

use crate::feed_call::FeedCall;
use crate::note_calls::{note, note_lost};
use crate::tool_state::Work;
use base_script::Actor;
use plan_data::Plan;
use server_model::{Asked, Entry, LostCall, Request};
use std::alloc::{AllocError, Global};
use tool_program::chunk_copier::CopyCall;
use tool_program::cutover_core::CutOverCall;
use tool_program::note_writer::NoteRow;
use tool_program::tool_setup::Setup;

/// What an actor of the tool but the operator asks next.
#[derive(Clone, Copy)]
pub enum NextCall<'a> {
    /// Its request waits: it polls.
    Poll,
    /// In a revert its transaction is rolled back.
    Rollback,
    /// A call of the setup.
    Setup(Setup),
    /// A row of a note is written.
    Note(NoteRow),
    /// A call of the copier.
    Copy(CopyCall<'a>),
    /// The applier's call.
    Apply,
    /// A call of the cut-over.
    CutOver(CutOverCall),
}

impl NextCall<'_> {
    /// What is asked. A poll, COMMIT, ROLLBACK and UNLOCK TABLES take no memory.
    pub fn asked(
        self,
        alloc: Global,
        plan: &Plan,
        journal: &[Entry],
        work: &Work,
    ) -> Result<Asked, AllocError>
        ensures asked { IfOk result (λ asked. asked ≡ asked_in plan.now journal.now (work_of work.now) self.entry) }
        ensures costs { OnErr result (is_freely_asked (Some (asked_in plan.now journal.now (work_of work.now) self.entry)) ≡ false) }
    {
        Ok(match self {
            NextCall::Poll => Asked::Poll,
            NextCall::Rollback => Asked::Call(Request::Rollback),
            NextCall::Setup(setup) => Asked::Call(setup.request(alloc, plan)?),
            NextCall::Note(row) => Asked::Call(note(alloc, plan, journal, work, row)?),
            NextCall::Copy(call) => Asked::Call(work.copier.request(alloc, journal, call)?),
            NextCall::Apply => Asked::Call(work.applier.next(alloc, journal)?),
            NextCall::CutOver(call) => Asked::Call(work.cutover.request(alloc, call)?),
        })
    }

    /// What a journal keeps of what is asked, where that is lost before it is done; none where it keeps all. It takes no memory.
    #[tactic(auto, using(crate::proofs::LostCalls::lost_setup))]
    pub fn lost(self, journal: &[Entry], work: &Work) -> Option<LostCall>
        ensures { (plan : PlanData) → result ≡ lost_in (asked_in plan journal.now (work_of work.now) self.entry) }
    {
        match self {
            NextCall::Poll | NextCall::Rollback => None,
            NextCall::Setup(_) => Some(LostCall::Other),
            NextCall::Note(row) => Some(note_lost(journal, work, row)),
            NextCall::Copy(call) => call.lost(),
            NextCall::Apply => work.applier.lost(journal),
            NextCall::CutOver(call) => call.lost(),
        }
    }

    /// What it is for a replica that lags, where this actor asks it.
    #[tactic(auto, using(crate::proofs::FeedFacts::reads_log, crate::proofs::FeedFacts::applies, crate::proofs::FeedFacts::setup_reads, crate::proofs::FeedFacts::copier_reads, crate::proofs::FeedFacts::cutover_reads, crate::proofs::FeedFacts::setup_begins, crate::proofs::FeedFacts::applier_begins, crate::proofs::FeedFacts::cutover_begins, crate::proofs::FeedFacts::applier_makes, crate::proofs::FeedFacts::copier_makes))]
    pub fn feed_call(self, actor: Actor, work: &Work) -> FeedCall
        ensures { (plan : PlanData) (journal : List Entry) → result ≡ feed_call actor (asked_in plan journal (work_of work.now) self.entry) }
    {
        let applier = &work.applier;
        match (actor, self) {
            (Actor::Apply, NextCall::Apply) if applier.starts() => FeedCall::Read {
                position: applier.position,
                limit: applier.batch,
            },
            (Actor::Copy, NextCall::Copy(CopyCall::End(_)))
            | (Actor::Lock, NextCall::CutOver(CutOverCall::MakeSentry))
            | (Actor::Lock, NextCall::Setup(Setup::MakingLog | Setup::MakingGhost)) => {
                FeedCall::Start
            }
            _ => FeedCall::Free,
        }
    }
}
