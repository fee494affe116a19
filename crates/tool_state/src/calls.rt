//! Which call of the tool comes next. Nothing here takes memory.

ghost use Rattle.std.specs.Prelude.{◌≡◌, option_map};
ghost use Rattle.tool_program.specs.CutoverCore.Attempts.{next};
ghost use Rattle.tool_program.specs.JournalWords.Sessions.{live_session};
ghost use Rattle.tool_program.specs.NoteWriter.Notes.{notes_of};
ghost use Rattle.tool_program.specs.Programs.{rolls_back, copy_call, apply_call, lock_call, inspect_call, tool_call, calls, tool_asks};
ghost use Rattle.tool_state.specs.NextCalls.{asked_in};
ghost use Rattle.tool_state.specs.ToolState.Meanings.{work_of, tool_phase_of, tool_of};
ghost use Rattle.tool_state.specs.Seen.{IsSeen};

use crate::next_call::NextCall;
use crate::tool_view::ToolView;
use base_script::Actor;
use server_api::Serve;
use tool_program::cutover_core::Role;

impl<'a, V: Serve> ToolView<'a, V> {
    /// The ROLLBACK of a transaction that is open.
    fn rolls_back(&self, session: Option<u32>) -> Option<NextCall<'a>>
        ensures { option_map (asked_in self.now.plan.now self.now.journal.now (work_of self.now.tool.now.work)) result ≡ calls (rolls_back (V.state self.now.server.now) session) }
    {
        if self.in_transaction(session) {
            Some(NextCall::Rollback)
        } else {
            None
        }
    }

    #[tactic(auto, using(crate::proofs::CallFacts::copies))]
    fn copy_call(&self) -> Option<NextCall<'a>>
        requires { IsSeen (V.state self.now.server.now) self.now.tool.now self.now.names.now self.now.load }
        ensures { option_map (asked_in self.now.plan.now self.now.journal.now (work_of self.now.tool.now.work)) result ≡ calls (copy_call self.now.plan.now (V.state self.now.server.now) self.now.journal.now (tool_of self.now.tool.now) (work_of self.now.tool.now.work)) }
    {
        let copier = &self.tool.work.copier;
        if copier.starts() && self.is_throttled() {
            return None;
        }
        copier.next_call(self.journal).map(NextCall::Copy)
    }

    fn apply_call(&self) -> Option<NextCall<'a>>
        requires { IsSeen (V.state self.now.server.now) self.now.tool.now self.now.names.now self.now.load }
        ensures { option_map (asked_in self.now.plan.now self.now.journal.now (work_of self.now.tool.now.work)) result ≡ calls (apply_call self.now.plan.now (V.state self.now.server.now) self.now.journal.now (tool_of self.now.tool.now) (work_of self.now.tool.now.work)) }
    {
        let work = &self.tool.work;
        if work.cutover.phase.is_done() {
            return None;
        }
        if work.applier.starts() && !self.may_read() {
            return None;
        }
        Some(NextCall::Apply)
    }

    /// A call of the cut-over.
    #[tactic(auto, using(crate::proofs::CallFacts::cuts_over))]
    fn cutover_call(&self, role: Role) -> Option<NextCall<'a>>
        ensures { option_map (asked_in self.now.plan.now self.now.journal.now (work_of self.now.tool.now.work)) result ≡ calls (next role self.now.tool.now.work.cutover) }
    {
        match self.tool.work.cutover.next_call(role) {
            Some(call) => Some(NextCall::CutOver(call)),
            None => None,
        }
    }

    fn lock_call(&self) -> Option<NextCall<'a>>
        requires { IsSeen (V.state self.now.server.now) self.now.tool.now self.now.names.now self.now.load }
        ensures { option_map (asked_in self.now.plan.now self.now.journal.now (work_of self.now.tool.now.work)) result ≡ calls (lock_call self.now.plan.now (V.state self.now.server.now) (tool_of self.now.tool.now) (work_of self.now.tool.now.work)) }
    {
        if self.tool.work.cutover.phase.is_resting() && !self.may_begin() {
            return None;
        }
        self.cutover_call(Role::Locker)
    }

    /// The inspector's call after the setup: a note's, or one of the cut-over.
    fn inspect_call(&self) -> Option<NextCall<'a>>
        requires { self.now.notes ≡ notes_of self.now.journal.now }
        ensures { option_map (asked_in self.now.plan.now self.now.journal.now (work_of self.now.tool.now.work)) result ≡ calls (inspect_call self.now.plan.now self.now.journal.now (tool_of self.now.tool.now) (work_of self.now.tool.now.work)) }
    {
        if self.tool.work.cutover.phase.is_resting() {
            self.note_call()
        } else {
            self.cutover_call(Role::Inspector)
        }
    }

    /// The tool's call for an actor that doesn't wait.
    #[tactic(auto, using(crate::proofs::CallFacts::sets_up))]
    fn call(&self, actor: Actor, session: Option<u32>) -> Option<NextCall<'a>>
        requires seen { IsSeen (V.state self.now.server.now) self.now.tool.now self.now.names.now self.now.load }
        requires notes { self.now.notes ≡ notes_of self.now.journal.now }
        requires session { session ≡ live_session self.now.journal.now actor }
        ensures { option_map (asked_in self.now.plan.now self.now.journal.now (work_of self.now.tool.now.work)) result ≡ calls (tool_call self.now.plan.now (V.state self.now.server.now) self.now.journal.now (tool_of self.now.tool.now) (tool_phase_of self.now.tool.now) actor) }
    {
        let reverts = self.tool.is_reverting();
        match (self.tool.setup, actor) {
            (Some(setup), Actor::Insp) if !reverts => Some(NextCall::Setup(setup)),
            (None, Actor::Insp) => self.inspect_call(),
            (None, Actor::Copy | Actor::Apply) if reverts => self.rolls_back(session),
            (None, Actor::Copy) => self.copy_call(),
            (None, Actor::Apply) => self.apply_call(),
            (None, Actor::Lock) => self.lock_call(),
            (None, Actor::Ren) => self.cutover_call(Role::Renamer),
            _ => None,
        }
    }

    /// What an actor of the tool but the operator asks next, in this session where it has one; none where it isn't ready.
    pub fn next_call(&self, actor: Actor, session: Option<u32>) -> Option<NextCall<'a>>
        requires seen { IsSeen (V.state self.now.server.now) self.now.tool.now self.now.names.now self.now.load }
        requires notes { self.now.notes ≡ notes_of self.now.journal.now }
        requires session { session ≡ live_session self.now.journal.now actor }
        ensures { option_map (asked_in self.now.plan.now self.now.journal.now (work_of self.now.tool.now.work)) result ≡ tool_asks self.now.plan.now self.now.journal.now (record { server = V.state self.now.server.now; tool = tool_of self.now.tool.now }) actor }
    {
        if self.waits(session) {
            return Some(NextCall::Poll);
        }
        self.call(actor, session)
    }
}
