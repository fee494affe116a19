//! What the actors ask next, and when the run is over.

ghost use Rattle.std.specs.Prelude.{◌≡◌, Some, false, option_map, slice_get, IfOk, OnErr};
ghost use Rattle.server_model.specs.LostCalls.{lost_in};
ghost use Rattle.tool_program.specs.FreeCalls.{is_freely_asked};
ghost use Rattle.tool_program.specs.JournalWords.Clients.{clients_over};
ghost use Rattle.tool_program.specs.JournalWords.KeptPlans.{words_of};
ghost use Rattle.tool_program.specs.Tools.{moment};
ghost use Rattle.tool_program.specs.Programs.{tool_asks, commands, given};
ghost use Rattle.tool_program.specs.Verdicts.{is_over, has_ended, verdict_of};
ghost use Rattle.proof_journals.specs.Run.Counts.{IsAfter};
ghost use Rattle.tool_state.specs.Feeds.{feed_call};
ghost use Rattle.tool_state.specs.NextCalls.{asked_in};
ghost use Rattle.tool_state.specs.ToolState.Meanings.{work_of};
ghost use Rattle.tool_state.specs.Verdicts.{verdict_meant};
ghost use Rattle.run_state.specs.Books.{IsRunState};
ghost use Rattle.run_state.specs.NextAsked.{asked_of};

use crate::next_asked::NextAsked;
use crate::run_state::RunState;
use base_script::Actor;
use server_api::Serve;
use server_model::{Asked, LostCall};
use std::alloc::{AllocError, Global};
use tool_state::{FeedCall, NextCall, ToolView, VerdictView, is_over, verdict};

impl RunState<'_> {
    /// What an actor of the tool but the operator asks next.
    fn tool_call<'b, V: Serve>(&'b self, server: &'b V, actor: Actor) -> Option<NextCall<'b>>
        requires run_state { IsRunState self.now.plan.now self.now.journal.items self.now }
        requires state { IsAfter (moment self.now.plan.now self.now.journal.items).server (V.state server.now) }
        ensures { option_map (asked_in self.now.plan.now self.now.journal.items (work_of self.now.tool.work)) result ≡ tool_asks self.now.plan.now self.now.journal.items (moment self.now.plan.now self.now.journal.items) actor }
    {
        let tool_view = ToolView {
            plan: self.plan,
            journal: self.journal.as_slice(),
            tool: &self.tool,
            server,
            names: &self.names,
            load: self.load,
            notes: self.notes,
        };
        tool_view.next_call(actor, self.session(actor))
    }

    /// What the operator commands next; none where no command is left.
    fn command(&self) -> Option<NextAsked<'_>>
        requires { IsRunState self.now.plan.now self.now.journal.items self.now }
        ensures { option_map (asked_of self.now) result ≡ commands (slice_get (words_of self.now.plan.now) (moment self.now.plan.now self.now.journal.items).tool.operator.taken) }
    {
        match self.tool.operator.next(self.plan) {
            Some(word) => Some(NextAsked::Command(word)),
            None => None,
        }
    }

    /// What the actor asks next; none where it isn't ready. It is found without memory.
    #[tactic(auto, using(crate::proofs::Givens::client_asks_so, crate::proofs::Givens::tool_asks_so), unfolding(tool_program::specs::Programs::given))]
    pub fn next<'b, V: Serve>(&'b self, server: &'b V, actor: Actor) -> Option<NextAsked<'b>>
        requires run_state { IsRunState self.now.plan.now self.now.journal.items self.now }
        requires state { IsAfter (moment self.now.plan.now self.now.journal.items).server (V.state server.now) }
        ensures { option_map (asked_of self.now) result ≡ given self.now.plan.now self.now.journal.items actor }
    {
        match actor {
            Actor::Client(client) => self.client_call(client).map(NextAsked::Client),
            Actor::Op => self.command(),
            Actor::Insp | Actor::Copy | Actor::Apply | Actor::Lock | Actor::Ren => {
                self.tool_call(server, actor).map(NextAsked::Tool)
            }
        }
    }

    /// What is asked. Calls alone take memory, but for COMMIT, ROLLBACK and UNLOCK TABLES.
    pub fn asked(&self, alloc: Global, next: NextAsked<'_>) -> Result<Asked, AllocError>
        ensures asked { IfOk result (λ asked. asked ≡ asked_of self.now next.entry) }
        ensures costs { OnErr result (is_freely_asked (Some (asked_of self.now next.entry)) ≡ false) }
    {
        match next {
            NextAsked::Tool(call) => {
                call.asked(alloc, self.plan, self.journal.as_slice(), &self.tool.work)
            }
            NextAsked::Command(word) => Ok(Asked::Command(word)),
            NextAsked::Client(call) => call.asked(),
        }
    }

    /// What a journal keeps of what is asked, where that is lost before it is done; none where it keeps all. It takes no memory.
    pub fn lost(&self, next: NextAsked<'_>) -> Option<LostCall>
        ensures { result ≡ lost_in (asked_of self.now next.entry) }
    {
        next.lost(self.journal.as_slice(), &self.tool.work)
    }

    /// What the actor's next call is for a replica that lags; none where the actor isn't ready.
    pub fn feed_call<V: Serve>(&self, server: &V, actor: Actor) -> Option<FeedCall>
        requires run_state { IsRunState self.now.plan.now self.now.journal.items self.now }
        requires state { IsAfter (moment self.now.plan.now self.now.journal.items).server (V.state server.now) }
        ensures { result ≡ option_map (feed_call actor) (given self.now.plan.now self.now.journal.items actor) }
    {
        match self.next(server, actor) {
            Some(next) => Some(next.feed_call(actor, &self.tool.work)),
            None => None,
        }
    }

    /// Whether every client has gone through its script or lost its session.
    #[tactic(auto, using(crate::proofs::Clients::same_count, crate::proofs::Clients::reached_here), unfolding(tool_program::specs::JournalWords::Clients::all_over))]
    fn clients_over(&self) -> bool
        requires { IsRunState self.now.plan.now self.now.journal.items self.now }
        ensures { result ≡ clients_over self.now.plan.now self.now.journal.items }
    {
        let scripts = self.plan.clients().as_slice();
        for index in 0..scripts.len() {
            if !self.clients[index].is_over(&scripts[index]) {
                return false;
            }
        }
        true
    }

    /// Whether the run has ended: the tool is over, and every client.
    #[tactic(auto, using(proof_journals::proofs::Run::Tallies::busy_counted), unfolding(tool_program::specs::Verdicts::has_ended))]
    pub fn has_ended(&self) -> bool
        requires { IsRunState self.now.plan.now self.now.journal.items self.now }
        ensures { result ≡ has_ended self.now.plan.now self.now.journal.items }
    {
        is_over(&self.tool, 0 < self.busy) && self.clients_over()
    }

    /// How the migration ended, and why; unfinished until the run has ended.
    #[tactic(auto, unfolding(tool_program::specs::Verdicts::verdict_of))]
    pub fn verdict(&self) -> VerdictView<'_>
        requires { IsRunState self.now.plan.now self.now.journal.items self.now }
        ensures { verdict_meant result ≡ verdict_of self.now.plan.now self.now.journal.items }
    {
        if !self.has_ended() {
            return VerdictView::Unfinished;
        }
        verdict(
            self.plan,
            self.journal.as_slice(),
            &self.tool,
            self.is_altered,
        )
    }
}
