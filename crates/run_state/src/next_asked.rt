//! What an actor asks next: a small value, found without memory, of which what is asked is made.

ghost use Rattle.std.specs.Prelude.{◌≡◌, List};
ghost use Rattle.plan_data.specs.PlanData.{PlanData};
ghost use Rattle.server_model.specs.declared.entry.Entry.{Entry};
ghost use Rattle.server_model.specs.LostCalls.{lost_in};
ghost use Rattle.tool_state.specs.Feeds.{feed_call};
ghost use Rattle.tool_state.specs.ToolState.Meanings.{work_of};
ghost use Rattle.run_state.specs.NextAsked.{asked_in};

use base_script::{Actor, OperatorWord};
use run_actors::client_turns::ClientCall;
use server_model::{Entry, LostCall};
use tool_state::tool_state::Work;
use tool_state::{FeedCall, NextCall};

/// What an actor asks next.
#[derive(Clone, Copy)]
pub enum NextAsked<'a> {
    /// An actor of the tool asks this.
    Tool(NextCall<'a>),
    /// The operator gives this command.
    Command(OperatorWord),
    /// A client asks this.
    Client(ClientCall<'a>),
}

impl NextAsked<'_> {
    /// What a journal keeps of what is asked, where that is lost before it is done; none where it keeps all. It takes no memory.
    pub fn lost(self, journal: &[Entry], work: &Work) -> Option<LostCall>
        ensures { (plan : PlanData) → result ≡ lost_in (asked_in plan journal.now (work_of work.now) self.entry) }
    {
        match self {
            NextAsked::Tool(call) => call.lost(journal, work),
            NextAsked::Command(_) => None,
            NextAsked::Client(call) => call.lost(),
        }
    }

    /// What it is for a replica that lags, where this actor asks it.
    #[tactic(auto, using(crate::proofs::Givens::command_is_free, crate::proofs::Givens::client_is_free))]
    pub fn feed_call(self, actor: Actor, work: &Work) -> FeedCall
        ensures { (plan : PlanData) (journal : List Entry) → result ≡ feed_call actor (asked_in plan journal (work_of work.now) self.entry) }
    {
        match self {
            NextAsked::Tool(call) => call.feed_call(actor, work),
            NextAsked::Command(_) | NextAsked::Client(_) => FeedCall::Free,
        }
    }
}
