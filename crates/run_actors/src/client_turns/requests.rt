//! What a client asks next.

ghost use Rattle.std.specs.Prelude.{◌≡◌, Some, false, List, drop, option_map, IfOk, OnErr};
ghost use Rattle.base_script.specs.declared.script.ScriptLine.{ScriptLine};
ghost use Rattle.server_model.specs.Conditions.{is_free};
ghost use Rattle.server_model.specs.LostCalls.{lost_in, lost_of};
ghost use Rattle.tool_program.specs.FreeCalls.{is_freely_asked};
ghost use Rattle.tool_program.specs.JournalWords.Clients.{Reached, new_client, word_asks, client_over};
ghost use Rattle.run_actors.specs.ClientTurns.ActorStates.{IsReached, asks_so};
ghost use Rattle.run_actors.specs.ClientTurns.ClientCalls.{asked_in};

use crate::client_turns::actor_state::ClientState;
use base_script::{Script, ScriptLine, ScriptWord};
use base_values::Duplicate;
use server_model::{Asked, LostCall, Request, lost_statement};
use std::alloc::AllocError;

/// What a line asks.
fn word_asks(word: &ScriptWord) -> Result<Request, AllocError>
    ensures request { IfOk result (λ request. request ≡ word_asks word.now) }
    ensures costs { OnErr result (is_free (word_asks word.now) ≡ false) }
{
    Ok(match word {
        ScriptWord::Begin => Request::Begin,
        ScriptWord::Commit => Request::Commit,
        ScriptWord::Rollback => Request::Rollback,
        ScriptWord::Do(statement) => Request::Do(statement.copy()?),
    })
}

/// What a journal keeps of what a line asks, where that is lost before it is done; none where it keeps all.
fn word_lost(word: &ScriptWord) -> Option<LostCall>
    ensures { result ≡ lost_of (word_asks word.now) }
{
    match word {
        ScriptWord::Begin => Some(LostCall::Other),
        ScriptWord::Commit | ScriptWord::Rollback => None,
        ScriptWord::Do(statement) => Some(lost_statement(statement)),
    }
}

/// What a client asks next.
#[derive(Clone, Copy)]
pub enum ClientCall<'a> {
    /// Its line waits: it polls.
    Poll,
    /// It asks what this line does.
    Line(&'a ScriptWord),
}

impl ClientCall<'_> {
    /// What is asked. A poll, COMMIT and ROLLBACK take no memory.
    pub fn asked(self) -> Result<Asked, AllocError>
        ensures asked { IfOk result (λ asked. asked ≡ asked_in self.entry) }
        ensures costs { OnErr result (is_freely_asked (Some (asked_in self.entry)) ≡ false) }
    {
        match self {
            ClientCall::Poll => Ok(Asked::Poll),
            ClientCall::Line(word) => Ok(Asked::Call(word_asks(word)?)),
        }
    }

    /// What a journal keeps of it, where it is lost before it is done; none where it keeps all.
    pub fn lost(self) -> Option<LostCall>
        ensures { result ≡ lost_in (asked_in self.entry) }
    {
        match self {
            ClientCall::Poll => None,
            ClientCall::Line(word) => word_lost(word),
        }
    }
}

impl ClientState {
    /// Before the first line.
    pub fn new() -> ClientState
        ensures { (script : List ScriptLine) → IsReached script result (new_client script) }
    {
        ClientState {
            place: 0,
            is_inside: false,
            waits: false,
            is_lost: false,
        }
    }

    /// The script from the line on that is asked next, or that waits.
    pub fn left<'a>(&self, script: &'a Script) -> &'a [ScriptLine]
        ensures { result.now ≡ drop self.now.place script.now }
    {
        let lines = script.as_slice();
        if self.place < lines.len() {
            &lines[self.place..]
        } else {
            &[]
        }
    }

    /// What the client asks next: its next line, or a poll of the one that waits; none where it is over.
    pub fn next_call<'a>(&self, script: &'a Script) -> Option<ClientCall<'a>>
        ensures { (client : Reached) → IsReached script.now self.now client → option_map asked_in result ≡ asks_so client }
    {
        if self.is_lost {
            return None;
        }
        match self.left(script).split_first() {
            None => None,
            Some((line, _)) => {
                if self.waits {
                    Some(ClientCall::Poll)
                } else {
                    Some(ClientCall::Line(&line.word))
                }
            }
        }
    }

    /// Whether the client is over, by its script's end or its loss.
    pub fn is_over(&self, script: &Script) -> bool
        ensures over { (client : Reached) → IsReached script.now self.now client → result ≡ client_over client }
    {
        if self.is_lost {
            return true;
        }
        match self.left(script).split_first() {
            None => true,
            Some(_) => false,
        }
    }
}
