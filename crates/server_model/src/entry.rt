//! The journal of a run: what was asked in each turn, and the answer.

ghost use Rattle.std.specs.Prelude.{◌≡◌, ◌==◌, ◌≤◌, ◌-◌, length, slice_get, option_map, Some, []};

use crate::answer::Answer;
use crate::request::Request;
use crate::turn_asked::TurnAsked;
use base_script::{Actor, OperatorWord, Side};
use base_values::Sequence;
use std::alloc::Global;
use std::marker::Model;

/// What an actor asks in its turn.
#[derive(Drop)]
pub enum Asked {
    /// A call of its session.
    Call(Request),
    /// Its request that waits is tried again.
    Poll,
    /// A command of the operator's.
    Command(OperatorWord),
    /// Nothing: its session is lost between calls.
    Cut,
}

/// One turn of a run.
pub struct Entry {
    /// Whose turn it was.
    pub actor: Actor,
    /// The number of the actor's session; 0 of the operator.
    pub session: u32,
    /// What it asked.
    pub asked: TurnAsked,
    /// Where its session was lost in this turn: before the call was done, or after.
    pub side: Option<Side>,
    /// What it was answered; `Lost` where its session was lost.
    pub answer: Answer,
    /// What the server answered where the session was lost after the call.
    pub missed: Option<Answer>,
    /// The number that the server generated in this turn for an AUTO_INCREMENT column, also where the answer was lost.
    pub draw: Option<u64>,
}

// By hand, as that of the journal: crates above then take it as one call, and don't prove the drop of each part again. The calls
// of `drop` have that of each type proved once.
impl Drop for Entry {
    fn drop(self) {
        let Entry {
            actor: _,
            session: _,
            asked,
            side: _,
            answer,
            missed,
            draw: _,
        } = self;
        drop(asked);
        drop(answer);
        drop(missed);
    }
}

/// The turns of a run, in order. Turns are numbered from 1.
pub struct Journal {
    entries: Sequence<Entry>,
}

// By hand, so that crates above prove it as one call.
impl Drop for Journal {
    fn drop(self) {
        let Journal { entries } = self;
        drop(entries);
    }
}

impl Model for Journal {
    ghost use Rattle.std.specs.Prelude.{List};
    ghost use Rattle.server_model.specs.declared.entry.Entry.{Entry};

    ghost Value = { List Entry };

    ghost view = { λ j. j.entries };
}

impl Journal {
    ghost use Rattle.server_model.specs.Entries.{answer_at};

    /// The journal without turns.
    pub fn new(alloc: Global) -> Journal
        ensures { result ≡ [] }
    {
        Journal {
            entries: Sequence::new(alloc),
        }
    }

    /// The journal of these turns.
    pub fn from_vec(entries: Vec<Entry>) -> Journal
        ensures { result ≡ entries.items }
    {
        Journal {
            entries: Sequence::from_vec(entries),
        }
    }

    /// How many turns it has.
    pub fn len(&self) -> usize
        ensures { result ≡ length self.now }
    {
        self.entries.len()
    }

    /// Whether it has no turn.
    pub fn is_empty(&self) -> bool
        ensures { result ≡ (length self.now == 0) }
    {
        self.entries.is_empty()
    }

    /// The turn of this number, from 1.
    pub fn get(&self, turn: u64) -> &Entry
        requires from_one { 1 ≤ turn }
        requires within { turn ≤ length self.now }
        ensures { slice_get self.now (turn - 1) ≡ Some result.now }
    {
        &self.entries.as_slice()[(turn - 1) as usize]
    }

    /// The answer in the turn of this number, from 1; none where the journal has no such turn.
    #[tactic(auto, unfolding(crate::specs::Entries::answer_at))]
    pub fn answer_at(&self, turn: u64) -> Option<&Answer>
        ensures { option_map (λ answer. answer.now) result ≡ answer_at self.now turn }
    {
        match self.entries.as_slice().get(turn.saturating_sub(1) as usize) {
            Some(entry) => Some(&entry.answer),
            None => None,
        }
    }

    /// All turns in order.
    pub fn as_slice(&self) -> &[Entry]
        ensures { result.now ≡ self.now }
    {
        self.entries.as_slice()
    }
}
