//! How far a client is in its script, with the lines of its open transaction and the replies to them.

ghost use Rattle.std.specs.Prelude.{◌≡◌, ◌∷◌, [], false, List, drop, IfOk, OnOk};
ghost use Rattle.base_script.specs.declared.script.ScriptLine.{ScriptLine};
ghost use Rattle.tool_program.specs.JournalWords.Clients.{Broken, client_after, ends_with, is_inside, is_loss, left_after, marked, new_client, number_of, with_draw, with_line, with_reply};
ghost use Rattle.tool_program.specs.JournalWords.Clients as clients;
ghost use Rattle.tool_program.specs.JournalWords.Histories.{breaks, client_ends, line_ends};
ghost use Rattle.test_histories.specs.JournalPasts.Walks.{ended_items};

use crate::journal_pasts::pasts::Past;
use crate::replies::heard_reply;
use base_script::{Script, ScriptWord};
use base_values::{Duplicate, Sequence};
use run_actors::client_turns::{
    ClientState, LineOutcome, heard_answer, line_outcome_of, word_numbered,
};
use server_model::{EndedTxn, Entry, Mark, Replies, Reply, TxnEnd, TxnLine, TxnLines};
use std::alloc::{AllocError, Global};
use std::marker::Model;
use std::mem;

/// How far a client is in its script, as its turns tell.
#[derive(Drop)]
pub struct Reached<'a> {
    script: &'a Script,
    // How many of its lines are done.
    place: usize,
    // The number that the next line drew. A server draws one only for a line that is done or lost in that turn.
    drawn: Option<u64>,
    begun: u64,
    lines: TxnLines,
    replies: Replies,
    waits: bool,
    is_lost: bool,
}

impl<'a> Model for Reached<'a> {
    ghost use Rattle.std.specs.Prelude.{drop};
    ghost use Rattle.tool_program.specs.JournalWords.Clients.{Reached as ReachedView};
    ghost use Rattle.run_actors.specs.ClientTurns.DrawnLines.{left_drawn};

    ghost Value = { ReachedView };

    ghost view = { λ r. record { left = left_drawn r.drawn (drop r.place r.script.now); begun = r.begun; lines = r.lines; replies = r.replies; waits = r.waits; is_lost = r.is_lost } };
}

/// How the transaction ends with a line of this mark, where it does.
fn ends_with(inside: bool, word: &ScriptWord, mark: Mark) -> Option<TxnEnd>
    ensures { result ≡ ends_with inside word.now mark }
{
    match (mark, word) {
        (Mark::TimedOut, _) => Some(TxnEnd::TimedOut),
        (Mark::Lost(_), _) => Some(TxnEnd::Lost),
        (Mark::Answered, ScriptWord::Begin) => None,
        (Mark::Answered, ScriptWord::Commit) => Some(TxnEnd::Committed),
        (Mark::Answered, ScriptWord::Rollback) => Some(TxnEnd::RolledBack),
        (Mark::Answered, ScriptWord::Do(_)) => { if inside { None } else { Some(TxnEnd::Single) } }
    }
}

/// The place after the next line with its mark.
#[tactic(auto, using(crate::proofs::JournalPasts::Lines::place_is))]
fn place_after(state: ClientState, script: &Script, mark: Mark) -> usize
    ensures { (line : ScriptLine) (lines : List ScriptLine) → drop state.place script.now ≡ line ∷ lines → drop result script.now ≡ left_after state.is_inside mark line lines }
{
    let mut next = state;
    next.becomes(script, LineOutcome::Marked(mark));
    next.place
}

impl<'a> Reached<'a> {
    /// A client at its script's begin.
    pub(crate) fn new(alloc: Global, script: &'a Script) -> Reached<'a>
        ensures { result ≡ new_client script.now }
    {
        Reached {
            script,
            place: 0,
            drawn: None,
            begun: 0,
            lines: Sequence::new(alloc),
            replies: Sequence::new(alloc),
            waits: false,
            is_lost: false,
        }
    }

    /// The lines of its open transaction; there are none where none is open.
    pub fn lines(&self) -> &[TxnLine]
        ensures { result.now ≡ self.now.lines }
    {
        self.lines.as_slice()
    }

    /// The replies to them.
    pub fn replies(&self) -> &[Reply]
        ensures { result.now ≡ self.now.replies }
    {
        self.replies.as_slice()
    }

    /// How many transactions it began.
    pub fn begun(&self) -> u64
        ensures { result ≡ self.now.begun }
    {
        self.begun
    }

    /// Whether a transaction is open.
    fn is_inside(&self) -> bool
        ensures { result ≡ is_inside self.now.lines }
    {
        !self.lines.is_empty()
    }

    /// The number of the transaction that its next line is of.
    fn number(&self) -> Result<u64, AllocError>
        ensures { IfOk result (λ number. number ≡ number_of self.now) }
    {
        if self.is_inside() {
            return Ok(self.begun);
        }
        // There is no memory for a script of this many transactions.
        self.begun.checked_add(1).ok_or(AllocError)
    }

    /// Its open transaction, which ended so, with the client's number.
    fn end(&mut self, alloc: Global, client: u32, ended: TxnEnd) -> Past
        ensures past { result ≡ record { client = client; number = self.old.begun; txn = record { lines = self.old.lines; ended = ended }; replies = self.old.replies } }
        ensures rest { self.new ≡ record self.old { lines = []; replies = [] } }
    {
        let lines = mem::replace(&mut self.lines, Sequence::new(alloc));
        let replies = mem::replace(&mut self.replies, Sequence::new(alloc));
        Past {
            client,
            number: self.begun,
            txn: EndedTxn { lines, ended },
            replies,
        }
    }

    /// Its next line got a mark and a reply: it stands with the lines of the open transaction.
    fn take_line(
        &mut self,
        word: ScriptWord,
        mark: Mark,
        reply: Option<Reply>,
    ) -> Result<(), AllocError>
        ensures { OnOk result (self.new ≡ record self.old { begun = number_of self.old; lines = with_line self.old word mark; replies = with_reply self.old reply; waits = false; is_lost = is_loss mark }) }
    {
        self.begun = self.number()?;
        self.lines.push(TxnLine { word, mark })?;
        if let Some(reply) = reply {
            self.replies.push(reply)?;
        }
        self.waits = false;
        self.is_lost = matches!(mark, Mark::Lost(_));
        Ok(())
    }

    /// Its next line got a mark and a reply: the transaction that it ended, where it did.
    #[tactic(auto, using(run_actors::proofs::ClientTurns::DrawnLines::first_drawn, run_actors::proofs::ClientTurns::DrawnLines::none_drawn, run_actors::proofs::ClientTurns::DrawnLines::after_drawn, run_actors::proofs::ClientTurns::DrawnLines::ends_drawn))]
    fn mark(
        &mut self,
        alloc: Global,
        client: u32,
        mark: Mark,
        reply: Option<Reply>,
    ) -> Result<Option<Past>, AllocError>
        ensures ended { IfOk result (λ past. ended_items past ≡ line_ends client self.old mark reply self.old.left) }
        ensures rest { OnOk result (self.new ≡ marked self.old mark reply self.old.left) }
    {
        let state = ClientState {
            place: self.place,
            is_inside: self.is_inside(),
            waits: self.waits,
            is_lost: self.is_lost,
        };
        let Some((line, _)) = state.left(self.script).split_first() else {
            return Ok(None);
        };
        let word = word_numbered(&line.word, self.drawn)?;
        let ended = ends_with(state.is_inside, &line.word, mark);
        self.place = place_after(state, self.script, mark);
        self.drawn = None;
        self.take_line(word, mark, reply)?;
        match ended {
            Some(ended) => Ok(Some(self.end(alloc, client, ended))),
            None => Ok(None),
        }
    }

    /// Its session is lost between lines: the transaction that was open, where one was.
    fn broken(&mut self, alloc: Global, client: u32) -> Option<Past>
        ensures ended { ended_items result ≡ breaks client self.old (is_inside self.old.lines) }
        ensures rest { self.new ≡ client_after Broken self.old }
    {
        let inside = self.is_inside();
        let past = self.end(alloc, client, TxnEnd::Lost);
        self.is_lost = true;
        if inside { Some(past) } else { None }
    }

    /// Its next line drew a number, or none.
    #[tactic(auto, using(run_actors::proofs::ClientTurns::DrawnLines::drawn_again))]
    fn draw(&mut self, draw: Option<u64>)
        ensures { self.new ≡ with_draw draw self.old }
    {
        if draw.is_some() {
            self.drawn = draw;
        }
    }

    /// A turn of this client's, who has this number: the transaction that it ended, where it did.
    #[tactic(auto, using(crate::proofs::JournalPasts::Lines::became_is))]
    pub(crate) fn turn(
        &mut self,
        alloc: Global,
        client: u32,
        entry: &Entry,
    ) -> Result<Option<Past>, AllocError>
        ensures ended { IfOk result (λ past. ended_items past ≡ client_ends client (with_draw entry.now.draw self.old) (clients.became self.old entry.now)) }
        ensures rest { OnOk result (self.new ≡ client_after (clients.became self.old entry.now) (with_draw entry.now.draw self.old)) }
    {
        self.draw(entry.draw);
        match line_outcome_of(self.waits, entry) {
            LineOutcome::Nothing => Ok(None),
            LineOutcome::Waits => {
                self.waits = true;
                Ok(None)
            }
            LineOutcome::Marked(mark) => {
                let reply = heard_reply(heard_answer(entry))?;
                self.mark(alloc, client, mark, reply)
            }
            LineOutcome::Broken => Ok(self.broken(alloc, client)),
        }
    }
}
