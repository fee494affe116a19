//! How far a client of a trace is in its script, and what its open transaction has so far.

ghost use Rattle.std.specs.Prelude.{◌≡◌, ◌++◌, ℕ, Bool, true, not, ◌&&◌, List, [], option_to_list, IfOk, OnOk};
ghost use Rattle.base_script.specs.declared.script.ScriptLine.{ScriptLine};
ghost use Rattle.run_actors.specs.ClientTurns.ActorStates.{IsReached, line_outcome_as};
ghost use Rattle.run_actors.specs.ClientTurns.DrawnLines.{left_drawn};
ghost use Rattle.run_audit.specs.Audits.{judged_of, reply_turn};
ghost use Rattle.run_audit.specs.Rules.{became_by, became_of_line, client_after_line, client_asks_next};
ghost use Rattle.tool_program.specs.JournalWords.Clients.{Became, Reached, new_client, with_draw};
ghost use Rattle.tool_program.specs.JournalWords.Histories.{client_ends};
ghost use Rattle.run_judge.specs.Replies.{replies_of, reply_in, turns_of};
ghost use Rattle.run_judge.specs.TraceClients.{AreJudged, IsFollowed, IsReachedWith, begins, drawn_after, ended_txn, is_begin, is_time_out, no_txn, outcome_line, without_ended};

use crate::outcomes::outcome_of;
use crate::replies::{TurnReplies, TurnReply, reply_of};
use base_script::{Script, ScriptLine, ScriptWord};
use base_values::Sequence;
use run_actors::client_turns::{ClientState, LineOutcome, word_numbered};
use run_audit::{LineAsked, TraceLine};
use server_model::{Mark, TxnLine, TxnLines};
use std::alloc::{AllocError, Global};
use std::mem;

/// A transaction, and the replies that its client got.
#[derive(Drop)]
pub struct RepliedTxn {
    /// Its lines, in order.
    pub lines: TxnLines,
    /// The replies to them.
    pub replies: TurnReplies,
}

/// What is kept of a client.
#[derive(Drop)]
pub struct TraceClient {
    /// How far it is in its script.
    pub state: ClientState,
    /// The number that its next line drew in a turn that gave it no mark. (A server draws one only in a turn that gives the line
    /// its mark; a trace can have others.)
    pub drawn: Option<u64>,
    /// Its open transaction so far, which has no line where none is open.
    pub txn: RepliedTxn,
}

impl RepliedTxn {
    /// No lines.
    fn new(alloc: Global) -> RepliedTxn
        ensures { result ≡ no_txn }
    {
        RepliedTxn {
            lines: Sequence::new(alloc),
            replies: Sequence::new(alloc),
        }
    }

    /// Adds the next line of these, with the number that it drew, where it got a mark.
    #[tactic(auto, using(run_actors::proofs::ClientTurns::DrawnLines::first_drawn, run_actors::proofs::ClientTurns::DrawnLines::none_drawn))]
    fn push_line(
        &mut self,
        left: &[ScriptLine],
        drawn: Option<u64>,
        outcome: LineOutcome,
    ) -> Result<(), AllocError>
        ensures lines { OnOk result (self.new.lines ≡ self.old.lines ++ outcome_line outcome (left_drawn drawn left.now)) }
        ensures replies { self.new.replies ≡ self.old.replies }
    {
        let LineOutcome::Marked(mark) = outcome else {
            return Ok(());
        };
        let Some((line, _)) = left.split_first() else {
            return Ok(());
        };
        let word = word_numbered(&line.word, drawn)?;
        self.lines.push(TxnLine { word, mark })
    }

    /// Adds the reply that the client got in its turn, where it got one.
    #[tactic(auto, using(crate::proofs::FollowedClients::replied, crate::proofs::FollowedClients::unreplied))]
    fn push_reply(&mut self, turn: u64, line: &TraceLine) -> Result<(), AllocError>
        ensures lines { self.new.lines ≡ self.old.lines }
        ensures replies { OnOk result ((waits : Bool) → replies_of self.new.replies ≡ replies_of self.old.replies ++ option_to_list (reply_in (became_of_line waits line.now.asked line.now.answer))) }
        ensures turns { OnOk result ((waits : Bool) → turns_of self.new.replies ≡ turns_of self.old.replies ++ reply_turn turn (became_of_line waits line.now.asked line.now.answer)) }
    {
        match reply_of(line)? {
            Some(reply) => self.replies.push(TurnReply { turn, reply }),
            None => Ok(()),
        }
    }
}

fn is_begin(word: &ScriptWord) -> bool
    ensures { result ≡ is_begin word.now }
{
    matches!(word, ScriptWord::Begin)
}

/// Whether the next line is BEGIN.
fn begins(left: &[ScriptLine]) -> bool
    ensures { result ≡ begins left.now }
{
    match left.split_first() {
        Some((line, _)) => is_begin(&line.word),
        None => false,
    }
}

/// The number that the client's next line has after what became of the one that drew it.
fn drawn_after(outcome: LineOutcome, drawn: Option<u64>) -> Option<u64>
    ensures { result ≡ drawn_after outcome drawn }
{
    match outcome {
        LineOutcome::Marked(_) => None,
        LineOutcome::Nothing | LineOutcome::Waits | LineOutcome::Broken => drawn,
    }
}

fn is_time_out(outcome: LineOutcome) -> bool
    ensures { result ≡ is_time_out outcome }
{
    matches!(outcome, LineOutcome::Marked(Mark::TimedOut))
}

/// How far a client is after what became of its line. After a BEGIN that timed out the next transaction comes.
#[tactic(auto, using(crate::proofs::FollowedClients::skipped, crate::proofs::FollowedClients::unskipped))]
fn step(state: &mut ClientState, script: &Script, outcome: LineOutcome)
    ensures { (client : Reached) (became : Became) → outcome ≡ line_outcome_as became → IsReached script.now state.old client → IsReached script.now state.new (client_after_line became client) }
{
    let skips = !state.is_inside && is_time_out(outcome) && begins(state.left(script));
    state.becomes(script, outcome);
    if skips {
        state.skip_transaction(script);
    }
}

impl TraceClient {
    /// Before the first turn.
    pub fn new(alloc: Global) -> TraceClient
        ensures { (script : List ScriptLine) → IsFollowed script result (new_client script) [] }
    {
        TraceClient {
            state: ClientState::new(),
            drawn: None,
            txn: RepliedTxn::new(alloc),
        }
    }

    /// Whether the client asks so next: its line is called, or polled where it waits.
    fn asks_next(&self, script: &Script, asked: LineAsked) -> bool
        ensures { (client : Reached) → IsReached script.now self.now.state client → result ≡ client_asks_next client asked }
    {
        match self.state.left(script).split_first() {
            None => matches!(asked, LineAsked::Cut),
            Some(_) => match asked {
                LineAsked::Cut => true,
                LineAsked::Call => !self.state.waits,
                LineAsked::Poll => self.state.waits,
                LineAsked::Rename | LineAsked::Word => false,
            },
        }
    }

    /// Whether the client wasn't lost, and asks something else next.
    pub fn is_astray(&self, script: &Script, asked: LineAsked) -> bool
        ensures { (client : Reached) → IsReachedWith script.now self.now.drawn self.now.state client → result ≡ (not client.is_lost && not (client_asks_next client asked)) }
    {
        !self.state.is_lost && !self.asks_next(script, asked)
    }

    /// Takes the transaction out, where it ended.
    fn take_ended(&mut self, alloc: Global) -> Option<RepliedTxn>
        ensures ended { result ≡ ended_txn self.old }
        ensures kept { self.new ≡ without_ended self.old }
    {
        if !self.state.is_inside && !self.txn.lines.is_empty() {
            Some(mem::replace(&mut self.txn, RepliedTxn::new(alloc)))
        } else {
            None
        }
    }

    /// A turn of the client, which isn't lost and asks so next. Answers the transaction that ended with it, where one did.
    pub fn follow(
        &mut self,
        alloc: Global,
        script: &Script,
        turn: u64,
        line: &TraceLine,
    ) -> Result<Option<RepliedTxn>, AllocError>
        ensures followed { (client : Reached) (turns : List ℕ) → IsFollowed script.now self.old client turns → client_asks_next client line.now.asked ≡ true → OnOk result (IsFollowed script.now self.new (client_after_line (became_by client line.now) (with_draw line.now.drawn client)) (turns ++ reply_turn turn (became_by client line.now))) }
        ensures judged { (number : ℕ) (client : Reached) (turns : List ℕ) → IsFollowed script.now self.old client turns → client_asks_next client line.now.asked ≡ true → IfOk result (AreJudged (judged_of (turns ++ reply_turn turn (became_by client line.now)) (client_ends number (with_draw line.now.drawn client) (became_by client line.now)))) }
    {
        let drawn = line.drawn.or(self.drawn);
        let outcome = outcome_of(self.state.waits, line);
        self.txn.push_line(self.state.left(script), drawn, outcome)?;
        self.txn.push_reply(turn, line)?;
        step(&mut self.state, script, outcome);
        self.drawn = drawn_after(outcome, drawn);
        Ok(self.take_ended(alloc))
    }
}
