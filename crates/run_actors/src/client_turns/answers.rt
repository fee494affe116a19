//! What a turn makes of a client. Nothing here takes memory.

ghost use Rattle.std.specs.Prelude.{◌≡◌, ◌<◌, ◌∷◌, List, length, Option, is_some, drop};
ghost use Rattle.base_script.specs.declared.script.ScriptLine.{ScriptLine};
ghost use Rattle.server_model.specs.declared.transaction.Reply.{Reply};
ghost use Rattle.tool_program.specs.JournalWords.Clients.{Became, Reached, ends_with, closes, after_transaction, left_after, is_loss, marked, client_after, became, with_draw};
ghost use Rattle.run_actors.specs.ClientTurns.ActorStates.{DrawsAtMark, IsReached, line_outcome_as};

use crate::client_turns::actor_state::ClientState;
use crate::client_turns::outcome::{LineOutcome, line_outcome_of};
use base_script::{Script, ScriptLine, ScriptWord};
use server_model::{Entry, Mark};

/// Whether the transaction ends with a line of this mark.
pub fn ends(is_inside: bool, word: &ScriptWord, mark: Mark) -> bool
    ensures { result ≡ is_some (ends_with is_inside word.now mark) }
{
    match (mark, word) {
        (Mark::TimedOut | Mark::Lost(_), _) => true,
        (Mark::Answered, ScriptWord::Begin) => false,
        (Mark::Answered, ScriptWord::Commit | ScriptWord::Rollback) => true,
        (Mark::Answered, ScriptWord::Do(_)) => !is_inside,
    }
}

fn closes(word: &ScriptWord) -> bool
    ensures { result ≡ closes word.now }
{
    matches!(word, ScriptWord::Commit | ScriptWord::Rollback)
}

/// The place after the transaction that is open at this place.
fn after_transaction(script: &[ScriptLine], place: usize) -> usize
    ensures { drop result script.now ≡ after_transaction (drop place script.now) }
{
    for line in place..script.len() {
        if closes(&script[line].word) {
            return line + 1;
        }
    }
    script.len()
}

impl ClientState {
    /// The place after the next line with its mark; after a time-out inside a transaction that after the transaction.
    #[tactic(auto, using(crate::proofs::ClientTurns::Lines::next_left))]
    fn place_after(&self, script: &[ScriptLine], mark: Mark) -> usize
        requires { self.now.place < length script.now }
        ensures { (line : ScriptLine) (lines : List ScriptLine) → drop self.now.place script.now ≡ line ∷ lines → drop result script.now ≡ left_after self.now.is_inside mark line lines }
    {
        if self.is_inside && matches!(mark, Mark::TimedOut) {
            after_transaction(script, self.place)
        } else {
            self.place + 1
        }
    }

    /// The next line got a mark.
    #[tactic(auto, using(crate::proofs::ClientTurns::Lines::stands, tool_program::proofs::JournalWords::Lines::inside_more))]
    fn mark(&mut self, script: &Script, mark: Mark)
        ensures { (client : Reached) (reply : Option Reply) → IsReached script.now self.old client → IsReached script.now self.new (marked client mark reply client.left) }
    {
        let Some((line, _)) = self.left(script).split_first() else {
            return;
        };
        let ended = ends(self.is_inside, &line.word, mark);
        self.place = self.place_after(script.as_slice(), mark);
        self.is_inside = !ended;
        self.waits = false;
        self.is_lost = matches!(mark, Mark::Lost(_));
    }

    /// After what became of its line in a turn.
    pub fn becomes(&mut self, script: &Script, outcome: LineOutcome)
        ensures { (client : Reached) (became : Became) → outcome ≡ line_outcome_as became → IsReached script.now self.old client → IsReached script.now self.new (client_after became client) }
    {
        match outcome {
            LineOutcome::Nothing => {}
            LineOutcome::Waits => self.waits = true,
            LineOutcome::Marked(mark) => self.mark(script, mark),
            LineOutcome::Broken => {
                self.is_inside = false;
                self.is_lost = true;
            }
        }
    }

    /// The lines up to the end of the next transaction are left out.
    pub fn skip_transaction(&mut self, script: &Script)
        ensures { (client : Reached) → IsReached script.now self.old client → IsReached script.now self.new (record client { left = after_transaction client.left }) }
    {
        self.place = after_transaction(script.as_slice(), self.place);
    }

    /// A turn of this client. Which number its line drew makes no difference to what is kept.
    #[tactic(auto, using(crate::proofs::ClientTurns::Drawn::turn_numbered))]
    pub fn took(&mut self, script: &Script, entry: &Entry)
        requires draws { DrawsAtMark entry.now }
        ensures { (client : Reached) → IsReached script.now self.old client → IsReached script.now self.new (client_after (became client entry.now) (with_draw entry.now.draw client)) }
    {
        let outcome = line_outcome_of(self.waits, entry);
        self.becomes(script, outcome);
    }
}
