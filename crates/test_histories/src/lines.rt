//! What one line of a transaction does, by its mark.

ghost use Rattle.std.specs.Prelude.{◌≡◌, IfOk, option_to_list};
ghost use Rattle.server_model.specs.Alone.{line_says, line_events, line_replies};

use crate::replies::reply_of;
use base_script::{ScriptWord, Side};
use base_values::mysql_errors::ER_LOCK_WAIT_TIMEOUT;
use base_values::{Events, Sequence};
use server_model::{Answer, Mark, Reply, StatementResult, TxnLine};
use std::alloc::{AllocError, Global};
use test_model::{PlainTable, statement_result};

/// What a line says: BEGIN, COMMIT and ROLLBACK are answered ok 0.
fn line_says(
    alloc: Global,
    tables: &[PlainTable],
    word: &ScriptWord,
) -> Result<StatementResult, AllocError>
    ensures { IfOk result (λ said. said ≡ line_says tables.now word.now) }
{
    match word {
        ScriptWord::Do(statement) => statement_result(alloc, tables, statement),
        ScriptWord::Begin | ScriptWord::Commit | ScriptWord::Rollback => Ok(StatementResult {
            answer: Answer::Ok(0),
            events: Sequence::new(alloc),
        }),
    }
}

/// What a line writes: nothing where it timed out, or was lost before it was done.
pub fn line_events(
    alloc: Global,
    tables: &[PlainTable],
    line: &TxnLine,
) -> Result<Events, AllocError>
    ensures { IfOk result (λ events. events ≡ line_events tables.now line.now.word line.now.mark) }
{
    match line.mark {
        Mark::Answered | Mark::Lost(Side::After) => {
            let said = line_says(alloc, tables, &line.word)?;
            Ok(said.events)
        }
        Mark::TimedOut | Mark::Lost(Side::Before) => Ok(Sequence::new(alloc)),
    }
}

/// What a line is answered: `ER_LOCK_WAIT_TIMEOUT` where it timed out, nothing where its session was lost.
pub fn line_reply(
    alloc: Global,
    tables: &[PlainTable],
    line: &TxnLine,
) -> Result<Option<Reply>, AllocError>
    ensures { IfOk result (λ reply. option_to_list reply ≡ line_replies tables.now line.now.word line.now.mark) }
{
    match line.mark {
        Mark::Answered => {
            let said = line_says(alloc, tables, &line.word)?;
            reply_of(&said.answer)
        }
        Mark::TimedOut => Ok(Some(Reply::Error(ER_LOCK_WAIT_TIMEOUT))),
        Mark::Lost(_) => Ok(None),
    }
}
