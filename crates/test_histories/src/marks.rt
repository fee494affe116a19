//! What became of lines, and what stays of a transaction.

ghost use Rattle.std.specs.Prelude.{◌≡◌};
ghost use Rattle.server_model.specs.Alone.{is_done, is_commit, is_statement, commit_was_done, stays};

use base_script::{ScriptWord, Side};
use server_model::{Mark, TxnLine};

/// Whether the line was done: it was answered, or its session was lost after it.
pub fn is_done(mark: Mark) -> bool
    ensures { result ≡ is_done mark }
{
    match mark {
        Mark::Answered | Mark::Lost(Side::After) => true,
        Mark::TimedOut | Mark::Lost(Side::Before) => false,
    }
}

fn is_commit(word: &ScriptWord) -> bool
    ensures { result ≡ is_commit word.now }
{
    match word {
        ScriptWord::Commit => true,
        ScriptWord::Begin | ScriptWord::Rollback | ScriptWord::Do(_) => false,
    }
}

fn is_statement(word: &ScriptWord) -> bool
    ensures { result ≡ is_statement word.now }
{
    match word {
        ScriptWord::Do(_) => true,
        ScriptWord::Begin | ScriptWord::Commit | ScriptWord::Rollback => false,
    }
}

/// Whether the last of the lines is a COMMIT that was done.
fn commit_was_done(line: &TxnLine, lines: &[TxnLine]) -> bool
    ensures { result ≡ commit_was_done line.now lines.now }
{
    let mut last = line;
    for next in lines {
        last = next;
    }
    is_commit(&last.word) && is_done(last.mark)
}

/// Whether what the lines wrote stays: a single statement that was done, or a transaction whose COMMIT was.
pub fn stays(lines: &[TxnLine]) -> bool
    ensures { result ≡ stays lines.now }
{
    match lines {
        [] => false,
        [line] => (is_statement(&line.word) || is_commit(&line.word)) && is_done(line.mark),
        [_, next, others @ ..] => commit_was_done(next, others),
    }
}
