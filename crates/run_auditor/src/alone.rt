//! A transaction alone, over the server's data.

ghost use Rattle.std.specs.Prelude.{◌≡◌, ◌++◌, ℕ, true, false, [], option_to_list, IfOk, OnOk};
ghost use Rattle.server_model.specs.Alone.{alone, commit_was_done, is_commit, is_done, is_statement, line_events, line_replies, line_says, lines_run, nothing_ran, reply_of, stays};
ghost use Rattle.server_model.specs.LockedRows.Databases.{IsWellFormedDatabase};
ghost use Rattle.server_model.specs.Operations.{after_events, statement_result};
ghost use Rattle.server_storage.specs.Ready.{AreReady};
ghost use Rattle.server_storage.specs.Storage.{committed, written};
ghost use Rattle.server_transaction.specs.Premises.{events_ready};
ghost use Rattle.run_auditor.specs.AloneSessions.{IsAlone};

use base_script::{ScriptWord, Side, Statement};
use base_values::Sequence;
use base_values::mysql_errors::ER_LOCK_WAIT_TIMEOUT;
use server_model::statements::statements_keep_tables;
use server_model::{Answer, Mark, Replies, Reply, TxnLine};
use server_storage::Storage;
use server_transaction::laws::said_events_fit;
use server_transaction::{ReadyResult, table_of};
use std::alloc::{AllocError, Global};

/// The one session.
const SESSION: u32 = 1;

/// What a client sees of an answer; nothing where it isn't one of a client's.
fn reply_of(answer: Answer) -> Option<Reply>
    ensures { result ≡ reply_of answer }
{
    match answer {
        Answer::Ok(count) => Some(Reply::Ok(count)),
        Answer::Rows(rows) => Some(Reply::Rows(rows)),
        Answer::Refused { number, .. } => Some(Reply::Error(number)),
        Answer::TimedOut { .. } => Some(Reply::Error(ER_LOCK_WAIT_TIMEOUT)),
        Answer::Keys { .. }
        | Answer::Ends(_)
        | Answer::End(_)
        | Answer::At(_)
        | Answer::Events { .. }
        | Answer::Tables(_)
        | Answer::Waiting(_)
        | Answer::Waits { .. }
        | Answer::Lost => None,
    }
}

fn push_reply(replies: &mut Replies, reply: Option<Reply>) -> Result<(), AllocError>
    ensures { OnOk result (replies.new ≡ replies.old ++ option_to_list reply) }
{
    match reply {
        Some(reply) => replies.push(reply),
        None => Ok(()),
    }
}

/// Writes what was said.
fn keep(storage: &mut Storage, executed: ReadyResult, statement: &Statement) -> Answer
    requires alone { IsAlone (committed storage.old) (written storage.old) }
    requires ready { AreReady storage.old.tables storage.old.txns 1 executed.writes }
    requires said { events_ready executed.writes ≡ (statement_result (after_events (committed storage.old) (written storage.old 1)) statement.now).events }
    ensures answer { result ≡ executed.answer }
    ensures written { written storage.new 1 ≡ written storage.old 1 ++ events_ready executed.writes }
    ensures committed { committed storage.new ≡ committed storage.old }
    ensures alone { IsAlone (committed storage.new) (written storage.new) }
{
    said_events_fit();
    statements_keep_tables();
    let ReadyResult { answer, writes } = executed;
    storage.write(SESSION, writes);
    answer
}

/// Does a statement, and answers it.
fn do_statement(storage: &mut Storage, statement: &Statement) -> Result<Answer, AllocError>
    requires { IsAlone (committed storage.old) (written storage.old) }
    ensures answer { IfOk result (λ answer. answer ≡ (statement_result (after_events (committed storage.old) (written storage.old 1)) statement.now).answer) }
    ensures written { OnOk result (written storage.new 1 ≡ written storage.old 1 ++ (statement_result (after_events (committed storage.old) (written storage.old 1)) statement.now).events) }
    ensures committed { committed storage.new ≡ committed storage.old }
    ensures alone { OnOk result (IsAlone (committed storage.new) (written storage.new)) }
{
    let work = storage.find_work(SESSION, statement)?;
    let executed = storage.execute(SESSION, table_of(statement), work)?;
    Ok(keep(storage, executed, statement))
}

/// Does a line, and answers it. BEGIN, COMMIT and ROLLBACK are answered ok 0.
fn do_word(storage: &mut Storage, word: &ScriptWord) -> Result<Answer, AllocError>
    requires { IsAlone (committed storage.old) (written storage.old) }
    ensures answer { IfOk result (λ answer. answer ≡ (line_says (after_events (committed storage.old) (written storage.old 1)) word.now).answer) }
    ensures written { OnOk result (written storage.new 1 ≡ written storage.old 1 ++ (line_says (after_events (committed storage.old) (written storage.old 1)) word.now).events) }
    ensures committed { committed storage.new ≡ committed storage.old }
    ensures alone { OnOk result (IsAlone (committed storage.new) (written storage.new)) }
{
    match word {
        ScriptWord::Do(statement) => do_statement(storage, statement),
        ScriptWord::Begin | ScriptWord::Commit | ScriptWord::Rollback => Ok(Answer::Ok(0)),
    }
}

/// Runs a line, by what became of it, and says what its client is answered.
fn run_line(storage: &mut Storage, line: &TxnLine) -> Result<Option<Reply>, AllocError>
    requires { IsAlone (committed storage.old) (written storage.old) }
    ensures reply { IfOk result (λ reply. option_to_list reply ≡ line_replies (after_events (committed storage.old) (written storage.old 1)) line.now.word line.now.mark) }
    ensures written { OnOk result (written storage.new 1 ≡ written storage.old 1 ++ line_events (after_events (committed storage.old) (written storage.old 1)) line.now.word line.now.mark) }
    ensures committed { committed storage.new ≡ committed storage.old }
    ensures alone { OnOk result (IsAlone (committed storage.new) (written storage.new)) }
{
    match line.mark {
        Mark::Answered => {
            let answer = do_word(storage, &line.word)?;
            Ok(reply_of(answer))
        }
        Mark::TimedOut => Ok(Some(Reply::Error(ER_LOCK_WAIT_TIMEOUT))),
        Mark::Lost(Side::Before) => Ok(None),
        Mark::Lost(Side::After) => {
            let _missed = do_word(storage, &line.word)?;
            Ok(None)
        }
    }
}

/// Runs the lines one after the other, each on the tables with what was written so far.
#[tactic(auto, unfolding(server_model::specs::Alone::lines_run))]
fn run_lines(alloc: Global, storage: &mut Storage, lines: &[TxnLine]) -> Result<Replies, AllocError>
    requires alone { IsAlone (committed storage.old) (written storage.old) }
    requires fresh { written storage.old 1 ≡ [] }
    ensures replies { IfOk result (λ replies. replies ≡ (lines_run (committed storage.old) nothing_ran lines.now).replies) }
    ensures written { OnOk result (written storage.new 1 ≡ (lines_run (committed storage.old) nothing_ran lines.now).writes) }
    ensures committed { committed storage.new ≡ committed storage.old }
    ensures alone { OnOk result (IsAlone (committed storage.new) (written storage.new)) }
{
    let mut replies = Sequence::new(alloc);
    for line in lines {
        let reply = run_line(storage, line)?;
        push_reply(&mut replies, reply)?;
    }
    Ok(replies)
}

/// Whether the line was done: it was answered, or its session was lost after it.
fn is_done(mark: Mark) -> bool
    ensures { result ≡ is_done mark }
{
    match mark {
        Mark::Answered | Mark::Lost(Side::After) => true,
        Mark::TimedOut | Mark::Lost(Side::Before) => false,
    }
}

fn is_commit(word: &ScriptWord) -> bool
    ensures { result ≡ is_commit word.now }
{
    match word {
        ScriptWord::Commit => true,
        ScriptWord::Begin | ScriptWord::Rollback | ScriptWord::Do(_) => false,
    }
}

fn is_statement(word: &ScriptWord) -> bool
    ensures { result ≡ is_statement word.now }
{
    match word {
        ScriptWord::Do(_) => true,
        ScriptWord::Begin | ScriptWord::Commit | ScriptWord::Rollback => false,
    }
}

/// Whether the last of the lines is a COMMIT that was done.
fn commit_was_done(line: &TxnLine, lines: &[TxnLine]) -> bool
    ensures { result ≡ commit_was_done line.now lines.now }
{
    let mut last = line;
    for next in lines {
        last = next;
    }
    is_commit(&last.word) && is_done(last.mark)
}

/// Whether what the lines wrote stays: a single statement that was done, or a transaction whose COMMIT was.
fn stays(lines: &[TxnLine]) -> bool
    ensures { result ≡ stays lines.now }
{
    match lines {
        [] => false,
        [line] => (is_statement(&line.word) || is_commit(&line.word)) && is_done(line.mark),
        [_, next, others @ ..] => commit_was_done(next, others),
    }
}

/// Commits what the session wrote.
fn commit_all(storage: &mut Storage)
    requires { IsAlone (committed storage.old) (written storage.old) }
    ensures committed { committed storage.new ≡ after_events (committed storage.old) (written storage.old 1) }
    ensures fresh { (session : ℕ) → written storage.new session ≡ [] }
{
    storage.commit(SESSION);
}

/// Forgets what the session wrote.
fn forget_all(storage: &mut Storage)
    requires { IsAlone (committed storage.old) (written storage.old) }
    ensures committed { committed storage.new ≡ committed storage.old }
    ensures fresh { (session : ℕ) → written storage.new session ≡ [] }
{
    storage.roll_back(SESSION);
}

/// Commits what the session wrote, or forgets it.
fn end(storage: &mut Storage, is_kept: bool)
    requires { IsAlone (committed storage.old) (written storage.old) }
    ensures stays { is_kept ≡ true → committed storage.new ≡ after_events (committed storage.old) (written storage.old 1) }
    ensures forgets { is_kept ≡ false → committed storage.new ≡ committed storage.old }
    ensures fresh { (session : ℕ) → written storage.new session ≡ [] }
{
    if is_kept {
        commit_all(storage);
    } else {
        forget_all(storage);
    }
}

/// Runs a transaction alone, and says what its client is answered. Nobody wrote anything before, and nobody has afterwards.
#[tactic(auto, unfolding(server_model::specs::Alone::alone))]
pub fn run_alone(
    alloc: Global,
    storage: &mut Storage,
    lines: &[TxnLine],
) -> Result<Replies, AllocError>
    requires fresh { (session : ℕ) → written storage.old session ≡ [] }
    requires well_formed { IsWellFormedDatabase (committed storage.old) }
    ensures replies { IfOk result (λ replies. replies ≡ (alone (committed storage.old) lines.now).replies) }
    ensures tables { OnOk result (committed storage.new ≡ (alone (committed storage.old) lines.now).tables) }
    ensures fresh { OnOk result ((session : ℕ) → written storage.new session ≡ []) }
    ensures well_formed { OnOk result (IsWellFormedDatabase (committed storage.new)) }
{
    let replies = run_lines(alloc, storage, lines)?;
    end(storage, stays(lines));
    Ok(replies)
}
