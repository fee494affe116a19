//! What was answered in a turn.

ghost use Rattle.std.specs.Prelude.{◌≡◌, ◌++◌, OnOk};
ghost use Rattle.std.specs.Fmt.{decimal};
ghost use Rattle.run_audit.specs.Lines.{drawn_shown, heard_answer, line_answer, line_of, missed_answer};
ghost use Rattle.server_model.specs.Entries.{is_client};
ghost use Rattle.top_trace.specs.Texts.{answer_text, drawn_text, read_rows_text};

use base_script::{Actor, Side};
use base_values::Text;
use server_model::{Answer, Entry};
use std::alloc::AllocError;
use table_print::push_row_lines;
use top_report::client_lines::push_count;

/// Adds a word and a number.
fn push_numbered(into: &mut Text, word: &str, number: u64) -> Result<(), AllocError>
    ensures { OnOk result (into.new ≡ into.old ++ (word.now ++ decimal number)) }
{
    into.push_str(word)?;
    push_count(into, number)
}

/// Whether the turn is a client's: only of these the rows are printed.
fn is_client(actor: Actor) -> bool
    ensures { result ≡ is_client actor }
{
    matches!(actor, Actor::Client(_))
}

/// Adds an answer that was heard.
#[tactic(auto, unfolding(crate::specs::Texts::answer_text))]
fn push_heard(into: &mut Text, client: bool, answer: &Answer) -> Result<(), AllocError>
    ensures { OnOk result (into.new ≡ into.old ++ answer_text (heard_answer client answer.now)) }
{
    match answer {
        Answer::Ok(count) => push_numbered(into, "ok ", *count),
        Answer::Refused { number, .. } => push_numbered(into, "error ", u64::from(*number)),
        Answer::Rows(rows) if client => push_numbered(into, "rows ", rows.len() as u64),
        Answer::Waits { by } => push_numbered(into, "waits ", u64::from(*by)),
        Answer::TimedOut { waited } => push_numbered(into, "timeout ", u64::from(*waited)),
        Answer::Lost => into.push_str("lost"),
        _ => into.push_str("other"),
    }
}

/// Adds an answer that nobody heard, since the session was lost after the call.
#[tactic(auto, unfolding(crate::specs::Texts::answer_text))]
fn push_missed(into: &mut Text, missed: &Option<Answer>) -> Result<(), AllocError>
    ensures { OnOk result (into.new ≡ into.old ++ answer_text (missed_answer missed.now)) }
{
    match missed {
        Some(Answer::Waits { .. }) => into.push_str("lost waited"),
        Some(Answer::Refused { .. } | Answer::TimedOut { .. }) => into.push_str("lost refused"),
        _ => into.push_str("lost done"),
    }
}

/// Adds what was answered in a turn.
pub(crate) fn push_answer(into: &mut Text, entry: &Entry) -> Result<(), AllocError>
    ensures { OnOk result (into.new ≡ into.old ++ answer_text (line_answer (is_client entry.now.actor) entry.now.side entry.now.answer entry.now.missed)) }
{
    match entry.side {
        Some(Side::After) => push_missed(into, &entry.missed),
        _ => push_heard(into, is_client(entry.actor), &entry.answer),
    }
}

/// The number that is shown of a call after which the session was lost: none where it was refused.
#[tactic(auto, using(crate::proofs::Lines::refused_shows, crate::proofs::Lines::done_shows, crate::proofs::Lines::waited_shows))]
fn missed_draw(missed: &Option<Answer>, draw: Option<u64>) -> Option<u64>
    ensures { result ≡ drawn_shown draw (missed_answer missed.now) }
{
    match missed {
        Some(Answer::Refused { .. } | Answer::TimedOut { .. }) => None,
        _ => draw,
    }
}

/// The number that a turn's line shows, where its statement drew one.
#[tactic(auto, using(crate::proofs::Lines::heard_shows))]
fn drawn_shown(entry: &Entry) -> Option<u64>
    ensures { result ≡ drawn_shown entry.now.draw (line_answer (is_client entry.now.actor) entry.now.side entry.now.answer entry.now.missed) }
{
    match entry.side {
        Some(Side::After) => missed_draw(&entry.missed, entry.draw),
        _ => entry.draw,
    }
}

/// Adds the number that a turn's statement drew, where it drew one.
#[tactic(auto, unfolding(crate::specs::Texts::drawn_text))]
pub(crate) fn push_drawn(into: &mut Text, entry: &Entry) -> Result<(), AllocError>
    ensures { OnOk result (into.new ≡ into.old ++ drawn_text (line_of entry.now).drawn) }
{
    match drawn_shown(entry) {
        None => Ok(()),
        Some(number) => push_numbered(into, " id ", number),
    }
}

/// Adds the rows of an answer that a client heard.
#[tactic(auto, unfolding(crate::specs::Texts::read_rows_text))]
fn push_heard_rows(into: &mut Text, client: bool, answer: &Answer) -> Result<(), AllocError>
    ensures { OnOk result (into.new ≡ into.old ++ read_rows_text (heard_answer client answer.now)) }
{
    match answer {
        Answer::Rows(rows) if client => push_row_lines(into, rows.as_slice()),
        _ => Ok(()),
    }
}

/// Adds the rows that a client read in a turn.
#[tactic(auto, using(crate::proofs::Lines::missed_rows))]
pub(crate) fn push_read_rows(into: &mut Text, entry: &Entry) -> Result<(), AllocError>
    ensures { OnOk result (into.new ≡ into.old ++ read_rows_text (line_answer (is_client entry.now.actor) entry.now.side entry.now.answer entry.now.missed)) }
{
    match entry.side {
        Some(Side::After) => Ok(()),
        _ => push_heard_rows(into, is_client(entry.actor), &entry.answer),
    }
}
