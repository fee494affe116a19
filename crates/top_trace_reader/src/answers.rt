//! What a turn's own line says of the answer.

ghost use Rattle.std.specs.Prelude.{◌≡◌, map};
ghost use Rattle.top_trace_reader.specs.Turns.{alone, answer_in, drawing_answer, drawn_answer, may_draw, missed_answer, numbered_answer, paired_answer, single_answer, with_drawn};

use base_values::Sequence;
use run_audit::LineAnswer;
use std::alloc::Global;
use top_words::number_of;

/// An answer as a turn's own line has it.
#[derive(Drop)]
pub struct AnswerRead {
    /// What was answered; rows come after the line.
    pub answer: LineAnswer,
    /// How many lines of rows follow.
    pub rows: u64,
    /// The number that was drawn, where one was.
    pub drawn: Option<u64>,
}

/// An answer that no rows follow.
fn alone(answer: LineAnswer) -> AnswerRead
    ensures { result ≡ alone answer }
{
    AnswerRead {
        answer,
        rows: 0,
        drawn: None,
    }
}

#[tactic(auto, unfolding(crate::specs::Turns::single_answer))]
fn single_answer(word: &str) -> Option<LineAnswer>
    ensures { result ≡ single_answer word.now }
{
    if word == "lost" {
        Some(LineAnswer::Lost)
    } else if word == "other" {
        Some(LineAnswer::Other)
    } else {
        None
    }
}

/// What was missed, since the session was lost after the call.
#[tactic(auto, unfolding(crate::specs::Turns::missed_answer))]
fn missed_answer(word: &str) -> Option<LineAnswer>
    ensures { result ≡ missed_answer word.now }
{
    if word == "done" {
        Some(LineAnswer::LostDone)
    } else if word == "waited" {
        Some(LineAnswer::LostWaited)
    } else if word == "refused" {
        Some(LineAnswer::LostRefused)
    } else {
        None
    }
}

/// `ok 1`, `rows 2`.
#[tactic(auto, unfolding(crate::specs::Turns::numbered_answer))]
fn numbered_answer(alloc: Global, word: &str, number: u64) -> Option<AnswerRead>
    ensures { result ≡ numbered_answer word.now number }
{
    if word == "ok" {
        Some(alone(LineAnswer::Ok(number)))
    } else if word == "error" {
        Some(alone(LineAnswer::Error(number)))
    } else if word == "rows" {
        Some(AnswerRead {
            answer: LineAnswer::Rows(Sequence::new(alloc)),
            rows: number,
            drawn: None,
        })
    } else if word == "waits" {
        Some(alone(LineAnswer::Waits(number)))
    } else if word == "timeout" {
        Some(alone(LineAnswer::TimedOut(number)))
    } else {
        None
    }
}

#[tactic(auto, unfolding(crate::specs::Turns::paired_answer))]
fn paired_answer(alloc: Global, first: &str, second: &str) -> Option<AnswerRead>
    ensures { result ≡ paired_answer first.now second.now }
{
    if first == "lost" {
        Some(alone(missed_answer(second)?))
    } else {
        numbered_answer(alloc, first, number_of(second)?)
    }
}

/// Whether a number may be drawn by what was answered so.
fn may_draw(answer: &LineAnswer) -> bool
    ensures { result ≡ may_draw answer.now }
{
    match answer {
        LineAnswer::Ok(_) | LineAnswer::Error(_) | LineAnswer::LostDone => true,
        _ => false,
    }
}

fn with_drawn(read: AnswerRead, number: u64) -> Option<AnswerRead>
    ensures { result ≡ with_drawn read number }
{
    if may_draw(&read.answer) {
        Some(AnswerRead {
            answer: read.answer,
            rows: read.rows,
            drawn: Some(number),
        })
    } else {
        None
    }
}

#[tactic(auto, unfolding(crate::specs::Turns::drawn_answer))]
fn drawn_answer(alloc: Global, first: &str, second: &str, number: &str) -> Option<AnswerRead>
    ensures { result ≡ drawn_answer first.now second.now number.now }
{
    let read = paired_answer(alloc, first, second)?;
    let number = number_of(number)?;
    with_drawn(read, number)
}

/// `ok 1 id 7`.
fn drawing_answer(
    alloc: Global,
    first: &str,
    second: &str,
    mark: &str,
    number: &str,
) -> Option<AnswerRead>
    ensures { result ≡ drawing_answer first.now second.now mark.now number.now }
{
    if mark == "id" {
        drawn_answer(alloc, first, second, number)
    } else {
        None
    }
}

/// The answer that words are.
#[tactic(auto, unfolding(crate::specs::Turns::answer_in))]
pub(crate) fn answer_in(alloc: Global, words: &[&str]) -> Option<AnswerRead>
    ensures { result ≡ answer_in (map (λ word. word.now) words.now) }
{
    match words {
        [] => None,
        [word] => Some(alone(single_answer(word)?)),
        [first, second] => paired_answer(alloc, first, second),
        [_, _, _] => None,
        [first, second, mark, number] => drawing_answer(alloc, first, second, mark, number),
        [_, _, _, _, _, ..] => None,
    }
}
