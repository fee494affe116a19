//! Verdicts as they are printed. What the words of a line say is taken first, whatever is between them; it is a verdict only where
//! it is printed as that line.

ghost use Rattle.std.specs.Prelude.{◌≡◌, ◌++◌, [], ◌∷◌, IfOk};
ghost use Rattle.top_trace_reader.specs.Verdicts.{batch_spent, below_2_16, cause_in, chunk_spent, ended_in, error_in, loose_verdict, panic_in, single_verdict, spent, spent_in, text_in, unfit, unfit_in, unfit_turn, verdict_in, verdict_printed_so};
ghost use Rattle.top_trace_reader.specs.Literals.{first_in};

use crate::literals::{first_in, literals_in, number_in, numbers_in};
use base_values::{Key, Name, Shared, Text, Value, Values};
use server_model::{Cause, Numbers, Task, Verdict};
use sql_grammar::{Token, text_words};
use std::alloc::{AllocError, Global};
use top_report::push_verdict;

/// A task that failed in these turns, at least one.
fn spent(task: Task, turns: Numbers) -> Option<Cause>
    ensures { result ≡ spent task turns }
{
    if turns.is_empty() {
        None
    } else {
        Some(Cause::Spent { task, turns })
    }
}

fn chunk_spent(numbers: Numbers) -> Option<Cause>
    ensures { result ≡ chunk_spent numbers }
{
    let (number, turns) = first_in(numbers)?;
    spent(Task::Chunk(number), turns)
}

fn batch_spent(numbers: Numbers) -> Option<Cause>
    ensures { result ≡ batch_spent numbers }
{
    let (position, turns) = first_in(numbers)?;
    spent(Task::Batch(position), turns)
}

#[tactic(auto, unfolding(crate::specs::Verdicts::spent_in))]
fn spent_in(task: &Token, numbers: Numbers) -> Option<Cause>
    ensures { result ≡ spent_in task.now numbers }
{
    if task.is_keyword("setup") {
        spent(Task::Setup, numbers)
    } else if task.is_keyword("chunk") {
        chunk_spent(numbers)
    } else if task.is_keyword("batch") {
        batch_spent(numbers)
    } else {
        spent(Task::CutOver, numbers)
    }
}

fn panic_in(numbers: Numbers) -> Option<Cause>
    ensures { result ≡ panic_in numbers }
{
    let (turn, _) = first_in(numbers)?;
    Some(Cause::Panic { turn })
}

/// Values before the last two, and these.
#[derive(Drop)]
pub struct Ended {
    pub front: Values,
    pub last_but_one: Value,
    pub last: Value,
}

#[tactic(auto, unfolding(crate::specs::Verdicts::ended_in))]
fn ended_in(values: Values) -> Option<Ended>
    ensures { result ≡ ended_in values }
{
    let mut front = values;
    let last = front.pop()?;
    let last_but_one = front.pop()?;
    Some(Ended {
        front,
        last_but_one,
        last,
    })
}

/// The name that a text is.
fn name_in(alloc: Global, value: &Value) -> Result<Option<Name>, AllocError>
    ensures { IfOk result (λ name. name ≡ text_in value.now) }
{
    match value {
        Value::Text(text) => Ok(Some(Name::new(alloc, text.as_str())?)),
        Value::Null | Value::Num(_) | Value::Blob(_) => Ok(None),
    }
}

/// The error's number that a value is.
fn error_in(value: &Value) -> Option<u16>
    ensures { result ≡ error_in value.now }
{
    let number = number_in(value)?;
    u16::try_from(number).ok()
}

fn unfit(turn: u64, key: Key, column: Option<Name>, number: Option<u16>) -> Option<Cause>
    ensures { result ≡ unfit turn key column number }
{
    let column = column?;
    let number = number?;
    if key.is_empty() {
        None
    } else {
        Some(Cause::Unfit {
            turn,
            key,
            column,
            number,
        })
    }
}

fn unfit_turn(alloc: Global, turn: u64, ended: Ended) -> Result<Option<Cause>, AllocError>
    ensures { IfOk result (λ cause. cause ≡ unfit_turn turn ended) }
{
    let column = name_in(alloc, &ended.last_but_one)?;
    let number = error_in(&ended.last);
    Ok(unfit(turn, Shared::from_sequence(ended.front)?, column, number))
}

/// A turn, a key, a column and an error's number.
#[tactic(auto, unfolding(crate::specs::Verdicts::unfit_in))]
fn unfit_in(alloc: Global, values: Values) -> Result<Option<Cause>, AllocError>
    ensures { IfOk result (λ cause. cause ≡ unfit_in values) }
{
    let Some((turn, others)) = first_in(values) else {
        return Ok(None);
    };
    match (number_in(&turn), ended_in(others)) {
        (Some(turn), Some(ended)) => unfit_turn(alloc, turn, ended),
        _ => Ok(None),
    }
}

#[tactic(auto, unfolding(crate::specs::Verdicts::cause_in))]
fn cause_in(alloc: Global, words: &[Token]) -> Result<Option<Cause>, AllocError>
    ensures { IfOk result (λ cause. cause ≡ cause_in words.now) }
{
    match words {
        [] => Ok(None),
        [_] => Ok(None),
        [kind, next, others @ ..] => {
            let values = literals_in(alloc, others)?;
            if kind.is_keyword("panic") {
                Ok(panic_in(numbers_in(alloc, values.as_slice())?))
            } else if kind.is_keyword("spent") {
                Ok(spent_in(next, numbers_in(alloc, values.as_slice())?))
            } else {
                unfit_in(alloc, values)
            }
        }
    }
}

fn single_verdict(word: &Token) -> Verdict
    ensures { result ≡ single_verdict word.now }
{
    if word.is_keyword("done") {
        Verdict::Done
    } else {
        Verdict::Unfinished
    }
}

/// What words say, whatever is between them.
#[tactic(auto, unfolding(crate::specs::Verdicts::loose_verdict))]
fn loose_verdict(alloc: Global, words: &[Token]) -> Result<Option<Verdict>, AllocError>
    ensures { IfOk result (λ verdict. verdict ≡ loose_verdict words.now) }
{
    match words {
        [] => Ok(None),
        [word] => Ok(Some(single_verdict(word))),
        [_, others @ ..] => Ok(cause_in(alloc, others)?.map(Verdict::Reverted)),
    }
}

/// The verdict, where it is printed as the line.
fn verdict_printed_so(
    alloc: Global,
    line: &str,
    verdict: Verdict,
) -> Result<Option<Verdict>, AllocError>
    ensures { IfOk result (λ same. same ≡ verdict_printed_so line.now verdict) }
{
    let mut printed = Text::new(alloc);
    push_verdict(&mut printed, &verdict)?;
    let mut wanted = Text::new(alloc);
    wanted.push_str(line)?;
    wanted.push_str("\n")?;
    if printed.as_str() == wanted.as_str() {
        Ok(Some(verdict))
    } else {
        Ok(None)
    }
}

/// The verdict that a line is.
#[tactic(auto, unfolding(crate::specs::Verdicts::verdict_in))]
pub(crate) fn verdict_in(alloc: Global, line: &str) -> Result<Option<Verdict>, AllocError>
    ensures { IfOk result (λ verdict. verdict ≡ verdict_in line.now) }
{
    let read = text_words(alloc, line)?;
    match loose_verdict(alloc, read.words.as_slice())? {
        Some(verdict) => verdict_printed_so(alloc, line, verdict),
        None => Ok(None),
    }
}
