//! What answers say.

use base_values::{Change, Row, RowEvent, Text, print_row};
use server_model::Answer;
use std::alloc::AllocError;
use test_lines::{CallFault, say};

fn say_rows(output: &mut Text, rows: &[Row]) -> Result<(), AllocError> {
    say(output, "rows")?;
    for row in rows {
        output.push_str(" ")?;
        print_row(row.as_slice(), output)?;
    }
    Ok(())
}

/// Says a word and a number.
pub fn say_number(output: &mut Text, word: &str, number: i128) -> Result<(), AllocError> {
    say(output, word)?;
    output.push_number(number)
}

fn push_change(output: &mut Text, change: &Change) -> Result<(), AllocError> {
    match change {
        Change::Write(row) => {
            output.push_str(", write ")?;
            print_row(row.as_slice(), output)
        }
        Change::Update(before, after) => {
            output.push_str(", update ")?;
            print_row(before.as_slice(), output)?;
            print_row(after.as_slice(), output)
        }
        Change::Delete(row) => {
            output.push_str(", delete ")?;
            print_row(row.as_slice(), output)
        }
    }
}

fn push_event(output: &mut Text, event: &RowEvent) -> Result<(), AllocError> {
    push_change(output, &event.change)?;
    output.push_str(" of ")?;
    output.push_str(event.table.as_str())
}

/// Says where the next events are read, and the events.
fn say_events(output: &mut Text, events: &[RowEvent], next: u64) -> Result<(), AllocError> {
    say_number(output, "to ", i128::from(next))?;
    for event in events {
        push_event(output, event)?;
    }
    Ok(())
}

fn say_answer(output: &mut Text, answer: &Answer) -> Result<(), AllocError> {
    match answer {
        Answer::Ok(count) => say_number(output, "ok ", i128::from(*count)),
        Answer::Rows(rows) => say_rows(output, rows.as_slice()),
        Answer::Refused { number, .. } => say_number(output, "error ", i128::from(*number)),
        Answer::Waits { by } => say_number(output, "waits for ", i128::from(*by)),
        Answer::Events { events, next } => say_events(output, events.as_slice(), *next),
        _ => say(output, "another answer"),
    }
}

/// Says an answer, or that there is none now.
pub fn say_asked(output: &mut Text, answer: Option<&Answer>) -> Result<(), CallFault> {
    match answer {
        Some(answer) => say_answer(output, answer)?,
        None => say(output, "not now")?,
    }
    Ok(())
}

/// Says the number that was drawn, where one was.
pub fn push_drawn(output: &mut Text, drawn: Option<u64>) -> Result<(), AllocError> {
    match drawn {
        Some(number) => {
            output.push_str(" id ")?;
            output.push_number(i128::from(number))
        }
        None => Ok(()),
    }
}
