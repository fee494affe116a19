//! What clients got, as a report prints it.

use crate::tables::{push_number_line, push_rows};
use base_script::{ScriptWord, Statement};
use base_values::Text;
use server_model::{Mark, Replies, Reply, TxnLine};
use std::alloc::AllocError;
use test_histories::journal_pasts::{PastItem, Reached, Walked};

/// The number that a line drew for an AUTO_INCREMENT column; none where it drew none.
fn drawn_in(word: &ScriptWord) -> Option<u64> {
    match word {
        ScriptWord::Do(Statement::Insert { drawn, .. }) => *drawn,
        ScriptWord::Do(Statement::Replace { drawn, .. }) => *drawn,
        _ => None,
    }
}

/// Adds a count, and the number that the line drew, where it drew one.
fn push_ok(text: &mut Text, count: u64, drawn: Option<u64>) -> Result<(), AllocError> {
    text.push_str("ok ")?;
    text.push_number(i128::from(count))?;
    if let Some(number) = drawn {
        text.push_str(" id ")?;
        text.push_number(i128::from(number))?;
    }
    text.push_str("\n")
}

fn push_reply(text: &mut Text, reply: &Reply, drawn: Option<u64>) -> Result<(), AllocError> {
    match reply {
        Reply::Ok(count) => push_ok(text, *count, drawn),
        Reply::Error(number) => push_number_line(text, "error ", u64::from(*number)),
        Reply::Rows(rows) => {
            push_number_line(text, "rows ", rows.len() as u64)?;
            push_rows(text, rows.as_slice())
        }
    }
}

/// Adds the numbers of a transaction and of a line in it.
fn push_place(text: &mut Text, number: u64, line: u64) -> Result<(), AllocError> {
    text.push_number(i128::from(number))?;
    text.push_str(".")?;
    text.push_number(i128::from(line))?;
    text.push_str(" ")
}

/// Adds what a line got: that its session was lost, or the next of these replies; gives those after it.
fn push_line<'a>(
    text: &mut Text,
    line: &TxnLine,
    replies: &'a [Reply],
) -> Result<&'a [Reply], AllocError> {
    match (line.mark, replies.split_first()) {
        (Mark::Lost(_), _) => {
            text.push_str("lost\n")?;
            Ok(replies)
        }
        (_, Some((reply, others))) => {
            push_reply(text, reply, drawn_in(&line.word))?;
            Ok(others)
        }
        (_, None) => {
            text.push_str("\n")?;
            Ok(&[])
        }
    }
}

/// Adds what the lines of the transaction of this number got, where they got these replies.
fn push_lines(
    text: &mut Text,
    number: u64,
    lines: &[TxnLine],
    replies: &[Reply],
) -> Result<(), AllocError> {
    let mut rest = replies;
    let mut place = 0u64;
    for line in lines {
        place = place.saturating_add(1);
        push_place(text, number, place)?;
        rest = push_line(text, line, rest)?;
    }
    Ok(())
}

/// Adds what this client got in the transactions that it ended, where each got these replies.
fn push_ended(
    text: &mut Text,
    client: u32,
    items: &[PastItem],
    replies: &[Replies],
) -> Result<(), AllocError> {
    let mut rest = replies;
    for item in items {
        if let (PastItem::Txn(past), Some((own, others))) = (item, rest.split_first()) {
            if past.client == client {
                push_lines(text, past.number, past.txn.lines.as_slice(), own.as_slice())?;
            }
            rest = others;
        }
    }
    Ok(())
}

/// Adds the client of this number with what it got, in ended transactions and in its open one.
fn push_client(
    text: &mut Text,
    client: u32,
    items: &[PastItem],
    replies: &[Replies],
    reached: &Reached<'_>,
    own: &[Reply],
) -> Result<(), AllocError> {
    push_number_line(text, "client c", u64::from(client))?;
    push_ended(text, client, items, replies)?;
    push_lines(text, reached.begun(), reached.lines(), own)
}

/// Adds each client with what it got, in the transactions that it ended and in the one that is open.
pub(crate) fn push_clients(
    text: &mut Text,
    walked: &Walked<'_>,
    replies: &[Replies],
    open: &[Replies],
) -> Result<(), AllocError> {
    let items = walked.items.as_slice();
    let mut client = 0u32;
    for (reached, own) in walked.clients.as_slice().iter().zip(open) {
        client = client.saturating_add(1);
        push_client(text, client, items, replies, reached, own.as_slice())?;
    }
    Ok(())
}
