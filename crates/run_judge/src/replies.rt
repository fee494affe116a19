//! The replies that clients got, and those that they have alone.

ghost use Rattle.std.specs.Prelude.{◌≡◌, ◌++◌, Bool, option_to_list, slice_get, IfOk};
ghost use Rattle.std.specs.Option.{option_map};
ghost use Rattle.run_audit.specs.Audits.{least, mismatches, same_reply, same_rows};
ghost use Rattle.run_audit.specs.Rules.{became_of_line};
ghost use Rattle.server_model.specs.Rows.{same_row};
ghost use Rattle.run_judge.specs.Replies.{called_reply, is_reply, replies_of, reply_as, reply_in, turns_of};

use crate::least::least_with;
use crate::outcomes::is_cut;
use base_values::mysql_errors::ER_LOCK_WAIT_TIMEOUT;
use base_values::{Duplicate, Row, Rows, Sequence};
use run_audit::{LineAnswer, TraceLine};
use server_model::Reply;
use std::alloc::AllocError;

/// A reply as a trace has it: an error has any number.
#[derive(Drop)]
pub enum TraceReply {
    /// It was done, with how many rows it wrote, changed or removed.
    Ok(u64),
    /// The number of an error.
    Error(u64),
    /// The rows that were read.
    Rows(Rows),
}

/// A reply, with its turn.
#[derive(Drop)]
pub struct TurnReply {
    /// The turn, from 1.
    pub turn: u64,
    /// The reply.
    pub reply: TraceReply,
}

/// Replies in order.
pub type TurnReplies = Sequence<TurnReply>;

/// The reply to a client's line that was called or polled, where it got one. An answer that only the tool gets counts as an
/// error of the number 0, which no statement has.
fn called_reply(answer: &LineAnswer) -> Result<Option<TraceReply>, AllocError>
    ensures { IfOk result (λ reply. option_map reply_as reply ≡ called_reply answer.now) }
{
    Ok(match answer {
        LineAnswer::Ok(count) => Some(TraceReply::Ok(*count)),
        LineAnswer::Error(number) => Some(TraceReply::Error(*number)),
        LineAnswer::Rows(rows) => Some(TraceReply::Rows(rows.copy()?)),
        LineAnswer::TimedOut(_) => Some(TraceReply::Error(u64::from(ER_LOCK_WAIT_TIMEOUT))),
        LineAnswer::Other => Some(TraceReply::Error(0)),
        LineAnswer::Waits(_)
        | LineAnswer::Lost
        | LineAnswer::LostDone
        | LineAnswer::LostWaited
        | LineAnswer::LostRefused => None,
    })
}

/// The reply that a client got in its turn, where it got one.
#[tactic(auto, using(crate::proofs::LineOutcomes::cut_replies, crate::proofs::LineOutcomes::called_replies))]
pub fn reply_of(line: &TraceLine) -> Result<Option<TraceReply>, AllocError>
    ensures { IfOk result (λ reply. (waits : Bool) → option_map reply_as reply ≡ reply_in (became_of_line waits line.now.asked line.now.answer)) }
{
    if is_cut(line.asked) {
        Ok(None)
    } else {
        called_reply(&line.answer)
    }
}

fn same_row(row: &Row, other: &Row) -> bool
    ensures { result ≡ same_row row.now other.now }
{
    row.cmp(other).is_eq()
}

/// Whether the rows are the same.
#[tactic(auto, using(crate::proofs::ComparedReplies::rows_apart, crate::proofs::ComparedReplies::rows_end))]
fn same_rows(rows: &[Row], others: &[Row]) -> bool
    ensures { result ≡ same_rows rows.now others.now }
{
    if rows.len() != others.len() {
        return false;
    }
    for (place, row) in rows.iter().enumerate() {
        if !same_row(row, &others[place]) {
            return false;
        }
    }
    true
}

/// Whether the two are one reply.
fn same_reply(reply: &TraceReply, other: &Reply) -> bool
    ensures { result ≡ same_reply (reply_as reply.now) other.now }
{
    match (reply, other) {
        (TraceReply::Ok(count), Reply::Ok(other)) => *count == *other,
        (TraceReply::Error(number), Reply::Error(other)) => *number == u64::from(*other),
        (TraceReply::Rows(rows), Reply::Rows(others)) => {
            same_rows(rows.as_slice(), others.as_slice())
        }
        (TraceReply::Ok(_), Reply::Error(_) | Reply::Rows(_)) => false,
        (TraceReply::Error(_), Reply::Ok(_) | Reply::Rows(_)) => false,
        (TraceReply::Rows(_), Reply::Ok(_) | Reply::Error(_)) => false,
    }
}

/// Whether the reply alone at this place is this one, where there is one.
fn is_reply_at(replies: &[Reply], place: usize, reply: &TraceReply) -> bool
    ensures { result ≡ is_reply (slice_get replies.now place) reply.now }
{
    match replies.get(place) {
        Some(other) => same_reply(reply, other),
        None => false,
    }
}

/// The least turn whose reply is another than that of its place, or this one.
#[tactic(auto, using(crate::proofs::ComparedReplies::mismatch_end))]
pub fn least_mismatch(given: &[TurnReply], replies: &[Reply], worst: Option<u64>) -> Option<u64>
    ensures { result ≡ least (mismatches (turns_of given.now) (replies_of given.now) replies.now ++ option_to_list worst) }
{
    let mut least = worst;
    for (place, one) in given.iter().enumerate() {
        if !is_reply_at(replies, place, &one.reply) {
            least = least_with(one.turn, least);
        }
    }
    least
}
