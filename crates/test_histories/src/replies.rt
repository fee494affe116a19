//! The replies to a client's lines.

ghost use Rattle.std.specs.Prelude.{◌≡◌, option_and_then, IfOk};
ghost use Rattle.server_model.specs.Alone.{reply_of};

use base_values::Duplicate;
use base_values::mysql_errors::ER_LOCK_WAIT_TIMEOUT;
use server_model::{Answer, Reply};
use std::alloc::AllocError;

/// What a client sees of an answer; nothing where it isn't one of a client's.
pub(crate) fn reply_of(answer: &Answer) -> Result<Option<Reply>, AllocError>
    ensures { IfOk result (λ reply. reply ≡ reply_of answer.now) }
{
    Ok(match answer {
        Answer::Ok(count) => Some(Reply::Ok(*count)),
        Answer::Rows(rows) => Some(Reply::Rows(rows.copy()?)),
        Answer::Refused { number, .. } => Some(Reply::Error(*number)),
        Answer::TimedOut { .. } => Some(Reply::Error(ER_LOCK_WAIT_TIMEOUT)),
        _ => None,
    })
}

/// What it sees where it heard an answer or none.
pub(crate) fn heard_reply(heard: Option<&Answer>) -> Result<Option<Reply>, AllocError>
    ensures { IfOk result (λ reply. reply ≡ option_and_then (λ answer. reply_of answer.now) heard.entry) }
{
    match heard {
        Some(answer) => reply_of(answer),
        None => Ok(None),
    }
}
