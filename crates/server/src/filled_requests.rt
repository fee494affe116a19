//! Requests with the number that their statement would draw now.

ghost use Rattle.std.specs.Prelude.{◌≡◌, true, false, unwrap_or, IfOk, IsOk};
ghost use Rattle.server_model.specs.Drawing.{filled, offered};
ghost use Rattle.server_model.specs.States.{is_exclusive};
ghost use Rattle.server_storage.specs.Storage.{committed};
ghost use Rattle.server.specs.FilledRequests.{offer_of, IsFilled};
ghost use Rattle.server.specs.Parts.{state_of};

use base_script::Statement;
use server_model::Request;
use server_prepare::{draws, numbered};
use server_sessions::live_sessions::Sessions;
use server_storage::Storage;
use server_transaction::table_of;
use std::alloc::AllocError;

/// What a request is filled with.
#[derive(Drop)]
pub struct Filling {
    /// The number that its statement would draw now.
    pub offer: Option<u64>,
    /// The request with that number, where there is one.
    pub numbered: Option<Request>,
}

impl Filling {
    /// The filled request; the one that was asked, where it would draw no number.
    pub fn request<'a>(&'a self, asked: &'a Request) -> &'a Request
        ensures { result.now ≡ unwrap_or self.now.numbered asked.now }
    {
        match &self.numbered {
            Some(request) => request,
            None => asked,
        }
    }
}

/// The number that the session's statement would draw now.
fn offered(
    storage: &Storage,
    all_sessions: &Sessions,
    session: u32,
    statement: &Statement,
) -> Result<Option<u64>, AllocError>
    ensures { IfOk result (λ offer. offer ≡ offered (state_of (committed storage.now) all_sessions.now) session statement.now) }
{
    if all_sessions.is_of_tool(session) {
        return Ok(None);
    }
    let Some(table) = storage.tables().find(table_of(statement)) else {
        return Ok(None);
    };
    let schema = table.schema();
    let would_draw = draws(all_sessions.allocator(), schema, statement)?;
    if would_draw {
        Ok(all_sessions.next_number(&schema.name))
    } else {
        Ok(None)
    }
}

/// What the session's request is filled with now. One that isn't a statement takes no memory.
pub fn fill(
    storage: &Storage,
    all_sessions: &Sessions,
    session: u32,
    request: &Request,
) -> Result<Filling, AllocError>
    ensures filled { IfOk result (λ filling. IsFilled (state_of (committed storage.now) all_sessions.now) session request.now filling) }
    ensures free { is_exclusive request.now ≡ true → IsOk result }
{
    let Request::Do(statement) = request else {
        return Ok(Filling {
            offer: None,
            numbered: None,
        });
    };
    let Some(number) = offered(storage, all_sessions, session, statement)? else {
        return Ok(Filling {
            offer: None,
            numbered: None,
        });
    };
    Ok(Filling {
        offer: Some(number),
        numbered: Some(Request::Do(numbered(statement, number)?)),
    })
}
