//! How counters move by a request that is done.

ghost use Rattle.std.specs.Prelude.{◌≡◌, Some, None, IfOk};
ghost use Rattle.server_model.specs.declared.answer.Answer.{Answer};
ghost use Rattle.server_model.specs.Counting.{counted, counts, drawn_by, drawn_if, is_answered, offered_inside};
ghost use Rattle.server_model.specs.Operations.{table_of};
ghost use Rattle.table_store.specs.Databases.{find_table};
ghost use Rattle.server_sessions.specs.LiveSessions.CounterMoves.{drawn_in_move, moved};
ghost use Rattle.server_storage.specs.Storage.{committed};
ghost use Rattle.server.specs.FilledRequests.{offer_of};
ghost use Rattle.server.specs.Parts.{state_of};

use base_script::Statement;
use server_model::{Request, auto_place};
use server_prepare::after_given;
use server_sessions::live_sessions::{CounterMove, Sessions};
use server_storage::Storage;
use server_transaction::table_of;
use std::alloc::AllocError;

/// The number that a statement draws where it is answered; none where the session may not use its table (LOCK TABLES).
fn offered_inside(outside: bool, offer: Option<u64>) -> Option<u64>
    ensures { result ≡ offered_inside outside offer }
{
    if outside { None } else { offer }
}

/// How counters move by a statement that draws this number where it is answered.
fn statement_move<'a>(
    storage: &Storage,
    all_sessions: &Sessions,
    statement: &'a Statement,
    drawn: Option<u64>,
) -> Result<CounterMove<'a>, AllocError>
    requires { find_table (table_of statement.now) (committed storage.now) ≡ None → drawn ≡ None }
    ensures counters { IfOk result (λ counter_move. (answer : Answer) → moved counter_move answer all_sessions.now.counters ≡ counts (find_table (table_of statement.now) (committed storage.now)) (drawn_if (is_answered answer) drawn) statement.now answer all_sessions.now.counters) }
    ensures drawn { IfOk result (λ counter_move. (answer : Answer) → drawn_in_move counter_move answer ≡ drawn_if (is_answered answer) drawn) }
{
    let name = table_of(statement);
    let Some(table) = storage.tables().find(name) else {
        return Ok(CounterMove::Stay);
    };
    if drawn.is_none() && auto_place(table.schema()).is_none() {
        return Ok(CounterMove::Stay);
    }
    let alloc = all_sessions.allocator();
    Ok(CounterMove::Raise {
        table: name,
        drawn,
        given: after_given(alloc, table.schema(), statement, drawn)?,
    })
}

/// How counters move by the session's request, which would draw this number.
pub fn counter_move<'a>(
    storage: &Storage,
    all_sessions: &Sessions,
    session: u32,
    request: &'a Request,
    offer: Option<u64>,
) -> Result<CounterMove<'a>, AllocError>
    requires { offer ≡ offer_of (state_of (committed storage.now) all_sessions.now) session request.now }
    ensures counters { IfOk result (λ counter_move. (answer : Answer) → moved counter_move answer all_sessions.now.counters ≡ counted (state_of (committed storage.now) all_sessions.now) session (Some request.now) answer) }
    ensures drawn { IfOk result (λ counter_move. (answer : Answer) → drawn_in_move counter_move answer ≡ drawn_by (state_of (committed storage.now) all_sessions.now) session (Some request.now) answer) }
{
    match request {
        Request::Do(statement) => {
            let drawn = offered_inside(all_sessions.is_outside(session, request), offer);
            statement_move(storage, all_sessions, statement, drawn)
        }
        Request::Create(schema) => Ok(CounterMove::Become(all_sessions.counters_with(schema)?)),
        Request::Drop(name) => Ok(CounterMove::Become(all_sessions.counters_without(name)?)),
        Request::Rename(pairs) => Ok(CounterMove::Become(all_sessions.counters_renamed(pairs)?)),
        Request::SetCounter { table, number } => Ok(CounterMove::Set {
            table,
            number: *number,
        }),
        _ => Ok(CounterMove::Stay),
    }
}
