//! A table's events in the log of a server.

ghost use Rattle.std.specs.Prelude.{◌≡◌, ◌≤◌, [], ◌∷◌, take, IfOk};
ghost use Rattle.server_model.specs.declared.request.Request.TheVariants as requests;
ghost use Rattle.tool_program.specs.EventApplier.Appliers.{events_of};
ghost use Rattle.top_call.specs.RestedServers.{IsRested};

use base_values::{Duplicate, Events, Name, Sequence};
use server_api::Serve;
use server_model::{Answer, Request};
use std::alloc::{AllocError, Global};

/// The request for the first `limit` events of this table.
fn read_request(alloc: Global, table: &Name, limit: u32) -> Result<Request, AllocError>
    ensures { IfOk result (λ request. request ≡ requests.ReadLog 0 limit (table.now ∷ [])) }
{
    let tables = Sequence::from_vec(vec![in alloc; table.copy()?]?);
    Ok(Request::ReadLog {
        position: 0,
        limit,
        tables,
    })
}

/// The first `limit` events of this table in the server's log, which a session of its own reads.
#[tactic(auto, using(crate::proofs::LogReads::may_read_now, crate::proofs::LogReads::read_now, crate::proofs::LogReads::gives_now))]
fn read_events<V: Serve>(
    alloc: Global,
    server: &mut V,
    table: &Name,
    limit: u32,
) -> Result<Events, AllocError>
    requires some { 1 ≤ limit }
    requires rested { IsRested (V.state server.old) }
    ensures { IfOk result (λ events. events ≡ take limit (events_of table.now (V.state server.old).log)) }
{
    let session = server.connect(true)?;
    match server.call(session, &read_request(alloc, table, limit)?)? {
        Answer::Events { events, .. } => Ok(events),
        _ => unreachable!(),
    }
}

/// The first `count` events of this table in the server's log. More than one read can give is more than there is memory for.
pub fn first_events<V: Serve>(
    alloc: Global,
    server: V,
    table: &Name,
    count: u64,
) -> Result<Events, AllocError>
    requires rested { IsRested (V.state server) }
    ensures { IfOk result (λ events. events ≡ take count (events_of table.now (V.state server).log)) }
{
    let mut server = server;
    if count == 0 {
        return Ok(Sequence::new(alloc));
    }
    match u32::try_from(count) {
        Ok(limit) => read_events(alloc, &mut server, table, limit),
        Err(_) => Err(AllocError),
    }
}
