//! The server at its start.

mod counters;

ghost use Rattle.std.specs.Prelude.{◌≡◌, ◌≤◌, IfOk};
ghost use Rattle.table_store.specs.Databases.{database};
ghost use Rattle.server_model.specs.States.{opened};
ghost use Rattle.server_model.specs.LockedRows.Databases.{IsWellFormedDatabase};
ghost use Rattle.server.specs.Parts.{HaveValidSchemas};

use crate::Server;
use crate::opening::counters::counters_of;
use base_values::Names;
use server_model::Limits;
use server_storage::Storage;
use std::alloc::{AllocError, Global};
use table_store::paged_tables::Tables;

/// The server at its start, over tables in pages. A wait may be polled once at least. How many events are unread is known at
/// once of the tables that are watched.
pub fn open_server(
    alloc: Global,
    tables: Tables,
    limits: Limits,
    watched: Names,
) -> Result<Server, AllocError>
    requires clients { 1 ≤ limits.client_wait }
    requires tools { 1 ≤ limits.tool_wait }
    requires valid { HaveValidSchemas (database tables) }
    requires well_formed { IsWellFormedDatabase (database tables) }
    ensures { IfOk result (λ server. server.state ≡ opened limits (database tables)) }
{
    let counters = counters_of(alloc, &tables)?;
    let storage = Storage::new(alloc, tables);
    Ok(Server::open(alloc, storage, limits, watched, counters))
}
