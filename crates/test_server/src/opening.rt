//! A server without tables, and its sessions.

ghost use Rattle.std.specs.Prelude.{◌≡◌, ◌≤◌, ◌+◌, IfOk, OnOk};

use base_values::Names;
use server::{Server, open_server};
use server_api::Serve;
use server_model::Limits;
use std::alloc::{AllocError, Global};
use table_store::paged_tables::Tables;

/// A server without tables and sessions, whose log counts the events of these. A wait isn't polled more than once.
fn empty_server(alloc: Global, watched: Names) -> Result<Server, AllocError>
    ensures { IfOk result (λ server. server.state.made ≡ 0) }
{
    let limits = Limits {
        client_wait: 1,
        tool_wait: 1,
    };
    open_server(alloc, Tables::new(alloc), limits, watched)
}

/// One session more, a client's.
fn connect(server: &mut Server) -> Result<(), AllocError>
    requires { server.old.state.made ≤ 8 }
    ensures { OnOk result (server.new.state.made ≡ server.old.state.made + 1) }
{
    let _number = server.connect(false)?;
    Ok(())
}

/// A server without tables, with three sessions of clients, whose log counts the events of these tables.
pub fn open(alloc: Global, watched: Names) -> Result<Server, AllocError> {
    let mut server = empty_server(alloc, watched)?;
    connect(&mut server)?;
    connect(&mut server)?;
    connect(&mut server)?;
    Ok(server)
}
