//! The clients.

ghost use Rattle.std.specs.Prelude.{◌≡◌, ◌<◌, ◌≤◌, ◌++◌, OnOk};
ghost use Rattle.top_workload.specs.Draws.{state_after};
ghost use Rattle.top_workload.specs.Workloads.{client_count, statement_text, client_text, clients_text};

use crate::draws::Draws;
use crate::rows::{draws_after_rows, row_count};
use crate::statements::push_statement;
use base_values::Text;
use std::alloc::AllocError;

/// How many statements a client has.
const STATEMENTS: u64 = 30;

/// Adds the statement that the next two draws say.
#[tactic(auto, unfolding(crate::specs::Draws::state_after))]
fn push_drawn(into: &mut Text, rows: u64, draws: &mut Draws) -> Result<(), AllocError>
    requires some { 0 < rows }
    requires few { rows ≤ 20000 }
    ensures text { OnOk result (into.new ≡ into.old ++ statement_text rows draws.old.state) }
    ensures state { draws.new.state ≡ state_after draws.old.state 2 }
{
    let what = draws.draw();
    let key = 1 + draws.draw() % (2 * rows);
    push_statement(into, what, key)
}

fn push_client(into: &mut Text, rows: u64, draws: &mut Draws) -> Result<(), AllocError>
    requires some { 0 < rows }
    requires few { rows ≤ 20000 }
    ensures text { OnOk result (into.new ≡ into.old ++ client_text rows draws.old.state) }
    ensures state { OnOk result (draws.new.state ≡ state_after draws.old.state 60) }
{
    into.push_str("\"\"\"\n")?;
    for _line in 0..STATEMENTS {
        push_drawn(into, rows, draws)?;
    }
    into.push_str("\"\"\",\n")
}

fn client_count(number: u64) -> u64
    ensures { result ≡ client_count number }
{
    1 + number % 32
}

/// Adds all clients.
pub(crate) fn push_clients(into: &mut Text, number: u64) -> Result<(), AllocError>
    ensures { OnOk result (into.new ≡ into.old ++ clients_text number) }
{
    let rows = row_count(number);
    let mut draws = draws_after_rows(number);
    for _client in 0..client_count(number) {
        push_client(into, rows, &mut draws)?;
    }
    Ok(())
}
