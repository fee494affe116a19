//! A client's statements.

ghost use Rattle.std.specs.Prelude.{◌≡◌, ◌+◌, ◌<◌, ◌^◌, ◌++◌, OnOk};
ghost use Rattle.top_workload.specs.Workloads.{where_text, values_text, insert_line, delete_line, change_line, move_line, statement_line};

use crate::rows::push_decimal;
use base_values::Text;
use std::alloc::AllocError;

#[tactic(auto, unfolding(crate::specs::Workloads::where_text))]
fn push_where(into: &mut Text, key: u64) -> Result<(), AllocError>
    ensures { OnOk result (into.new ≡ into.old ++ where_text key) }
{
    into.push_str(" WHERE id = ")?;
    push_decimal(into, key)?;
    into.push_str("\n")
}

#[tactic(auto, unfolding(crate::specs::Workloads::values_text))]
fn push_values(into: &mut Text, key: u64, value: u64) -> Result<(), AllocError>
    ensures { OnOk result (into.new ≡ into.old ++ values_text key value) }
{
    into.push_str("(")?;
    push_decimal(into, key)?;
    into.push_str(", 'n")?;
    push_decimal(into, key)?;
    into.push_str("', ")?;
    push_decimal(into, value)?;
    into.push_str(")\n")
}

fn push_insert(into: &mut Text, key: u64, value: u64) -> Result<(), AllocError>
    ensures { OnOk result (into.new ≡ into.old ++ insert_line key value) }
{
    into.push_str("INSERT INTO g (id, u, v) VALUES ")?;
    push_values(into, key, value)
}

fn push_delete(into: &mut Text, key: u64) -> Result<(), AllocError>
    ensures { OnOk result (into.new ≡ into.old ++ delete_line key) }
{
    into.push_str("DELETE FROM g")?;
    push_where(into, key)
}

fn push_change(into: &mut Text, key: u64, value: u64) -> Result<(), AllocError>
    ensures { OnOk result (into.new ≡ into.old ++ change_line key value) }
{
    into.push_str("UPDATE g SET v = ")?;
    push_decimal(into, value)?;
    push_where(into, key)
}

fn push_move(into: &mut Text, key: u64) -> Result<(), AllocError>
    requires { key + 1 < 2 ^ 64 }
    ensures { OnOk result (into.new ≡ into.old ++ move_line key) }
{
    into.push_str("UPDATE g SET id = ")?;
    push_decimal(into, key + 1)?;
    push_where(into, key)
}

/// Adds the statement on a key that a drawn number says.
#[tactic(auto, unfolding(crate::specs::Workloads::statement_line))]
pub(crate) fn push_statement(into: &mut Text, what: u64, key: u64) -> Result<(), AllocError>
    requires { key + 1 < 2 ^ 64 }
    ensures { OnOk result (into.new ≡ into.old ++ statement_line what key) }
{
    match what % 4 {
        0 => push_insert(into, key, what % 1000),
        1 => push_delete(into, key),
        2 => push_change(into, key, what % 1000),
        _ => push_move(into, key),
    }
}
