//! A plan's document.

ghost use Rattle.std.specs.Prelude.{◌≤◌, length, IfOk, Some};
ghost use Rattle.std.specs.List.{AllByRecursion};
ghost use Rattle.table_store.specs.Databases.{database};
ghost use Rattle.toml.specs.View.{table_view};
ghost use Rattle.sql_create.specs.Laws.{ReadSchemasAreValid};
ghost use Rattle.plan_data.specs.declared.plan.TheConstants.{CLIENT_LIMIT};
ghost use Rattle.plan_data.specs.PlanParts.{data_of};
ghost use Rattle.plan_keys.specs.PlanKeys.{keys_of, key_data};
ghost use Rattle.plan_reader.specs.PlanTables.Tables.{IsSound};
ghost use Rattle.plan_reader.specs.Openings.{opening_data};
ghost use Rattle.plan_reader.specs.Orders.{order_data};
ghost use Rattle.plan_reader.specs.Plans.{plan_of, keys_in, plan_at, document, read};
ghost use Rattle.plan_reader.specs.Refusals.{of_keys, or_refused};
ghost use Rattle.base_values.specs.Faults.{Answers};
ghost use Rattle.plan_reader.specs.declared.fault.PlanRefusal.TheVariants.{NotToml};

use crate::clients::clients_of;
use crate::fault::{PlanFault, PlanRefusal};
use crate::limits::PLAN_LIMIT;
use crate::openings::opening_of;
use crate::orders::{few_orders, orders_of};
use base_values::{Name, because};
use plan_data::{MigratedTable, Plan, PlanParts};
use plan_keys::{PlanKeys, keys_of};
use std::alloc::Global;
use toml::Table;

/// What the keys say.
fn said_keys<'a>(alloc: Global, document: &'a Table) -> Result<PlanKeys<'a>, PlanFault>
    ensures keys { Answers key_data result (of_keys (keys_of (table_view document.now))) }
    ensures few { IfOk result (λ keys. length keys.texts.clients.items ≤ CLIENT_LIMIT) }
{
    because(keys_of(alloc, document), PlanRefusal::Keys)
}

/// What the keys say, and how many of each there are.
#[tactic(auto, unfolding(crate::specs::Plans::keys_in))]
fn keys_in<'a>(alloc: Global, document: &'a Table) -> Result<PlanKeys<'a>, PlanFault>
    ensures keys { Answers key_data result (keys_in (table_view document.now)) }
    ensures few { IfOk result (λ keys. length keys.texts.clients.items ≤ CLIENT_LIMIT) }
{
    let keys = said_keys(alloc, document)?;
    few_orders(alloc, keys)
}

/// The plan that a document is.
#[tactic(auto, unfolding(crate::specs::Plans::plan_at))]
fn plan_at(alloc: Global, document: &Table) -> Result<Plan, PlanFault>
    requires { ReadSchemasAreValid }
    ensures plan { Answers (λ plan. plan) result (plan_at (table_view document.now)) }
    ensures sound { IfOk result (λ plan. AllByRecursion IsSound plan.tables) }
{
    let keys = keys_in(alloc, document)?;
    let name = Name::new(alloc, keys.texts.table)?;
    let table = MigratedTable::new(alloc, name)?;
    let opening = opening_of(alloc, &table, &keys)?;
    let clients = clients_of(alloc, &table, keys.texts.clients.as_slice())?;
    let orders = orders_of(alloc, clients.len() as u32, &keys.texts)?;
    let parts = PlanParts {
        table,
        alter: opening.alter,
        tables: opening.tables,
        clients,
        operator: orders.operator,
        faults: orders.faults,
        turns: orders.turns,
        options: keys.options,
    };
    Ok(Plan::new(parts, opening.new))
}

#[tactic(auto, unfolding(crate::specs::Plans::document))]
fn document_of(alloc: Global, bytes: &[u8]) -> Result<Table, PlanFault>
    ensures { Answers (λ table. table_view table) result (or_refused NotToml (document bytes.now)) }
{
    match toml::table_from_slice(alloc, bytes) {
        Ok(table) => Ok(table),
        Err(fault) => {
            if fault.is_memory() {
                Err(PlanFault::Memory)
            } else {
                Err(PlanFault::Refused(PlanRefusal::NotToml))
            }
        }
    }
}

/// The plan that these bytes are: its tables are tables of valid schemas. That schemas which are read are valid is a law:
/// `law_texts::schemas` proves it.
#[tactic(auto, unfolding(crate::specs::Plans::read))]
pub fn read_plan(alloc: Global, bytes: &[u8]) -> Result<Plan, PlanFault>
    requires { ReadSchemasAreValid }
    ensures plan { Answers (λ plan. plan) result (read bytes.now) }
    ensures sound { IfOk result (λ plan. AllByRecursion IsSound plan.tables) }
{
    if bytes.len() > PLAN_LIMIT {
        return Err(PlanFault::Refused(PlanRefusal::TooLong));
    }
    let document = document_of(alloc, bytes)?;
    plan_at(alloc, &document)
}
