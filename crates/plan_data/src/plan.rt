//! A plan: what to migrate, by which ALTER, and what clients, operator and faults do meanwhile.

ghost use Rattle.std.specs.Prelude.{◌≡◌, ◌≤◌, length, Some};
ghost use Rattle.table_store.specs.Databases.{database};
ghost use Rattle.plan_data.specs.PlanData.{plan_altered};
ghost use Rattle.plan_data.specs.PlanParts.{data_of};

use crate::migrated_table::MigratedTable;
use crate::options::Options;
use crate::runs::ActorRuns;
use base_script::{Commands, Loss, Script};
use base_values::gho_schema::Schema;
use base_values::row_conversion::{Clauses, ColumnMap};
use base_values::{Name, Sequence};
use std::marker::Model;
use table_store::paged_tables::Tables;

/// The most clients that a plan has. This project's rule.
pub const CLIENT_LIMIT: usize = 64;

/// The scripts of the clients, in the clients' order.
pub type Scripts = Sequence<Script>;

/// Losses of sessions, in the plan's order.
pub type Losses = Sequence<Loss>;

/// What a plan says, part by part.
#[derive(Drop)]
pub struct PlanParts {
    /// The table to migrate.
    pub table: MigratedTable,
    /// The clauses of the ALTER.
    pub alter: Clauses,
    /// The opening tables, in the plan's order.
    pub tables: Tables,
    /// The clients' scripts, in the clients' order.
    pub clients: Scripts,
    /// The operator's commands.
    pub operator: Commands,
    /// The losses of sessions.
    pub faults: Losses,
    /// The order of turns that is asked for.
    pub turns: ActorRuns,
    /// The options, each with its default where the plan doesn't say.
    pub options: Options,
}

/// What a plan's ALTER makes of its table.
#[derive(Drop)]
pub struct AlteredSchema {
    /// The schema that the ALTER leaves.
    pub schema: Schema,
    /// Where the values of each of its columns come from.
    pub map: ColumnMap,
}

/// An accepted plan: its ALTER can be done, and it has at most 64 clients.
pub struct Plan {
    parts: PlanParts,
    altered: AlteredSchema,
}

// By hand: crates above then take it as one call, and don't prove the drop of each part again.
impl Drop for Plan {
    fn drop(self) {
        let Plan { parts, altered } = self;
        drop(parts);
        drop(altered);
    }
}

impl Model for Plan {
    ghost use Rattle.plan_data.specs.PlanData.{PlanData};
    ghost use Rattle.plan_data.specs.PlanParts.{data_of, IsPlan};

    ghost Value = { PlanData };

    ghost view = { λ p. data_of p.parts };

    ghost invariant = { λ p. IsPlan (data_of p.parts) p.altered };
}

impl Plan {
    /// A plan of these parts, whose ALTER leaves this schema.
    pub fn new(parts: PlanParts, altered: AlteredSchema) -> Plan
        requires altered { plan_altered (data_of parts) ≡ Some (altered.schema, altered.map) }
        requires few { length parts.clients ≤ CLIENT_LIMIT }
        ensures { result ≡ data_of parts }
    {
        Plan { parts, altered }
    }

    /// What the ALTER makes of the plan's table.
    pub fn altered(&self) -> &AlteredSchema
        ensures { plan_altered self.now ≡ Some (result.now.schema, result.now.map) }
    {
        &self.altered
    }

    /// The name of the table to migrate.
    pub fn table(&self) -> &Name
        ensures { result.now ≡ self.now.table }
    {
        self.parts.table.name()
    }

    /// The table to migrate, with the names of the tool's tables.
    pub fn migrated(&self) -> &MigratedTable
        ensures { result.now ≡ self.now.table }
    {
        &self.parts.table
    }

    /// The ALTER's clauses.
    pub fn alter(&self) -> &Clauses
        ensures { result.now ≡ self.now.alter }
    {
        &self.parts.alter
    }

    /// The opening tables, in the plan's order.
    pub fn tables(&self) -> &Tables
        ensures { database result.now ≡ self.now.tables }
    {
        &self.parts.tables
    }

    /// The clients' scripts, in the clients' order.
    pub fn clients(&self) -> &Scripts
        ensures clients { result.now ≡ self.now.clients }
        ensures few { length self.now.clients ≤ CLIENT_LIMIT }
    {
        &self.parts.clients
    }

    /// The operator's commands.
    pub fn operator(&self) -> &Commands
        ensures { result.now ≡ self.now.operator }
    {
        &self.parts.operator
    }

    /// The losses of sessions.
    pub fn faults(&self) -> &Losses
        ensures { result.now ≡ self.now.faults }
    {
        &self.parts.faults
    }

    /// The order of turns that is asked for.
    pub fn turns(&self) -> &ActorRuns
        ensures { result.now ≡ self.now.turns }
    {
        &self.parts.turns
    }

    /// The options, each with its default where the plan doesn't say.
    pub fn options(&self) -> Options
        ensures { result ≡ self.now.options }
    {
        self.parts.options
    }
}
