//! The statements on the new table.

ghost use Rattle.std.specs.Prelude.{◌≡◌, ◌==◌, Some, IfOk};
ghost use Rattle.std.specs.List.{list_any};
ghost use Rattle.base_values.specs.RowConversion.ConvertedRows.{source};
ghost use Rattle.server_model.specs.LostCalls.{begins_with_zero, lost_of};
ghost use Rattle.server_model.specs.declared.request.Request.TheVariants.{Do};
ghost use Rattle.tool_program.specs.EventApplier.Appliers.{value_at, given_values, sets, name_at, by_key, statement_of};
ghost use Rattle.tool_program.specs.EventApplier.BatchPlans.{meant};

use crate::event_applier::applier::Applier;
use crate::event_applier::batch_plan::Planned;
use base_script::{Condition, Set, Sets, Statement};
use base_values::gho_schema::{Column, Schema};
use base_values::row_conversion::{MapColumn, source};
use base_values::{Duplicate, Name, Row, Sequence, Shared, Value};
use server_model::{LostCall, is_zero};
use std::alloc::{AllocError, Global};

fn value_of(column: &MapColumn, row: &[Value]) -> Result<Value, AllocError>
    ensures { IfOk result (λ value. value ≡ source column.now.origin row.now) }
{
    let null = Value::Null;
    source(&column.origin, row, &null).copy()
}

/// The values for all new columns, before they are stored.
fn given_values(alloc: Global, map: &[MapColumn], row: &[Value]) -> Result<Row, AllocError>
    ensures { IfOk result (λ values. values ≡ given_values map.now row.now) }
{
    let mut values = Sequence::new(alloc);
    for column in map {
        values.push(value_of(column, row)?)?;
    }
    Shared::from_sequence(values)
}

/// Whether the values for all new columns begin with the number 0.
fn given_zero(map: &[MapColumn], row: &[Value]) -> bool
    ensures { result ≡ begins_with_zero (given_values map.now row.now) }
{
    let null = Value::Null;
    match map {
        [first, ..] => is_zero(source(&first.origin, row, &null)),
        [] => false,
    }
}

/// The name of the column at a place; empty where there is none.
pub fn name_at(columns: &[Column], place: usize) -> &str
    ensures { result.now ≡ name_at columns.now place }
{
    match columns.get(place) {
        Some(column) => column.name.as_str(),
        None => "",
    }
}

#[tactic(auto, using(crate::proofs::EventApplier::RowKeys::keys))]
fn value_at(map: &[MapColumn], row: &[Value], place: usize) -> Result<Value, AllocError>
    ensures { IfOk result (λ value. value ≡ value_at (given_values map.now row.now) place) }
{
    match map.get(place) {
        Some(column) => value_of(column, row),
        None => Ok(Value::Null),
    }
}

/// Whether the place is one of the others.
fn is_among(place: usize, others: &[usize]) -> bool
    ensures { result ≡ list_any (λ other. place == other) others.now }
{
    others.iter().any(|other| place == *other)
}

/// The new table's row with this row's clustered key.
fn by_key(
    alloc: Global,
    schema: &Schema,
    map: &[MapColumn],
    row: &[Value],
) -> Result<Condition, AllocError>
    ensures { IfOk result (λ condition. condition ≡ by_key schema.now map.now row.now) }
{
    let mut sets = Sequence::new(alloc);
    let mut rest = schema.key_places();
    while let Some((place, others)) = rest.split_first() {
        if !is_among(*place, others) {
            sets.push(Set {
                column: Name::new(alloc, name_at(schema.columns.as_slice(), *place))?,
                value: value_at(map, row, *place)?,
            })?;
        }
        rest = others;
    }
    Ok(Condition::Equal(sets))
}

/// Each column with its value.
fn sets(
    alloc: Global,
    columns: &[Column],
    map: &[MapColumn],
    row: &[Value],
) -> Result<Sets, AllocError>
    ensures { IfOk result (λ made. made ≡ sets columns.now (given_values map.now row.now)) }
{
    let mut made = Sequence::new(alloc);
    for column in columns {
        let Some(new) = map.get(made.len()) else {
            return Ok(made);
        };
        made.push(Set {
            column: column.name.copy()?,
            value: value_of(new, row)?,
        })?;
    }
    Ok(made)
}

impl Applier {
    /// What a journal keeps of the statement that does what is planned, where that is lost before it is done.
    pub(crate) fn lost_statement(&self, planned: Planned<'_>) -> LostCall
        ensures { Some result ≡ lost_of (Do (statement_of self.now (meant planned.entry))) }
    {
        match planned {
            Planned::Put(row) => LostCall::Replace(given_zero(self.map.as_slice(), row.as_slice())),
            Planned::Remove(_) | Planned::Change(..) => LostCall::Other,
        }
    }

    /// The statement that does what is planned.
    pub(crate) fn statement_of(
        &self,
        alloc: Global,
        planned: Planned<'_>,
    ) -> Result<Statement, AllocError>
        ensures { IfOk result (λ statement. statement ≡ statement_of self.now (meant planned.entry)) }
    {
        let map = self.map.as_slice();
        let table = self.new_schema.name.copy()?;
        match planned {
            Planned::Put(row) => Ok(Statement::Replace {
                table,
                columns: None,
                values: given_values(alloc, map, row.as_slice())?,
                drawn: None,
            }),
            Planned::Remove(row) => Ok(Statement::Delete {
                table,
                condition: by_key(alloc, &self.new_schema, map, row.as_slice())?,
            }),
            Planned::Change(before, after) => Ok(Statement::Update {
                table,
                sets: sets(
                    alloc,
                    self.new_schema.columns.as_slice(),
                    map,
                    after.as_slice(),
                )?,
                condition: by_key(alloc, &self.new_schema, map, before.as_slice())?,
            }),
        }
    }
}
