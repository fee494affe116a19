//! A statement's work.

ghost use Rattle.std.specs.Prelude.{◌≡◌, option_copied, IfOk};
ghost use Rattle.server_prepare.specs.Sets.{set_at};
ghost use Rattle.server_model.specs.Checks.{stored_set, sets_from, selection_of, update_of, select_of, or_refused, work_of};

use crate::columns::{are_distinct, beside, places_named};
use crate::drawn_rows::drawn_row;
use crate::parts::{set_columns, set_values};
use crate::reach::reach_of;
use crate::refusals::{Checked, refuses};
use base_script::{Condition, Set, Shown, Statement};
use base_values::gho_schema::{Column, Schema};
use base_values::mysql_errors::ER_FIELD_SPECIFIED_TWICE;
use base_values::row_conversion::UnfitAt;
use base_values::{Row, Sequence, StoreFault, Value, store};
use server_model::{ColumnSets, Reach, Selection, Work};
use std::alloc::{AllocError, Global};

/// What one column is set to, where it is, or that it refuses its value.
fn column_set(
    alloc: Global,
    place: usize,
    column: &Column,
    value: Option<&Value>,
) -> Result<Result<Option<Value>, UnfitAt>, AllocError>
    ensures { IfOk result (λ set. set ≡ set_at place (stored_set column.now (option_copied value.entry))) }
{
    let Some(value) = value else {
        return Ok(Ok(None));
    };
    match store(alloc, value, column.kind, column.nullable) {
        Ok(value) => Ok(Ok(Some(value))),
        Err(StoreFault::Refused(unfit)) => Ok(Err(UnfitAt {
            column: place,
            unfit,
        })),
        Err(StoreFault::Memory) => Err(AllocError),
    }
}

/// What the columns are set to, or the first that doesn't store its value.
#[tactic(auto, unfolding(server_model::specs::Checks::sets_from))]
fn sets_from(
    alloc: Global,
    columns: &[Column],
    places: &[usize],
    values: &[Value],
) -> Result<Result<ColumnSets, UnfitAt>, AllocError>
    ensures { IfOk result (λ sets. sets ≡ sets_from 0 columns.now places.now values.now) }
{
    let mut sets = Sequence::new(alloc);
    let mut place = 0;
    for column in columns {
        let set = match column_set(alloc, place, column, beside(place, places, values))? {
            Ok(set) => set,
            Err(at) => return Ok(Err(at)),
        };
        sets.push(set)?;
        place += 1;
    }
    Ok(Ok(sets))
}

/// What a SELECT selects.
fn selection_of(
    alloc: Global,
    schema: &Schema,
    shown: &Shown,
) -> Result<Checked<Selection>, AllocError>
    ensures { IfOk result (λ selection. selection ≡ selection_of schema.now shown.now) }
{
    match shown {
        Shown::All => Ok(Ok(Selection::AllColumns)),
        Shown::Columns(names) => match places_named(alloc, schema, names.as_slice())? {
            Ok(places) => Ok(Ok(Selection::Columns(places))),
            Err(refusal) => Ok(Err(refusal)),
        },
        Shown::Count => Ok(Ok(Selection::Count)),
    }
}

/// An UPDATE's work: its columns are checked first, then its condition.
fn update_of(
    alloc: Global,
    schema: &Schema,
    sets: &[Set],
    condition: &Condition,
) -> Result<Checked<Work>, AllocError>
    ensures { IfOk result (λ work. work ≡ update_of schema.now sets.now condition.now) }
{
    let names = set_columns(alloc, sets)?;
    let places = match places_named(alloc, schema, names.as_slice())? {
        Ok(places) => places,
        Err(refusal) => return Ok(Err(refusal)),
    };
    if !are_distinct(places.as_slice()) {
        return Ok(Err(refuses(ER_FIELD_SPECIFIED_TWICE)));
    }
    let reach = match reach_of(alloc, schema, condition)? {
        Ok(reach) => reach,
        Err(refusal) => return Ok(Err(refusal)),
    };
    let values = set_values(alloc, sets)?;
    let sets = sets_from(
        alloc,
        schema.columns.as_slice(),
        places.as_slice(),
        values.as_slice(),
    )?;
    Ok(Ok(Work::Update { reach, sets }))
}

/// A SELECT's work: its columns are checked first, then its condition.
fn select_of(
    alloc: Global,
    schema: &Schema,
    shown: &Shown,
    condition: &Condition,
) -> Result<Checked<Work>, AllocError>
    ensures { IfOk result (λ work. work ≡ select_of schema.now shown.now condition.now) }
{
    let selection = match selection_of(alloc, schema, shown)? {
        Ok(selection) => selection,
        Err(refusal) => return Ok(Err(refusal)),
    };
    match reach_of(alloc, schema, condition)? {
        Ok(reach) => Ok(Ok(Work::Select { reach, selection })),
        Err(refusal) => Ok(Err(refusal)),
    }
}

/// The work of a row that is written, or that the statement is refused.
pub fn insert_work(row: Checked<Row>) -> Work
    ensures { result ≡ or_refused row Work.Insert }
{
    match row {
        Ok(row) => Work::Insert(row),
        Err(refusal) => Work::Refuse(refusal),
    }
}

/// The work of a row that REPLACE writes in place of those with a key of its, or that the statement is refused.
pub fn replace_work(row: Checked<Row>) -> Work
    ensures { result ≡ or_refused row Work.Replace }
{
    match row {
        Ok(row) => Work::Replace(row),
        Err(refusal) => Work::Refuse(refusal),
    }
}

fn delete_work(reach: Checked<Reach>) -> Work
    ensures { result ≡ or_refused reach Work.Delete }
{
    match reach {
        Ok(reach) => Work::Delete(reach),
        Err(refusal) => Work::Refuse(refusal),
    }
}

fn work_or_refusal(work: Checked<Work>) -> Work
    ensures { result ≡ or_refused work (λ work. work) }
{
    match work {
        Ok(work) => work,
        Err(refusal) => Work::Refuse(refusal),
    }
}

/// What a statement is to do on a table of this schema.
#[tactic(auto, unfolding(server_model::specs::Checks::work_of))]
pub fn work_of(alloc: Global, schema: &Schema, statement: &Statement) -> Result<Work, AllocError>
    ensures { IfOk result (λ work. work ≡ work_of schema.now statement.now) }
{
    match statement {
        Statement::Insert {
            columns,
            values,
            drawn,
            ..
        } => {
            let row = drawn_row(alloc, schema, columns, values.as_slice(), *drawn)?;
            Ok(insert_work(row))
        }
        Statement::Replace {
            columns,
            values,
            drawn,
            ..
        } => {
            let row = drawn_row(alloc, schema, columns, values.as_slice(), *drawn)?;
            Ok(replace_work(row))
        }
        Statement::Delete { condition, .. } => {
            Ok(delete_work(reach_of(alloc, schema, condition)?))
        }
        Statement::Update {
            sets,
            condition,
            ..
        } => {
            let work = update_of(alloc, schema, sets.as_slice(), condition)?;
            Ok(work_or_refusal(work))
        }
        Statement::Select {
            shown,
            condition,
            ..
        } => Ok(work_or_refusal(select_of(alloc, schema, shown, condition)?)),
    }
}
