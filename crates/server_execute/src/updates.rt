//! What an UPDATE says: its rows change one by one, each seen as the changes before have left the table. Their new rows are made
//! before: the values that the columns are set to (`sets`) are passed on for the contracts alone.

ghost use Rattle.std.specs.Prelude.{◌≡◌, ◌++◌, ◌∷◌, [], map, not, true, List, Err, IfOk, OnOk};
ghost use Rattle.std.specs.List.{list_any};
ghost use Rattle.base_values.specs.declared.value.Value.{Value};
ghost use Rattle.base_values.specs.declared.gho_schema.schema.Schema.{Schema};
ghost use Rattle.base_values.specs.GhoSchema.Rows.{key_places};
ghost use Rattle.base_values.specs.declared.event.Change.TheVariants as changes;
ghost use Rattle.server_model.specs.Rows.{same_row, stands};
ghost use Rattle.server_model.specs.StatementResults.{clashes_besides, with_sets, updates, result_or_refusal, updated};
ghost use Rattle.server_model.specs.LockedRows.Coverage.{IsWellFormedTable, SetsFit};
ghost use Rattle.server_execute.specs.ReadyResult.{as_result};
ghost use Rattle.server_execute.specs.RowUpdates.{row_update, AreMet};
ghost use Rattle.server_seen.specs.Written.{wrote};
ghost use Rattle.server_seen.specs.Written as writes;

use crate::change_lists::{Changes, ReadyResult, only};
use base_values::gho_schema::key_of;
use base_values::mysql_errors::ER_DUP_ENTRY;
use base_values::row_conversion::UnfitAt;
use base_values::{Change, Duplicate, Row, Sequence, Value};
use server_model::Answer;
use server_prepare::{Checked, refuses, refuses_value};
use server_seen::{SeenTable, WrittenRows};
use std::alloc::{AllocError, Global};
use table_store::paged_tables::row_pages::Table;

/// What an UPDATE makes of one row.
#[derive(Clone, Copy)]
pub enum RowUpdate {
    /// It stays as it is.
    Same,
    /// Its new row clashes with another one.
    Clashes,
    /// It becomes its new row.
    Becomes,
}

/// Whether one of the rows is another than this one.
fn has_another(row: &Row, rows: &[Row]) -> bool
    ensures { result ≡ list_any (λ other. not (same_row row.now other)) rows.now }
{
    rows.iter().any(|other| !row.cmp(other).is_eq())
}

/// Whether the new row clashes with one besides the row that it takes the place of, where the table is seen through what
/// the changes before wrote.
#[tactic(auto, using(crate::proofs::ChangedRows::any_among))]
fn clashes_besides(
    alloc: Global,
    seen: &SeenTable<'_>,
    written: &WrittenRows,
    new: &Row,
    old: &Row,
) -> Result<bool, AllocError>
    requires { written.now.schema ≡ seen.now.schema }
    ensures { IfOk result (λ clashes. clashes ≡ clashes_besides seen.now.schema new.now old.now (writes.seen (key_places seen.now.schema) written.now.written seen.now.rows)) }
{
    let clashing = seen.displaced_through(alloc, written, new)?;
    Ok(has_another(old, clashing.as_slice()))
}

/// Whether the new row clashes with one of the table besides the row that it takes the place of.
fn clashes_in(alloc: Global, table: &Table, new: &Row, old: &Row) -> Result<bool, AllocError>
    requires { stands old.now table.now.table.rows ≡ true }
    ensures { IfOk result (λ clashes. clashes ≡ clashes_besides table.now.table.schema new.now old.now table.now.table.rows) }
{
    let schema = table.schema();
    let key = key_of(alloc, schema.key_places(), old.as_slice())?;
    match table.clash(new, Some(&key)) {
        Some(_) => Ok(true),
        None => Ok(false),
    }
}

/// Whether the new row clashes with one besides the row that it takes the place of, where no row was changed before.
#[tactic(auto, using(crate::proofs::ChangedRows::any_among))]
fn clashes_at_first(
    alloc: Global,
    seen: &SeenTable<'_>,
    new: &Row,
    old: &Row,
) -> Result<bool, AllocError>
    requires { stands old.now seen.now.rows ≡ true }
    ensures { IfOk result (λ clashes. clashes ≡ clashes_besides seen.now.schema new.now old.now seen.now.rows) }
{
    if let Some(table) = seen.unwritten_table() {
        return clashes_in(alloc, table, new, old);
    }
    let clashing = seen.displaced(alloc, new)?;
    Ok(has_another(old, clashing.as_slice()))
}

/// What the UPDATE makes of one row, where the table is seen through what the changes before wrote.
fn row_update(
    alloc: Global,
    seen: &SeenTable<'_>,
    written: &WrittenRows,
    old: &Row,
    new: &Row,
) -> Result<RowUpdate, AllocError>
    requires { written.now.schema ≡ seen.now.schema }
    ensures { IfOk result (λ update. update ≡ row_update seen.now.schema old.now new.now (writes.seen (key_places seen.now.schema) written.now.written seen.now.rows)) }
{
    if old.cmp(new).is_eq() {
        return Ok(RowUpdate::Same);
    }
    if clashes_besides(alloc, seen, written, new, old)? {
        return Ok(RowUpdate::Clashes);
    }
    Ok(RowUpdate::Becomes)
}

/// Writes a row's change down, and adds it to those before.
fn push_change(
    alloc: Global,
    written: &mut WrittenRows,
    all: &mut Changes,
    old: &Row,
    new: &Row,
) -> Result<(), AllocError>
    ensures schema { written.new.schema ≡ written.old.schema }
    ensures written { OnOk result (written.new.written ≡ wrote (key_places written.old.schema) (changes.Update old.now new.now) written.old.written) }
    ensures all { OnOk result (all.new ≡ all.old ++ changes.Update old.now new.now ∷ []) }
{
    let change = Change::Update(old.copy()?, new.copy()?);
    written.write(alloc, &change)?;
    all.push(change)
}

/// The changes of rows that an UPDATE reaches, or `ER_DUP_ENTRY`.
fn updates(
    alloc: Global,
    seen: &SeenTable<'_>,
    sets: &[Option<Value>],
    met: &[Row],
    made: &[Row],
) -> Result<Checked<Changes>, AllocError>
    requires well_formed { IsWellFormedTable seen.now }
    requires sets { SetsFit seen.now.schema.columns sets.now }
    requires met { AreMet (key_places seen.now.schema) met.now seen.now.rows }
    requires made { made.now ≡ map (with_sets sets.now) met.now }
    ensures { IfOk result (λ all. all ≡ updates seen.now.schema sets.now met.now seen.now.rows) }
{
    let mut all = Sequence::new(alloc);
    let mut written = WrittenRows::new(alloc, seen.schema())?;
    for (place, old) in met.iter().enumerate() {
        let new = &made[place];
        match row_update(alloc, seen, &written, old, new)? {
            RowUpdate::Same => {}
            RowUpdate::Clashes => return Ok(Err(refuses(ER_DUP_ENTRY))),
            RowUpdate::Becomes => push_change(alloc, &mut written, &mut all, old, new)?,
        }
    }
    Ok(Ok(all))
}

/// The change of the one row that an UPDATE reaches, or `ER_DUP_ENTRY`. No other row is looked at after it, so what it
/// writes isn't written down.
#[tactic(auto, unfolding(server_model::specs::StatementResults::updates))]
fn update_of_one(
    alloc: Global,
    seen: &SeenTable<'_>,
    sets: &[Option<Value>],
    old: &Row,
    new: &Row,
) -> Result<Checked<Changes>, AllocError>
    requires stands { stands old.now seen.now.rows ≡ true }
    requires made { new.now ≡ with_sets sets.now old.now }
    ensures { IfOk result (λ all. all ≡ updates seen.now.schema sets.now (old.now ∷ []) seen.now.rows) }
{
    let mut all = Sequence::new(alloc);
    if old.cmp(new).is_eq() {
        return Ok(Ok(all));
    }
    if clashes_at_first(alloc, seen, new, old)? {
        return Ok(Err(refuses(ER_DUP_ENTRY)));
    }
    all.push(Change::Update(old.copy()?, new.copy()?))?;
    Ok(Ok(all))
}

/// As many rows as are changed, or the refusal.
fn result_or_refusal(alloc: Global, changes: Checked<Changes>) -> ReadyResult
    ensures { as_result result ≡ result_or_refusal changes }
{
    match changes {
        Ok(changes) => ReadyResult {
            answer: Answer::Ok(changes.len() as u64),
            changes,
        },
        Err(refusal) => only(alloc, refusal),
    }
}

/// What an UPDATE says of the rows that it reaches.
pub fn updated(
    alloc: Global,
    seen: &SeenTable<'_>,
    sets: &[Option<Value>],
    met: &[Row],
    made: &[Row],
) -> Result<ReadyResult, AllocError>
    requires well_formed { IsWellFormedTable seen.now }
    requires sets { SetsFit seen.now.schema.columns sets.now }
    requires met { AreMet (key_places seen.now.schema) met.now seen.now.rows }
    requires made { made.now ≡ map (with_sets sets.now) met.now }
    ensures { IfOk result (λ executed. as_result executed ≡ result_or_refusal (updates seen.now.schema sets.now met.now seen.now.rows)) }
{
    let changes = match met {
        [old] => update_of_one(alloc, seen, sets, old, &made[0])?,
        met => updates(alloc, seen, sets, met, made)?,
    };
    Ok(result_or_refusal(alloc, changes))
}

/// What an UPDATE says whose values don't store: it is refused at the first row that it reaches.
pub fn updated_unfit(alloc: Global, at: UnfitAt, met: &[Row]) -> ReadyResult
    ensures { (schema : Schema) (rows : List (List Value)) → as_result result ≡ updated schema (Err at) met.now rows }
{
    if met.is_empty() {
        only(alloc, Answer::Ok(0))
    } else {
        only(alloc, refuses_value(at))
    }
}
