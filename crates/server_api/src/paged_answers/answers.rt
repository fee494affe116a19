//! What is answered of one committed table, or that it doesn't exist.

ghost use Rattle.std.specs.Prelude.{◌≡◌, option_map, IfOk};
ghost use Rattle.base_values.specs.GhoSchema.Rows.{key_places};
ghost use Rattle.table_store.specs.Databases.{database, find_table};
ghost use Rattle.server_model.specs.Answers.{refuses};
ghost use Rattle.server_model.specs.Chunks.{keys_of, ends_of, chunk_end, span_keys};
ghost use Rattle.server_model.specs.Effects.{all_exist, of_table};

use crate::paged_answers::chunk::{chunk_end, ends_of, span_keys};
use base_values::mysql_errors::ER_NO_SUCH_TABLE;
use base_values::{Bound, Key, Name, Span};
use server_model::Answer;
use std::alloc::{AllocError, Global};
use table_store::paged_tables::Tables;

/// A refusal by this number.
pub fn refuses(number: u16) -> Answer
    ensures { result ≡ refuses number }
{
    Answer::Refused {
        number,
        column: None,
    }
}

/// The least and the greatest clustered key of the table.
pub fn ends(alloc: Global, tables: &Tables, table: &Name) -> Result<Answer, AllocError>
    ensures { IfOk result (λ answer. answer ≡ of_table (find_table table.now (database tables.now)) (λ t. ends_of (keys_of (key_places t.schema) t.rows))) }
{
    match tables.find(table) {
        Some(table) => ends_of(alloc, table),
        None => Ok(refuses(ER_NO_SUCH_TABLE)),
    }
}

/// Where the next chunk of the table ends.
pub fn end_of_chunk(
    alloc: Global,
    tables: &Tables,
    table: &Name,
    low: &Bound,
    top: &Key,
    size: u32,
) -> Result<Answer, AllocError>
    ensures { IfOk result (λ answer. answer ≡ of_table (find_table table.now (database tables.now)) (λ t. Answer.End (chunk_end low.now top.now size t))) }
{
    match tables.find(table) {
        Some(table) => Ok(Answer::End(chunk_end(alloc, low, top, size, table)?)),
        None => Ok(refuses(ER_NO_SUCH_TABLE)),
    }
}

/// The keys of a span of the table, `size` at most, and where the chunk ends; none where the table doesn't exist.
pub fn keys_of_span(
    alloc: Global,
    tables: &Tables,
    table: &Name,
    span: &Span,
    size: u32,
) -> Result<Option<Answer>, AllocError>
    ensures { IfOk result (λ answer. answer ≡ option_map (span_keys span.now size) (find_table table.now (database tables.now))) }
{
    match tables.find(table) {
        Some(table) => Ok(Some(span_keys(alloc, span, size, table)?)),
        None => Ok(None),
    }
}

/// Whether tables of all these names exist.
pub fn all_exist(tables: &Tables, names: &[Name]) -> bool
    ensures { result ≡ all_exist names.now (database tables.now) }
{
    for name in names {
        if !tables.stands(name) {
            return false;
        }
    }
    true
}
