//! Which column may have AUTO_INCREMENT, and where it starts.

ghost use Rattle.std.specs.Prelude.{◌≡◌, ◌==◌, count_by, nat_le};
ghost use Rattle.std.specs.List.{list_all, slice_get};
ghost use Rattle.base_values.specs.Faults.{Answers};
ghost use Rattle.base_values.specs.GhoSchema.AutoIncrement.{is_only};
ghost use Rattle.sql_create.specs.AutoColumn.{may_count, is_counter, counts_at, is_counting, start_of, counting};

use base_values::Kind;
use base_values::gho_schema::{Column, Schema, auto_place, is_widest};
use sql_grammar::{SchemaCode, SchemaFault};

/// The greatest number at which a column starts: the greatest of a BIGINT.
const START_LIMIT: i128 = 9_223_372_036_854_775_807;

fn may_count(kind: Kind) -> bool
    ensures { result ≡ may_count kind }
{
    matches!(kind, Kind::Int { .. }) && !is_widest(kind)
}

fn is_counter(columns: &[Column], place: usize) -> bool
    ensures { result ≡ is_counter (slice_get columns.now place) }
{
    match columns.get(place) {
        Some(column) => may_count(column.kind) && column.default.is_none(),
        None => false,
    }
}

fn are_all(place: usize, places: &[usize]) -> bool
    ensures { result ≡ list_all (λ other. other == place) places.now }
{
    places.iter().all(|other| *other == place)
}

// A key may name its column twice, as in PRIMARY KEY (id, id).
fn is_only(place: usize, places: &[usize]) -> bool
    ensures { result ≡ is_only place places.now }
{
    match places {
        [] => false,
        [own, others @ ..] => *own == place && are_all(place, others),
    }
}

fn counts_at(schema: &Schema, place: Option<usize>) -> bool
    ensures { result ≡ counts_at schema.now place }
{
    match place {
        None => true,
        Some(place) => {
            is_only(place, schema.key_places()) && is_counter(schema.columns.as_slice(), place)
        }
    }
}

fn have_few_counters(columns: &[Column]) -> bool
    ensures { result ≡ nat_le (count_by (λ column. column.auto) columns.now) 1 }
{
    columns.iter().filter(|column| column.auto).count() <= 1
}

fn is_counting(schema: &Schema) -> bool
    ensures { result ≡ is_counting schema.now }
{
    have_few_counters(schema.columns.as_slice()) && counts_at(schema, auto_place(schema))
}

fn start_of(place: Option<usize>, written: Option<i128>) -> Result<Option<u64>, SchemaFault>
    ensures { Answers (λ start. start) result (start_of place written) }
{
    match place {
        None => Ok(None),
        Some(_) => match written {
            None => Ok(None),
            Some(number) => {
                if number < 1 || START_LIMIT < number {
                    Err(SchemaFault::Refused(SchemaCode::AutoColumn))
                } else {
                    Ok(Some(number as u64))
                }
            }
        },
    }
}

/// The schema, where its AUTO_INCREMENT column may be one and may start at the number that is written.
pub fn counting(written: Option<i128>, mut schema: Schema) -> Result<Schema, SchemaFault>
    ensures { Answers (λ schema. schema) result (counting written schema) }
{
    if !is_counting(&schema) {
        return Err(SchemaFault::Refused(SchemaCode::AutoColumn));
    }
    schema.start = start_of(auto_place(&schema), written)?;
    Ok(schema)
}
