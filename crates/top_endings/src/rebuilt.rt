//! What a rebuild refuses, and what is printed of its table.

ghost use Rattle.std.specs.Prelude.{◌≡◌, ◌++◌, IfSome, IfOk, OnOk};
ghost use Rattle.table_print.specs.Tables.{row_lines};
ghost use Rattle.top_endings.specs.declared.status.Status.TheVariants as statuses;
ghost use Rattle.top_endings.specs.Rebuilt.{has_second_unique, rebuilt_text, unfit_text};

use crate::printed::Printed;
use crate::status::Status;
use base_values::Text;
use plan_data::Plan;
use std::alloc::{AllocError, Global};
use std::slice;
use table_print::{push_row_lines, push_schema_line};
use table_store::paged_tables::row_pages::{SpanRows, Table};

/// Whether the schema that a plan's ALTER leaves has a second unique key.
pub fn has_second_unique(plan: &Plan) -> bool
    ensures { result ≡ has_second_unique plan.now }
{
    plan.altered().schema.uniques.len() > 1
}

/// Adds each row on a line of its own.
#[tactic(auto, unfolding(table_print::specs::Tables::row_lines))]
fn push_rows(into: &mut Text, rows: SpanRows<'_>) -> Result<(), AllocError>
    ensures { OnOk result (into.new ≡ into.old ++ row_lines rows.entry) }
{
    for row in rows {
        push_row_lines(into, slice::from_ref(row))?;
    }
    Ok(())
}

/// The text of a rebuilt table.
fn text_of(alloc: Global, table: &Table) -> Result<Text, AllocError>
    ensures { IfOk result (λ text. text ≡ rebuilt_text table.now.table.schema table.now.table.rows) }
{
    let mut text = Text::new(alloc);
    text.push_str("done\nrebuilt ")?;
    push_schema_line(&mut text, table.schema())?;
    push_rows(&mut text, table.rows())?;
    Ok(text)
}

/// What is printed of a rebuilt table.
pub fn rebuilt_shown(alloc: Global, table: &Table) -> Option<Printed>
    ensures { IfSome result (λ printed. printed ≡ record { status = statuses.Done; text = rebuilt_text table.now.table.schema table.now.table.rows }) }
{
    match text_of(alloc, table) {
        Ok(text) => Some(Printed {
            status: Status::Done,
            text,
        }),
        Err(_) => None,
    }
}

/// The text of an unfit row.
fn text_of_unfit(alloc: Global, place: usize) -> Result<Text, AllocError>
    ensures { IfOk result (λ text. text ≡ unfit_text place) }
{
    let mut text = Text::new(alloc);
    text.push_str("done\nunfit ")?;
    text.push_number(place as i128)?;
    text.push_str("\n")?;
    Ok(text)
}

/// What is printed where the row at this place among those that are seen, from 0, has no converted row.
pub fn unfit_shown(alloc: Global, place: usize) -> Option<Printed>
    ensures { IfSome result (λ printed. printed ≡ record { status = statuses.Done; text = unfit_text place }) }
{
    match text_of_unfit(alloc, place) {
        Ok(text) => Some(Printed {
            status: Status::Done,
            text,
        }),
        Err(_) => None,
    }
}
