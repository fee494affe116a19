//! How many of each a plan has at most.

ghost use Rattle.std.specs.Prelude.{◌≡◌, ◌≤◌, false, map, nat_lt, length};
ghost use Rattle.std.specs.List.{sum_by};
ghost use Rattle.plan_data.specs.declared.plan.TheConstants.{CLIENT_LIMIT};
ghost use Rattle.plan_keys.specs.Limits.{row_count, has_too_many};
ghost use Rattle.plan_keys.specs.PlanKeys.{table_data, text_data};

use crate::texts::{PlanTexts, TableKeys};
use plan_data::CLIENT_LIMIT;

/// The most tables that a plan has. This project's rule.
pub const TABLE_LIMIT: usize = 8;

/// The most opening rows of all tables together. This project's rule.
pub const ROW_LIMIT: usize = 20_000;

/// The most losses of sessions that a plan names. This project's rule.
pub const FAULT_LIMIT: usize = 64;

fn have_more(limit: usize, tables: &[TableKeys<'_>]) -> bool
    ensures { result ≡ nat_lt limit (sum_by (λ table. length table.rows.items) tables.now) }
{
    let mut left = limit;
    for table in tables {
        let rows = table.rows.len();
        if left < rows {
            return true;
        }
        left -= rows;
    }
    false
}

/// Whether tables have more than `limit` rows together.
fn have_more_rows(limit: usize, tables: &[TableKeys<'_>]) -> bool
    ensures { result ≡ nat_lt limit (row_count (map table_data tables.now)) }
{
    have_more(limit, tables)
}

/// Whether a count is over its limit.
pub fn has_too_many(texts: &PlanTexts<'_>) -> bool
    ensures more { result ≡ has_too_many (text_data texts.now) }
    ensures clients { result ≡ false → length texts.now.clients.items ≤ CLIENT_LIMIT }
{
    texts.tables.len() > TABLE_LIMIT
        || have_more_rows(ROW_LIMIT, texts.tables.as_slice())
        || texts.clients.len() > CLIENT_LIMIT
        || texts.faults.len() > FAULT_LIMIT
}
