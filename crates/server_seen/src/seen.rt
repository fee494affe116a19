//! A table as a transaction sees it.

ghost use Rattle.std.specs.Prelude.{◌≡◌, option_copied, IfOk, IfSome};
ghost use Rattle.base_values.specs.GhoSchema.Rows.{key_places};
ghost use Rattle.base_values.specs.GhoSchema.Tables.{Ascends};
ghost use Rattle.table_store.specs.Databases.{row_at_key};
ghost use Rattle.server_model.specs.Rows.{rows_met};
ghost use Rattle.server_model.specs.StatementResults.{displaced};

use crate::met_rows::{rows_clashing, rows_met};
use crate::written::WrittenRows;
use base_values::gho_schema::Schema;
use base_values::{Key, Row, Rows};
use server_model::Reach;
use std::alloc::{AllocError, Global};
use std::marker::Model;
use table_store::paged_tables::row_pages::Table;

/// The committed rows of a table with what a transaction wrote to it. Contracts see a table of the rows that are seen.
#[derive(Drop)]
pub struct SeenTable<'a> {
    table: &'a Table,
    written: Option<&'a WrittenRows>,
}

impl<'a> Model for SeenTable<'a> {
    ghost use Rattle.std.specs.Prelude.{◌≡◌, option_copied, IfSome};
    ghost use Rattle.base_values.specs.GhoSchema.Rows.{key_places};
    ghost use Rattle.table_store.specs.Databases.{TableRows};
    ghost use Rattle.server_seen.specs.Stored.{written_in};
    ghost use Rattle.server_seen.specs.Written.{seen};

    ghost Value = { TableRows };

    ghost view = { λ s. record { schema = s.table.now.table.schema; rows = seen (key_places s.table.now.table.schema) (written_in (option_copied s.written)) s.table.now.table.rows } };

    ghost invariant = { λ s. IfSome (option_copied s.written) (λ writes. writes.schema ≡ s.table.now.table.schema) };
}

impl<'a> SeenTable<'a> {
    ghost use Rattle.server_seen.specs.Written.{nothing, seen};

    /// The table with what was written to it.
    pub fn new(table: &'a Table, written: &'a WrittenRows) -> SeenTable<'a>
        requires { written.now.schema ≡ table.now.table.schema }
        ensures schema { result.schema ≡ table.now.table.schema }
        ensures rows { result.rows ≡ seen (key_places table.now.table.schema) written.now.written table.now.table.rows }
    {
        SeenTable {
            table,
            written: Some(written),
        }
    }

    /// The table, where nothing was written to it.
    pub fn unwritten(table: &'a Table) -> SeenTable<'a>
        ensures schema { result.schema ≡ table.now.table.schema }
        ensures rows { result.rows ≡ seen (key_places table.now.table.schema) nothing table.now.table.rows }
    {
        SeenTable {
            table,
            written: None,
        }
    }

    /// Its schema. The rows are in order of the clustered key.
    pub fn schema(&self) -> &'a Schema
        ensures schema { result.now ≡ self.now.schema }
        ensures ascends { Ascends (key_places self.now.schema) self.now.rows }
    {
        match self.written {
            Some(written) => {
                // For the prover: `schema` says that what was written is well formed (`IsWritten`).
                let _written = written.schema();
                self.table.schema()
            }
            None => self.table.schema(),
        }
    }

    /// The table itself, where nothing was written to it.
    pub fn unwritten_table(&self) -> Option<&'a Table>
        ensures schema { IfSome (option_copied result) (λ table. table.table.schema ≡ self.now.schema) }
        ensures rows { IfSome (option_copied result) (λ table. table.table.rows ≡ self.now.rows) }
    {
        match self.written {
            Some(_) => None,
            None => Some(self.table),
        }
    }

    /// The row of this key. It takes no memory.
    pub fn row_of(&self, key: &Key) -> Option<&'a Row>
        ensures { option_copied result ≡ row_at_key self.now key.now }
    {
        let Some(written) = self.written else {
            return self.table.get(key);
        };
        match written.row_of(key) {
            Some(row) => Some(row),
            None => {
                if written.touches(key) {
                    None
                } else {
                    self.table.get(key)
                }
            }
        }
    }

    /// The rows that a condition reaches, in order.
    pub fn met(&self, alloc: Global, reach: &Reach) -> Result<Rows, AllocError>
        ensures { IfOk result (λ rows. rows ≡ rows_met self.now.schema reach.now self.now.rows) }
    {
        let Some(written) = self.written else {
            return rows_met(alloc, self.table, reach);
        };
        // For the prover: both `schema` say that the rows are in order of the clustered key.
        let _schema = self.table.schema();
        let _written = written.schema();
        let below = rows_met(alloc, self.table, reach)?;
        let mine = written.met(alloc, reach)?;
        written.over(alloc, mine, below)
    }

    /// The rows that clash with a new one, in order.
    pub fn displaced(&self, alloc: Global, new: &Row) -> Result<Rows, AllocError>
        ensures { IfOk result (λ rows. rows ≡ displaced self.now.schema new.now self.now.rows) }
    {
        let Some(written) = self.written else {
            return rows_clashing(alloc, self.table, new);
        };
        // For the prover: both `schema` say that the rows are in order of the clustered key.
        let _schema = self.table.schema();
        let _written = written.schema();
        let below = rows_clashing(alloc, self.table, new)?;
        let mine = written.clashing(alloc, new)?;
        written.over(alloc, mine, below)
    }

    /// The rows that clash with a new one, in order, where the table is seen through what was written later besides.
    pub fn displaced_through(
        &self,
        alloc: Global,
        later: &WrittenRows,
        new: &Row,
    ) -> Result<Rows, AllocError>
        requires { later.now.schema ≡ self.now.schema }
        ensures { IfOk result (λ rows. rows ≡ displaced self.now.schema new.now (seen (key_places self.now.schema) later.now.written self.now.rows)) }
    {
        // For the prover: both `schema` say that the rows are in order of the clustered key.
        let _schema = self.schema();
        let _later = later.schema();
        let below = self.displaced(alloc, new)?;
        let mine = later.clashing(alloc, new)?;
        later.over(alloc, mine, below)
    }
}
