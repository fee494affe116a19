//! Why a plan's tables aren't read.

ghost use Rattle.std.specs.Prelude.{◌≡◌};

use base_values::Fault;
use sql_grammar::SchemaCode;
use std::alloc::{AllocError, AllocFailed};
use thiserror::Error;

/// Why the tables of a plan are refused.
#[derive(Clone, Copy, Debug)]
pub enum TableRefusal {
    /// 10 to 19 and 32: the text of a CREATE TABLE is refused; 12 also where a table before has the name.
    Schema {
        /// Why it is refused.
        code: SchemaCode,
        /// The table's number in the plan, from 1.
        table: u32,
    },
    /// 58: a text is no list of literals, one a column, each of which the column stores, or the row clashes with one
    /// before it.
    BadRow {
        /// The table's number in the plan, from 1.
        table: u32,
        /// The row's number in the table, from 1.
        row: u32,
    },
}

impl TableRefusal {
    ghost use Rattle.plan_reader.specs.PlanTables.Refusals.{table_code};

    /// The refusal's number and its name.
    pub fn code(self) -> (u16, &'static str)
        ensures { (result.0, result.1.now) ≡ table_code self }
    {
        match self {
            TableRefusal::Schema { code, .. } => (code.number(), code.name()),
            TableRefusal::BadRow { .. } => (58, "bad_row"),
        }
    }
}

/// Why a row isn't read.
#[derive(Debug, Drop, Error)]
pub enum RowFault {
    /// It is no row, or one that clashes.
    #[error("the row is bad")]
    Bad,
    /// There is no memory for it.
    #[error("out of memory")]
    Memory,
}

impl From<AllocError> for RowFault {
    ghost use Rattle.plan_reader.specs.declared.plan_tables.fault.RowFault.TheVariants.{Memory};

    ghost from_gives = { λ _ e. e ≡ Memory };

    fn from(_error: AllocError) -> RowFault {
        RowFault::Memory
    }
}

impl<T: Drop> From<AllocFailed<T>> for RowFault {
    ghost use Rattle.plan_reader.specs.declared.plan_tables.fault.RowFault.TheVariants.{Memory};

    ghost from_gives = { λ _ e. e ≡ Memory };

    fn from(_error: AllocFailed<T>) -> RowFault {
        RowFault::Memory
    }
}

/// Why the tables of a plan aren't read: it is refused, or there is no memory.
pub type TableFault = Fault<TableRefusal>;
