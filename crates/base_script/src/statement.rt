//! Statements over one table.

use base_values::{Duplicate, Name, Names, Row, Sequence, Value};
use std::alloc::AllocError;

/// A statement (MySQL's manual, "Data Manipulation Statements").
pub enum Statement {
    /// INSERT INTO table [(columns)] VALUES (values).
    Insert {
        /// Where the row goes.
        table: Name,
        /// The columns that are named, or none where no list is written.
        columns: Option<Names>,
        /// The values, in the order of the columns.
        values: Row,
        /// The number that is generated for the AUTO_INCREMENT column; none in the statement as it is written.
        drawn: Option<u64>,
    },
    /// REPLACE INTO table [(columns)] VALUES (values).
    Replace {
        /// Where the row goes.
        table: Name,
        /// The columns that are named, or none where no list is written.
        columns: Option<Names>,
        /// The values, in the order of the columns.
        values: Row,
        /// The number that is generated for the AUTO_INCREMENT column; none in the statement as it is written.
        drawn: Option<u64>,
    },
    /// DELETE FROM table [WHERE condition].
    Delete {
        /// Whose rows go.
        table: Name,
        /// Which rows go.
        condition: Condition,
    },
    /// UPDATE table SET sets [WHERE condition].
    Update {
        /// Whose rows change.
        table: Name,
        /// What their columns become.
        sets: Sets,
        /// Which rows change.
        condition: Condition,
    },
    /// SELECT shown FROM table [WHERE condition].
    Select {
        /// Whose rows are read.
        table: Name,
        /// What is shown of them.
        shown: Shown,
        /// Which rows are read.
        condition: Condition,
    },
}

/// Which rows a statement meets.
#[derive(Drop)]
pub enum Condition {
    /// All rows: no condition is written.
    All,
    /// Those whose columns equal these values.
    Equal(Sets),
    /// Those whose columns lie so.
    Range(Comparisons),
}

/// A column and a value: what it becomes in SET, what it equals in a condition.
pub struct Set {
    /// The column's name, as it was written.
    pub column: Name,
    /// What the column is set to, or is equal to.
    pub value: Value,
}

// By hand, so that crates above prove it as one call.
impl Drop for Set {
    fn drop(self) {
        let Set { column, value } = self;
        drop(column);
        drop(value);
    }
}

/// Columns and values in order.
pub type Sets = Sequence<Set>;

/// How a column lies to a value.
pub struct Comparison {
    /// The column's name, as it was written.
    pub column: Name,
    /// Which side it lies on.
    pub sign: Sign,
    /// What the column is compared with.
    pub value: Value,
}

// By hand, so that crates above prove it as one call.
impl Drop for Comparison {
    fn drop(self) {
        let Comparison {
            column,
            value,
            sign: _,
        } = self;
        drop(column);
        drop(value);
    }
}

/// Comparisons in order. `c BETWEEN a AND b` is the two of `c >= a` and `c <= b`.
pub type Comparisons = Sequence<Comparison>;

/// The sign of a comparison.
#[derive(Clone, Copy)]
pub enum Sign {
    /// `<`
    Less,
    /// `<=`
    AtMost,
    /// `>`
    More,
    /// `>=`
    AtLeast,
}

/// What SELECT shows.
#[derive(Drop)]
pub enum Shown {
    /// `*`: the values of all columns.
    All,
    /// The values of these columns, in this order.
    Columns(Names),
    /// COUNT(*): how many rows there are.
    Count,
}

// By hand, so that crates above prove it as one call.
impl Drop for Statement {
    fn drop(self) {
        match self {
            Statement::Insert {
                table,
                columns,
                values,
                drawn: _,
            }
            | Statement::Replace {
                table,
                columns,
                values,
                drawn: _,
            } => {
                drop(table);
                drop(columns);
                drop(values);
            }
            Statement::Delete { table, condition } => {
                drop(table);
                drop(condition);
            }
            Statement::Update {
                table,
                sets,
                condition,
            } => {
                drop(table);
                drop(sets);
                drop(condition);
            }
            Statement::Select {
                table,
                shown,
                condition,
            } => {
                drop(table);
                drop(shown);
                drop(condition);
            }
        }
    }
}

impl Duplicate for Set {
    fn copy(&self) -> Result<Set, AllocError> {
        Ok(Set {
            column: self.column.copy()?,
            value: self.value.copy()?,
        })
    }
}

impl Duplicate for Comparison {
    fn copy(&self) -> Result<Comparison, AllocError> {
        Ok(Comparison {
            column: self.column.copy()?,
            sign: self.sign,
            value: self.value.copy()?,
        })
    }
}

impl Duplicate for Condition {
    fn copy(&self) -> Result<Condition, AllocError> {
        Ok(match self {
            Condition::All => Condition::All,
            Condition::Equal(sets) => Condition::Equal(sets.copy()?),
            Condition::Range(comparisons) => Condition::Range(comparisons.copy()?),
        })
    }
}

impl Duplicate for Shown {
    fn copy(&self) -> Result<Shown, AllocError> {
        Ok(match self {
            Shown::All => Shown::All,
            Shown::Columns(names) => Shown::Columns(names.copy()?),
            Shown::Count => Shown::Count,
        })
    }
}

impl Duplicate for Statement {
    fn copy(&self) -> Result<Statement, AllocError> {
        Ok(match self {
            Statement::Insert {
                table,
                columns,
                values,
                drawn,
            } => Statement::Insert {
                table: table.copy()?,
                columns: columns.copy()?,
                values: values.copy()?,
                drawn: *drawn,
            },
            Statement::Replace {
                table,
                columns,
                values,
                drawn,
            } => Statement::Replace {
                table: table.copy()?,
                columns: columns.copy()?,
                values: values.copy()?,
                drawn: *drawn,
            },
            Statement::Delete { table, condition } => Statement::Delete {
                table: table.copy()?,
                condition: condition.copy()?,
            },
            Statement::Update {
                table,
                sets,
                condition,
            } => Statement::Update {
                table: table.copy()?,
                sets: sets.copy()?,
                condition: condition.copy()?,
            },
            Statement::Select {
                table,
                shown,
                condition,
            } => Statement::Select {
                table: table.copy()?,
                shown: shown.copy()?,
                condition: condition.copy()?,
            },
        })
    }
}
