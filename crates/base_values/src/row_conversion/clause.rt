//! The clauses of ALTER TABLE.

use crate::{Kind, Name, Names, Sequence, Value};

/// One clause of ALTER TABLE (MySQL's manual, "ALTER TABLE Statement").
pub enum Clause {
    /// ADD COLUMN.
    Add {
        /// The added column.
        column: NewColumn,
        /// Where it is.
        column_position: ColumnPosition,
    },
    /// DROP COLUMN.
    Drop(Name),
    /// RENAME COLUMN.
    Rename {
        /// The column's name before.
        old: Name,
        /// Its name afterwards.
        new: Name,
    },
    /// CHANGE COLUMN, and MODIFY COLUMN with one name.
    Change {
        /// The column's name before.
        old: Name,
        /// What it is afterwards.
        column: NewColumn,
        /// Where it is.
        column_position: ColumnPosition,
    },
    /// ADD INDEX.
    AddIndex {
        /// The index's name, where one is written.
        name: Option<Name>,
        /// The names of its columns, in order.
        columns: Names,
    },
    /// DROP INDEX.
    DropIndex(Name),
}

// By hand, so that crates above prove it as one call.
impl Drop for Clause {
    fn drop(self) {
        match self {
            Clause::Add {
                column,
                column_position,
            } => {
                drop(column);
                drop(column_position);
            }
            Clause::Drop(name) | Clause::DropIndex(name) => drop(name),
            Clause::Rename { old, new } => {
                drop(old);
                drop(new);
            }
            Clause::Change {
                old,
                column,
                column_position,
            } => {
                drop(old);
                drop(column);
                drop(column_position);
            }
            Clause::AddIndex { name, columns } => {
                drop(name);
                drop(columns);
            }
        }
    }
}

/// A column as a clause writes it.
pub struct NewColumn {
    /// Its name, as it was written.
    pub name: Name,
    /// The kind of its values.
    pub kind: Kind,
    /// NULL or NOT NULL, where one is written.
    pub nullable: Option<bool>,
    /// The DEFAULT, where one is written.
    pub default: Option<Value>,
    /// Whether AUTO_INCREMENT is written.
    pub auto: bool,
}

// By hand, so that crates above prove it as one call.
impl Drop for NewColumn {
    fn drop(self) {
        let NewColumn {
            name,
            kind: _,
            nullable: _,
            default,
            auto: _,
        } = self;
        drop(name);
        drop(default);
    }
}

/// Where a clause puts its column.
#[derive(Drop)]
pub enum ColumnPosition {
    /// Nothing is written.
    Unsaid,
    /// FIRST.
    First,
    /// AFTER the column of this name.
    After(Name),
}

/// Clauses in order.
pub type Clauses = Sequence<Clause>;
