//! A table as CREATE TABLE writes it.

use base_values::{Chars, Kind, Name, Names, Sequence};
use sql_grammar::{Attribute, Attributes, KeyText};

/// A column as it is written.
#[derive(Drop)]
pub struct WrittenColumn {
    /// Its name.
    pub name: Name,
    /// The kind of its values.
    pub kind: Kind,
    /// What follows its kind.
    pub attributes: ColumnAttributes,
}

/// What follows a column's kind.
#[derive(Drop)]
pub struct ColumnAttributes {
    /// NULL, NOT NULL and DEFAULT.
    pub plain: Attributes,
    /// Whether PRIMARY KEY is written.
    pub is_primary: bool,
    /// Whether UNIQUE is written.
    pub is_unique: bool,
}

/// An attribute of a column.
#[derive(Drop)]
pub enum ColumnAttribute {
    /// PRIMARY KEY.
    Primary,
    /// UNIQUE.
    Unique,
    /// One that makes no key.
    Plain(Attribute),
}

/// A key that isn't the PRIMARY KEY.
#[derive(Drop)]
pub struct WrittenKey {
    /// Whether it is UNIQUE.
    pub is_unique: bool,
    /// Its name, where one is written, and its columns.
    pub text: KeyText,
}

/// An item between a table's parentheses.
#[derive(Drop)]
pub enum Item {
    /// A column.
    Column(WrittenColumn),
    /// The columns of a PRIMARY KEY.
    Primary(Names),
    /// Another key.
    Key(WrittenKey),
}

/// Items in order.
pub type Items = Sequence<Item>;

/// A whole text.
#[derive(Drop)]
pub struct WrittenTable {
    /// The table's name.
    pub name: Name,
    /// Its columns and keys, in order.
    pub items: Items,
    /// What follows its closing parenthesis.
    pub options: TableOptions,
}

/// The options of a table that count.
#[derive(Drop)]
pub struct TableOptions {
    /// Its comment; empty where none is written.
    pub comment: Chars,
    /// The number that AUTO_INCREMENT writes, where it is written.
    pub start: Option<i128>,
}

impl ColumnAttributes {
    ghost use Rattle.std.specs.Prelude.{◌≡◌};
    ghost use Rattle.sql_create.specs.Columns.{unwritten_column, with_column_attribute};

    /// Nothing is written.
    pub fn new() -> ColumnAttributes
        ensures { result ≡ unwritten_column }
    {
        ColumnAttributes {
            plain: Attributes::new(),
            is_primary: false,
            is_unique: false,
        }
    }

    /// One attribute more.
    pub fn with(self, attribute: ColumnAttribute) -> ColumnAttributes
        ensures { result ≡ with_column_attribute self attribute }
    {
        let ColumnAttributes {
            plain,
            is_primary,
            is_unique,
        } = self;
        match attribute {
            ColumnAttribute::Primary => ColumnAttributes {
                plain,
                is_primary: true,
                is_unique,
            },
            ColumnAttribute::Unique => ColumnAttributes {
                plain,
                is_primary,
                is_unique: true,
            },
            ColumnAttribute::Plain(attribute) => ColumnAttributes {
                plain: plain.with(attribute),
                is_primary,
                is_unique,
            },
        }
    }
}
