//! Why a text gives no schema.

ghost use Rattle.std.specs.Prelude.{◌≡◌};

use base_values::Fault;

/// Why a text of CREATE TABLE is refused, each with its number.
#[derive(Clone, Copy, Debug)]
pub enum SchemaCode {
    /// 10: the text isn't CREATE TABLE as this program reads it.
    Syntax,
    /// 11: the text has what MySQL has and this program doesn't.
    Scope,
    /// 11 in version 1 of the plan: AUTO_INCREMENT is where it doesn't fit. In version 2 that is a mistake like others, 10.
    AutoIncrement,
    /// 12: two columns or two keys have one name.
    RepeatedName,
    /// 13: a key names no column.
    UnknownKeyColumn,
    /// 14: there is no PRIMARY KEY, and no UNIQUE key whose columns are all NOT NULL.
    NoClusteredKey,
    /// 15: there are more than 64 columns.
    TooManyColumns,
    /// 16: there are more than 8 unique keys, or more than 8 others.
    TooManyKeys,
    /// 17: a name of the table or of a column is empty or too long.
    NameTooLong,
    /// 18: the table's name is kept for the migration's own tables.
    ReservedName,
    /// 19: a column doesn't store its default, or the defaults are too long together.
    BadDefault,
    /// 32: a column may not have AUTO_INCREMENT, or the number at which it starts is out of its range.
    AutoColumn,
}

impl SchemaCode {
    ghost use Rattle.sql_grammar.specs.Codes.{schema_code, schema_number, schema_name};

    /// The refusal's number and its name.
    fn code(self) -> (u16, &'static str)
        ensures { (result.0, result.1.now) ≡ schema_code self }
    {
        match self {
            SchemaCode::Syntax => (10, "schema_syntax"),
            SchemaCode::Scope | SchemaCode::AutoIncrement => (11, "schema_scope"),
            SchemaCode::RepeatedName => (12, "repeated_name"),
            SchemaCode::UnknownKeyColumn => (13, "unknown_key_column"),
            SchemaCode::NoClusteredKey => (14, "no_clustered_key"),
            SchemaCode::TooManyColumns => (15, "too_many_columns"),
            SchemaCode::TooManyKeys => (16, "too_many_keys"),
            SchemaCode::NameTooLong => (17, "name_too_long"),
            SchemaCode::ReservedName => (18, "reserved_name"),
            SchemaCode::BadDefault => (19, "bad_default"),
            SchemaCode::AutoColumn => (32, "auto_column"),
        }
    }

    /// The refusal's number.
    pub fn number(self) -> u16
        ensures { result ≡ schema_number self }
    {
        self.code().0
    }

    /// The refusal's name.
    pub fn name(self) -> &'static str
        ensures { result.now ≡ schema_name self }
    {
        self.code().1
    }
}

/// Why a text isn't read: it is refused, or there is no memory.
pub type SchemaFault = Fault<SchemaCode>;
