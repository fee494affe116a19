//! Why an ALTER is refused.

ghost use Rattle.std.specs.Prelude.{◌≡◌};

use base_values::Fault;

/// Why an ALTER is refused, each with its number.
#[derive(Clone, Copy, Debug)]
pub enum AlterCode {
    /// 20: the text isn't ALTER TABLE as this program reads it.
    Syntax,
    /// 21: a column or an index isn't there.
    UnknownName,
    /// 22: a column or an index of that name is there.
    RepeatedName,
    /// 23: a column of a unique key is dropped.
    KeyColumnDropped,
    /// 24: a column of a unique key is converted to another sort of kind.
    KeyColumnConverted,
    /// 25: a unique key is added.
    AddUnique,
    /// 26: the clustered key is changed.
    ClusteredKeyChange,
    /// 27: an added column has no default, a default isn't stored, or the defaults are too long together.
    Default,
    /// 28: a column gets another name, and that isn't approved.
    RenameNotApproved,
    /// 29: the table is renamed.
    RenameTable,
    /// 30: no column is left.
    AllColumnsDropped,
    /// 31: the ALTER has what MySQL has and this program doesn't.
    Scope,
}

impl AlterCode {
    ghost use Rattle.sql_change.specs.Codes.{alter_code, alter_number, alter_name};

    /// The refusal's number and its name.
    fn code(self) -> (u16, &'static str)
        ensures { (result.0, result.1.now) ≡ alter_code self }
    {
        match self {
            AlterCode::Syntax => (20, "alter_syntax"),
            AlterCode::UnknownName => (21, "unknown_name"),
            AlterCode::RepeatedName => (22, "repeated_column"),
            AlterCode::KeyColumnDropped => (23, "key_column_dropped"),
            AlterCode::KeyColumnConverted => (24, "key_column_converted"),
            AlterCode::AddUnique => (25, "add_unique"),
            AlterCode::ClusteredKeyChange => (26, "clustered_key_change"),
            AlterCode::Default => (27, "default"),
            AlterCode::RenameNotApproved => (28, "rename_not_approved"),
            AlterCode::RenameTable => (29, "rename_table"),
            AlterCode::AllColumnsDropped => (30, "all_columns_dropped"),
            AlterCode::Scope => (31, "alter_scope"),
        }
    }

    /// The refusal's number.
    pub fn number(self) -> u16
        ensures { result ≡ alter_number self }
    {
        self.code().0
    }

    /// The refusal's name.
    pub fn name(self) -> &'static str
        ensures { result.now ≡ alter_name self }
    {
        self.code().1
    }
}

/// Why an ALTER isn't read or taken: it is refused, or there is no memory.
pub type AlterFault = Fault<AlterCode>;
