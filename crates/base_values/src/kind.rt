//! The kinds of columns.

/// The kind of a column's values (MySQL's manual, "Data Types").
#[derive(Clone, Copy)]
pub enum Kind {
    /// TINYINT, SMALLINT, MEDIUMINT, INT or BIGINT: whole numbers of 1, 2, 3, 4 or 8 bytes.
    Int {
        /// How many bytes a number takes.
        bytes: u8,
        /// Whether the numbers begin at 0.
        unsigned: bool,
    },
    /// VARCHAR: texts of at most this many characters.
    VarChar(u16),
    /// VARBINARY: at most this many bytes.
    VarBinary(u16),
}
