//! The errors of MySQL that the server gives, under MySQL's own symbols (its manual, "Server Error Message Reference"). The
//! line over each is MySQL's message.

/// Column '%s' cannot be null
pub const ER_BAD_NULL_ERROR: u16 = 1048;

/// Table '%s' already exists
pub const ER_TABLE_EXISTS_ERROR: u16 = 1050;

/// Unknown table '%s'
pub const ER_BAD_TABLE_ERROR: u16 = 1051;

/// Unknown column '%s' in '%s'
pub const ER_BAD_FIELD_ERROR: u16 = 1054;

/// Duplicate entry '%s' for key '%s'
pub const ER_DUP_ENTRY: u16 = 1062;

/// Table '%s' was not locked with LOCK TABLES
pub const ER_TABLE_NOT_LOCKED: u16 = 1100;

/// Column '%s' specified twice
pub const ER_FIELD_SPECIFIED_TWICE: u16 = 1110;

/// Column count doesn't match value count at row %ld
pub const ER_WRONG_VALUE_COUNT_ON_ROW: u16 = 1136;

/// Table '%s.%s' doesn't exist
pub const ER_NO_SUCH_TABLE: u16 = 1146;

/// Lock wait timeout exceeded; try restarting transaction
pub const ER_LOCK_WAIT_TIMEOUT: u16 = 1205;

/// This version of MySQL doesn't yet support '%s'
pub const ER_NOT_SUPPORTED_YET: u16 = 1235;

/// Out of range value for column '%s' at row %ld
pub const ER_WARN_DATA_OUT_OF_RANGE: u16 = 1264;

/// Field '%s' doesn't have a default value
pub const ER_NO_DEFAULT_FOR_FIELD: u16 = 1364;

/// Incorrect %s value: '%s' for column '%s' at row %ld
pub const ER_TRUNCATED_WRONG_VALUE_FOR_FIELD: u16 = 1366;

/// Data too long for column '%s' at row %ld
pub const ER_DATA_TOO_LONG: u16 = 1406;
