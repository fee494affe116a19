//! How many of each a plan has at most, and how many bytes.

/// How many bytes a plan has at most: 16 MiB. This project's rule.
pub const PLAN_LIMIT: usize = 16_777_216;

/// The most lines with a command that the operator's text has. This project's rule.
pub const COMMAND_LIMIT: u64 = 1_000;

/// The most turns that a plan's order asks for. This project's rule.
pub const ORDER_LIMIT: u64 = 1_000_000;

/// The most statements that the scripts of all clients have together. This project's rule.
pub const STATEMENT_LIMIT: usize = 50_000;

/// The most SELECTs without an equality that the scripts of all clients have together. This project's rule.
pub const OPEN_SELECT_LIMIT: usize = 64;
