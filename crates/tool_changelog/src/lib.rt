//! The tool's tables: the changelog's schema and its rows (hints, heartbeats, checkpoints), and the sentry's schema. Their names are `base_values::tool_names`.
#![tactic(auto)]

mod checkpoint;
mod heartbeat;
mod hints;
mod tables;

pub use checkpoint::{CHECKPOINT_HINT, Reach, checkpoint_row, checkpoint_value};
pub use heartbeat::{HEARTBEAT_BASE, HEARTBEAT_HINT, heartbeat_row};
pub use hints::{hint_of, hint_row, last_hint};
pub use tables::{SENTRY_COMMENT, log_schema, sentry_schema};
