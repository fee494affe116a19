//! What a plan's texts order: the operator's commands, the losses of sessions, and in `turn_order` the order of turns; and the
//! words of which these are made.
#![tactic(auto)]

mod actors;
mod fault;
mod losses;
mod numbers;
mod operator;
mod spacing;
pub mod turn_order;

pub use actors::{actor_of, is_among};
pub use fault::{OrderFault, OrderRefusal};
pub use losses::{LOSS_LIMIT, read_fault};
pub use numbers::number_of;
pub use operator::{CHUNK_SIZE_LIMIT, WAIT_LIMIT, has_more_commands, read_operator};
pub use spacing::{parts_at, spaced_words};
