//! A run of a plan on a server, turn by turn.

mod counting;
mod opening;
mod requests;
mod turn;
mod turns;

pub use counting::{Counts, has_work, is_busy, is_open, recount};
pub use opening::{close_session, open_session};
pub use requests::{Heard, ask};
pub use turn::Turn;
pub use turns::{Taken, take_turn};
