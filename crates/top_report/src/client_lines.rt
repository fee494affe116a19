//! What a report says of clients: what each got, and the history of their transactions.

mod numbers;
mod pasts;
mod replies;
mod walk;

pub use numbers::{push_count, push_number_line};
pub use pasts::push_history_line;
pub use replies::push_clients;
