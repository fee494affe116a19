//! What a server answers of its committed tables, as they are: ends of keys, chunks of a copy, the list of tables.

mod answers;
mod chunk;
mod listing;

pub use answers::{all_exist, end_of_chunk, ends, keys_of_span, refuses};
pub use listing::tables_shown;
