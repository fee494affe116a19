//! Who blocks the names that a request mentions: the least session that holds one, or asked earlier for it. It is asked of the
//! table of names.

mod blockers;
mod listing;
mod mentions;

pub use blockers::names_blocker;
pub use listing::waits_shown;
pub use mentions::{is_exclusive, is_outside, names_in};
