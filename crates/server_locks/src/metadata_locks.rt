//! Locks on names of tables: who holds which, who waits, and who refuses whom.

mod grants;
pub mod laws;
mod locks;
mod refusals;
mod request;
mod waits;

pub use locks::MetaLocks;
pub use request::LockAnswer;
