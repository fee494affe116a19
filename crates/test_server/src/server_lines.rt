//! Calls of sessions on a server, as lines write them, and what is printed of the answers: for `test_server`.

mod calls;
mod requests;
mod results;

pub use calls::answers;
pub use requests::names_of;
