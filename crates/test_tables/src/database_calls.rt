//! Calls on a database, as lines write them: for `test_calls`.

mod calls;

pub use calls::answers;
