//! The locks of a session, and who blocks whom: of rows in `row_locks`, of names in `metadata_locks`. In `least_session` which
//! of several blockers an answer names.
#![tactic(auto)]

pub mod least_session;
pub mod metadata_locks;
pub mod row_locks;
