//! What is known of every journal: meanings and lemmas, and no function. In `Ghost` the ghost relation, in `Sentry` the
//! sentry relation, in `Run` what a run goes by from turn to turn, in `Machine` what each machine's step says of its
//! session, in `ServerTurns` what one turn leaves to other sessions. The crate `law_journals` says as contracts what they come to.
#![tactic(auto)]

pub mod server_facts;
