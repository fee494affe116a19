//! Plans, as they were read, and what a journal of one means.
#![tactic(auto)]

mod migrated_table;
mod options;
mod plan;
mod runs;

pub use migrated_table::MigratedTable;
pub use options::Options;
pub use plan::{AlteredSchema, CLIENT_LIMIT, Losses, Plan, PlanParts, Scripts};
pub use runs::{ActorRun, ActorRuns};
