//! What the new tool looks at.

use base_script::Actor;
use base_values::Names;
use plan_data::Plan;
use server_api::Serve;
use server_model::Entry;

/// What the new tool looks at before it asks, and after an answer.
#[derive(Drop)]
pub struct FinishView<'a, V: Serve> {
    /// The plan of the migration.
    pub plan: &'a Plan,
    /// The turns so far, the run's among them.
    pub journal: &'a [Entry],
    /// The first actor, in their fixed order, that has a session.
    pub live: Option<Actor>,
    /// The server after the journal's turns.
    pub server: &'a V,
    /// The tables whose events the applier reads: the migrated one and the changelog.
    pub names: &'a Names,
}
