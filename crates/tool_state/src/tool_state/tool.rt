//! The record of the whole tool.

use crate::tool_state::reason::Reason;
use crate::tool_state::tries::Tries;
use tool_program::chunk_copier::Copier;
use tool_program::cutover_core::CutOver;
use tool_program::event_applier::Applier;
use tool_program::tool_setup::{Operator, Setup};

/// The three machines, and the turns at which the chunk, the batch and the attempts failed so far.
#[derive(Drop)]
pub struct Work {
    /// How far the copier is.
    pub copier: Copier,
    /// The turns in which the chunk failed.
    pub chunk_tries: Tries,
    /// How far the applier is.
    pub applier: Applier,
    /// The turns in which the batch failed.
    pub batch_tries: Tries,
    /// How far the cut-over is.
    pub cutover: CutOver,
    /// The turns in which attempts failed.
    pub attempt_tries: Tries,
}

/// How far the tool is.
pub struct Tool {
    /// How many turns were taken.
    pub turns: u64,
    /// What the operator's commands have done.
    pub operator: Operator,
    /// The setup; none once the work after it has begun.
    pub setup: Option<Setup>,
    /// The turns in which the setup failed.
    pub setup_tries: Tries,
    /// The work after the setup; its machines are at their start until it begins.
    pub work: Work,
    /// Why all is reverted, where it is.
    pub reason: Option<Reason>,
    /// The turns in which the task that is the reason failed.
    pub spent: Tries,
}

// By hand: crates above then take it as one call, and don't prove the drop of each part again. The calls of `drop` have that of
// each type proved once.
impl Drop for Tool {
    fn drop(self) {
        let Tool {
            turns: _,
            operator: _operator,
            setup: _setup,
            setup_tries,
            work,
            reason: _reason,
            spent,
        } = self;
        drop(setup_tries);
        drop(work);
        drop(spent);
    }
}
