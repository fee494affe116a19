//! What the cut-over makes of an answer, of an applier's turn and of a revert. Nothing here takes memory.

ghost use Rattle.std.specs.Prelude.{◌≡◌, ◌+◌, ◌<◌, ◌≤◌};
ghost use Rattle.tool_program.specs.CutoverCore.Attempts.{new_cutover};
ghost use Rattle.tool_program.specs.CutoverCore.CutOvers.{left_at_end, seen, ending_after, finishing_after, inspector_phase, took, applier_turn, reverted, progress};

use crate::cutover_core::cutover::{Clearing, CutOver, Drain, Hold, Leftovers, Phase, Role, Stage};
use crate::cutover_core::listing::{lists_log, lists_new_table, lists_old_table, lists_sentry};
use crate::cutover_core::stages::{
    drain_of, finishing, hold_after, inspector_stage, is_bad, is_wait, locker_phase, renamer_phase,
    task_of, with_drain,
};
use plan_data::MigratedTable;
use server_model::{Answer, Progress, TableNames};

impl CutOver {
    /// A cut-over at its start.
    pub fn new(
        table: MigratedTable,
        drain_limit: u32,
        drops_old: bool,
        has_counter: bool,
    ) -> CutOver
        ensures { result ≡ new_cutover table drain_limit drops_old has_counter }
    {
        CutOver {
            table,
            drain_limit,
            drops_old,
            has_counter,
            attempts: 0,
            phase: Phase::Resting,
            hold: Hold::Nothing,
            renamer_waits: false,
            is_asked: false,
            is_stopped: false,
        }
    }

    fn left_at_end(&self, tables: &TableNames) -> Leftovers
        ensures { result ≡ left_at_end self.now tables.now }
    {
        Leftovers {
            log: lists_log(self.table.name(), tables),
            new_table: false,
            old: self.drops_old && lists_old_table(self.table.name(), tables),
        }
    }

    /// What the inspector sees at an attempt's end: where the new table is gone the RENAME was done.
    fn seen(&self, tables: &TableNames) -> Phase
        ensures { result ≡ seen self.now tables.now }
    {
        if !lists_new_table(self.table.name(), tables) {
            finishing(self.left_at_end(tables))
        } else if lists_sentry(self.table.name(), tables) {
            Phase::Ending(Clearing::Drops(Leftovers {
                log: false,
                new_table: false,
                old: true,
            }))
        } else {
            Phase::Resting
        }
    }

    fn ending_after(&self, clearing: Clearing, answer: &Answer) -> Phase
        ensures { result ≡ ending_after self.now clearing answer.now }
    {
        match (clearing, answer) {
            (_, Answer::Lost | Answer::TimedOut { .. }) => Phase::Ending(Clearing::Looking),
            (Clearing::Looking, Answer::Tables(tables)) => self.seen(tables),
            (Clearing::Drops(_), Answer::Ok(_)) => Phase::Resting,
            (clearing, _) => Phase::Ending(clearing),
        }
    }

    fn finishing_after(&self, clearing: Clearing, answer: &Answer) -> Phase
        ensures { result ≡ finishing_after self.now clearing answer.now }
    {
        match (clearing, answer) {
            (_, Answer::Lost | Answer::TimedOut { .. }) => Phase::Finishing(Clearing::Looking),
            (Clearing::Looking, Answer::Tables(tables)) => finishing(self.left_at_end(tables)),
            (Clearing::Drops(left), Answer::Ok(_)) => finishing(left.without_first()),
            (clearing, _) => Phase::Finishing(clearing),
        }
    }

    fn inspector_phase(&self, answer: &Answer) -> Phase
        ensures { result ≡ inspector_phase self.now self.now.phase answer.now }
    {
        match self.phase {
            Phase::Attempting(stage) => {
                if is_bad(answer) {
                    Phase::Ending(Clearing::Looking)
                } else {
                    Phase::Attempting(inspector_stage(self.has_counter, stage, answer))
                }
            }
            Phase::Ending(clearing) => self.ending_after(clearing, answer),
            Phase::Finishing(clearing) => self.finishing_after(clearing, answer),
            phase => phase,
        }
    }

    /// Takes the answer that a call of one of the three got, a wait among them. Where a session that held the table lock
    /// or waited is lost between calls, that counts as the answer `Lost`.
    #[tactic(auto, unfolding(crate::specs::CutoverCore::CutOvers::took))]
    pub fn took(&mut self, role: Role, answer: &Answer)
        requires { self.old.attempts < u64.MAX }
        ensures took { self.new ≡ took role self.old answer.now }
        ensures attempts { self.new.attempts ≤ self.old.attempts + 1 }
    {
        match role {
            Role::Inspector => self.phase = self.inspector_phase(answer),
            Role::Locker => {
                if self.phase.is_resting() {
                    self.attempts += 1;
                    self.is_asked = false;
                }
                self.hold = hold_after(self.hold, self.phase, answer);
                self.phase = locker_phase(self.phase, answer);
            }
            Role::Renamer => {
                self.phase = renamer_phase(self.phase, answer);
                self.renamer_waits = is_wait(answer);
                self.is_asked = true;
            }
        }
    }

    /// What an answer to one of the three means for the cut-over, before it is taken.
    #[tactic(auto, unfolding(crate::specs::CutoverCore::CutOvers::progress, crate::specs::CutoverCore::CutOvers::took))]
    pub fn progress(&self, role: Role, answer: &Answer) -> Progress
        ensures { result ≡ progress role self.now answer.now }
    {
        if is_bad(answer) {
            return Progress::TaskFailed;
        }
        let after = match role {
            Role::Inspector => self.inspector_phase(answer),
            Role::Locker => locker_phase(self.phase, answer),
            Role::Renamer => renamer_phase(self.phase, answer),
        };
        task_of(self.phase, after, answer)
    }

    /// Counts a turn of the applier, not a loss between calls, with the attempt of the last hint row that its position
    /// has passed: the attempt is drained, or the applier has no turn left.
    #[tactic(auto, unfolding(crate::specs::CutoverCore::CutOvers::applier_turn))]
    pub fn applier_turn(&mut self, hint: u128)
        ensures { self.new ≡ applier_turn hint self.old }
    {
        let Phase::Attempting(stage) = self.phase else {
            return;
        };
        if let Some(Drain::Turns(turns)) = drain_of(stage) {
            self.phase = if hint == u128::from(self.attempts) {
                Phase::Attempting(with_drain(stage, Drain::Passed))
            } else if turns >= self.drain_limit || turns + 1 == self.drain_limit {
                Phase::Ending(Clearing::Looking)
            } else {
                Phase::Attempting(with_drain(stage, Drain::Turns(turns + 1)))
            };
        }
    }

    /// From here on an attempt that is under way ends, unless the sentry is dropped already, and no other begins.
    #[tactic(auto, unfolding(crate::specs::CutoverCore::CutOvers::reverted))]
    pub fn revert(&mut self)
        ensures { self.new ≡ reverted self.old }
    {
        self.is_stopped = true;
        match self.phase {
            Phase::Attempting(Stage::Unlocking | Stage::Exchanging) => {}
            Phase::Attempting(_) => self.phase = Phase::Ending(Clearing::Looking),
            _ => {}
        }
    }
}
