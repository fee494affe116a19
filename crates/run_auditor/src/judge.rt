//! What ended is judged, one at a time: each transaction has to have the replies that it has alone.

ghost use Rattle.std.specs.Prelude.{◌≡◌, ◌++◌, ◌∷◌, [], List, Some, OnOk};
ghost use Rattle.plan_data.specs.PlanData.{PlanData};
ghost use Rattle.run_audit.specs.Audits.{Judged, Altered, opening_tables};
ghost use Rattle.server_model.specs.LockedRows.Databases.{IsWellFormedDatabase};
ghost use Rattle.table_store.specs.Databases.{database};
ghost use Rattle.server_storage.specs.Storage.{committed};
ghost use Rattle.run_auditor.specs.Judging.{AltersTables, IsJudging, IsPlanned, IsSound};
ghost use Rattle.run_judge.specs.TraceClients.{AreJudged};

use crate::alone::run_alone;
use crate::altered_tables::altered_tables;
use plan_data::Plan;
use run_judge::least::least_with;
use run_judge::replies::least_mismatch;
use run_judge::trace_client::RepliedTxn;
use server_storage::Storage;
use std::alloc::{AllocError, Global};
use table_store::paged_tables::Tables;

/// The judge of what ended so far.
#[derive(Drop)]
pub struct Judge {
    /// The tables that were reached.
    pub storage: Storage,
    /// The least turn that is wrong.
    pub worst: Option<u64>,
    /// Whether the ALTER couldn't be done, after which nothing is judged.
    pub is_over: bool,
}

impl Judge {
    /// Nothing ended yet, over these tables.
    #[tactic(auto, using(crate::proofs::JudgedItems::none_judged))]
    pub fn new(alloc: Global, tables: Tables) -> Judge
        requires { IsWellFormedDatabase (database tables) }
        ensures judging { (plan : PlanData) → database tables ≡ opening_tables plan → IsJudging plan [] result }
        ensures sound { IsSound result }
        ensures tables { committed result.storage ≡ database tables }
    {
        Judge {
            storage: Storage::new(alloc, tables),
            worst: None,
            is_over: false,
        }
    }

    /// The tables that were reached.
    pub fn tables(&self) -> &Tables
        ensures { database result.now ≡ committed self.now.storage }
    {
        self.storage.tables()
    }

    /// A transaction ended.
    pub fn end(&mut self, alloc: Global, txn: &RepliedTxn) -> Result<(), AllocError>
        requires { IsSound self.old }
        ensures judging { (plan : PlanData) (items more : List Judged) → IsJudging plan items self.old → AreJudged more (Some txn.now) → OnOk result (IsJudging plan (items ++ more) self.new) }
        ensures sound { OnOk result (IsSound self.new) }
        ensures planned { (plan : PlanData) → IsPlanned plan (committed self.old.storage) → OnOk result (IsPlanned plan (committed self.new.storage)) }
    {
        if self.is_over {
            return Ok(());
        }
        let replies = run_alone(alloc, &mut self.storage, txn.lines.as_slice())?;
        self.worst = least_mismatch(txn.replies.as_slice(), replies.as_slice(), self.worst);
        Ok(())
    }

    /// The ALTER was done, in this turn.
    pub fn alter(&mut self, alloc: Global, plan: &Plan, turn: u64) -> Result<(), AllocError>
        requires sound { IsSound self.old }
        requires planned { IsPlanned plan.now (committed self.old.storage) }
        requires alters { AltersTables plan.now }
        ensures judging { (items : List Judged) → IsJudging plan.now items self.old → OnOk result (IsJudging plan.now (items ++ Altered turn ∷ []) self.new) }
        ensures sound { OnOk result (IsSound self.new) }
    {
        if self.is_over {
            return Ok(());
        }
        match altered_tables(alloc, plan, self.storage.tables())? {
            Some(tables) => {
                self.storage = Storage::new(alloc, tables);
                Ok(())
            }
            None => {
                self.worst = least_with(turn, self.worst);
                self.is_over = true;
                Ok(())
            }
        }
    }
}
