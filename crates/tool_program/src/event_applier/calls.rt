//! What the applier asks next.

ghost use Rattle.std.specs.Prelude.{◌≡◌, [], ◌∷◌, false, IfOk, OnErr};
ghost use Rattle.server_model.specs.Conditions.{is_free};
ghost use Rattle.server_model.specs.LostCalls.{lost_of};
ghost use Rattle.server_model.specs.declared.request.Request.TheVariants as requests;
ghost use Rattle.base_values.specs.ToolNames.{log_name};
ghost use Rattle.tool_program.specs.EventApplier.Appliers.{starts, statement_result, call_at, doing_at, next, row_done};

use crate::event_applier::applier::{Applier, ApplyStep};
use crate::event_applier::batch_plan::row_done;
use base_values::{Duplicate, Sequence, Value};
use server_model::{Entry, LostCall, Request};
use std::alloc::{AllocError, Global};

impl Applier {
    /// Whether the next call reads events.
    pub fn starts(&self) -> bool
        ensures { result ≡ starts self.now }
    {
        matches!(self.step, ApplyStep::Reading)
    }

    /// The next events are read.
    fn reads(&self, alloc: Global) -> Result<Request, AllocError>
        ensures { IfOk result (λ request. request ≡ requests.ReadLog self.now.position self.now.batch (self.now.table ∷ log_name self.now.table ∷ [])) }
    {
        let tables = vec![in alloc; self.table.name().copy()?, self.table.log_name().copy()?]?;
        Ok(Request::ReadLog {
            position: self.position,
            limit: self.batch,
            tables: Sequence::from_vec(tables),
        })
    }

    /// The next call. The journal is that of the turn in which the applier got its events. COMMIT takes no memory.
    #[tactic(auto, unfolding(crate::specs::EventApplier::Appliers::next))]
    pub fn next(&self, alloc: Global, journal: &[Entry]) -> Result<Request, AllocError>
        ensures request { IfOk result (λ request. request ≡ next journal.now self.now) }
        ensures costs { OnErr result (is_free (next journal.now self.now) ≡ false) }
    {
        match self.step {
            ApplyStep::Reading => self.reads(alloc),
            ApplyStep::Beginning(_) => Ok(Request::Begin),
            ApplyStep::Applying { .. } => match self.doing(journal) {
                Some(planned) => Ok(Request::Do(self.statement_of(alloc, planned)?)),
                None => Ok(Request::Commit),
            },
            ApplyStep::Committing(_) => Ok(Request::Commit),
        }
    }

    /// What a journal keeps of the next call, where that is lost before it is done; none where it keeps all.
    #[tactic(auto, unfolding(crate::specs::EventApplier::Appliers::next))]
    pub fn lost(&self, journal: &[Entry]) -> Option<LostCall>
        ensures { result ≡ lost_of (next journal.now self.now) }
    {
        match self.step {
            ApplyStep::Reading | ApplyStep::Beginning(_) => Some(LostCall::Other),
            ApplyStep::Applying { .. } => match self.doing(journal) {
                Some(planned) => Some(self.lost_statement(planned)),
                None => None,
            },
            ApplyStep::Committing(_) => None,
        }
    }

    /// The row of the old table that didn't fit, once an answer said so.
    pub fn unfit_row<'a>(&self, journal: &'a [Entry]) -> &'a [Value]
        ensures { result.now ≡ row_done (doing_at journal.now self.now self.now.step) }
    {
        row_done(self.doing(journal))
    }
}
