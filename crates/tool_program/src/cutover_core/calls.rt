//! What each of the three asks next.

ghost use Rattle.std.specs.Prelude.{◌≡◌, option_map, ◌∷◌, [], Some, false, IfOk, OnErr};
ghost use Rattle.base_values.specs.ToolNames.{old_name};
ghost use Rattle.server_model.specs.Conditions as requests;
ghost use Rattle.server_model.specs.LostCalls.{lost_of};
ghost use Rattle.server_model.specs.declared.request.Request.TheVariants.{LockTables};
ghost use Rattle.tool_program.specs.declared.cutover_core.cutover.CutOver.{CutOver};
ghost use Rattle.tool_program.specs.CutoverCore.Attempts.{exchange, locker_call, writes_hint, is_free, clears, inspector_call, renamer_call, next};
ghost use Rattle.tool_program.specs.CutoverCore.CutOverCalls.{asked_in};

use crate::cutover_core::cutover::{Clearing, CutOver, Hold, Leftovers, Phase, Role, Stage};
use base_script::Statement;
use base_values::{Duplicate, Sequence};
use plan_data::MigratedTable;
use server_model::{LostCall, Request};
use std::alloc::{AllocError, Global};
use table_store::Pair;
use tool_changelog::{hint_row, sentry_schema};

/// A call of one of the three.
#[derive(Clone, Copy)]
pub enum CutOverCall {
    /// The sentry is made.
    MakeSentry,
    /// The table and the sentry's name are locked.
    Lock,
    /// The hint row of the attempt is written.
    WriteHint,
    /// The number that the table gives next is asked for.
    ShowCounter,
    /// The new table's counter is set to this number.
    SetCounter(u64),
    /// The two tables are exchanged by one RENAME.
    Exchange,
    /// What waits is looked at.
    ShowWaiting,
    /// The sentry is dropped.
    DropSentry,
    /// The tables are unlocked.
    Unlock,
    /// The tables are looked at.
    ShowTables,
    /// The first of those that are left is dropped.
    DropFirst(Leftovers),
}

impl CutOverCall {
    /// What a journal keeps of it, where it is lost before it is done; none where it keeps all.
    pub fn lost(self) -> Option<LostCall>
        ensures { (cutover : CutOver) → result ≡ lost_of (asked_in cutover self) }
    {
        match self {
            CutOverCall::Exchange | CutOverCall::Unlock => None,
            CutOverCall::MakeSentry
            | CutOverCall::Lock
            | CutOverCall::WriteHint
            | CutOverCall::ShowCounter
            | CutOverCall::SetCounter(_)
            | CutOverCall::ShowWaiting
            | CutOverCall::DropSentry
            | CutOverCall::ShowTables
            | CutOverCall::DropFirst(_) => Some(LostCall::Other),
        }
    }
}

/// The table and the sentry's name are locked.
fn locks(alloc: Global, table: &MigratedTable) -> Result<Request, AllocError>
    ensures { IfOk result (λ request. request ≡ LockTables (table.now ∷ old_name table.now ∷ [])) }
{
    let names = vec![in alloc; table.name().copy()?, table.old_name().copy()?]?;
    Ok(Request::LockTables(Sequence::from_vec(names)))
}

/// The two tables exchanged as one.
pub fn exchange(alloc: Global, table: &MigratedTable) -> Result<Request, AllocError>
    ensures { IfOk result (λ request. request ≡ exchange table.now) }
{
    let away = Pair {
        old: table.name().copy()?,
        new: table.old_name().copy()?,
    };
    let into_place = Pair {
        old: table.ghost_name().copy()?,
        new: table.name().copy()?,
    };
    Ok(Request::Rename(Sequence::from_vec(vec![in alloc; away, into_place]?)))
}

/// The hint row of an attempt is written.
fn writes_hint(alloc: Global, table: &MigratedTable, attempt: u64) -> Result<Request, AllocError>
    ensures { IfOk result (λ request. request ≡ writes_hint table.now attempt) }
{
    Ok(Request::Do(Statement::Insert {
        table: table.log_name().copy()?,
        columns: None,
        values: hint_row(alloc, attempt)?,
        drawn: None,
    }))
}

fn clearing_call(clearing: Clearing) -> CutOverCall
    ensures { (cutover : CutOver) → Some (asked_in cutover result) ≡ clears cutover.table clearing }
{
    match clearing {
        Clearing::Looking => CutOverCall::ShowTables,
        Clearing::Drops(left) => CutOverCall::DropFirst(left),
    }
}

impl CutOver {
    fn locker_call(&self) -> Option<CutOverCall>
        ensures { option_map (asked_in self.now) result ≡ locker_call self.now self.now.phase }
    {
        match self.phase {
            Phase::Resting if !self.is_stopped => Some(CutOverCall::MakeSentry),
            Phase::Attempting(Stage::Locking) => Some(CutOverCall::Lock),
            Phase::Attempting(Stage::Dropping) => Some(CutOverCall::DropSentry),
            Phase::Attempting(Stage::Unlocking) => Some(CutOverCall::Unlock),
            Phase::Ending(_) if matches!(self.hold, Hold::Locks) => Some(CutOverCall::Unlock),
            _ => None,
        }
    }

    /// Whether the locker neither waits nor holds the lock, and the RENAME doesn't wait.
    fn is_free(&self) -> bool
        ensures { result ≡ is_free self.now.hold self.now.renamer_waits }
    {
        matches!(self.hold, Hold::Nothing) && !self.renamer_waits
    }

    fn inspector_call(&self) -> Option<CutOverCall>
        ensures { option_map (asked_in self.now) result ≡ inspector_call self.now self.now.phase }
    {
        match self.phase {
            Phase::Attempting(Stage::Hinting) => Some(CutOverCall::WriteHint),
            Phase::Attempting(Stage::ReadingCounter(_)) => Some(CutOverCall::ShowCounter),
            Phase::Attempting(Stage::SettingCounter { number, .. }) => {
                Some(CutOverCall::SetCounter(number))
            }
            Phase::Attempting(Stage::Showing) => Some(CutOverCall::ShowWaiting),
            Phase::Ending(clearing) if self.is_free() => Some(clearing_call(clearing)),
            Phase::Finishing(clearing) => Some(clearing_call(clearing)),
            _ => None,
        }
    }

    fn renamer_call(&self) -> Option<CutOverCall>
        ensures { option_map (asked_in self.now) result ≡ renamer_call self.now self.now.phase }
    {
        match self.phase {
            Phase::Attempting(Stage::Drained) => Some(CutOverCall::Exchange),
            _ => None,
        }
    }

    /// The next call of one of the three, where it doesn't wait; none where it has none.
    #[tactic(auto, unfolding(crate::specs::CutoverCore::Attempts::next))]
    pub fn next_call(&self, role: Role) -> Option<CutOverCall>
        ensures { option_map (asked_in self.now) result ≡ next role self.now }
    {
        match role {
            Role::Inspector => self.inspector_call(),
            Role::Locker => self.locker_call(),
            Role::Renamer => self.renamer_call(),
        }
    }

    /// What is asked in a call. UNLOCK TABLES takes no memory.
    pub fn request(&self, alloc: Global, call: CutOverCall) -> Result<Request, AllocError>
        ensures request { IfOk result (λ request. request ≡ asked_in self.now call) }
        ensures costs { OnErr result (requests.is_free (asked_in self.now call) ≡ false) }
    {
        let table = &self.table;
        match call {
            CutOverCall::MakeSentry => Ok(Request::Create(sentry_schema(alloc, table.name())?)),
            CutOverCall::Lock => locks(alloc, table),
            CutOverCall::WriteHint => writes_hint(alloc, table, self.attempts),
            CutOverCall::ShowCounter => Ok(Request::ShowCounter(table.name().copy()?)),
            CutOverCall::SetCounter(number) => Ok(Request::SetCounter {
                table: table.ghost_name().copy()?,
                number,
            }),
            CutOverCall::Exchange => exchange(alloc, table),
            CutOverCall::ShowWaiting => Ok(Request::ShowWaiting),
            CutOverCall::DropSentry => Ok(Request::Drop(table.old_name().copy()?)),
            CutOverCall::Unlock => Ok(Request::Unlock),
            CutOverCall::ShowTables => Ok(Request::ShowTables),
            CutOverCall::DropFirst(left) => Ok(Request::Drop(left.first_name(table).copy()?)),
        }
    }
}
