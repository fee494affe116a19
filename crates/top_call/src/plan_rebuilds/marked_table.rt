//! What comes of the rebuild of a plan's table.

ghost use Rattle.std.specs.Prelude.{◌≡◌, List, IfSome, IfOk, Option};
ghost use Rattle.table_store.specs.Databases.{TableRows};
ghost use Rattle.server_model.specs.declared.entry.Entry.{Entry};
ghost use Rattle.proof_rebuild.specs.Shards.{first_unfit, rows_seen};
ghost use Rattle.run_rebuild.specs.Rebuilds.{changes_of};
ghost use Rattle.run_rebuild.specs.ShardNumbers.{AreShards};
ghost use Rattle.law_rebuild.specs.Laws.{IsRebuiltOf};
ghost use Rattle.top_endings.specs.declared.status.Status.TheVariants as statuses;
ghost use Rattle.top_call.specs.Rebuilds.{IsAfterMark, count_read, row_or_table, text_at_mark};
ghost use Rattle.top_call.specs.RestedServers.{IsRested};

use crate::marks::{accepted_marks_are_rebuilt, finished_marks_are_rebuilt};
use crate::plan_rebuilds::log_events::first_events;
use crate::whole_replays::migrated_in;
use base_edges::Gate;
use base_values::{Events, Fault};
use plan_data::{AlteredSchema, Plan};
use run_rebuild::rebuild;
use server_api::Serve;
use std::alloc::{AllocError, Global};
use std::thread::Threads;
use table_store::paged_tables::row_pages::Table;
use top_endings::{Printed, rebuilt_shown, unfit_shown};

/// What comes of the rebuild of a table from these events.
#[tactic(auto, using(crate::proofs::Rebuilt::unfit_row_shown))]
fn rebuilt_table<R: Threads + Sync, G: Gate + Sync>(
    rt: &R,
    alloc: Global,
    opening: &Table,
    altered: &AlteredSchema,
    events: &Events,
    workers: u32,
    gate: &G,
) -> Option<Printed>
    requires workers { AreShards workers }
    ensures { (then : Option TableRows) → IsRebuiltOf opening.now.table altered.now (changes_of events.now) then → IfSome result (λ printed. printed ≡ record { status = statuses.Done; text = row_or_table (first_unfit altered.now.map 0 (rows_seen opening.now.table.rows (changes_of events.now))) then }) }
{
    match rebuild(
        rt,
        alloc,
        opening,
        altered,
        events.as_slice(),
        workers,
        gate,
    ) {
        Ok(table) => rebuilt_shown(alloc, &table),
        Err(Fault::Refused(row)) => unfit_shown(alloc, row.place),
        Err(Fault::Memory) => None,
    }
}

/// How many events of the migrated table the log had when the RENAME was done. Where no turn of the run did it, the new tool did, and
/// nothing of the table was logged after that.
fn events_at_mark<V: Serve>(
    alloc: Global,
    plan: &Plan,
    server: &V,
    logged: Option<u64>,
) -> Result<u64, AllocError>
    ensures { IfOk result (λ count. count_read plan.now.table logged (V.state server.now) ≡ count) }
{
    match logged {
        Some(count) => Ok(count),
        None => Ok(server.unread(0, &migrated_in(alloc, plan)?)),
    }
}

/// What comes of the rebuild of the plan's table from those events of it that the server's log had when the RENAME was done.
pub fn rebuilt<V: Serve, R: Threads + Sync, G: Gate + Sync>(
    rt: &R,
    alloc: Global,
    plan: &Plan,
    server: V,
    logged: Option<u64>,
    workers: u32,
    gate: &G,
) -> Option<Printed>
    requires workers { AreShards workers }
    requires rested { IsRested (V.state server) }
    ensures { (journal : List Entry) → IsAfterMark plan.now journal logged (V.state server) → IfSome result (λ printed. printed ≡ record { status = statuses.Done; text = text_at_mark plan.now journal }) }
{
    accepted_marks_are_rebuilt();
    finished_marks_are_rebuilt();
    let count = events_at_mark(alloc, plan, &server, logged).ok()?;
    let opening = plan.tables().find(plan.table())?;
    match first_events(alloc, server, plan.table(), count) {
        Ok(events) => rebuilt_table(rt, alloc, opening, plan.altered(), &events, workers, gate),
        Err(_) => None,
    }
}
