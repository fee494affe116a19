//! The setup: what the inspector does before the copy begins.

ghost use Rattle.std.specs.Prelude.{◌≡◌, ℕ, false, IfOk, OnErr};
ghost use Rattle.tool_program.specs.declared.tool_setup.setup.Setup.TheVariants.{Reaching};
ghost use Rattle.tool_program.specs.declared.tool_setup.setup.SetupTook.TheVariants.{Over};
ghost use Rattle.server_model.specs.Conditions.{is_free};
ghost use Rattle.tool_program.specs.Setups.{listed, clearing, setup_after};
ghost use Rattle.tool_program.specs.ToolSetup.Meanings.{setup_of, asked_in, took_of, range_reported};

use crate::cutover_core::{Leftovers, is_bad, lists_log, lists_new_table, lists_old_table};
use crate::tool_setup::alters::new_table;
use base_values::{Duplicate, Name};
use plan_data::Plan;
use server_model::{Answer, Request, TableNames};
use std::alloc::{AllocError, Global};
use tool_changelog::log_schema;

/// How far the setup is.
#[derive(Clone, Copy)]
pub enum Setup {
    /// The tables are listed.
    Listing,
    /// What an earlier migration left is dropped, one by one.
    Clearing(Leftovers),
    /// The changelog is made.
    MakingLog,
    /// The new table is made.
    MakingGhost,
    /// It asks for the log's end.
    Marking,
    /// It asks for the range of keys; the log ended here.
    Reaching(u64),
}

/// What an answer makes of the setup.
#[derive(Clone, Copy)]
pub enum SetupTook {
    /// It goes on so.
    Goes(Setup),
    /// It is over: the applier begins after this many events, and the range that was read is copied.
    Over(u64),
}

/// Which of the tool's tables are listed.
fn listed(table: &Name, tables: &TableNames) -> Leftovers
    ensures { result ≡ listed table.now tables.now }
{
    Leftovers {
        log: lists_log(table, tables),
        new_table: lists_new_table(table, tables),
        old: lists_old_table(table, tables),
    }
}

fn clearing(left: Leftovers) -> Setup
    ensures { setup_of result ≡ clearing left }
{
    if left.is_clear() {
        Setup::MakingLog
    } else {
        Setup::Clearing(left)
    }
}

impl Setup {
    /// What is asked next.
    pub fn request(self, alloc: Global, plan: &Plan) -> Result<Request, AllocError>
        ensures request { IfOk result (λ request. request ≡ asked_in plan.now self) }
        ensures costs { OnErr result (is_free (asked_in plan.now self) ≡ false) }
    {
        Ok(match self {
            Setup::Listing => Request::ShowTables,
            Setup::Clearing(left) => Request::Drop(left.first_name(plan.migrated()).copy()?),
            Setup::MakingLog => Request::Create(log_schema(alloc, plan.table())?),
            Setup::MakingGhost => Request::Create(new_table(alloc, plan)?),
            Setup::Marking => Request::LogEnd,
            Setup::Reaching(_) => Request::Ends(plan.table().copy()?),
        })
    }

    /// What an answer makes of it; a lost call and a time-out begin it again. It takes no memory: the range that the last
    /// answer tells stays in the answer.
    pub fn took(self, table: &Name, answer: &Answer) -> SetupTook
        ensures setup { took_of result (range_reported answer.now) ≡ setup_after table.now (setup_of self) answer.now }
        ensures over { (position : ℕ) → result ≡ Over position → self ≡ Reaching position }
    {
        if is_bad(answer) {
            return SetupTook::Goes(Setup::Listing);
        }
        match (self, answer) {
            (Setup::Listing, Answer::Tables(tables)) => {
                SetupTook::Goes(clearing(listed(table, tables)))
            }
            (Setup::Clearing(left), Answer::Ok(_)) => {
                SetupTook::Goes(clearing(left.without_first()))
            }
            (Setup::MakingLog, Answer::Ok(_)) => SetupTook::Goes(Setup::MakingGhost),
            (Setup::MakingGhost, Answer::Ok(_)) => SetupTook::Goes(Setup::Marking),
            (Setup::Marking, Answer::At(position)) => SetupTook::Goes(Setup::Reaching(*position)),
            (Setup::Reaching(position), Answer::Ends(_)) => SetupTook::Over(position),
            (setup, _) => SetupTook::Goes(setup),
        }
    }
}
