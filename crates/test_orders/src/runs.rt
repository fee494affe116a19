//! Folders of plans, and what each plan of one is run with.

use crate::losses::run_with_losses;
use crate::orders::run_in_orders;
use crate::workers::{rebuild_by_meeting, run_by_meeting, run_by_workers};
use std::io;
use std::rt::Files;
use test_program::{Program, names_in, text_in};

/// What the plans of a folder are run with.
#[derive(Clone, Copy)]
pub enum Runs {
    /// 200 orders of turns, of the folder `orders`.
    Orders,
    /// Each single loss of a session that a run could meet, of the folder `losses`.
    Losses,
    /// One worker, two, four and sixteen, of the folder `workers`.
    Workers,
    /// Two workers that meet, of the folder `meetings`.
    Meetings,
    /// A rebuild by two shards that meet, of the folder `shards`.
    Shards,
}

impl Runs {
    fn folder(self) -> &'static str {
        match self {
            Runs::Orders => "orders",
            Runs::Losses => "losses",
            Runs::Workers => "workers",
            Runs::Meetings => "meetings",
            Runs::Shards => "shards",
        }
    }
}

fn run_plan<R: Print + AllocGlobal>(
    rt: &R,
    program: &Program,
    runs: Runs,
    name: &str,
    plan: &str,
) -> io::Result<()> {
    match runs {
        Runs::Orders => run_in_orders(rt, program, name, plan),
        Runs::Losses => run_with_losses(rt, program, name, plan),
        Runs::Workers => run_by_workers(rt, program, name, plan),
        Runs::Meetings => run_by_meeting(rt, program, name, plan),
        Runs::Shards => rebuild_by_meeting(rt, program, name, plan),
    }
}

fn run_file<R: Print + AllocGlobal + Files>(
    rt: &R,
    program: &Program,
    runs: Runs,
    name: &str,
) -> io::Result<()> {
    let plan = text_in(rt, runs.folder(), name)?;
    run_plan(rt, program, runs, name, plan.as_str())
}

/// Runs each plan of the folder, and says how many of its runs are as they must be.
pub fn run_files<R: Print + AllocGlobal + Files>(
    rt: &R,
    program: &Program,
    runs: Runs,
) -> io::Result<()> {
    let names = names_in(rt, runs.folder())?;
    for name in names.lines() {
        run_file(rt, program, runs, name)?;
    }
    Ok(())
}
