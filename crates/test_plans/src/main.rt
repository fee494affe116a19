//! Runs the top call over the folders of `data`, and says what isn't as it must be. The file `files` of a folder names the
//! files that are run.
//!
//! `cases` has plans with the status and the text that a call must end with; where that is the report of a run, its replies and
//! tables must also be those that one transaction at a time gives, in the order in which they ended.
//!
//! `orders` has plans with three clients each and no order of their own, which are run in 200 different orders of turns; and
//! `losses` plans that are run once for each turn and each side of it, with that turn's session lost, and once for each turn and
//! each actor, with the actor's session lost before that turn. Each run must be as one transaction at a time. The plans of
//! `workers` are run by one worker thread, two, four and sixteen, and then replayed in the order that the report prints: the two
//! reports are the same. Those of `meetings` are run by two workers, at a gate that keeps each before its turn until the other has
//! come as far: that they take turn about shows that they are threads. That of `shards` is rebuilt by two shards, each of which waits
//! at the gate until the other stands there too.
//!
//! `meeting_clients` has plans of clients whose transactions meet, with lines that the report must have: the clients', which an
//! independent model gave. Here too each run must be as one transaction at a time.
//!
//! `altered_reports` and `other_plans` show that the comparison with one at a time can say no: a report that was altered by
//! hand isn't that of the run, and the run of a plan isn't one of another plan. `edges` has plans that are also run between
//! sources which fail at each byte of the plan and sinks which fail after each byte of the report.
#![tactic(auto)]

use base_edges::{BytesSink, BytesSource};
use std::io;
use test_orders::{Runs, run_files};
use test_program::{Call, Ended, Meeting, Program};
use test_runs::{Asked, run_case_files};
use top_call::ghost_;
use top_words::Line;

fn main(rt: HostRuntime) -> io::Result<()> {
    let call: Call = Box::new(
        rt.alloc(),
        move |words: &Line, source: &mut BytesSource, sink: &mut BytesSink, gate: &Meeting| {
            let top_call::Ended {
                status,
                turns,
                journal,
            } = ghost_(&rt, rt.alloc(), words, source, sink, gate);
            Ended {
                status,
                turns,
                journal,
            }
        },
    )?;
    let program = Program::new(call);
    run_case_files(&rt, &program, "cases", Asked::Prints)?;
    run_files(&rt, &program, Runs::Orders)?;
    run_files(&rt, &program, Runs::Losses)?;
    run_files(&rt, &program, Runs::Workers)?;
    run_files(&rt, &program, Runs::Meetings)?;
    run_files(&rt, &program, Runs::Shards)?;
    run_case_files(&rt, &program, "meeting_clients", Asked::HasLines)?;
    run_case_files(&rt, &program, "altered_reports", Asked::TellsReport)?;
    run_case_files(&rt, &program, "other_plans", Asked::TellsPlan)?;
    run_case_files(&rt, &program, "edges", Asked::EndsAtEdges)
}
