//! Transactions alone.

ghost use Rattle.std.specs.Prelude.{◌≡◌, ◌++◌, IfOk, OnOk, option_to_list};
ghost use Rattle.server_model.specs.Alone.{lines_run, nothing_ran, outcome_if, alone};

use crate::changes::after_events;
use crate::lines::{line_events, line_reply};
use crate::marks::stays;
use base_values::{Duplicate, Events, Sequence};
use server_model::{Replies, Reply, TxnLine};
use std::alloc::{AllocError, Global};
use test_model::PlainTables;

/// What lines were answered and wrote.
#[derive(Drop)]
struct Ran {
    replies: Replies,
    writes: Events,
}

/// What became of a transaction alone.
#[derive(Drop)]
pub struct ReferenceTxn {
    /// The replies, in order.
    pub replies: Replies,
    /// The tables that are left.
    pub tables: PlainTables,
}

fn push_reply(replies: &mut Replies, reply: Option<Reply>) -> Result<(), AllocError>
    ensures { OnOk result (replies.new ≡ replies.old ++ option_to_list reply) }
{
    match reply {
        Some(reply) => replies.push(reply),
        None => Ok(()),
    }
}

/// The events, and after them more.
fn followed(events: Events, more: Events) -> Result<Events, AllocError>
    ensures { IfOk result (λ all. all ≡ events ++ more) }
{
    let mut all = events.into_vec();
    let mut more = more.into_vec();
    all.append(&mut more)?;
    Ok(Sequence::from_vec(all))
}

/// The lines run one after the other, each on the tables with what was written so far.
#[tactic(auto, unfolding(server_model::specs::Alone::lines_run))]
fn lines_run(alloc: Global, tables: &PlainTables, lines: &[TxnLine]) -> Result<Ran, AllocError>
    ensures replies { IfOk result (λ ran. ran.replies ≡ (lines_run tables.now nothing_ran lines.now).replies) }
    ensures writes { IfOk result (λ ran. ran.writes ≡ (lines_run tables.now nothing_ran lines.now).writes) }
{
    let mut replies = Sequence::new(alloc);
    let mut writes = Sequence::new(alloc);
    for line in lines {
        let seen = after_events(alloc, tables, writes.as_slice())?;
        let reply = line_reply(alloc, seen.as_slice(), line)?;
        push_reply(&mut replies, reply)?;
        let events = line_events(alloc, seen.as_slice(), line)?;
        writes = followed(writes, events)?;
    }
    Ok(Ran { replies, writes })
}

/// A transaction alone on a database.
#[tactic(auto, unfolding(server_model::specs::Alone::alone))]
pub fn alone(
    alloc: Global,
    tables: &PlainTables,
    lines: &[TxnLine],
) -> Result<ReferenceTxn, AllocError>
    ensures replies { IfOk result (λ txn. txn.replies ≡ (alone tables.now lines.now).replies) }
    ensures tables { IfOk result (λ txn. txn.tables ≡ (alone tables.now lines.now).tables) }
{
    let ran = lines_run(alloc, tables, lines)?;
    let tables = if stays(lines) {
        after_events(alloc, tables, ran.writes.as_slice())?
    } else {
        tables.copy()?
    };
    Ok(ReferenceTxn {
        replies: ran.replies,
        tables,
    })
}
