//! What happened, as the model of transactions that run alone takes it.

ghost use Rattle.std.specs.Prelude.{◌≡◌, map, IfOk};
ghost use Rattle.test_histories.specs.Histories as model;
ghost use Rattle.test_histories.specs.JournalPasts.Walks.{item_as};

use crate::HistoryStep;
use crate::journal_pasts::pasts::PastItem;
use base_values::{Duplicate, Sequence};
use std::alloc::{AllocError, Global};

/// What happened, without the replies that were given.
fn history_step_of(item: &PastItem) -> Result<HistoryStep, AllocError>
    ensures { IfOk result (λ history_step. history_step ≡ model.history_step_of (item_as item.now)) }
{
    match item {
        PastItem::Txn(past) => Ok(HistoryStep::Txn(past.txn.lines.copy()?)),
        PastItem::Alter => Ok(HistoryStep::Alter),
    }
}

/// All that happened, in order, without the replies that were given.
pub fn history_steps_of(
    alloc: Global,
    items: &[PastItem],
) -> Result<Sequence<HistoryStep>, AllocError>
    ensures { IfOk result (λ all. all ≡ map model.history_step_of (map item_as items.now)) }
{
    let mut all = Sequence::new(alloc);
    for item in items {
        all.push(history_step_of(item)?)?;
    }
    Ok(all)
}
