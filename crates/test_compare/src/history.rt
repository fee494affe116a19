//! The history, as a report prints it.

use base_values::Text;
use std::alloc::AllocError;
use test_histories::journal_pasts::PastItem;

fn push_item(text: &mut Text, item: &PastItem) -> Result<(), AllocError> {
    match item {
        PastItem::Txn(past) => {
            text.push_str(" c")?;
            text.push_number(i128::from(past.client))?;
            text.push_str(".")?;
            text.push_number(i128::from(past.number))
        }
        PastItem::Alter => text.push_str(" ALTER"),
    }
}

/// Adds the line of what ended, in order.
pub(crate) fn push_history(text: &mut Text, items: &[PastItem]) -> Result<(), AllocError> {
    text.push_str("history")?;
    for item in items {
        push_item(text, item)?;
    }
    text.push_str("\n")
}

/// Whether the ALTER was done.
pub(crate) fn has_alter(items: &[PastItem]) -> bool {
    items.iter().any(|item| matches!(item, PastItem::Alter))
}
