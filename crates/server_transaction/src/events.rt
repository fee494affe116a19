//! The events of changes.

ghost use Rattle.std.specs.Prelude.{◌≡◌, IfOk};
ghost use Rattle.server_model.specs.Operations.{events_of};

use base_values::{Duplicate, Name, RowEvent};
use server_execute::Changes;
use std::alloc::{AllocError, Global};

/// Changes of the table of this name, as events.
pub fn events_of(alloc: Global, table: &Name, changes: Changes) -> Result<Vec<RowEvent>, AllocError>
    ensures { IfOk result (λ events. events.items ≡ events_of table.now changes) }
{
    let mut events = Vec::with_capacity(alloc, changes.len())?;
    for change in changes.into_vec() {
        events.push(RowEvent {
            table: table.copy()?,
            change,
        })?;
    }
    Ok(events)
}
