//! Room in the log for the events of all open transactions, so that a commit takes no memory.

ghost use Rattle.std.specs.Prelude.{◌≡◌, ◌+◌, IfOk, OnOk, OnErr};
ghost use Rattle.std.specs.List.{AllByRecursion};
ghost use Rattle.server_log.specs.Encodings.{IsEncodable};
ghost use Rattle.server_log.specs.EventCosts.Costs.{bytes_of};
ghost use Rattle.server_log.specs.EventCosts.TableEvents.{IsTableEvent};

use base_values::RowEvent;
use server_log::Log;
use server_log::event_costs::encoded_size;
use std::alloc::AllocError;

/// Makes room for these events besides, and says for how many bytes.
pub fn make_room(log: &mut Log, events: &[RowEvent]) -> Result<u64, AllocError>
    requires { AllByRecursion IsTableEvent events.now }
    ensures events { log.new.events ≡ log.old.events }
    ensures ok { OnOk result (log.new.spare ≡ log.old.spare + bytes_of events.now) }
    ensures more { IfOk result (λ more. more ≡ bytes_of events.now) }
    ensures encodable { OnOk result (AllByRecursion IsEncodable events.now) }
    ensures err { OnErr result (log.new.spare ≡ log.old.spare) }
{
    let more = encoded_size(events).ok_or(AllocError)?;
    let room = log.spare().checked_add(more).ok_or(AllocError)?;
    log.reserve(room)?;
    Ok(more)
}
