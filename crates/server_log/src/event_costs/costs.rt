//! What events cost. Nothing here takes memory.

ghost use Rattle.std.specs.Prelude.{◌≡◌, ◌≤◌, ◌^◌, IfSome, IfNone};
ghost use Rattle.std.specs.List.{AllByRecursion};
ghost use Rattle.server_log.specs.Encodings.{IsEncodable};
ghost use Rattle.server_log.specs.EventCosts.Costs.{bytes_of, cost_of};
ghost use Rattle.server_log.specs.EventCosts.TableEvents.{IsTableEvent};

use crate::cost as event_cost;
use crate::event_costs::table_events::cost_of_table_event;
use base_values::RowEvent;

/// In how many bytes the events are encoded; the greatest number where no number says how many.
#[tactic(auto, using(crate::proofs::EventCosts::Sums::of_costs))]
pub fn cost(events: &[RowEvent]) -> u64
    requires { AllByRecursion IsEncodable events.now }
    ensures { result ≡ cost_of events.now }
{
    let mut sum: u64 = 0;
    for event in events {
        sum = sum.saturating_add(event_cost(event));
    }
    sum
}

/// In how many bytes the events of tables are encoded; none where no number of 64 bits says how many.
pub fn encoded_size(events: &[RowEvent]) -> Option<u64>
    requires { AllByRecursion IsTableEvent events.now }
    ensures size { IfSome result (λ size. size ≡ bytes_of events.now) }
    ensures encodable { IfSome result (λ size. AllByRecursion IsEncodable events.now) }
    ensures none { IfNone result (2 ^ 64 ≤ bytes_of events.now) }
{
    let mut size: u64 = 0;
    for event in events {
        size = size.checked_add(cost_of_table_event(event))?;
    }
    Some(size)
}
