//! That the order which a report prints is replayed: the function's contract is the law.

ghost use Rattle.top_call.specs.PrintedOrders.{PrintedOrdersReplay, PrintedOrdersReplayOnly};

use tool_program::replays::replays_agree;

/// The order that a run's report prints, put into the plan as its order of turns, gives the run's journal and its report again, by
/// `replay`; and no other journal.
pub fn printed_orders_replay()
    ensures replay { PrintedOrdersReplay }
    ensures only { PrintedOrdersReplayOnly }
{
    replays_agree();
}
