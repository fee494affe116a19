//! What a report prints of the order of turns is read as that order.

ghost use Rattle.law_texts.specs.TurnOrders.{PrintedOrdersAreRead, PrintedOrdersAreThoseTurns};

/// The order that a report prints is read by a plan's reader of orders, run by run.
pub fn printed_orders_are_read()
    ensures { PrintedOrdersAreRead }
{}

/// The runs of an order, one turn after the other, are the turns whose order it is.
pub fn printed_orders_are_those_turns()
    ensures { PrintedOrdersAreThoseTurns }
{}
