//! What holds of all that sessions say: each function's contract is a law.

ghost use Rattle.server_transaction.specs.Laws.{SaidEventsFit, OperationEventsFit};

/// What a session says fits the tables on which it is said.
pub fn said_events_fit()
    ensures statements { SaidEventsFit }
    ensures jobs { OperationEventsFit }
{}
