//! What the plain server keeps between calls, whoever calls it: tables stay tables, what each session wrote fits them, and
//! no two sessions hold what conflicts.

ghost use Rattle.law_journals.specs.Refusals.{RefusalsChangeNothing};
ghost use Rattle.proof_journals.specs.ServerFacts.Laws.{OpenedServes, ConnectedServes, CallsServe, PollsServe, LossesServe};

/// A server serves from its start on, and when a session connects.
pub fn servers_open()
    ensures opened { OpenedServes }
    ensures connected { ConnectedServes }
{}

/// Calls, polls and losses that may be made leave a server that serves.
pub fn servers_serve()
    ensures calls { CallsServe }
    ensures polls { PollsServe }
    ensures losses { LossesServe }
{}

/// A call or a poll that is refused leaves the tables, the log and what its session wrote as they were.
pub fn refusals_change_nothing()
    ensures { RefusalsChangeNothing }
{}
