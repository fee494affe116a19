//! What holds of the tool's machines and their sessions.

ghost use Rattle.proof_journals.specs.Machine.Laws.{AnswersTellStandings, SessionsAreNumbered, MachinesStand, GivenCallsComeWell, GivenCallsMayBeMade, GivenPollsMayBeMade, TablesExistUncopied, TablesStayTables, GivenCallsMayBeCalled, GivenPollsMayBeCalled, LossesMayBe, VerdictsTellTheAlter};

/// What a session has on the server follows from its turns' answers alone, and each answer is one that its request may
/// have.
pub fn answers_tell_standings()
    ensures { AnswersTellStandings }
{}

/// Each actor's live session is live on the server, and a session of the next number is new.
pub fn sessions_are_numbered()
    ensures { SessionsAreNumbered }
{}

/// Each machine's step says what its actor's session has: a transaction, LOCK TABLES, a request that waits.
pub fn machines_stand()
    ensures { MachinesStand }
{}

/// A call that is given to an actor comes where its session is live and doesn't wait, and where a transaction or LOCK
/// TABLES is as the request asks.
pub fn given_calls_come_well()
    ensures { GivenCallsComeWell }
{}

/// A call that is given to an actor may be made; of the three whose keys have to be of the table's kinds this says
/// nothing.
pub fn given_calls_may_be_made()
    ensures { GivenCallsMayBeMade }
{}

/// A poll that is given to an actor may be made in its live session, with the same three requests left out.
pub fn given_polls_may_be_made()
    ensures { GivenPollsMayBeMade }
{}

/// Until all rows are copied the migrated table exists with its schema, and the new one from its making on; and no attempt was
/// begun.
pub fn tables_exist_uncopied()
    ensures { TablesExistUncopied }
{}

/// Tables stay tables with clustered keys, since no definition comes inside a transaction and what is made is valid.
pub fn tables_stay_tables()
    ensures { TablesStayTables }
{}

/// Every call that is given may be made, of a runnable plan: with it the keys that the copier asks with are of the table's
/// kinds.
pub fn given_calls_may_be_called()
    ensures { GivenCallsMayBeCalled }
{}

/// Every poll that is given may be made, likewise.
pub fn given_polls_may_be_called()
    ensures { GivenPollsMayBeCalled }
{}

/// Every session may be lost, between its turns and in those that are given.
pub fn losses_may_be()
    ensures { LossesMayBe }
{}

/// Of a run that has ended the verdict is *done* where the RENAME of the migrated table was done, also where its answer was
/// missed, and else *reverted*.
pub fn verdicts_tell_the_alter()
    ensures { VerdictsTellTheAlter }
{}
