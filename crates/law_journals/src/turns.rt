//! What holds of a run turn by turn, of journals and of the server's states.

ghost use Rattle.proof_journals.specs.Run.Laws.{SessionsAreKnown, CountsAreOwn, BusyIsCounted, NumbersDontMatter, WaitsAreLive, NothingIsLeft, MomentsAreOfJournals, GivenIsPlanned, JournalsGrow};

/// Whose each live session is on the server, and which counts a turn of a session changes.
pub fn sessions_are_known()
    ensures known { SessionsAreKnown }
    ensures counts { CountsAreOwn }
    ensures busy { BusyIsCounted }
    ensures numbers { NumbersDontMatter }
    ensures waits { WaitsAreLive }
    ensures left { NothingIsLeft }
{}

/// What the program's moment is by the journal, and that a journal which a run keeps is kept with one turn more.
pub fn journals_grow()
    ensures moments { MomentsAreOfJournals }
    ensures given { GivenIsPlanned }
    ensures grow { JournalsGrow }
{}
