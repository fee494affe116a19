//! Laws of runs with a lagging replica: each function's contract is one.

ghost use Rattle.proof_feeds.specs.Laws.{FeedsAreBounded, LagIsSmall, NobodyIsHeldWithout, ReadsStayBehind, ReadyRunsGoOn, ReplayTurnsMayGo, RunTurnsMayGo, SomeoneMayGo, TurnsStayBehind, WaitingActorsMayGo};

/// The replica is never ahead of the log.
pub fn feeds_are_bounded()
    ensures { FeedsAreBounded }
{}

/// Without a replica nobody is held back.
pub fn nobody_is_held_without()
    ensures { NobodyIsHeldWithout }
{}

/// Where some actor is ready, some actor may go.
pub fn someone_may_go()
    ensures { SomeoneMayGo }
{}

/// An actor whose request waits is never held back.
pub fn waiting_actors_may_go()
    ensures { WaitingActorsMayGo }
{}

/// In turns of actors that may go, the log is read no further than the replica has come.
pub fn reads_stay_behind()
    ensures { ReadsStayBehind }
{}

/// In them, chunks and attempts begin only where the lag is small.
pub fn lag_is_small()
    ensures { LagIsSmall }
{}

/// Where some actor is ready, a replay goes on.
pub fn ready_runs_go_on()
    ensures { ReadyRunsGoOn }
{}

/// In a replay, and in a run by workers, each turn is of an actor that may go, and so it stays behind the replica that its plan has.
pub fn turns_stay_behind()
    ensures replays { ReplayTurnsMayGo }
    ensures runs { RunTurnsMayGo }
    ensures behind { TurnsStayBehind }
{}
