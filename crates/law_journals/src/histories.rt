//! What holds of every journal: its history is serial. What holds of all journals.

ghost use Rattle.proof_journals.specs.Rising.{NumbersRise};
ghost use Rattle.proof_journals.specs.Laws.{ScenesAreSerial, PlainScenesAreSerial, PlanRunsAreSceneRuns, JournalsAreSerial, TurnsHaveJournals, ExchangeAlters};

/// What ended in a run of a scene leads, one transaction or ALTER at a time, from the clients' tables at the start and an empty log to those at its end and to what was committed; and each open transaction has the replies that it has alone. No plan is needed for that.
pub fn scenes_are_serial()
    ensures { ScenesAreSerial }
{}

/// Where no table is exchanged, transactions alone do.
pub fn plain_scenes_are_serial()
    ensures { PlainScenesAreSerial }
{}

/// Each list of turns has a journal whose entries have the server's answers.
pub fn turns_have_journals()
    ensures { TurnsHaveJournals }
{}

/// Where the ghost table is the altered table, the RENAME that exchanges the two alters the migrated one.
pub fn exchange_alters()
    ensures { ExchangeAlters }
{}

/// A run of a plan is one of the plan's scene.
pub fn plan_runs_are_scene_runs()
    ensures { PlanRunsAreSceneRuns }
{}

/// The journal of each run of a plan is serial.
pub fn journals_are_serial()
    ensures { JournalsAreSerial }
{}

/// The numbers that are drawn from tables of one name rise, turn by turn.
pub fn numbers_rise()
    ensures { NumbersRise }
{}
