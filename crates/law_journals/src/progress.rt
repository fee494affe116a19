//! While a run hasn't ended some actor is ready.

ghost use Rattle.proof_feeds.specs.Laws.{ReadyRunsGoOn};
ghost use Rattle.proof_migration.specs.ToolPhase.Ready.{SomeoneIsReady};
ghost use Rattle.proof_migration.specs.Going.{SomeoneGoes};

use crate::server_turns::entries_are_turns;

/// While a run of a fitting plan, whose migrated table exists and whose scripts leave no transaction open, hasn't ended some
/// actor is ready, unless an attempt is stuck in one of three named ways; and where some actor is ready a replay goes on.
pub fn someone_is_ready()
    ensures ready { SomeoneIsReady }
    ensures goes { ReadyRunsGoOn }
{}

/// While a run of a runnable and serial plan, whose scripts leave no transaction open, hasn't ended some actor is ready.
pub fn someone_goes()
    ensures { SomeoneGoes }
{
    entries_are_turns();
}
