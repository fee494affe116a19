//! What the run state keeps of a turn that was taken. Nothing here takes memory.

ghost use Rattle.std.specs.Prelude.{◌≡◌, ◌+◌, ◌<◌, ◌^◌, [], ◌∷◌, ◌++◌, length, true};
ghost use Rattle.server_model.specs.States.{has_work, load};
ghost use Rattle.tool_program.specs.JournalWords.Journals.{after_entry};
ghost use Rattle.tool_program.specs.Tools.{moment};
ghost use Rattle.proof_journals.specs.Run.Counts.{busy_count};
ghost use Rattle.run_actors.specs.ClientTurns.ActorStates.{DrawsAtMark};
ghost use Rattle.run_state.specs.Books.{is_planned, HasRoomFor, IsRunState};
ghost use Rattle.run_turns.specs.DueTurns.DueCalls.Ranges.{IsReadAhead};

use crate::due_turns::migration_run::Taken;
use crate::run_turns::ranges::range_reported;
use run_state::RunState;
use run_state::run_state_turns::{TurnFacts, take};
use server_model::KeyRange;

/// Writes a turn into the run state. The range that it may get comes with a copy of it.
pub fn keep(run_state: &mut RunState<'_>, ahead: Option<KeyRange>, taken: Taken)
    requires run_state { IsRunState run_state.old.plan.now run_state.old.journal.items run_state.old }
    requires planned { is_planned run_state.old.plan.now taken.entry.actor ≡ true }
    requires draws { DrawsAtMark taken.entry }
    requires few { length run_state.old.journal.items + 1 < 2 ^ 32 }
    requires room { HasRoomFor run_state.old.plan.now run_state.old.journal.items run_state.old }
    requires less { length run_state.old.journal.items < run_state.old.plan.now.options.turn_limit }
    requires reported { IsReadAhead run_state.old.tool.setup ahead taken.entry.answer }
    requires work { taken.had_work ≡ has_work (moment run_state.old.plan.now run_state.old.journal.items).server taken.entry.session }
    requires load { taken.counts.load ≡ load (after_entry (moment run_state.old.plan.now run_state.old.journal.items).server taken.entry) }
    requires busy { taken.counts.busy ≡ busy_count (after_entry (moment run_state.old.plan.now run_state.old.journal.items).server taken.entry) }
    ensures run_state { IsRunState run_state.old.plan.now (run_state.old.journal.items ++ taken.entry ∷ []) run_state.new }
    ensures plan { run_state.new.plan.now ≡ run_state.old.plan.now }
    ensures journal { run_state.new.journal.items ≡ run_state.old.journal.items ++ taken.entry ∷ [] }
    ensures room { HasRoomFor run_state.old.plan.now (run_state.old.journal.items ++ taken.entry ∷ []) run_state.new }
{
    let reported = TurnFacts {
        range: range_reported(ahead, &taken.entry.answer),
        had_work: taken.had_work,
        load: taken.counts.load,
        busy: taken.counts.busy,
    };
    take(run_state, taken.entry, reported);
}
