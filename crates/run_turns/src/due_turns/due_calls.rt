//! What the turn that is due may ask of the server, and that the range of keys that it gets is known before it.

ghost use Rattle.run_turns.specs.DueTurns.DueCalls.Laws.{DueTurnsMayBe, RangesAreAhead};

/// The turn that is due may be taken on a server that keeps to its conditions.
pub fn due_turns_may_be()
    ensures { DueTurnsMayBe }
{}

/// The range of keys that a turn gets is that of the migrated table before it.
pub fn ranges_are_ahead()
    ensures { RangesAreAhead }
{}
