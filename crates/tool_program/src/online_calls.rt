//! That what the tool asks is online: laws over journals, as contracts of functions that do nothing.

ghost use Rattle.tool_program.specs.OnlineCalls.{GivenCallsAreOnline, FollowedCallsAreOnline};

/// What is given to an actor of the tool is online; and so is each call of the tool's in a journal that follows the
/// program. That no chunk copies more rows than its size is not among it.
pub fn calls_are_online()
    ensures given { GivenCallsAreOnline }
    ensures followed { FollowedCallsAreOnline }
{}
