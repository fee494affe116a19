//! That a plan has one replay.

ghost use Rattle.tool_program.specs.Replay.{ReplaysAgree, OneReplay};

/// Of two replays of a plan one is a prefix of the other; and of one length there is one.
pub fn replays_agree()
    ensures prefix { ReplaysAgree }
    ensures one { OneReplay }
{}
