//! When the tool is over. Nothing here takes memory.

ghost use Rattle.std.specs.Prelude.{◌≡◌};
ghost use Rattle.server_model.specs.States.{State, is_tool_busy};
ghost use Rattle.tool_program.specs.Verdicts.{is_calm, is_finished, is_over};
ghost use Rattle.tool_state.specs.ToolState.Meanings.{tool_phase_of, tool_of};

use crate::tool_state::Tool;

/// Whether no attempt is under way.
fn is_calm(tool: &Tool) -> bool
    ensures { result ≡ is_calm (tool_phase_of tool.now) }
{
    tool.setup.is_some() || !tool.work.cutover.phase.stands()
}

fn is_finished(tool: &Tool) -> bool
    ensures { result ≡ is_finished (tool_phase_of tool.now) }
{
    tool.setup.is_none() && tool.work.cutover.phase.is_finished()
}

/// Whether the tool is over, where some session of its own waits or is in a transaction, or none is.
pub fn is_over(tool: &Tool, is_busy: bool) -> bool
    ensures { (state : State) → is_busy ≡ is_tool_busy state → result ≡ is_over (record { server = state; tool = tool_of tool.now }) }
{
    if tool.is_renamed() {
        is_finished(tool)
    } else {
        tool.is_reverting() && is_calm(tool) && !is_busy
    }
}
