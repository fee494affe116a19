//! What holds of what the top call gives: functions that do nothing, whose contracts are the laws.
#![tactic(auto)]

ghost use Rattle.law_calls.specs.Given.{GivenTracesAreAudited};

use law_traces::{whole_printed_traces_are_audited, whole_traces_are_audited};

/// What `trace` gives at its statuses 0, 3 and 7 is the text of a trace that is audited yes, with the turns of a new tool where one came. It is
/// read as that trace, where no name of the plan has a line feed and the text isn't longer than traces may be.
pub fn given_traces_are_audited()
    ensures { GivenTracesAreAudited }
{
    whole_printed_traces_are_audited();
    whole_traces_are_audited();
}
