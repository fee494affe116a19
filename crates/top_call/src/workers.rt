//! What worker threads ask of a plan, every plan that is read has: each function's contract is a law.

ghost use Rattle.top_call.specs.WorkerPlans.{ReadPlansGo};

use law_journals::plans::read_plans_are_runnable;
use law_journals::runs::accepted_runs_go_on;

/// Every plan that was read is runnable, and someone is ready until a run of it has ended.
pub fn read_plans_go()
    ensures { ReadPlansGo }
{
    read_plans_are_runnable();
    accepted_runs_go_on();
}
