//! What holds of the definitions alone: how the new tool begins, and that a call comes next until it is over.

ghost use Rattle.std.specs.Prelude.{◌≡◌, [], ◌++◌, is_some, true, false, List};
ghost use Rattle.server_model.specs.declared.entry.Entry.{Entry};
ghost use Rattle.plan_data.specs.PlanData.{PlanData};
ghost use Rattle.tool_finish.specs.Callable.{IsFinishable};
ghost use Rattle.tool_finish.specs.Checkpoints.{has_checkpoint};
ghost use Rattle.tool_finish.specs.Finishes.{losing, next, verdict_in, is_over, stage_behind, IsFinish, finish_verdict};

/// Behind a run's turns alone the new tool is at its start.
#[tactic(auto, unfolding(crate::specs::Finishes::stage_behind, crate::specs::Finishes::IsFinish, crate::specs::Finishes::finish_verdict, crate::specs::Checkpoints::has_checkpoint, tool_program::specs::Tools::moment))]
pub fn finishes_begin()
    ensures stage { (plan : PlanData) (run : List Entry) → stage_behind plan run [] ≡ losing plan run }
    ensures turns { (plan : PlanData) (run : List Entry) → IsFinish plan run [] }
    ensures verdict { (plan : PlanData) (run : List Entry) → finish_verdict plan run [] ≡ verdict_in plan (run ++ []) (losing plan run) }
    ensures written { (plan : PlanData) → has_checkpoint plan [] ≡ false }
{}

/// Whatever is answered, a call or a loss comes next where the new tool isn't over.
#[tactic(auto, using(crate::proofs::Walking::calls_come))]
pub fn finishes_go_on()
    ensures { (plan : PlanData) (run turns : List Entry) → is_over (stage_behind plan run turns) ≡ false → is_some (next plan (run ++ turns) (stage_behind plan run turns)) ≡ true }
{}
