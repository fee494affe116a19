//! The verdict.

ghost use Rattle.std.specs.Prelude.{◌≡◌, ◌++◌, OnOk};
ghost use Rattle.base_values.specs.declared.value.Value.TheVariants.{Text as TextValue};
ghost use Rattle.base_values.specs.Literals.{printed};
ghost use Rattle.server_model.specs.declared.outcome.Cause.TheVariants as causes;
ghost use Rattle.top_report.specs.Verdicts.{cause_text, spaced_turns, task_text, verdict_line};

use crate::client_lines::push_count;
use base_values::{Chars, Key, Name, Text, Value, print_row, print_value};
use server_model::{Cause, Numbers, Task, Verdict};
use std::alloc::AllocError;

#[tactic(auto, unfolding(crate::specs::Verdicts::task_text))]
fn push_task(into: &mut Text, task: Task) -> Result<(), AllocError>
    ensures { OnOk result (into.new ≡ into.old ++ task_text task) }
{
    match task {
        Task::Setup => into.push_str("setup"),
        Task::Chunk(number) => {
            into.push_str("chunk ")?;
            push_count(into, number)
        }
        Task::Batch(position) => {
            into.push_str("batch ")?;
            push_count(into, position)
        }
        Task::CutOver => into.push_str("cutover"),
    }
}

#[tactic(auto, unfolding(crate::specs::Verdicts::spaced_turns))]
fn push_spaced_turns(into: &mut Text, turns: &[u64]) -> Result<(), AllocError>
    ensures { OnOk result (into.new ≡ into.old ++ spaced_turns turns.now) }
{
    for turn in turns {
        into.push_str(" ")?;
        push_count(into, *turn)?;
    }
    Ok(())
}

/// Adds a name as a text between quotes.
fn push_name_value(into: &mut Text, name: &Name) -> Result<(), AllocError>
    ensures { OnOk result (into.new ≡ into.old ++ printed (TextValue name.now)) }
{
    let text = Chars::new(into.allocator(), name.as_str())?;
    print_value(&Value::Text(text), into)
}

#[tactic(auto, unfolding(crate::specs::Verdicts::cause_text))]
fn push_unfit(
    into: &mut Text,
    turn: u64,
    key: &Key,
    column: &Name,
    number: u16,
) -> Result<(), AllocError>
    ensures { OnOk result (into.new ≡ into.old ++ cause_text (causes.Unfit turn key.now column.now number)) }
{
    into.push_str("unfit turn ")?;
    push_count(into, turn)?;
    into.push_str(" key ")?;
    print_row(key.as_slice(), into)?;
    into.push_str(" column ")?;
    push_name_value(into, column)?;
    into.push_str(" ")?;
    push_count(into, u64::from(number))
}

#[tactic(auto, unfolding(crate::specs::Verdicts::cause_text))]
fn push_spent(into: &mut Text, task: Task, turns: &Numbers) -> Result<(), AllocError>
    ensures { OnOk result (into.new ≡ into.old ++ cause_text (causes.Spent task turns.now)) }
{
    into.push_str("spent ")?;
    push_task(into, task)?;
    into.push_str(" turns")?;
    push_spaced_turns(into, turns.as_slice())
}

#[tactic(auto, unfolding(crate::specs::Verdicts::cause_text))]
fn push_cause(into: &mut Text, cause: &Cause) -> Result<(), AllocError>
    ensures { OnOk result (into.new ≡ into.old ++ cause_text cause.now) }
{
    match cause {
        Cause::Unfit {
            turn,
            key,
            column,
            number,
        } => push_unfit(into, *turn, key, column, *number),
        Cause::Spent { task, turns } => push_spent(into, *task, turns),
        Cause::Panic { turn } => {
            into.push_str("panic turn ")?;
            push_count(into, *turn)
        }
    }
}

/// Adds how the migration ended.
#[tactic(auto, unfolding(crate::specs::Verdicts::verdict_line))]
pub fn push_verdict(into: &mut Text, verdict: &Verdict) -> Result<(), AllocError>
    ensures { OnOk result (into.new ≡ into.old ++ verdict_line verdict.now) }
{
    match verdict {
        Verdict::Done => into.push_str("done\n"),
        Verdict::Reverted(cause) => {
            into.push_str("reverted ")?;
            push_cause(into, cause)?;
            into.push_str("\n")
        }
        Verdict::Unfinished => into.push_str("unfinished\n"),
    }
}
