//! What is printed of a refusal.

ghost use Rattle.std.specs.Prelude.{◌≡◌, ◌++◌, IfSome, OnOk};
ghost use Rattle.std.specs.Fmt.{decimal};
ghost use Rattle.top_endings.specs.Texts.{place_text, plan_refused_text, refused_text, trace_place_text, trace_refused_text, IsRefusal};

use crate::printed::Printed;
use crate::status::Status;
use base_values::Text;
use plan_reader::{Place, PlanRefusal};
use std::alloc::{AllocError, Global};
use top_trace_reader::TraceRefusal;

/// Why a command refuses a source's bytes.
#[derive(Clone, Copy)]
pub enum Refusal {
    /// They are no accepted plan.
    Plan(PlanRefusal),
    /// They are no trace.
    Trace(TraceRefusal),
    /// 62: the plan's altered schema has a second unique key. Only `rebuild` refuses it.
    SecondUnique,
}

/// Adds a word and a number.
fn push_numbered(into: &mut Text, word: &str, number: u32) -> Result<(), AllocError>
    ensures { OnOk result (into.new ≡ into.old ++ (word.now ++ decimal number)) }
{
    into.push_str(word)?;
    into.push_number(i128::from(number))
}

/// Adds where a refusal is.
#[tactic(auto, unfolding(crate::specs::Texts::place_text))]
fn push_place(into: &mut Text, place: Place) -> Result<(), AllocError>
    ensures { OnOk result (into.new ≡ into.old ++ place_text place) }
{
    match place {
        Place::Nowhere => Ok(()),
        Place::Table(table) => push_numbered(into, " table ", table),
        Place::Row { table, row } => {
            push_numbered(into, " table ", table)?;
            push_numbered(into, " row ", row)
        }
        Place::Client { client, line } => {
            push_numbered(into, " client ", client)?;
            push_numbered(into, " line ", line)
        }
        Place::Operator(line) => push_numbered(into, " operator line ", line),
        Place::Fault(fault) => push_numbered(into, " fault ", fault),
        Place::TurnWord(word) => push_numbered(into, " turn word ", word),
    }
}

/// Adds the number, name and place of a refusal of the plan.
#[tactic(auto, unfolding(crate::specs::Texts::plan_refused_text))]
fn push_plan_refusal(into: &mut Text, refusal: PlanRefusal) -> Result<(), AllocError>
    ensures { OnOk result (into.new ≡ into.old ++ plan_refused_text refusal) }
{
    let (number, name) = refusal.code();
    into.push_str("refused ")?;
    into.push_number(i128::from(number))?;
    into.push_str(" ")?;
    into.push_str(name)?;
    push_place(into, refusal.place())?;
    into.push_str("\n")
}

/// Adds where a refusal of a trace is.
#[tactic(auto, unfolding(crate::specs::Texts::trace_place_text))]
fn push_trace_place(into: &mut Text, refusal: TraceRefusal) -> Result<(), AllocError>
    ensures { OnOk result (into.new ≡ into.old ++ trace_place_text refusal) }
{
    match refusal {
        TraceRefusal::TooLong => Ok(()),
        TraceRefusal::NoJournal => Ok(()),
        TraceRefusal::Plan(refusal) => push_place(into, refusal.place()),
        TraceRefusal::Line(number) => {
            into.push_str(" line ")?;
            into.push_number(i128::from(number))
        }
    }
}

/// Adds the number, name and place of a refusal of a trace.
#[tactic(auto, unfolding(crate::specs::Texts::trace_refused_text))]
fn push_trace_refusal(into: &mut Text, refusal: TraceRefusal) -> Result<(), AllocError>
    ensures { OnOk result (into.new ≡ into.old ++ trace_refused_text refusal) }
{
    let (number, name) = refusal.code();
    into.push_str("refused ")?;
    into.push_number(i128::from(number))?;
    into.push_str(" ")?;
    into.push_str(name)?;
    push_trace_place(into, refusal)?;
    into.push_str("\n")
}

/// Adds a refusal's number, name and place.
fn push_refusal(into: &mut Text, refusal: Refusal) -> Result<(), AllocError>
    ensures { OnOk result (into.new ≡ into.old ++ refused_text refusal) }
{
    match refusal {
        Refusal::Plan(refusal) => push_plan_refusal(into, refusal),
        Refusal::Trace(refusal) => push_trace_refusal(into, refusal),
        Refusal::SecondUnique => into.push_str("refused 62 second_unique\n"),
    }
}

/// What is printed of a refusal.
pub fn refused(alloc: Global, refusal: Refusal) -> Option<Printed>
    ensures { IfSome result (IsRefusal refusal) }
{
    let mut text = Text::new(alloc);
    match push_refusal(&mut text, refusal) {
        Ok(()) => Some(Printed {
            status: Status::Refused,
            text,
        }),
        Err(_) => None,
    }
}
