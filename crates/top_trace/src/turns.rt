//! The turns, one a line.

ghost use Rattle.std.specs.Prelude.{◌≡◌, ◌++◌, codes, OnOk};
ghost use Rattle.std.specs.Fmt.{decimal};
ghost use Rattle.run_audit.specs.Lines.{asked_of, line_of, lines_of};
ghost use Rattle.top_report.specs.Turns.{actor_word};
ghost use Rattle.top_trace.specs.Texts.{asked_text, read_rows_text, side_text, turn_line, turns_text};

use crate::answers::{push_answer, push_drawn, push_read_rows};
use base_script::{Actor, Side};
use base_values::Text;
use server_model::{Asked, AskedView, Entry, Request, TurnAsked};
use std::alloc::AllocError;
use top_report::client_lines::push_count;
use top_report::push_actor;

/// Adds what was asked, in a word. A RENAME is kept whole.
#[tactic(auto, using(crate::proofs::Lines::lost_asked), unfolding(crate::specs::Texts::asked_text))]
fn push_asked(into: &mut Text, asked: &TurnAsked) -> Result<(), AllocError>
    ensures { OnOk result (into.new ≡ into.old ++ asked_text (asked_of asked.now)) }
{
    match asked.view() {
        AskedView::All(Asked::Call(Request::Rename(_))) => into.push_str("rename"),
        AskedView::All(Asked::Call(_)) | AskedView::Lost(..) => into.push_str("call"),
        AskedView::All(Asked::Poll) => into.push_str("poll"),
        AskedView::All(Asked::Command(_)) => into.push_str("word"),
        AskedView::All(Asked::Cut) => into.push_str("cut"),
    }
}

/// Adds on which side of the call the session was lost, where it was.
#[tactic(auto, unfolding(crate::specs::Texts::side_text))]
fn push_side(into: &mut Text, side: Option<Side>) -> Result<(), AllocError>
    ensures { OnOk result (into.new ≡ into.old ++ side_text side) }
{
    match side {
        None => Ok(()),
        Some(Side::Before) => into.push_str("-before"),
        Some(Side::After) => into.push_str("-after"),
    }
}

/// Adds the number of a turn and its actor.
fn push_front(into: &mut Text, turn: u64, actor: Actor) -> Result<(), AllocError>
    ensures { OnOk result (into.new ≡ into.old ++ (decimal turn ++ codes " " ++ actor_word actor ++ codes " ")) }
{
    push_count(into, turn)?;
    into.push_str(" ")?;
    push_actor(into, actor)?;
    into.push_str(" ")
}

/// Adds what was asked in a turn, and where the session was lost.
fn push_request(into: &mut Text, entry: &Entry) -> Result<(), AllocError>
    ensures { OnOk result (into.new ≡ into.old ++ (asked_text (asked_of entry.now.asked) ++ side_text entry.now.side)) }
{
    push_asked(into, &entry.asked)?;
    push_side(into, entry.side)
}

/// Adds a turn's own line.
fn push_turn_line(into: &mut Text, turn: u64, entry: &Entry) -> Result<(), AllocError>
    ensures { OnOk result (into.new ≡ into.old ++ turn_line turn (line_of entry.now)) }
{
    push_front(into, turn, entry.actor)?;
    push_request(into, entry)?;
    into.push_str(" ")?;
    push_answer(into, entry)?;
    push_drawn(into, entry)?;
    into.push_str("\n")
}

/// Adds a turn's own line, and the rows that its client read.
fn push_turn(into: &mut Text, turn: u64, entry: &Entry) -> Result<(), AllocError>
    ensures { OnOk result (into.new ≡ into.old ++ (turn_line turn (line_of entry.now) ++ read_rows_text (line_of entry.now).answer)) }
{
    push_turn_line(into, turn, entry)?;
    push_read_rows(into, entry)
}

/// Adds each turn of a journal. Turns count from 1.
#[tactic(auto, unfolding(crate::specs::Texts::turns_text))]
pub(crate) fn push_turns(into: &mut Text, journal: &[Entry]) -> Result<(), AllocError>
    ensures { OnOk result (into.new ≡ into.old ++ turns_text 1 (lines_of journal.now)) }
{
    let mut turn = 1;
    for entry in journal {
        push_turn(into, turn, entry)?;
        turn += 1;
    }
    Ok(())
}
