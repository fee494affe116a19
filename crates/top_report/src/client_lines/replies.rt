//! What each client got.

ghost use Rattle.std.specs.Prelude.{◌≡◌, ◌+◌, ◌++◌, None, OnOk, option_and_then};
ghost use Rattle.base_script.specs.declared.actor.Actor.TheVariants.{Client};
ghost use Rattle.std.specs.List.{flat_map};
ghost use Rattle.tool_program.specs.JournalWords.Clients.{script_of};
ghost use Rattle.server_model.specs.Alone.{reply_of};
ghost use Rattle.server_model.specs.Entries.{same_actor};
ghost use Rattle.server_model.specs.declared.transaction.Reply.TheVariants.{Error, Ok, Rows};
ghost use Rattle.std.specs.declared.option.Option.TheVariants.{Some};
ghost use Rattle.top_report.specs.ClientLines.Replies.{client_line, client_text, clients_text, draw_text, numbered_text, reply_text};
ghost use Rattle.top_report.specs.ClientLines.Walks.{new_walk, number_in, replied_by, replies_from};

use crate::client_lines::numbers::{push_count, push_number_line};
use crate::client_lines::walk::Walk;
use base_script::{Actor, Script};
use base_values::mysql_errors::ER_LOCK_WAIT_TIMEOUT;
use base_values::{Row, Text};
use plan_data::Plan;
use run_actors::client_turns::{LineOutcome, heard_answer};
use server_model::{Answer, Entry};
use std::alloc::AllocError;
use table_print::push_row_lines;

#[tactic(auto, unfolding(crate::specs::ClientLines::Replies::reply_text))]
fn push_rows(into: &mut Text, rows: &[Row]) -> Result<(), AllocError>
    ensures { OnOk result (into.new ≡ into.old ++ reply_text (Some (Rows rows.now)) None) }
{
    push_number_line(into, "rows ", rows.len() as u64)?;
    push_row_lines(into, rows)
}

#[tactic(auto, unfolding(crate::specs::ClientLines::Replies::reply_text))]
fn push_error(into: &mut Text, number: u16) -> Result<(), AllocError>
    ensures { OnOk result (into.new ≡ into.old ++ reply_text (Some (Error number)) None) }
{
    push_number_line(into, "error ", u64::from(number))
}

/// Adds the number that a line drew, where it drew one.
fn push_draw(into: &mut Text, draw: Option<u64>) -> Result<(), AllocError>
    ensures { OnOk result (into.new ≡ into.old ++ draw_text draw) }
{
    match draw {
        Some(number) => {
            into.push_str(" id ")?;
            push_count(into, number)
        }
        None => Ok(()),
    }
}

/// Adds a count with the number that the line drew.
#[tactic(auto, unfolding(crate::specs::ClientLines::Replies::reply_text))]
fn push_ok(into: &mut Text, count: u64, draw: Option<u64>) -> Result<(), AllocError>
    ensures { OnOk result (into.new ≡ into.old ++ reply_text (Some (Ok count)) draw) }
{
    into.push_str("ok ")?;
    push_count(into, count)?;
    push_draw(into, draw)?;
    into.push_str("\n")
}

/// Adds what a client sees of an answer that it heard, with the number that the line drew; or that its session was lost.
#[tactic(auto, unfolding(crate::specs::ClientLines::Replies::reply_text))]
fn push_reply(into: &mut Text, heard: Option<&Answer>, draw: Option<u64>) -> Result<(), AllocError>
    ensures { OnOk result (into.new ≡ into.old ++ reply_text (option_and_then (λ answer. reply_of answer.now) heard.entry) draw) }
{
    match heard {
        Some(Answer::Ok(count)) => push_ok(into, *count, draw),
        Some(Answer::Rows(rows)) => push_rows(into, rows.as_slice()),
        Some(Answer::Refused { number, .. }) => push_error(into, *number),
        Some(Answer::TimedOut { .. }) => push_error(into, ER_LOCK_WAIT_TIMEOUT),
        _ => into.push_str("lost\n"),
    }
}

/// Adds a reply after the numbers of its transaction and its line.
#[tactic(auto, unfolding(crate::specs::ClientLines::Replies::numbered_text))]
fn push_numbered(
    into: &mut Text,
    walk: &Walk<'_>,
    heard: Option<&Answer>,
    draw: Option<u64>,
) -> Result<(), AllocError>
    ensures { OnOk result (into.new ≡ into.old ++ numbered_text (record { transaction = number_in walk.now; line = walk.now.lines + 1; reply = option_and_then (λ answer. reply_of answer.now) heard.entry; draw = draw })) }
{
    push_count(into, walk.number())?;
    into.push_str(".")?;
    push_count(into, walk.line())?;
    into.push_str(" ")?;
    push_reply(into, heard, draw)
}

/// Adds what a client got in its turn, where it heard this answer or none.
#[tactic(auto, using(crate::proofs::ClientLines::Replying::lone_reply))]
fn push_replied(
    into: &mut Text,
    walk: &Walk<'_>,
    outcome: LineOutcome,
    heard: Option<&Answer>,
    draw: Option<u64>,
) -> Result<(), AllocError>
    ensures { OnOk result (into.new ≡ into.old ++ flat_map numbered_text (replied_by walk.now draw (option_and_then (λ answer. reply_of answer.now) heard.entry) outcome)) }
{
    match outcome {
        LineOutcome::Marked(_) => push_numbered(into, walk, heard, draw),
        LineOutcome::Nothing | LineOutcome::Waits | LineOutcome::Broken => Ok(()),
    }
}

/// Whether it is a turn of this client.
fn is_of(actor: Actor, client: u64) -> bool
    ensures { result ≡ same_actor actor (Client client) }
{
    match actor {
        Actor::Client(number) => u64::from(number) == client,
        _ => false,
    }
}

/// Adds what the client of this number and script got.
#[tactic(auto, unfolding(crate::specs::ClientLines::Walks::replies_from))]
fn push_replies(
    into: &mut Text,
    journal: &[Entry],
    client: u64,
    script: &Script,
) -> Result<(), AllocError>
    ensures { OnOk result (into.new ≡ into.old ++ flat_map numbered_text (replies_from client (new_walk script.now) journal.now)) }
{
    let mut walk = Walk::new(script);
    for entry in journal {
        if is_of(entry.actor, client) {
            let outcome = walk.outcome(entry);
            push_replied(into, &walk, outcome, heard_answer(entry), entry.draw)?;
            walk.take(outcome);
        }
    }
    Ok(())
}

fn push_client_line(into: &mut Text, client: u64) -> Result<(), AllocError>
    ensures { OnOk result (into.new ≡ into.old ++ client_line client) }
{
    push_number_line(into, "client c", client)
}

fn push_client(
    into: &mut Text,
    plan: &Plan,
    journal: &[Entry],
    client: u64,
    script: &Script,
) -> Result<(), AllocError>
    requires { script_of client plan.now ≡ Some script.now }
    ensures { OnOk result (into.new ≡ into.old ++ client_text plan.now journal.now client) }
{
    push_client_line(into, client)?;
    push_replies(into, journal, client, script)
}

/// Adds each client of the plan with what it got.
#[tactic(auto, unfolding(crate::specs::ClientLines::Replies::clients_from))]
pub fn push_clients(into: &mut Text, plan: &Plan, journal: &[Entry]) -> Result<(), AllocError>
    ensures { OnOk result (into.new ≡ into.old ++ clients_text plan.now journal.now) }
{
    let mut client = 1;
    for script in plan.clients().as_slice() {
        push_client(into, plan, journal, client, script)?;
        client += 1;
    }
    Ok(())
}
