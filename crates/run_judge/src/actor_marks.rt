//! What is kept of an actor after the turns of a trace.

ghost use Rattle.std.specs.Prelude.{◌≡◌, true, is_some, map, option_copied, OnOk};
ghost use Rattle.base_script.specs.declared.actor.Actor.{Actor};
ghost use Rattle.run_audit.specs.Rules.{is_loss, keeps_session, renames_by};
ghost use Rattle.run_judge.specs.ActorMarks.{counted, found_marks, marked_by, marks_after, marks_of, new_marks};

use base_script::Actor;
use run_actors::same_actor;
use run_audit::{LineAnswer, LineAsked, TraceLine};
use std::alloc::AllocError;

/// What is kept of an actor.
#[derive(Clone, Copy)]
pub struct ActorMarks {
    /// Which actor.
    pub actor: Actor,
    /// Whether it has a session.
    pub has_session: bool,
    /// How many turns it took, losses between calls aside.
    pub turns: u64,
    /// Whether its last call is a RENAME.
    pub renames: bool,
}

/// Whether the session was lost in a turn with this answer.
pub fn is_loss(answer: &LineAnswer) -> bool
    ensures { result ≡ is_loss answer.now }
{
    match answer {
        LineAnswer::Lost
        | LineAnswer::LostDone
        | LineAnswer::LostWaited
        | LineAnswer::LostRefused => true,
        LineAnswer::Ok(_)
        | LineAnswer::Error(_)
        | LineAnswer::Rows(_)
        | LineAnswer::Waits(_)
        | LineAnswer::TimedOut(_)
        | LineAnswer::Other => false,
    }
}

/// Whether the actor has a session after a turn of its own.
fn keeps_session(asked: LineAsked, answer: &LineAnswer) -> bool
    ensures { result ≡ keeps_session asked answer.now }
{
    match asked {
        LineAsked::Cut | LineAsked::Word => false,
        LineAsked::Call | LineAsked::Rename | LineAsked::Poll => !is_loss(answer),
    }
}

/// Whether the actor's last call is a RENAME after a turn of its own, where it was or wasn't before.
fn renames_by(old: bool, asked: LineAsked) -> bool
    ensures { result ≡ renames_by old asked }
{
    match asked {
        LineAsked::Rename => true,
        LineAsked::Call => false,
        LineAsked::Poll | LineAsked::Cut | LineAsked::Word => old,
    }
}

fn counted(asked: LineAsked, turns: u64) -> u64
    ensures { result ≡ counted asked turns }
{
    match asked {
        LineAsked::Cut => turns,
        LineAsked::Call | LineAsked::Rename | LineAsked::Poll | LineAsked::Word => {
            turns.saturating_add(1)
        }
    }
}

impl ActorMarks {
    /// Before the first turn.
    fn new(actor: Actor) -> ActorMarks
        ensures { result ≡ new_marks actor }
    {
        ActorMarks {
            actor,
            has_session: false,
            turns: 0,
            renames: false,
        }
    }

    /// After a turn of the actor's own.
    fn take(&mut self, line: &TraceLine)
        ensures { self.new ≡ marked_by line.now self.old }
    {
        self.has_session = keeps_session(line.asked, &line.answer);
        self.turns = counted(line.asked, self.turns);
        self.renames = renames_by(self.renames, line.asked);
    }

    /// After a turn.
    fn follow(&mut self, line: &TraceLine)
        ensures { self.new ≡ marks_after line.now self.old }
    {
        if same_actor(line.actor, self.actor) {
            self.take(line);
        }
    }
}

/// What is kept of the actor, where something is.
fn found(all: &[ActorMarks], actor: Actor) -> Option<&ActorMarks>
    ensures { option_copied result ≡ found_marks all.now actor }
{
    all.iter().find(|marks| same_actor(marks.actor, actor))
}

/// What is kept of the actor.
pub fn marks_of(all: &[ActorMarks], actor: Actor) -> ActorMarks
    ensures { result ≡ marks_of all.now actor }
{
    match found(all, actor) {
        Some(marks) => *marks,
        None => ActorMarks::new(actor),
    }
}

fn is_kept(all: &[ActorMarks], actor: Actor) -> bool
    ensures { result ≡ is_some (found_marks all.now actor) }
{
    found(all, actor).is_some()
}

/// Something is kept of the actor.
#[tactic(auto, using(crate::proofs::Marks::marks_pushed, crate::proofs::Marks::kept_pushed))]
fn keep(all: &mut Vec<ActorMarks>, actor: Actor) -> Result<(), AllocError>
    ensures same { OnOk result ((other : Actor) → marks_of all.new.items other ≡ marks_of all.old.items other) }
    ensures kept { OnOk result (is_some (found_marks all.new.items actor) ≡ true) }
{
    if !is_kept(all.as_slice(), actor) {
        all.push(ActorMarks::new(actor))?;
    }
    Ok(())
}

fn follow_all(all: &mut Vec<ActorMarks>, line: &TraceLine)
    ensures { all.new.items ≡ map (marks_after line.now) all.old.items }
{
    for marks in all.iter_mut() {
        marks.follow(line);
    }
}

/// Marks a turn with the actors.
pub fn take_line(all: &mut Vec<ActorMarks>, line: &TraceLine) -> Result<(), AllocError>
    ensures { OnOk result ((actor : Actor) → marks_of all.new.items actor ≡ marks_after line.now (marks_of all.old.items actor)) }
{
    keep(all, line.actor)?;
    follow_all(all, line);
    Ok(())
}
