//! Who of the tool's actors waits with the RENAME. Nothing here takes memory.

ghost use Rattle.std.specs.Prelude.{◌≡◌};
ghost use Rattle.run_actors.specs.Renamings.{nobody_renames, renames_at, renaming_after, with_renaming};

use crate::actor_state::renames_after;
use base_script::Actor;
use base_values::Name;
use server_model::Entry;

/// Which of the tool's actors wait with a RENAME that takes the table's name away.
#[derive(Clone, Copy)]
pub struct Renaming {
    op: bool,
    insp: bool,
    copy: bool,
    apply: bool,
    lock: bool,
    ren: bool,
}

impl Renaming {
    /// Nobody waits with it.
    pub fn nobody() -> Renaming
        ensures { result ≡ nobody_renames }
    {
        Renaming {
            op: false,
            insp: false,
            copy: false,
            apply: false,
            lock: false,
            ren: false,
        }
    }

    /// Whether this actor does.
    pub fn at(&self, actor: Actor) -> bool
        ensures { result ≡ renames_at self.now actor }
    {
        match actor {
            Actor::Op => self.op,
            Actor::Insp => self.insp,
            Actor::Copy => self.copy,
            Actor::Apply => self.apply,
            Actor::Lock => self.lock,
            Actor::Ren => self.ren,
            Actor::Client(_) => false,
        }
    }

    fn set(&mut self, actor: Actor, now: bool)
        ensures { self.new ≡ with_renaming actor now self.old }
    {
        match actor {
            Actor::Op => self.op = now,
            Actor::Insp => self.insp = now,
            Actor::Copy => self.copy = now,
            Actor::Apply => self.apply = now,
            Actor::Lock => self.lock = now,
            Actor::Ren => self.ren = now,
            Actor::Client(_) => {}
        }
    }

    /// Who waits with it after a turn.
    pub fn pass(&mut self, name: &Name, entry: &Entry)
        ensures { self.new ≡ renaming_after name.now entry.now self.old }
    {
        let waits = renames_after(name, entry, self.at(entry.actor));
        self.set(entry.actor, waits);
    }
}
