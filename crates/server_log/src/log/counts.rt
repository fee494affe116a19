//! How many events of some tables come before each place of a log.

ghost use Rattle.std.specs.Prelude.{◌≡◌, ◌≤◌, ◌+◌, ◌∷◌, ◌++◌, [], true, drop, count_by, List, OnOk};
ghost use Rattle.base_values.specs.declared.event.RowEvent.{RowEvent as Event};
ghost use Rattle.server_model.specs.States.{is_of};
ghost use Rattle.server_log.specs.Logs.{IsCounted};

use crate::log::reading::is_of;
use base_values::{Names, RowEvent};
use std::alloc::{AllocError, Global};
use std::marker::Model;

/// How many events of the watched tables come before each event of a log, and how many there are in all. Contracts see besides
/// for how many more events there is room.
#[derive(Drop)]
pub(crate) struct Counts {
    watched: Names,
    before: Vec<u64>,
    total: u64,
}

impl Model for Counts {
    ghost use Rattle.std.specs.Prelude.{◌≤◌, ◌-◌, length, vec_len, vec_capacity};
    ghost use Rattle.server_log.specs.Logs.{StoredCounts};

    ghost Value = { StoredCounts };

    ghost view = { λ c. record { watched = c.watched; before = c.before.items; total = c.total; spare = vec_capacity c.before - vec_len c.before } };

    ghost invariant = { λ c. c.total ≤ length c.before.items };
}

impl Counts {
    /// The counts of a log without events.
    #[tactic(auto, using(crate::proofs::WatchedCounts::steps))]
    pub(crate) fn new(alloc: Global, watched: Names) -> Counts
        ensures counted { IsCounted [] result }
        ensures watched { result.watched ≡ watched }
    {
        Counts {
            watched,
            before: Vec::new(alloc),
            total: 0,
        }
    }

    /// Makes room for `n` more events.
    #[tactic(auto, using(crate::proofs::WatchedCounts::steps))]
    pub(crate) fn reserve(&mut self, n: usize) -> Result<(), AllocError>
        ensures counted { (events : List Event) → IsCounted events self.old → IsCounted events self.new }
        ensures ok { OnOk result (n ≤ self.new.spare) }
        ensures spare { self.old.spare ≤ self.new.spare }
    {
        self.before.reserve(n)
    }

    /// Counts one event more.
    #[tactic(auto, using(crate::proofs::WatchedCounts::steps))]
    pub(crate) fn add(&mut self, event: &RowEvent)
        requires { 1 ≤ self.old.spare }
        ensures counted { (events : List Event) → IsCounted events self.old → IsCounted (events ++ event.now ∷ []) self.new }
        ensures spare { self.old.spare ≡ self.new.spare + 1 }
    {
        self.before.push_reserved(self.total);
        if is_of(&self.watched, event) {
            self.total += 1;
        }
    }

    /// Whether these are the tables that are watched.
    #[tactic(auto, using(crate::proofs::WatchedCounts::steps))]
    pub(crate) fn watches(&self, tables: &Names) -> bool
        ensures { result ≡ true → self.now.watched ≡ tables.now }
    {
        self.watched == *tables
    }

    /// How many events of the watched tables are at the place or after it.
    #[tactic(auto, using(crate::proofs::WatchedCounts::steps))]
    pub(crate) fn following(&self, place: usize) -> u64
        ensures { (events : List Event) → IsCounted events self.now → result ≡ count_by (is_of self.now.watched) (drop place events) }
    {
        if place < self.before.len() {
            self.total.saturating_sub(self.before[place])
        } else {
            0
        }
    }
}
