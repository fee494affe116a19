//! The turns in which a task failed.

ghost use Rattle.std.specs.Prelude.{◌≡◌, ◌==◌, ◌<◌, ◌≤◌, [], ◌∷◌, ◌++◌, length, IfOk};

use std::alloc::{AllocError, Global};
use std::marker::Model;

/// The turns in which a task failed, in order. Contracts see besides for how many it has room in all.
#[derive(Drop)]
pub struct Tries {
    turns: Vec<u64>,
}

impl Model for Tries {
    ghost use Rattle.std.specs.Prelude.{vec_capacity};
    ghost use Rattle.tool_state.specs.ToolState.TryTurns.{TryTurns};

    ghost Value = { TryTurns };

    ghost view = { λ t. record { turns = t.turns.items; room = vec_capacity t.turns } };
}

impl Tries {
    /// No try has failed, and there is room for `room` that do.
    pub fn with_room(alloc: Global, room: usize) -> Result<Tries, AllocError>
        ensures turns { IfOk result (λ tries. tries.turns ≡ []) }
        ensures room { IfOk result (λ tries. room ≤ tries.room) }
    {
        Ok(Tries {
            turns: Vec::with_capacity(alloc, room)?,
        })
    }

    /// How many tries failed.
    pub fn len(&self) -> usize
        ensures { result ≡ length self.now.turns }
    {
        self.turns.len()
    }

    /// Whether no try failed.
    pub fn is_empty(&self) -> bool
        ensures { result ≡ (length self.now.turns == 0) }
    {
        self.turns.is_empty()
    }

    /// The turns in order.
    pub fn as_slice(&self) -> &[u64]
        ensures { result.now ≡ self.now.turns }
    {
        self.turns.as_slice()
    }

    /// One more failed.
    pub fn add(&mut self, turn: u64)
        requires { length self.old.turns < self.old.room }
        ensures turns { self.new.turns ≡ self.old.turns ++ turn ∷ [] }
        ensures room { self.new.room ≡ self.old.room }
    {
        self.turns.push_reserved(turn);
    }

    /// The task is done: none of the next task has failed.
    pub fn clear(&mut self)
        ensures turns { self.new.turns ≡ [] }
        ensures room { self.new.room ≡ self.old.room }
    {
        self.turns.clear();
    }

    /// The same turns as the other's.
    pub fn copy_from(&mut self, other: &Tries)
        requires { length other.now.turns ≤ self.old.room }
        ensures turns { self.new.turns ≡ other.now.turns }
        ensures room { self.new.room ≡ self.old.room }
    {
        self.turns.clear();
        for turn in other.turns.as_slice() {
            self.turns.push_reserved(*turn);
        }
    }
}
