//! The turn queue's table and its rule, which `specs/Rule.antt` states.
use crate::hand::View;
use crate::shared_state::SharedState;
use atomic_table::{Seat, Shared, Table, TableRule};
use std::alloc::Global;
use std::marker::PhantomData;
use std::snapshot::Snapshot;

/// Word 0 counts the tickets that were drawn.
pub(crate) const TICKET: usize = 0;

/// Word 1 counts the tickets that were served.
pub(crate) const SERVING: usize = 1;

/// Word 2 counts the entries.
pub(crate) const COUNT: usize = 2;

/// The one slot, for the shared state.
pub(crate) const SHARED_STATE: usize = 0;

/// What a turn queue begins with, for the proofs alone.
#[derive(Drop)]
pub struct Start<B> {
    pub shared_state: Snapshot<B>,
    pub workers: u32,
}

/// The rule, for the proofs alone.
pub struct InTurn<B> {
    shared_state: PhantomData<B>,
}

impl<B: SharedState> TableRule<Option<B>, View<B::Opening, B::Event>, Start<B>> for InTurn<B> {
    ghost use Rattle.run_desk.specs.Rule.{AgreesWith, newcomers};

    ghost holds = { λ start. AgreesWith B.opening B.entries (B.opening start.shared_state.value) start.workers };

    ghost first = { λ start. newcomers (B.opening start.shared_state.value) start.workers };
}

/// The words, the slot and the seats of a turn queue.
pub(crate) type Board<B> = Shared<
    Option<B>,
    View<<B as SharedState>::Opening, <B as SharedState>::Event>,
    Start<B>,
    InTurn<B>,
>;

/// A board with its memory.
pub(crate) type OwnBoard<B> = Table<
    Option<B>,
    View<<B as SharedState>::Opening, <B as SharedState>::Event>,
    Start<B>,
    InTurn<B>,
    Global,
>;

pub(crate) type Place<B> = Seat<
    Option<B>,
    View<<B as SharedState>::Opening, <B as SharedState>::Event>,
>;
