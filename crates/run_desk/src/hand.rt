//! What a seat at the turn queue's table knows. No value of these types is made.
use crate::shared_state::Entry;
use std::collections::LinkedList;

/// Where a worker is in the queue.
pub enum Stage {
    /// It has no ticket.
    Rests,
    /// It waits with this ticket.
    Waits(u64),
    /// Its ticket is being served, and it holds the turn.
    Holds(u64),
}

/// What a hand is that of.
pub enum Role<E> {
    /// A worker's number, its own turns, and where it is.
    Worker(u32, LinkedList<Entry<E>>, Stage),
    /// It only knows what another has seen.
    Witness,
}

/// What one pass knows.
pub struct Hand<O, E> {
    /// What the shared state began with.
    pub opening: O,
    /// The entries that it has seen, in order.
    pub seen: LinkedList<Entry<E>>,
    /// Whose it is.
    pub role: Role<E>,
}

/// A worker's seat has one hand, a seat that was joined to another has none.
pub type View<O, E> = LinkedList<Hand<O, E>>;
