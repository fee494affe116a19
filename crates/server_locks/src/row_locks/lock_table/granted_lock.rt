//! A lock as the table keeps it, and the orders in which it is listed.

use crate::row_locks::lock::HeldLock;

/// A lock that is held, and the number of its grant.
#[derive(Drop)]
pub struct GrantedLock {
    /// How many locks the table granted before, those that were freed among them.
    pub grant: usize,
    /// The session, and what it holds.
    pub held: HeldLock,
}

/// The orders in which the table lists its locks. The grant's number comes last in each, so no two locks tie.
#[derive(Clone, Copy)]
pub enum ListOrder {
    /// As they were granted.
    Grant,
    /// By session, and then as they were granted.
    Owner,
    /// By table, by key, by the low end, by session, and then as they were granted.
    Span,
}
