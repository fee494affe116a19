//! What the server keeps of each session.

use crate::request::Request;
use base_values::{Events, Name, Sequence};
use server_locks::row_locks::LockSet;

/// How often a waiting session is polled before its wait times out.
#[derive(Clone, Copy)]
pub struct Limits {
    /// Of a client's session.
    pub client_wait: u32,
    /// Of a session of the tool's.
    pub tool_wait: u32,
}

/// A name of a table that a session holds (MySQL's manual, "Metadata Locking").
#[derive(Drop)]
pub struct HeldName {
    /// The name, whether or not a table has it.
    pub name: Name,
    /// Whether it is held exclusively, by LOCK TABLES, or else shared.
    pub exclusive: bool,
}

/// A live session, as definitions have it: no code keeps one, since the tables of locks alone have row locks and names.
#[derive(Drop)]
pub struct Session {
    /// Its number; sessions count from 1 in the order of connecting.
    pub number: u32,
    /// Whether it is the tool's, and no client's.
    pub is_tool: bool,
    /// Whether it is in a transaction.
    pub in_transaction: bool,
    /// What its transaction wrote so far.
    pub writes: Events,
    /// The row locks that it holds, in the order in which they were granted.
    pub row_locks: LockSet,
    /// The names of tables that it holds, each as often as it was granted, in the order in which they were.
    pub names: Sequence<HeldName>,
    /// How often its waiting request was polled.
    pub polls: u32,
}

/// A request that waits.
#[derive(Drop)]
pub struct Waiting {
    /// The session that asked.
    pub session: u32,
    /// What it asked.
    pub request: Request,
}
