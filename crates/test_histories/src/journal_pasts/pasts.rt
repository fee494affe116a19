//! What a history lists.

use base_values::Sequence;
use server_model::{EndedTxn, Replies};

/// A client's transaction that ended.
#[derive(Drop)]
pub struct Past {
    /// The client's number, from 1.
    pub client: u32,
    /// The number of the transaction in the client's script, from 1.
    pub number: u64,
    /// Its lines with their marks, and how it ended.
    pub txn: EndedTxn,
    /// The replies that the client got.
    pub replies: Replies,
}

/// What happened.
#[derive(Drop)]
pub enum PastItem {
    /// A transaction ended.
    Txn(Past),
    /// The ALTER was done.
    Alter,
}

/// What happened, in order.
pub type PastItems = Sequence<PastItem>;
