//! The open transactions of sessions.

ghost use Rattle.std.specs.Prelude.{◌≡◌, ◌≤◌, ◌==◌, ℕ, List, IfSome, is_some, option_copied};
ghost use Rattle.std.specs.Option.{option_map};
ghost use Rattle.std.specs.List.{position_or_len};
ghost use Rattle.server_storage.specs.OpenTxns.Open.{txn_of, others, puts_open, written_of};

use base_values::RowEvent;
use server_transaction::Txn;

/// The open transaction of a session.
#[derive(Drop)]
pub struct OpenTxn {
    /// The session's number.
    pub session: u32,
    /// What it wrote.
    pub txn: Txn,
}

/// How many open transactions come before that of the session of this number.
pub fn place_of(txns: &[OpenTxn], session: u32) -> usize
    ensures { result ≡ position_or_len (λ one. one.session == session) txns.now }
{
    txns.iter().take_while(|one| one.session != session).count()
}

/// The open transaction of the session of this number.
pub fn txn_of(txns: &[OpenTxn], session: u32) -> Option<&OpenTxn>
    ensures { option_copied result ≡ txn_of session txns.now }
{
    txns.iter().find(|one| one.session == session)
}

/// What the session of this number wrote, in order.
pub fn events_of(txns: &[OpenTxn], session: u32) -> &[RowEvent]
    ensures { result.now ≡ written_of session txns.now }
{
    match txn_of(txns, session) {
        Some(one) => one.txn.events(),
        None => &[],
    }
}

/// Whether the session has an open transaction.
pub fn is_open(txns: &[OpenTxn], session: u32) -> bool
    ensures { result ≡ is_some (txn_of session txns.now) }
{
    txn_of(txns, session).is_some()
}

fn retain_others(txns: &mut Vec<OpenTxn>, session: u32)
    ensures { txns.new.items ≡ others session txns.old.items }
{
    txns.retain(|one| one.session != session);
}

/// Takes the open transaction of a session out, to commit it or to roll it back.
pub fn take_txn(txns: &mut Vec<OpenTxn>, session: u32) -> Option<Txn>
    ensures txn { result ≡ option_map (λ one. one.txn) (txn_of session txns.old.items) }
    ensures others { txns.new.items ≡ others session txns.old.items }
{
    let place = place_of(txns.as_slice(), session);
    if place < txns.len() {
        let one = txns.remove(place);
        retain_others(txns, session);
        Some(one.txn)
    } else {
        None
    }
}

/// How many events the open transactions have: no fewer than the rows that their commits may put into a table. None where
/// no number says how many.
pub fn events_open(txns: &[OpenTxn]) -> Option<usize>
    ensures { IfSome result (λ count. (name : List ℕ) → puts_open name txns.now ≤ count) }
{
    let mut count: usize = 0;
    for one in txns {
        count = count.checked_add(one.txn.len())?;
    }
    Some(count)
}
