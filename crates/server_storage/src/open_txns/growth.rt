//! The open transactions of sessions, with one more, or with one that wrote more.

ghost use Rattle.std.specs.Prelude.{◌≡◌, IsSome, IsSomeAnd, IfSome, OnOk, OnErr};
ghost use Rattle.server_transaction.specs.Stored.{HasRoom};
ghost use Rattle.server_storage.specs.OpenTxns.Open.{txn_of, IsOpened, IsReserved, IsWritten, Takes};

use crate::open_txns::txns::{OpenTxn, place_of};
use server_transaction::{Txn, Writes};
use std::alloc::{AllocError, Global};

/// Opens a transaction of a session, after the others.
pub fn open_txn(alloc: Global, txns: &mut Vec<OpenTxn>, session: u32) -> Result<(), AllocError>
    ensures ok { OnOk result (IsOpened session txns.old.items txns.new.items) }
    ensures err { OnErr result (txns.new.items ≡ txns.old.items) }
{
    txns.push(OpenTxn {
        session,
        txn: Txn::new(alloc),
    })?;
    Ok(())
}

/// Makes room for what a statement of the session writes in its open transaction.
pub fn reserve_in(txns: &mut Vec<OpenTxn>, session: u32, writes: &Writes) -> Result<(), AllocError>
    requires { IsSome (txn_of session txns.old.items) }
    ensures reserved { IsReserved session txns.old.items txns.new.items }
    ensures room { OnOk result (IfSome (txn_of session txns.new.items) (λ one. HasRoom one.txn writes.now)) }
{
    let place = place_of(txns.as_slice(), session);
    let one = &mut txns[place];
    one.txn.reserve(writes)
}

/// Writes down what a statement of the session writes in its open transaction.
pub fn write_in(txns: &mut Vec<OpenTxn>, session: u32, writes: Writes)
    requires { IsSomeAnd (txn_of session txns.old.items) (λ one. Takes writes one.txn) }
    ensures { IsWritten session writes txns.old.items txns.new.items }
{
    let place = place_of(txns.as_slice(), session);
    let one = &mut txns[place];
    one.txn.write(writes);
}
