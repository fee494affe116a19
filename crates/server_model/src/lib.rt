//! The plain server: what sessions ask and are answered, what a statement says and needs, and the journal of a run. Its
//! definitions are lists and numbers; whatever serves faster keeps their answers. In `turn_answers` what was answered in a
//! turn, found by its number; in `statements` that a statement is decided by the rows under its locks.
#![tactic(auto)]

mod answer;
mod counter;
mod entry;
mod listing;
mod lost_calls;
mod need;
mod outcome;
mod request;
mod session;
pub mod statements;
mod transaction;
pub mod turn_answers;
mod turn_asked;
mod work;

pub use answer::{Answer, KeyRange};
pub use counter::{Counter, after_number, after_value, auto_place, first_number};
pub use entry::{Asked, Entry, Journal};
pub use listing::{ShownWaiter, ShownWaiters, TableName, TableNames};
pub use lost_calls::{LostCall, is_zero, lost_statement};
pub use need::Need;
pub use outcome::{Cause, Numbers, Progress, Task, Verdict};
pub use request::Request;
pub use session::{HeldName, Limits, Session, Waiting};
pub use transaction::{EndedTxn, Mark, Replies, Reply, TxnEnd, TxnLine, TxnLines};
pub use turn_asked::{AskedView, TurnAsked};
pub use work::{ColumnSets, Reach, Selection, StatementResult, Work};
