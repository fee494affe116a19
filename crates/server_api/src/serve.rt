//! What the tool and the clients use of a server.

ghost use Rattle.std.specs.Prelude.{◌≡◌, ◌≢◌, ◌+◌, ◌<◌, ℕ, length, true, Option, Some, None, IfOk, IsOk, OnOk, OnErr};
ghost use Rattle.base_script.specs.declared.actor.Side.TheVariants.{After};
ghost use Rattle.table_store.specs.Databases.{database};
ghost use Rattle.server_model.specs.States.{State, connected, passed, session_of, is_live, is_waiting, is_in_transaction, holds_tables, unread};
ghost use Rattle.server_model.specs.declared.entry.Asked.TheVariants.{Call, Poll};
ghost use Rattle.server_model.specs.PlainServer.{calls, polls, serves, state_left, number_drawn, given_at};
ghost use Rattle.server_model.specs.Conditions.{MayCall, MayPoll, MayLose, is_free, is_freely_polled};

use base_script::Side;
use base_values::Names;
use server_model::{Answer, Asked, Request};
use std::alloc::AllocError;
use table_store::paged_tables::Tables;

/// A server whose answers are those of the plain server. Where there is no memory for a call, all is as before.
pub trait Serve: Drop {
    /// The plain server's state.
    ghost state: { Self → State };

    /// The number that the last call, poll or loss drew.
    ghost drawn: { Self → Option ℕ };

    /// Makes a session, of the tool's or of a client's, and gives its number.
    fn connect(&mut self, is_tool: bool) -> Result<u32, AllocError>
        requires { (state self.old).made < u32.MAX }
        ensures number { IfOk result (λ number. number ≡ (state self.old).made + 1) }
        ensures ok { OnOk result (state self.new ≡ connected ((state self.old).made + 1) is_tool (state self.old)) }
        ensures draw { drawn self.new ≡ drawn self.old }
        ensures err { OnErr result (state self.new ≡ state self.old) };

    /// Gives the number of a session that is lost before it asks anything, which is used up by it. It takes no memory, since there
    /// is nothing to make.
    fn pass(&mut self) -> u32
        requires { (state self.old).made < u32.MAX }
        ensures number { result ≡ (state self.old).made + 1 }
        ensures passed { state self.new ≡ passed (state self.old) }
        ensures draw { drawn self.new ≡ drawn self.old };

    /// How many sessions it gave numbers to.
    fn made(&self) -> u32
        ensures { result ≡ (state self.now).made };

    /// Answers a request of a session. COMMIT, ROLLBACK and UNLOCK TABLES take no memory.
    fn call(&mut self, session: u32, request: &Request) -> Result<Answer, AllocError>
        requires { MayCall (state self.old) session request.now }
        ensures answer { IfOk result (λ answer. answer ≡ (calls (state self.old) session request.now).answer) }
        ensures ok { OnOk result (state self.new ≡ state_left None (state self.old) session (Call request.now)) }
        ensures draw { OnOk result (drawn self.new ≡ number_drawn None (state self.old) session (Call request.now)) }
        ensures err { OnErr result (state self.new ≡ state self.old) }
        ensures kept { OnErr result (drawn self.new ≡ drawn self.old) }
        ensures free { is_free request.now ≡ true → IsOk result };

    /// Tries the request of a session that waits once more. A poll of LOCK TABLES, CREATE, DROP or RENAME that stays
    /// blocked takes no memory.
    fn poll(&mut self, session: u32) -> Result<Answer, AllocError>
        requires { MayPoll (state self.old) session }
        ensures answer { IfOk result (λ answer. answer ≡ (polls (state self.old) session).answer) }
        ensures ok { OnOk result (state self.new ≡ state_left None (state self.old) session Poll) }
        ensures draw { OnOk result (drawn self.new ≡ number_drawn None (state self.old) session Poll) }
        ensures err { OnErr result (state self.new ≡ state self.old) }
        ensures kept { OnErr result (drawn self.new ≡ drawn self.old) }
        ensures free { is_freely_polled (state self.old) session ≡ true → IsOk result };

    /// Loses a session before or after what it asks is done, or between calls, and gives the answer that nobody hears.
    /// A loss before a call or between calls takes no memory.
    fn lose(
        &mut self,
        session: u32,
        side: Option<Side>,
        asked: &Asked,
    ) -> Result<Option<Answer>, AllocError>
        requires { MayLose (state self.old) session side asked.now }
        ensures answer { IfOk result (λ answer. answer ≡ given_at side asked.now (serves (state self.old) session asked.now).answer) }
        ensures ok { OnOk result (state self.new ≡ state_left side (state self.old) session asked.now) }
        ensures draw { OnOk result (drawn self.new ≡ number_drawn side (state self.old) session asked.now) }
        ensures err { OnErr result (state self.new ≡ state self.old) }
        ensures kept { OnErr result (drawn self.new ≡ drawn self.old) }
        ensures free { side ≢ Some After → IsOk result };

    /// The number that the last call, poll or loss drew for an AUTO_INCREMENT column, also where nobody heard the answer; none
    /// where it drew none.
    fn last_drawn(&self) -> Option<u64>
        ensures { result ≡ drawn self.now };

    /// Whether the session is live.
    fn live(&self, session: u32) -> bool
        ensures { result ≡ is_live (state self.now) session };

    /// Whether the session's request waits.
    fn waits(&self, session: u32) -> bool
        ensures { result ≡ is_waiting (state self.now) session };

    /// Whether the session is in a transaction.
    fn in_transaction(&self, session: u32) -> bool
        ensures { result ≡ is_in_transaction (session_of session (state self.now).sessions) };

    /// Whether the session holds LOCK TABLES.
    fn locked(&self, session: u32) -> bool
        ensures { result ≡ holds_tables (session_of session (state self.now).sessions) };

    /// How many events the log has.
    fn log_length(&self) -> u64
        ensures { result ≡ length (state self.now).log };

    /// How many events of these tables are at the position or after it.
    fn unread(&self, position: u64, tables: &Names) -> u64
        ensures { result ≡ unread (state self.now) position tables.now };

    /// The committed tables.
    fn tables(&self) -> &Tables
        ensures { database result.now ≡ (state self.now).tables };
}
