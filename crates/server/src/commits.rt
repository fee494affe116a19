//! The end of a transaction. Nothing here takes memory.

ghost use Rattle.std.specs.Prelude.{◌≡◌, []};
ghost use Rattle.server_model.specs.PlainServer.{commits, forgets, loses};
ghost use Rattle.server_storage.specs.Storage.{committed, written};
ghost use Rattle.server.specs.Parts.{state_of, HaveWritten, GoTogether};

use server_sessions::live_sessions::Sessions;
use server_storage::Storage;

/// What the session wrote is committed and logged, and its transaction is over (COMMIT).
pub fn commit(storage: &mut Storage, all_sessions: &mut Sessions, session: u32)
    requires { GoTogether (committed storage.old) (written storage.old) all_sessions.old }
    ensures state { state_of (committed storage.new) all_sessions.new ≡ commits session [] (state_of (committed storage.old) all_sessions.old) }
    ensures have { HaveWritten (written storage.new) all_sessions.new }
{
    all_sessions.commit(session, storage.events_written(session));
    storage.commit(session);
}

/// What the session wrote is forgotten, and its transaction is over (ROLLBACK).
pub fn roll_back(storage: &mut Storage, all_sessions: &mut Sessions, session: u32)
    requires { HaveWritten (written storage.old) all_sessions.old }
    ensures state { state_of (committed storage.new) all_sessions.new ≡ forgets session (state_of (committed storage.old) all_sessions.old) }
    ensures have { HaveWritten (written storage.new) all_sessions.new }
{
    storage.roll_back(session);
    all_sessions.forget(session);
}

/// The session is gone, with its transaction, its locks and its request that waits.
pub fn lose(storage: &mut Storage, all_sessions: &mut Sessions, session: u32)
    requires { HaveWritten (written storage.old) all_sessions.old }
    ensures state { state_of (committed storage.new) all_sessions.new ≡ loses session (state_of (committed storage.old) all_sessions.old) }
    ensures have { HaveWritten (written storage.new) all_sessions.new }
{
    storage.roll_back(session);
    all_sessions.lose(session);
}
