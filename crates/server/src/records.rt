//! What a statement says is kept: to its transaction, or committed at once.

ghost use Rattle.std.specs.Prelude.{◌≡◌, IfOk, OnOk, OnErr, true};
ghost use Rattle.server_model.specs.Effects.{result_effect};
ghost use Rattle.server_model.specs.PlainServer.{does};
ghost use Rattle.server_model.specs.States.{is_in_transaction, is_live, session_of};
ghost use Rattle.proof_journals.specs.Holdings.{face_of};
ghost use Rattle.proof_journals.specs.ServerFacts.Grants.{GrowsWell};
ghost use Rattle.server_storage.specs.Ready.{AreReady};
ghost use Rattle.server_storage.specs.Storage.{committed, written};
ghost use Rattle.server_transaction.specs.Premises.{events_ready};
ghost use Rattle.server.specs.Parts.{needed, result_of, state_of, HaveWritten, GoTogether};

use server_locks::row_locks::LockSet;
use server_model::{Answer, Request};
use server_sessions::live_sessions::Sessions;
use server_storage::Storage;
use server_transaction::ReadyResult;
use std::alloc::AllocError;

/// What was said is kept to the session's transaction with what was granted, or committed at once where it has none.
pub fn keep(
    storage: &mut Storage,
    all_sessions: &mut Sessions,
    session: u32,
    request: &Request,
    locks: LockSet,
    executed: ReadyResult,
) -> Result<Answer, AllocError>
    requires together { GoTogether (committed storage.old) (written storage.old) all_sessions.old }
    requires live { is_live all_sessions.old session ≡ true }
    requires ready { AreReady storage.old.tables storage.old.txns session executed.writes }
    requires grows { GrowsWell (committed storage.old) (face_of all_sessions.old.sessions) session (needed request.now locks) (events_ready executed.writes) }
    ensures answer { IfOk result (λ answer. answer ≡ executed.answer) }
    ensures ok { OnOk result (state_of (committed storage.new) all_sessions.new ≡ (does (result_effect (is_in_transaction (session_of session all_sessions.old.sessions)) (needed request.now locks) (result_of executed)) (state_of (committed storage.old) all_sessions.old) session).after) }
    ensures err { OnErr result (state_of (committed storage.new) all_sessions.new ≡ state_of (committed storage.old) all_sessions.old) }
    ensures have { HaveWritten (written storage.new) all_sessions.new }
{
    if all_sessions.is_in_transaction(session) {
        all_sessions.go_on(session, request, locks, executed.events())?;
        let ReadyResult { answer, writes } = executed;
        storage.write(session, writes);
        Ok(answer)
    } else {
        all_sessions.commit_with(session, storage.events_written(session), executed.events())?;
        let ReadyResult { answer, writes } = executed;
        storage.write(session, writes);
        storage.commit(session);
        Ok(answer)
    }
}
