//! What the tool looks at before it asks, and whether it holds back.

ghost use Rattle.std.specs.Prelude.{◌≡◌};
ghost use Rattle.tool_program.specs.Operators.{is_throttled};
ghost use Rattle.tool_program.specs.Programs.{waits, in_transaction, unread_in, is_held, may_read, may_begin};
ghost use Rattle.tool_state.specs.ToolState.Meanings.{work_of, tool_of};
ghost use Rattle.tool_state.specs.Seen.{IsSeen};

use crate::tool_state::Tool;
use base_values::Names;
use plan_data::Plan;
use server_api::Serve;
use server_model::Entry;
use tool_program::note_writer::Notes;

/// What the tool looks at before it asks: its plan, its turns so far, its own record, and the server.
#[derive(Drop)]
pub struct ToolView<'a, V: Serve> {
    /// The plan of the migration.
    pub plan: &'a Plan,
    /// The turns so far.
    pub journal: &'a [Entry],
    /// How far the tool is.
    pub tool: &'a Tool,
    /// The server after the journal's turns.
    pub server: &'a V,
    /// The tables whose events the applier reads: the migrated one and the changelog.
    pub names: &'a Names,
    /// How many transactions of clients are open.
    pub load: u64,
    /// How far the notes are.
    pub notes: Notes,
}

impl<'a, V: Serve> ToolView<'a, V> {
    /// Whether the session's request waits.
    pub(crate) fn waits(&self, session: Option<u32>) -> bool
        ensures { result ≡ waits (V.state self.now.server.now) session }
    {
        match session {
            Some(session) => self.server.waits(session),
            None => false,
        }
    }

    /// Whether the session is in a transaction.
    pub(crate) fn in_transaction(&self, session: Option<u32>) -> bool
        ensures { result ≡ in_transaction (V.state self.now.server.now) session }
    {
        match session {
            Some(session) => self.server.in_transaction(session),
            None => false,
        }
    }

    /// Whether the tool holds back.
    pub(crate) fn is_throttled(&self) -> bool
        requires { IsSeen (V.state self.now.server.now) self.now.tool.now self.now.names.now self.now.load }
        ensures { result ≡ is_throttled self.now.plan.now (V.state self.now.server.now) (tool_of self.now.tool.now).operator }
    {
        self.tool.operator.is_throttled(self.plan, self.load)
    }

    /// How many events are unread.
    fn unread(&self) -> u64
        requires { IsSeen (V.state self.now.server.now) self.now.tool.now self.now.names.now self.now.load }
        ensures { result ≡ unread_in (V.state self.now.server.now) (work_of self.now.tool.now.work) }
    {
        self.server
            .unread(self.tool.work.applier.position, self.names)
    }

    /// Whether no batch begins.
    fn is_held(&self) -> bool
        requires { IsSeen (V.state self.now.server.now) self.now.tool.now self.now.names.now self.now.load }
        ensures { result ≡ is_held self.now.plan.now (V.state self.now.server.now) (tool_of self.now.tool.now) (work_of self.now.tool.now.work) }
    {
        let cutover = &self.tool.work.cutover;
        if cutover.phase.stands() {
            cutover.is_asked
        } else {
            self.is_throttled()
        }
    }

    /// Whether a batch may begin.
    pub(crate) fn may_read(&self) -> bool
        requires { IsSeen (V.state self.now.server.now) self.now.tool.now self.now.names.now self.now.load }
        ensures { result ≡ may_read self.now.plan.now (V.state self.now.server.now) (tool_of self.now.tool.now) (work_of self.now.tool.now.work) }
    {
        0 < self.unread() && !self.is_held()
    }

    /// Whether an attempt may begin.
    pub(crate) fn may_begin(&self) -> bool
        requires { IsSeen (V.state self.now.server.now) self.now.tool.now self.now.names.now self.now.load }
        ensures { result ≡ may_begin self.now.plan.now (V.state self.now.server.now) (tool_of self.now.tool.now) (work_of self.now.tool.now.work) }
    {
        let most = u64::from(self.plan.options().max_backlog);
        self.tool.work.copier.is_copied
            && self.unread() <= most
            && !self.is_throttled()
            && !self.tool.operator.is_postponed(self.plan)
    }
}
