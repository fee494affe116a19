//! How far a client is in its script, with the numbers that the report has of it.

ghost use Rattle.std.specs.Prelude.{◌≡◌, ◌+◌, ◌<◌, ◌^◌, if◌then◌else◌, length};
ghost use Rattle.top_report.specs.ClientLines.Walks.{ends_now, is_marked, is_open, new_walk, number_in, outcome_now, walk_after};

use base_script::{Script, ScriptLine};
use run_actors::client_turns::{ClientState, LineOutcome, ends, line_outcome_of};
use server_model::{Entry, Mark};
use std::marker::Model;

/// How far a client is in its script, as its turns tell.
#[derive(Drop)]
pub(crate) struct Walk<'a> {
    script: &'a Script,
    state: ClientState,
    /// How many transactions it began.
    begun: u64,
    /// How many lines its open transaction has; 0 where none is open.
    lines: u64,
}

impl<'a> Model for Walk<'a> {
    ghost use Rattle.top_report.specs.ClientLines.Walks.{IsKept, Walk as WalkView, walk_in};

    ghost Value = { WalkView };

    ghost view = { λ w. walk_in w.script.now w.state w.begun w.lines };

    ghost invariant = { λ w. IsKept w.state.is_inside (walk_in w.script.now w.state w.begun w.lines) };
}

/// How many lines these are. For the prover: they are few, since they are a slice.
fn line_count(lines: &[ScriptLine]) -> usize
    ensures { length lines.now < 2 ^ 63 }
{
    lines.len()
}

impl<'a> Walk<'a> {
    /// A client at its script's begin.
    #[tactic(auto, using(crate::proofs::ClientLines::Stepping::new_is))]
    pub(crate) fn new(script: &'a Script) -> Walk<'a>
        ensures { result ≡ new_walk script.now }
    {
        let lines = script.as_slice();
        let _count = line_count(lines);
        Walk {
            script,
            state: ClientState::new(),
            begun: 0,
            lines: 0,
        }
    }

    /// What became of its line in its turn.
    pub(crate) fn outcome(&self, entry: &Entry) -> LineOutcome
        ensures { result ≡ outcome_now self.now entry.now }
    {
        line_outcome_of(self.state.waits, entry)
    }

    /// Whether a transaction is open.
    pub(crate) fn is_open(&self) -> bool
        ensures { result ≡ is_open self.now }
    {
        self.state.is_inside
    }

    /// The number of the transaction that its next line is of.
    pub(crate) fn number(&self) -> u64
        ensures { result ≡ number_in self.now }
    {
        if self.is_open() {
            self.begun
        } else {
            self.begun + 1
        }
    }

    /// How many transactions it began.
    pub(crate) fn begun(&self) -> u64
        ensures { result ≡ self.now.begun }
    {
        self.begun
    }

    /// The number of its next line in its transaction.
    pub(crate) fn line(&self) -> u64
        ensures { result ≡ self.now.lines + 1 }
    {
        self.lines + 1
    }

    /// Whether its next line ends its transaction where it gets this mark.
    pub(crate) fn ends(&self, mark: Mark) -> bool
        ensures { result ≡ ends_now (is_open self.now) mark self.now.left }
    {
        match self.state.left(self.script).split_first() {
            None => false,
            Some((line, _)) => ends(self.is_open(), &line.word, mark),
        }
    }

    /// Whether a line is left, which got a mark.
    fn is_marked(&self, outcome: LineOutcome) -> bool
        ensures { result ≡ is_marked outcome self.now.left }
    {
        match outcome {
            LineOutcome::Marked(_) => match self.state.left(self.script).split_first() {
                None => false,
                Some(_) => true,
            },
            LineOutcome::Nothing | LineOutcome::Waits | LineOutcome::Broken => false,
        }
    }

    /// The numbers of its transaction and of its line after its turn, where a transaction is open then.
    fn numbers_after(&self, outcome: LineOutcome) -> (u64, u64)
        ensures transaction { result.0 ≡ (if is_marked outcome self.now.left then number_in self.now else self.now.begun) }
        ensures line { result.1 ≡ (if is_marked outcome self.now.left then self.now.lines + 1 else self.now.lines) }
    {
        if self.is_marked(outcome) {
            (self.number(), self.line())
        } else {
            (self.begun, self.lines)
        }
    }

    /// How far it is after its turn.
    pub(crate) fn take(&mut self, outcome: LineOutcome)
        ensures { self.new ≡ walk_after outcome self.old }
    {
        let (begun, lines) = self.numbers_after(outcome);
        let mut state = self.state;
        state.becomes(self.script, outcome);
        *self = Walk {
            script: self.script,
            state,
            begun,
            lines: if state.is_inside { lines } else { 0 },
        };
    }
}
