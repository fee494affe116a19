//! The operator: what its commands have done so far, and when the tool holds back.

ghost use Rattle.std.specs.Prelude.{◌≡◌, ◌+◌, ◌<◌, slice_get};
ghost use Rattle.tool_program.specs.JournalWords.KeptPlans.{words_of};
ghost use Rattle.tool_program.specs.Operators.{new_operator, is_left, commanded, is_postponed};
ghost use Rattle.tool_program.specs.ToolSetup.Meanings.{operator_of, words_in, is_throttled_under};

use base_script::{Command, OperatorWord};
use plan_data::{Options, Plan};
use tool_throttle::{Go, Throttle};

/// What the operator's commands have done so far.
#[derive(Clone, Copy)]
pub struct Operator {
    /// How many of its commands were taken, each unit of a wait as one.
    pub taken: u64,
    /// Whether `throttle` was the last of `throttle` and `no-throttle`.
    pub throttles: bool,
    /// Whether the first attempt is put off.
    pub postpones: bool,
    /// How many rows a chunk holds at most.
    pub size: u32,
}

/// The word after `taken`, each unit of a wait as one.
fn word_after(commands: &[Command], taken: u64) -> Option<OperatorWord>
    ensures { result ≡ slice_get (words_in commands.now) taken }
{
    let mut left = taken;
    for command in commands {
        let units = u64::from(command.units);
        if left < units {
            return Some(command.word);
        }
        left -= units;
    }
    None
}

impl Operator {
    /// Before the first command.
    pub fn new(options: &Options) -> Operator
        ensures { operator_of result ≡ new_operator options.now }
    {
        Operator {
            taken: 0,
            throttles: false,
            postpones: options.postpone,
            size: options.chunk_size,
        }
    }

    /// The next command.
    #[tactic(auto, unfolding(crate::specs::JournalWords::KeptPlans::words_of))]
    pub fn next(&self, plan: &Plan) -> Option<OperatorWord>
        ensures { result ≡ slice_get (words_of plan.now) self.now.taken }
    {
        word_after(plan.operator().as_slice(), self.taken)
    }

    /// Whether a command is left.
    #[tactic(auto, using(crate::proofs::ToolSetup::Commands::stands_within))]
    pub fn is_left(&self, plan: &Plan) -> bool
        ensures { result ≡ is_left plan.now (operator_of self.now) }
    {
        self.next(plan).is_some()
    }

    /// Takes a command.
    pub fn take(&mut self, word: OperatorWord)
        requires { self.old.taken < u64.MAX }
        ensures commanded { operator_of self.new ≡ commanded word (operator_of self.old) }
        ensures taken { self.new.taken ≡ self.old.taken + 1 }
    {
        self.taken += 1;
        match word {
            OperatorWord::Throttle => self.throttles = true,
            OperatorWord::NoThrottle => self.throttles = false,
            OperatorWord::ChunkSize(size) => self.size = size,
            OperatorWord::Unpostpone => self.postpones = false,
            OperatorWord::Panic | OperatorWord::Wait => {}
        }
    }

    /// Whether the tool holds back while `load` transactions of clients are open.
    pub fn is_throttled(&self, plan: &Plan, load: u64) -> bool
        ensures { result ≡ is_throttled_under plan.now load (operator_of self.now) }
    {
        let commanded = self.throttles && self.is_left(plan);
        match Throttle::new(u64::from(plan.options().max_load)).asks(load, commanded) {
            Go::Hold { .. } => true,
            Go::Go => false,
        }
    }

    /// Whether no attempt begins yet.
    pub fn is_postponed(&self, plan: &Plan) -> bool
        ensures { result ≡ is_postponed plan.now (operator_of self.now) }
    {
        self.postpones && self.is_left(plan)
    }
}
