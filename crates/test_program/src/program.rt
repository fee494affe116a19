//! The program whose calls are tried.

use crate::meeting::Meeting;
use base_edges::{BytesSink, BytesSource};
use run_turns::Turns;
use server_model::Journal;
use top_words::Line;

/// How a call of the program ended.
pub struct Ended {
    /// The number of its status.
    pub status: u8,
    /// Whose turns its run took, in order.
    pub turns: Turns,
    /// The turns of its run, as the run kept them.
    pub journal: Journal,
}

// By hand, so that crates above prove it as one call.
impl Drop for Ended {
    fn drop(self) {
        let Ended {
            status: _,
            turns,
            journal,
        } = self;
        drop(turns);
        drop(journal);
    }
}

impl Ended {
    /// Whose turns its run took, in order.
    pub fn into_turns(self) -> Turns {
        let Ended {
            status: _,
            turns,
            journal,
        } = self;
        drop(journal);
        turns
    }
}

/// Does what words ask for, of a plan that a source has, gives a text to a sink, and says how it ended. The gate is told of each
/// turn of a worker's.
pub type Call = Box<dyn Fn(&Line, &mut BytesSource, &mut BytesSink, &Meeting) -> Ended>;

/// A program as a closure that may always be called, so that cases can be run with it.
#[derive(Drop)]
pub struct Program {
    call: Call,
    ghost callable: { IsAlwaysCallable call },
}

impl Program {
    /// The program that is called so.
    pub fn new(call: Call) -> Program
        requires { IsAlwaysCallable call }
    {
        Program { call }
    }

    /// Does what the words ask for.
    pub fn call(
        &self,
        words: &Line,
        source: &mut BytesSource,
        sink: &mut BytesSink,
        gate: &Meeting,
    ) -> Ended {
        (self.call)(words, source, sink, gate)
    }
}
