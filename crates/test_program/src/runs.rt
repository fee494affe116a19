//! A call of the program with a plan.

use crate::meeting::Meeting;
use crate::program::{Ended, Program};
use base_edges::{BytesSink, BytesSource};
use run_turns::Turns;
use std::alloc::{AllocError, Global};
use top_words::Line;

/// Where the source and the sink of a call fail, if they do.
#[derive(Clone, Copy)]
pub struct Edges {
    /// The byte of the plan at which the source fails.
    pub source_fails: Option<usize>,
    /// How many bytes the sink takes before it fails.
    pub sink_fails: Option<usize>,
}

/// Neither fails.
pub const SOUND: Edges = Edges {
    source_fails: None,
    sink_fails: None,
};

/// How a call ended, and what it left.
pub struct Ran {
    /// How it ended.
    pub ended: Ended,
    /// The source, from which the plan was read.
    pub source: BytesSource,
    /// The sink, which holds what was printed.
    pub sink: BytesSink,
}

// By hand, so that crates above prove it as one call.
impl Drop for Ran {
    fn drop(self) {
        let Ran {
            ended,
            source,
            sink,
        } = self;
        drop(ended);
        drop(source);
        drop(sink);
    }
}

impl Ran {
    /// What was printed.
    pub fn printed(&self) -> &[u8] {
        self.sink.held()
    }

    /// Whose turns its run took, in order.
    pub fn into_turns(self) -> Turns {
        let Ran {
            ended,
            source,
            sink,
        } = self;
        drop(source);
        drop(sink);
        ended.into_turns()
    }
}

/// The words of a command line, which have one blank between them.
fn line_of(alloc: Global, words: &str) -> Result<Line, AllocError> {
    let mut line = Line::new(alloc);
    if !words.is_empty() {
        for word in words.split(' ') {
            line.push(alloc, word)?;
        }
    }
    Ok(line)
}

/// What the program does with a plan under the words of a command line, between a source and a sink that may fail, and at a
/// gate.
pub fn run_between(
    alloc: Global,
    program: &Program,
    words: &str,
    plan: &[u8],
    edges: Edges,
    gate: &Meeting,
) -> Result<Ran, AllocError> {
    let line = line_of(alloc, words)?;
    let mut source = BytesSource::new(plan.to_vec(alloc)?, edges.source_fails);
    let mut sink = BytesSink::new(alloc, edges.sink_fails);
    let ended = program.call(&line, &mut source, &mut sink, gate);
    Ok(Ran {
        ended,
        source,
        sink,
    })
}

/// What the program does with a plan under the words of a command line.
pub fn run(alloc: Global, program: &Program, words: &str, plan: &[u8]) -> Result<Ran, AllocError> {
    run_between(alloc, program, words, plan, SOUND, &Meeting::new(0))
}
