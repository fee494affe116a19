//! The program `ghost`: its words, standard input and standard output, handed to the top call.
#![tactic(auto)]

use base_edges::{OpenGate, StdSink, StdSource};
use std::alloc::{AllocError, Global};
use std::process::ExitCode;
use std::rt::Env;
use std::{env, io};
use top_call::{Line, ghost_};

/// The words after the program's name. Words that aren't UTF-8 are no command, as no words are none.
fn words<R: Env + AllocGlobal>(rt: &R) -> Result<Line, AllocError> {
    let mut line = Line::new(rt.alloc());
    match env::args(rt) {
        Ok(words) => {
            for word in words.skip(1) {
                line.push(rt.alloc(), word.as_str())?;
            }
            Ok(line)
        }
        Err(error) if error.kind() == io::ErrorKind::OutOfMemory => Err(AllocError),
        Err(_) => Ok(line),
    }
}

fn main(rt: HostRuntime) -> ExitCode {
    let alloc: Global = rt.alloc();
    let mut source = StdSource::new(rt.reader());
    let mut sink = StdSink::new(io::writer(&rt));
    match words(&rt) {
        Ok(line) => {
            let ended = ghost_(&rt, alloc, &line, &mut source, &mut sink, &OpenGate);
            ExitCode::from(ended.status)
        }
        Err(_) => ExitCode::from(6),
    }
}
