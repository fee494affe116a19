//! The run over the lines of files.

use crate::calls::answer;
use base_values::Text;
use std::alloc::{AllocError, Global};
use std::rt::Files;
use std::{fs, io};
use test_lines::{CallFault, Line};

/// What the line's call answers, or that it could not be read.
fn reported_answer(alloc: Global, line: &Line<'_>) -> Result<Text, AllocError> {
    match answer(alloc, line.call, line.input.as_str()) {
        Ok(answer) => Ok(answer),
        Err(CallFault::Memory) => Err(AllocError),
        Err(CallFault::Unread) => {
            let mut output = Text::new(alloc);
            output.push_str("unread")?;
            Ok(output)
        }
    }
}

/// Whether the line's call answers as it says. Where it doesn't, says what it answers.
fn is_as_expected<R: Print + AllocGlobal>(rt: &R, text: &str) -> io::Result<bool> {
    match Line::new(rt.alloc(), text)? {
        None => {
            println!(rt; "{text}\n    is no line")?;
            Ok(false)
        }
        Some(line) => {
            let answer = reported_answer(rt.alloc(), &line)?;
            let expected = answer.as_str() == line.answer.as_str();
            if !expected {
                println!(rt; "{text}\n    answers {}", answer.as_str())?;
            }
            Ok(expected)
        }
    }
}

/// Runs the lines of a file, but for those that are empty or begin with a number sign.
fn run_lines<R: Print + AllocGlobal>(rt: &R, name: &str, text: &str) -> io::Result<()> {
    let mut lines = 0u64;
    let mut expected = 0u64;
    for line in text.lines() {
        if !line.is_empty() && !line.starts_with('#') {
            lines = lines.saturating_add(1);
            expected = expected.saturating_add(u64::from(is_as_expected(rt, line)?));
        }
    }
    println!(rt; "{name}: {expected} of {lines} calls answer as expected")
}

/// Runs the lines of the files that the file `files` names, and says of which the call answers otherwise.
pub fn run_files<R: Print + AllocGlobal + Files>(rt: &R) -> io::Result<()> {
    let names = fs::read_to_string(rt, "files")?;
    for name in names.lines() {
        let text = fs::read_to_string(rt, name)?;
        run_lines(rt, name, text.as_str())?;
    }
    Ok(())
}
