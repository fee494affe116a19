//! Scripts of clients.

use crate::statement::Statement;
use base_values::{Duplicate, Sequence};
use std::alloc::AllocError;

/// What a line of a script asks for.
pub enum ScriptWord {
    /// BEGIN or START TRANSACTION.
    Begin,
    /// COMMIT.
    Commit,
    /// ROLLBACK.
    Rollback,
    /// A statement.
    Do(Statement),
}

// By hand, so that crates above prove it as one call.
impl Drop for ScriptWord {
    fn drop(self) {
        match self {
            ScriptWord::Begin | ScriptWord::Commit | ScriptWord::Rollback => {}
            ScriptWord::Do(statement) => drop(statement),
        }
    }
}

impl Duplicate for ScriptWord {
    fn copy(&self) -> Result<ScriptWord, AllocError> {
        Ok(match self {
            ScriptWord::Begin => ScriptWord::Begin,
            ScriptWord::Commit => ScriptWord::Commit,
            ScriptWord::Rollback => ScriptWord::Rollback,
            ScriptWord::Do(statement) => ScriptWord::Do(statement.copy()?),
        })
    }
}

/// What one line asks for, with its number in the text, by which reports name it.
pub struct ScriptLine {
    /// Its number in the script's text, counted from 1.
    pub line: u32,
    /// What it asks for.
    pub word: ScriptWord,
}

// By hand, so that crates above prove it as one call.
impl Drop for ScriptLine {
    fn drop(self) {
        let ScriptLine { word, line: _ } = self;
        drop(word);
    }
}

/// The lines of a client's script, in order.
pub type Script = Sequence<ScriptLine>;
