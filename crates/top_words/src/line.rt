//! A command line.

ghost use Rattle.std.specs.Prelude.{◌≡◌, [], ◌∷◌, ◌++◌, OnOk, OnErr, IfOk, map, string_bytes};
ghost use Rattle.top_words.specs.Commands.{command};
ghost use Rattle.std.specs.List.{list_any};
ghost use Rattle.top_words.specs.Matches.{is_escape};

use crate::command::Command;
use crate::forms::is_form;
use crate::matches::{chosen, program};
use clap::error::ErrorKind;
use std::alloc::{AllocError, Global};
use std::marker::Model;

/// The words of a command line, without the program's name.
#[derive(Drop)]
pub struct Line {
    words: Vec<String>,
}

impl Model for Line {
    ghost use Rattle.std.specs.Prelude.{ℕ, List, map, string_bytes};

    ghost Value = { List (List ℕ) };

    ghost view = { λ l. map string_bytes l.words.items };
}

/// Whether a word is `--`, after which `clap` would take any word as it is.
fn has_escape(words: &[String]) -> bool
    ensures { result ≡ list_any (λ word. is_escape (string_bytes word)) words.now }
{
    words.iter().any(|word| word.as_str() == "--")
}

/// The command that words are, if they are one. `clap` may take words that are none: so they are compared with the
/// forms.
fn command_of(alloc: Global, words: &[String]) -> Result<Option<Command>, AllocError>
    ensures { IfOk result (λ chosen. chosen ≡ command (map string_bytes words.now)) }
{
    if has_escape(words) {
        return Ok(None);
    }
    // `clap` first, and then the forms: so no form can be lost by `clap`, and nothing else that it takes is a command (`run
    // --workers=x`, its `help`, shortened words).
    match program(alloc)?.try_get_matches_from(words) {
        Ok(matches) if is_form(words) => Ok(chosen(&matches)),
        Ok(_) => Ok(None),
        Err(error) => match error.kind() {
            ErrorKind::OutOfMemory => Err(AllocError),
            _ => Ok(None),
        },
    }
}

impl Line {
    /// No words.
    pub fn new(alloc: Global) -> Line
        ensures { result ≡ [] }
    {
        Line {
            words: Vec::new(alloc),
        }
    }

    /// Adds a word at the end.
    pub fn push(&mut self, alloc: Global, word: &str) -> Result<(), AllocError>
        ensures ok { OnOk result (self.new ≡ self.old ++ word.now ∷ []) }
        ensures err { OnErr result (self.new ≡ self.old) }
    {
        let word = String::from_str(alloc, word)?;
        self.words.push(word)?;
        Ok(())
    }

    /// The command that the words are, if they are one.
    pub fn command(&self, alloc: Global) -> Result<Option<Command>, AllocError>
        ensures { IfOk result (λ chosen. chosen ≡ command self.now) }
    {
        command_of(alloc, self.words.as_slice())
    }
}
