//! What a line of a script asks for, by its text.

ghost use Rattle.std.specs.Prelude.{◌≡◌, IfOk, map};
ghost use Rattle.sql_grammar.specs.Tokens.{text_words};
ghost use Rattle.base_values.specs.Faults.{Answers};
ghost use Rattle.sql_statement.specs.Lines.{asked_of, line_of, is_line, has_lines};

use crate::code::{LineFault, ScriptCode};
use crate::statements::read_statement;
use base_script::ScriptWord;
use base_values::because;
use sql_grammar::{TextWords, Token, text_words};
use std::alloc::{AllocError, Global};

fn asked_of(alloc: Global, words: &[Token]) -> Result<Option<ScriptWord>, LineFault>
    ensures { Answers (λ asked. asked) result (asked_of words.now) }
{
    match words {
        [] => Ok(None),
        [_, ..] => Ok(Some(because(read_statement(alloc, words), ScriptCode::Statement)?)),
    }
}

/// What a line's text asks for: nothing where it has no words.
pub fn line_at(alloc: Global, text: &str) -> Result<Option<ScriptWord>, LineFault>
    ensures { Answers (λ asked. asked) result (line_of (text_words text.now)) }
{
    let read = text_words(alloc, text)?;
    if read.is_faulty {
        return Err(LineFault::Refused(ScriptCode::Word));
    }
    asked_of(alloc, read.words.as_slice())
}

fn is_line(text: &TextWords) -> bool
    ensures { result ≡ is_line text.now }
{
    text.is_faulty || !text.words.is_empty()
}

/// Whether one of the texts is a line of a script.
pub fn has_lines(alloc: Global, texts: &[&str]) -> Result<bool, AllocError>
    ensures { IfOk result (λ has. has ≡ has_lines (map (λ text. text.now) texts.now)) }
{
    for text in texts {
        let read = text_words(alloc, text)?;
        if is_line(&read) {
            return Ok(true);
        }
    }
    Ok(false)
}
