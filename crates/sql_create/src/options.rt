//! What follows a table's closing parenthesis.

ghost use Rattle.std.specs.Prelude.{◌≡◌, option_map};
ghost use Rattle.base_values.specs.Faults.{Answers};
ghost use Rattle.sql_create.specs.Options.{value_words, passed_at, set_at, comment_at, start_at, charset_at, default_charset_at, with_option, option_at, options_at};

use crate::written::TableOptions;
use base_values::Chars;
use sql_grammar::{
    SchemaFault, Token, after_sign, any_word_at, is_auto_increment, keyword_at, mismatch,
    number_at, text_at,
};
use std::alloc::Global;

/// An option of a table.
#[derive(Drop)]
pub enum TableOption {
    /// COMMENT.
    Comment(Chars),
    /// AUTO_INCREMENT: the number at which that column starts.
    Start(i128),
    /// One that is passed over.
    Passed,
}

#[tactic(auto, unfolding(crate::specs::Options::value_words))]
fn value_words(words: &[Token]) -> &[Token]
    ensures { result.now ≡ value_words words.now }
{
    match after_sign("=", words) {
        Some(rest) => rest,
        None => words,
    }
}

#[tactic(auto, unfolding(crate::specs::Options::passed_at))]
fn passed_at(words: &[Token]) -> Result<Option<(TableOption, &[Token])>, SchemaFault>
    ensures { Answers (option_map (λ read. (read.0, read.1.now))) result (passed_at words.now) }
{
    let rest = any_word_at(value_words(words))?;
    Ok(Some((TableOption::Passed, rest)))
}

#[tactic(auto, unfolding(crate::specs::Options::set_at))]
fn set_at(words: &[Token]) -> Result<Option<(TableOption, &[Token])>, SchemaFault>
    ensures { Answers (option_map (λ read. (read.0, read.1.now))) result (set_at words.now) }
{
    let rest = keyword_at("SET", words)?;
    passed_at(rest)
}

#[tactic(auto, unfolding(crate::specs::Options::comment_at))]
fn comment_at(
    alloc: Global,
    words: &[Token],
) -> Result<Option<(TableOption, &[Token])>, SchemaFault>
    ensures { Answers (option_map (λ read. (read.0, read.1.now))) result (comment_at words.now) }
{
    let (text, rest) = text_at(alloc, value_words(words))?;
    Ok(Some((TableOption::Comment(text), rest)))
}

#[tactic(auto, unfolding(crate::specs::Options::start_at))]
fn start_at(words: &[Token]) -> Result<Option<(TableOption, &[Token])>, SchemaFault>
    ensures { Answers (option_map (λ read. (read.0, read.1.now))) result (start_at words.now) }
{
    let (number, rest) = number_at(value_words(words))?;
    Ok(Some((TableOption::Start(number), rest)))
}

#[tactic(auto, unfolding(crate::specs::Options::charset_at))]
fn charset_at(words: &[Token]) -> Result<Option<(TableOption, &[Token])>, SchemaFault>
    ensures { Answers (option_map (λ read. (read.0, read.1.now))) result (charset_at words.now) }
{
    match words {
        [] => Ok(None),
        [word, rest @ ..] => {
            if word.is_keyword("CHARSET") {
                passed_at(rest)
            } else if word.is_keyword("CHARACTER") {
                set_at(rest)
            } else if word.is_keyword("COLLATE") {
                passed_at(rest)
            } else {
                Ok(None)
            }
        }
    }
}

#[tactic(auto, unfolding(crate::specs::Options::default_charset_at))]
fn default_charset_at(words: &[Token]) -> Result<Option<(TableOption, &[Token])>, SchemaFault>
    ensures { Answers (option_map (λ read. (read.0, read.1.now))) result (default_charset_at words.now) }
{
    match charset_at(words)? {
        Some((option, rest)) => Ok(Some((option, rest))),
        None => Err(SchemaFault::Refused(mismatch(words))),
    }
}

#[tactic(auto, unfolding(crate::specs::Options::option_at))]
fn option_at(
    alloc: Global,
    version: u32,
    words: &[Token],
) -> Result<Option<(TableOption, &[Token])>, SchemaFault>
    ensures { Answers (option_map (λ read. (read.0, read.1.now))) result (option_at version words.now) }
{
    match words {
        [] => Ok(None),
        [word, rest @ ..] => {
            if word.is_keyword("ENGINE") {
                passed_at(rest)
            } else if word.is_keyword("COMMENT") {
                comment_at(alloc, rest)
            } else if word.is_keyword("DEFAULT") {
                default_charset_at(rest)
            } else if is_auto_increment(version, word) {
                start_at(rest)
            } else {
                charset_at(words)
            }
        }
    }
}

fn with_option(options: TableOptions, option: TableOption) -> TableOptions
    ensures { result ≡ with_option options option }
{
    let TableOptions { comment, start } = options;
    match option {
        TableOption::Comment(text) => TableOptions {
            comment: text,
            start,
        },
        TableOption::Start(number) => TableOptions {
            comment,
            start: Some(number),
        },
        TableOption::Passed => TableOptions { comment, start },
    }
}

/// What the options here say, and what follows them.
#[tactic(auto, unfolding(crate::specs::Options::options_at))]
pub fn options_at(
    alloc: Global,
    version: u32,
    words: &[Token],
) -> Result<(TableOptions, &[Token]), SchemaFault>
    ensures { Answers (λ read. (read.0, read.1.now)) result (options_at version words.now) }
{
    let mut options = TableOptions {
        comment: Chars::new(alloc, "")?,
        start: None,
    };
    let mut rest = words;
    for _ in 0..words.len() {
        match option_at(alloc, version, rest)? {
            None => return Ok((options, rest)),
            Some((option, following)) => {
                options = with_option(options, option);
                rest = following;
            }
        }
    }
    Ok((options, rest))
}
