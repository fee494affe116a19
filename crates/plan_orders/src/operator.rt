//! The operator's text.

ghost use Rattle.std.specs.Prelude.{◌≡◌, ◌++◌, IfOk, OnOk, map, option_to_list, nat_lt};
ghost use Rattle.std.specs.List.{count_by};
ghost use Rattle.std.specs.Str.Lines.{lines};
ghost use Rattle.plan_orders.specs.Operators.{chunk_size_of, operator_word, wait_of, command_of, line_command, has_words, command_count, commands_from, operator_of};
ghost use Rattle.base_values.specs.Faults.{Answers};
ghost use Rattle.plan_orders.specs.Words.{spaced_words, parts_at};

use crate::fault::{OrderFault, OrderRefusal};
use crate::numbers::number_up_to;
use crate::spacing::{is_word, parts_at, spaced_words};
use base_script::{Command, Commands, OperatorWord};
use base_values::Sequence;
use std::alloc::{AllocError, Global};

/// The most rows that `chunk-size=N` asks for. This project's rule.
pub const CHUNK_SIZE_LIMIT: u32 = 100_000;

/// The most turns that `wait N` takes. This project's rule.
pub const WAIT_LIMIT: u32 = 100_000;

/// `chunk-size=N`.
fn chunk_size_of(word: &[u8]) -> Option<OperatorWord>
    ensures { result ≡ chunk_size_of (parts_at 61 word.now) }
{
    let (name, number) = parts_at(b'=', word)?;
    if !is_word(name, "chunk-size") {
        return None;
    }
    let size = number_up_to(CHUNK_SIZE_LIMIT, number)?;
    Some(OperatorWord::ChunkSize(size))
}

/// The command that one word is.
#[tactic(auto, unfolding(crate::specs::Operators::operator_word))]
fn operator_word(word: &[u8]) -> Option<OperatorWord>
    ensures { result ≡ operator_word word.now }
{
    if is_word(word, "throttle") {
        Some(OperatorWord::Throttle)
    } else if is_word(word, "no-throttle") {
        Some(OperatorWord::NoThrottle)
    } else if is_word(word, "unpostpone") {
        Some(OperatorWord::Unpostpone)
    } else if is_word(word, "panic") {
        Some(OperatorWord::Panic)
    } else {
        chunk_size_of(word)
    }
}

/// `wait N`.
fn wait_of(word: &[u8], number: &[u8]) -> Option<Command>
    ensures { result ≡ wait_of word.now number.now }
{
    if !is_word(word, "wait") {
        return None;
    }
    let units = number_up_to(WAIT_LIMIT, number)?;
    Some(Command {
        word: OperatorWord::Wait,
        units,
    })
}

/// The command that a line's words are.
fn command_of(words: &[&[u8]]) -> Option<Command>
    ensures { result ≡ command_of (map (λ word. word.now) words.now) }
{
    match words {
        [] => None,
        [word] => {
            let word = operator_word(word)?;
            Some(Command { word, units: 1 })
        }
        [word, number] => wait_of(word, number),
        [_, _, _, ..] => None,
    }
}

/// What a line of this number commands: nothing where it has no words.
fn line_command(alloc: Global, line: u32, text: &str) -> Result<Option<Command>, OrderFault>
    ensures { Answers (λ command. command) result (line_command line (spaced_words text.now)) }
{
    let words = spaced_words(alloc, text)?;
    if words.is_empty() {
        return Ok(None);
    }
    match command_of(words.as_slice()) {
        Some(command) => Ok(Some(command)),
        None => Err(OrderFault::Refused(OrderRefusal::Command { line })),
    }
}

fn push_command(commands: &mut Commands, command: Option<Command>) -> Result<(), AllocError>
    ensures { OnOk result (commands.new ≡ commands.old ++ option_to_list command) }
{
    match command {
        Some(command) => commands.push(command),
        None => Ok(()),
    }
}

fn commands_from(alloc: Global, texts: &[&str]) -> Result<Commands, OrderFault>
    ensures { Answers (λ commands. commands) result (commands_from 1 (map (λ text. text.now) texts.now)) }
{
    let mut commands = Sequence::new(alloc);
    let mut line: u32 = 1;
    for text in texts {
        let command = line_command(alloc, line, text)?;
        push_command(&mut commands, command)?;
        line = line.saturating_add(1);
    }
    Ok(commands)
}

fn lines_of(alloc: Global, text: &str) -> Result<Vec<&str>, AllocError>
    ensures { IfOk result (λ v. map (λ line. line.now) v.items ≡ lines text.now) }
{
    text.lines().collect(alloc)
}

fn has_words(alloc: Global, text: &str) -> Result<bool, AllocError>
    ensures { IfOk result (λ has. has ≡ has_words (spaced_words text.now)) }
{
    let words = spaced_words(alloc, text)?;
    Ok(!words.is_empty())
}

fn have_more_commands(alloc: Global, limit: u64, texts: &[&str]) -> Result<bool, AllocError>
    ensures { IfOk result (λ more. more ≡ nat_lt limit (count_by (λ text. has_words (spaced_words text.now)) texts.now)) }
{
    let mut left = limit;
    for text in texts {
        if has_words(alloc, text)? {
            if left == 0 {
                return Ok(true);
            }
            left -= 1;
        }
    }
    Ok(false)
}

/// Whether an operator's text has more lines with a word than `limit`.
pub fn has_more_commands(alloc: Global, limit: u64, text: &str) -> Result<bool, AllocError>
    ensures { IfOk result (λ more. more ≡ nat_lt limit (command_count text.now)) }
{
    let lines = lines_of(alloc, text)?;
    have_more_commands(alloc, limit, lines.as_slice())
}

/// Reads the operator's commands, one a line. A line without words commands nothing, and is counted.
pub fn read_operator(alloc: Global, text: &str) -> Result<Commands, OrderFault>
    ensures { Answers (λ commands. commands) result (operator_of text.now) }
{
    let lines = lines_of(alloc, text)?;
    commands_from(alloc, lines.as_slice())
}
