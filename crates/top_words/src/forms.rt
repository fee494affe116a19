//! The forms of a command line.

ghost use Rattle.std.specs.Prelude.{◌≡◌, ◌||◌, codes, is_some, map, option_and_then, option_map, string_bytes};
ghost use Rattle.std.specs.Str.{bytes_eq};
ghost use Rattle.top_words.specs.Commands.{attached_number, command, numbered_command, option_command, plain_command};
ghost use Rattle.top_words.specs.Numbers.{workers_of};

use crate::numbers::{number_of, workers_of};

/// What follows `--workers=` in a word.
fn attached_number(word: &str) -> Option<&str>
    ensures { option_map (λ number. number.now) result ≡ attached_number word.now }
{
    word.strip_prefix("--workers=")
}

fn is_plain(name: &str) -> bool
    ensures { result ≡ is_some (plain_command name.now) }
{
    name == "check"
        || name == "replay"
        || name == "run"
        || name == "trace"
        || name == "audit"
        || name == "rebuild"
}

fn has_attached_number(word: &str) -> bool
    ensures { result ≡ is_some (option_and_then workers_of (attached_number word.now)) }
{
    match attached_number(word) {
        Some(number) => workers_of(number).is_some(),
        None => false,
    }
}

/// Whether the command is one to which a number of workers may be given.
fn has_workers(name: &str) -> bool
    ensures { result ≡ (bytes_eq name.now (codes "run") || bytes_eq name.now (codes "rebuild")) }
{
    name == "run" || name == "rebuild"
}

fn is_numbered(name: &str, word: &str) -> bool
    ensures { result ≡ is_some (numbered_command name.now word.now) }
{
    if name == "generate" {
        number_of(word).is_some()
    } else {
        has_workers(name) && has_attached_number(word)
    }
}

fn has_option(name: &str, option: &str, word: &str) -> bool
    ensures { result ≡ is_some (option_command name.now option.now word.now) }
{
    has_workers(name) && option == "--workers" && workers_of(word).is_some()
}

/// Whether the words are one of the forms, each number in its range.
pub(crate) fn is_form(words: &[String]) -> bool
    ensures { result ≡ is_some (command (map string_bytes words.now)) }
{
    match words {
        [] => false,
        [name] => is_plain(name.as_str()),
        [name, word] => is_numbered(name.as_str(), word.as_str()),
        [name, option, word] => has_option(name.as_str(), option.as_str(), word.as_str()),
        [_, _, _, _, ..] => false,
    }
}
