//! The words of statements, and what single words stand for.

use base_values::{Shared, Text, Value, print_value};
use sql_words::{Word, WordFault, Words, words};
use std::alloc::Global;
use test_lines::{CallFault, say, text_of};

/// The words, each as its class, its place and its text.
fn reported_words(alloc: Global, words: &Words<'_>) -> Result<Text, CallFault> {
    let mut output = Text::new(alloc);
    for word in words.as_slice() {
        let piece = format!(in alloc; "{:?} {} {}", word.class, word.place, word.text)?;
        say(&mut output, piece.as_str())?;
    }
    Ok(output)
}

/// A fault, and where it is.
fn reported_fault(alloc: Global, fault: &WordFault) -> Result<Text, CallFault> {
    let (word, place) = match fault {
        WordFault::Unclosed { place } => ("unclosed at ", *place),
        WordFault::Odd { place } => ("odd at ", *place),
        WordFault::TooLong { place } => ("too long at ", *place),
        WordFault::Memory => return Err(CallFault::Memory),
    };
    let mut output = text_of(alloc, word)?;
    output.push_number(place as i128)?;
    Ok(output)
}

/// The words of a text, or its first fault.
fn cut(alloc: Global, text: &str) -> Result<Text, CallFault> {
    match words(alloc, text) {
        Ok(words) => reported_words(alloc, &words),
        Err(fault) => reported_fault(alloc, &fault),
    }
}

/// The literal of what the word stands for, if it is a text, bytes or a number.
fn value(alloc: Global, word: &Word<'_>) -> Result<Text, CallFault> {
    let mut output = Text::new(alloc);
    if let Some(text) = word.text_value(alloc)? {
        output.push_str("text ")?;
        output.push_str(text.as_str())?;
    }
    if let Some(bytes) = word.bytes_value(alloc)? {
        output.push_str("bytes ")?;
        print_value(&Value::Blob(Shared::from_vec(bytes)?), &mut output)?;
    }
    if let Some(number) = word.number_value() {
        output.push_str("number ")?;
        output.push_number(number)?;
    }
    Ok(output)
}

/// What is between the word's quotes, and the name that it is.
fn written(alloc: Global, word: &Word<'_>) -> Result<Text, CallFault> {
    let mut output = Text::new(alloc);
    for (what, text) in [
        ("text ", word.written_text()),
        ("bytes ", word.written_bytes()),
        ("name ", word.name()),
    ] {
        if let Some(text) = text {
            output.push_str(what)?;
            output.push_str(text)?;
        }
    }
    Ok(output)
}

/// The answer of a call about the words, of which there must be one.
fn answer_of(alloc: Global, call: &str, words: &[Word<'_>]) -> Result<Text, CallFault> {
    let [word] = words else {
        return Err(CallFault::Unread);
    };
    match call {
        "value" => value(alloc, word),
        "written" => written(alloc, word),
        _ => Err(CallFault::Unread),
    }
}

/// The answer of a call about words.
pub fn answer(alloc: Global, call: &str, input: &str) -> Result<Text, CallFault> {
    if call == "cut" {
        return cut(alloc, input);
    }
    let words = words(alloc, input).map_err(|_| CallFault::Unread)?;
    answer_of(alloc, call, words.as_slice())
}
