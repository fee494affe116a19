//! The words of a text up to its first fault.

ghost use Rattle.std.specs.Prelude.{◌≡◌, Ok, Err, IfOk, map, take};
ghost use Rattle.std.specs.Str.{IsCharBoundary};
ghost use Rattle.sql_words.specs.Readings.{views, words_of};
ghost use Rattle.sql_grammar.specs.Tokens.{token_of, words_or_none, cut_at, text_words};

use crate::token::Token;
use base_values::{CompactText, Sequence};
use sql_words::{Word, WordFault, words};
use std::alloc::{AllocError, Global};

/// The words of a text.
#[derive(Drop)]
pub struct TextWords {
    /// All of them, or where the text has a fault, those before the first.
    pub words: Sequence<Token>,
    /// Whether the text has a fault.
    pub is_faulty: bool,
}

fn token_of(alloc: Global, word: &Word<'_>) -> Result<Token, AllocError>
    ensures { IfOk result (λ token. token ≡ record { class = word.now.class; text = word.now.text.now }) }
{
    Ok(Token {
        class: word.class,
        text: CompactText::new(alloc, word.text)?,
    })
}

fn tokens_of(alloc: Global, words: &[Word<'_>]) -> Result<Sequence<Token>, AllocError>
    ensures { IfOk result (λ tokens. tokens ≡ map token_of (views words.now)) }
{
    let mut tokens = Vec::with_capacity(alloc, words.len())?;
    for word in words {
        let token = token_of(alloc, word)?;
        tokens.push(token)?;
    }
    Ok(Sequence::from_vec(tokens))
}

/// The words of the text before the place of its first fault.
fn cut_at(alloc: Global, text: &str, place: usize) -> Result<TextWords, AllocError>
    requires { IsCharBoundary text.now place }
    ensures { IfOk result (λ read. read ≡ cut_at place text.now) }
{
    let words = match words(alloc, &text[..place]) {
        Ok(found) => tokens_of(alloc, found.as_slice())?,
        Err(WordFault::Memory) => return Err(AllocError),
        Err(_) => Sequence::new(alloc),
    };
    Ok(TextWords {
        words,
        is_faulty: true,
    })
}

/// The words of the text, or where it has a fault, those before the first.
#[tactic(auto, unfolding(crate::specs::Tokens::text_words))]
pub fn text_words(alloc: Global, text: &str) -> Result<TextWords, AllocError>
    ensures { IfOk result (λ read. read ≡ text_words text.now) }
{
    match words(alloc, text) {
        Ok(found) => Ok(TextWords {
            words: tokens_of(alloc, found.as_slice())?,
            is_faulty: false,
        }),
        Err(WordFault::Unclosed { place }) => cut_at(alloc, text, place),
        Err(WordFault::Odd { place }) => cut_at(alloc, text, place),
        Err(WordFault::TooLong { place }) => cut_at(alloc, text, place),
        Err(WordFault::Memory) => Err(AllocError),
    }
}
