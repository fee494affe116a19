//! The words of a text.

ghost use Rattle.std.specs.Prelude.{◌≡◌, IfOk, IfErr, Ok};
ghost use Rattle.sql_words.specs.Readings.{views, words_of, IsFaultOf, StandIn};

use crate::front::{Front, front_at};
use crate::word::{Word, WordFault, Words};
use std::alloc::Global;
use std::cmp::min;

fn words_in<'a>(alloc: Global, text: &'a str) -> Result<Vec<Word<'a>>, WordFault>
    ensures read { IfOk result (λ words. words_of text.now ≡ Ok (views words.items)) }
    ensures fault { IfErr result (IsFaultOf (words_of text.now)) }
{
    // Room for the words of a usual statement, so that the list seldom grows.
    let mut found = Vec::with_capacity(alloc, min(text.len() / 2 + 1, 64))?;
    let mut rest = text;
    while !rest.is_empty() {
        let place = text.len() - rest.len();
        let front = front_at(place, rest.as_bytes())?;
        let (piece, after) = rest.split_at(front.length());
        if let Front::Found(class, _) = front {
            found.push(Word {
                class,
                text: piece,
                place,
            })?;
        }
        rest = after;
    }
    Ok(found)
}

/// The words of a text, each a slice of it, or the first fault in it. White space and comments are passed over.
#[tactic(auto, using(crate::proofs::Slices::words_stand))]
pub fn words<'a>(alloc: Global, text: &'a str) -> Result<Words<'a>, WordFault>
    ensures read { IfOk result (λ words. words_of text.now ≡ Ok words) }
    ensures slices { IfOk result (λ words. StandIn text.now 0 words) }
    ensures fault { IfErr result (IsFaultOf (words_of text.now)) }
{
    let found = words_in(alloc, text)?;
    Ok(Words::from_vec(found))
}
