//! Texts of MySQL's dialect, cut into words that borrow them.
#![tactic(auto)]

mod characters;
mod front;
mod laws;
mod meaning;
mod quoted;
mod reader;
mod word;

pub use laws::{
    numbers_are_read, printed_bytes_are_read, printed_texts_are_read, words_follow_one_another,
};
pub use reader::words;
pub use word::{Word, WordClass, WordFault, Words};
