//! Values as words: what a word stands for, and the lemmas by which each value that is printed is read back.

mod literals;

pub use literals::literal;
