//! The words of CREATE TABLE and ALTER TABLE, and the pieces that the texts of both are made of. In `word_values` what a word
//! stands for as a value.
#![tactic(auto)]

mod attributes;
mod code;
mod keys;
mod kinds;
mod literals;
mod pieces;
mod scope;
mod token;
mod tokens;
mod versions;
pub mod word_values;

pub use attributes::{Attribute, Attributes, attribute_at};
pub use code::{SchemaCode, SchemaFault};
pub use keys::{KeyText, key_at, key_columns_at, names_at};
pub use kinds::kind_at;
pub use literals::{LiteralRef, read_literal};
pub use pieces::{
    after_keyword, after_sign, any_word_at, keyword_at, literal_at, name_at, number_at, sign_at,
    text_at,
};
pub use scope::{begins_no_item, in_version, mismatch};
pub use token::Token;
pub use tokens::{TextWords, text_words};
pub use versions::{has_counters, is_auto_increment};
