//! What follows a column's kind.

ghost use Rattle.std.specs.Prelude.{◌≡◌, option_map};
ghost use Rattle.sql_grammar.specs.Attributes.{not_null_at, default_at, comment_at, character_set_at, collation_at, passed_at, attribute_at};
ghost use Rattle.base_values.specs.Faults.{Answers};

use crate::code::SchemaFault;
use crate::pieces::{any_word_at, keyword_at, literal_at, text_at};
use crate::token::Token;
use crate::versions::is_auto_increment;
use base_values::Value;
use std::alloc::Global;

/// An attribute of a column.
#[derive(Drop)]
pub enum Attribute {
    /// NULL, or NOT NULL where false.
    Nullable(bool),
    /// DEFAULT.
    Default(Value),
    /// AUTO_INCREMENT.
    AutoIncrement,
    /// One that is passed over.
    Passed,
}

/// The attributes of a column that are written.
#[derive(Drop)]
pub struct Attributes {
    /// NULL or NOT NULL, where one is written.
    pub nullable: Option<bool>,
    /// The DEFAULT, where one is written.
    pub default: Option<Value>,
    /// Whether AUTO_INCREMENT is written.
    pub auto: bool,
}

impl Attributes {
    ghost use Rattle.std.specs.Prelude.{◌≡◌};
    ghost use Rattle.sql_grammar.specs.Attributes.{unwritten, with_attribute};

    /// Nothing is written.
    pub fn new() -> Attributes
        ensures { result ≡ unwritten }
    {
        Attributes {
            nullable: None,
            default: None,
            auto: false,
        }
    }

    /// One attribute more, which counts in place of an earlier one of its sort.
    pub fn with(self, attribute: Attribute) -> Attributes
        ensures { result ≡ with_attribute self attribute }
    {
        match attribute {
            Attribute::Nullable(nullable) => Attributes {
                nullable: Some(nullable),
                default: self.default,
                auto: self.auto,
            },
            Attribute::Default(value) => Attributes {
                nullable: self.nullable,
                default: Some(value),
                auto: self.auto,
            },
            Attribute::AutoIncrement => Attributes {
                nullable: self.nullable,
                default: self.default,
                auto: true,
            },
            Attribute::Passed => self,
        }
    }
}

fn not_null_at(words: &[Token]) -> Result<Option<(Attribute, &[Token])>, SchemaFault>
    ensures { Answers (option_map (λ read. (read.0, read.1.now))) result (not_null_at words.now) }
{
    let rest = keyword_at("NULL", words)?;
    Ok(Some((Attribute::Nullable(false), rest)))
}

fn default_at(alloc: Global, words: &[Token]) -> Result<Option<(Attribute, &[Token])>, SchemaFault>
    ensures { Answers (option_map (λ read. (read.0, read.1.now))) result (default_at words.now) }
{
    let (value, rest) = literal_at(alloc, words)?;
    Ok(Some((Attribute::Default(value), rest)))
}

fn comment_at(alloc: Global, words: &[Token]) -> Result<Option<(Attribute, &[Token])>, SchemaFault>
    ensures { Answers (option_map (λ read. (read.0, read.1.now))) result (comment_at words.now) }
{
    let (_, rest) = text_at(alloc, words)?;
    Ok(Some((Attribute::Passed, rest)))
}

fn character_set_at(words: &[Token]) -> Result<Option<(Attribute, &[Token])>, SchemaFault>
    ensures { Answers (option_map (λ read. (read.0, read.1.now))) result (character_set_at words.now) }
{
    let rest = keyword_at("SET", words)?;
    let rest = any_word_at(rest)?;
    Ok(Some((Attribute::Passed, rest)))
}

fn collation_at(words: &[Token]) -> Result<Option<(Attribute, &[Token])>, SchemaFault>
    ensures { Answers (option_map (λ read. (read.0, read.1.now))) result (collation_at words.now) }
{
    let rest = any_word_at(words)?;
    Ok(Some((Attribute::Passed, rest)))
}

#[tactic(auto, unfolding(crate::specs::Attributes::passed_at))]
fn passed_at(alloc: Global, words: &[Token]) -> Result<Option<(Attribute, &[Token])>, SchemaFault>
    ensures { Answers (option_map (λ read. (read.0, read.1.now))) result (passed_at words.now) }
{
    match words {
        [] => Ok(None),
        [word, rest @ ..] => {
            if word.is_keyword("COMMENT") {
                comment_at(alloc, rest)
            } else if word.is_keyword("CHARACTER") {
                character_set_at(rest)
            } else if word.is_keyword("COLLATE") {
                collation_at(rest)
            } else {
                Ok(None)
            }
        }
    }
}

/// The attribute at the front and what follows it; none where the first word begins none.
#[tactic(auto, unfolding(crate::specs::Attributes::attribute_at))]
pub fn attribute_at(
    alloc: Global,
    version: u32,
    words: &[Token],
) -> Result<Option<(Attribute, &[Token])>, SchemaFault>
    ensures { Answers (option_map (λ read. (read.0, read.1.now))) result (attribute_at version words.now) }
{
    match words {
        [] => Ok(None),
        [word, rest @ ..] => {
            if word.is_keyword("NOT") {
                not_null_at(rest)
            } else if word.is_keyword("NULL") {
                Ok(Some((Attribute::Nullable(true), rest)))
            } else if word.is_keyword("DEFAULT") {
                default_at(alloc, rest)
            } else if is_auto_increment(version, word) {
                Ok(Some((Attribute::AutoIncrement, rest)))
            } else {
                passed_at(alloc, words)
            }
        }
    }
}
