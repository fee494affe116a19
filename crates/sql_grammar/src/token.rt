//! A word of a table's text.

ghost use Rattle.std.specs.Prelude.{◌≡◌};

use base_values::CompactText;
use base_values::gho_schema::same_name;
use sql_words::{Word, WordClass};

/// A word that owns its text.
pub struct Token {
    /// What sort of word it is.
    pub class: WordClass,
    /// The word as it is in the text, with its quotes.
    pub text: CompactText,
}

// By hand, so that crates above prove it as one call.
impl Drop for Token {
    fn drop(self) {
        let Token { text, class: _ } = self;
        drop(text);
    }
}

impl Token {
    ghost use Rattle.sql_grammar.specs.Tokens.{is_unquoted, is_keyword, is_sign, same_sign};

    /// The word as one that borrows its text.
    pub fn word(&self) -> Word<'_>
        ensures class { result.class ≡ self.now.class }
        ensures text { result.text.now ≡ self.now.text }
    {
        Word {
            class: self.class,
            text: self.text.as_str(),
            place: 0,
        }
    }

    /// Whether it is a name without backquotes, which may be a keyword.
    pub fn is_unquoted(&self) -> bool
        ensures { result ≡ is_unquoted self.now.class }
    {
        matches!(self.class, WordClass::Name)
    }

    /// Whether it is this keyword, whatever the case of letters.
    #[tactic(auto, unfolding(crate::specs::Tokens::is_keyword))]
    pub fn is_keyword(&self, keyword: &str) -> bool
        ensures { result ≡ is_keyword self.now keyword.now }
    {
        self.is_unquoted() && same_name(self.text.as_str().as_bytes(), keyword.as_bytes())
    }

    /// Whether it is a sign.
    pub fn is_any_sign(&self) -> bool
        ensures { result ≡ is_sign self.now.class }
    {
        matches!(self.class, WordClass::Sign)
    }

    /// Whether it is this sign.
    #[tactic(auto, unfolding(crate::specs::Tokens::same_sign))]
    pub fn is_sign(&self, sign: &str) -> bool
        ensures { result ≡ same_sign self.now sign.now }
    {
        self.is_any_sign() && self.text.as_str() == sign
    }
}
