//! Lines of SQL that this program knows and doesn't take.

ghost use Rattle.std.specs.Prelude.{◌≡◌};
ghost use Rattle.std.specs.List.{list_any};
ghost use Rattle.sql_statement.specs.Scope.{begins_statement, bounds_transaction, is_left_out, begins_row, has_next_row, after_values, inserts_rows, is_out_of_scope};

use sql_grammar::Token;

#[tactic(auto, unfolding(crate::specs::Scope::begins_statement))]
fn begins_statement(word: &Token) -> bool
    ensures { result ≡ begins_statement word.now }
{
    word.is_keyword("INSERT")
        || word.is_keyword("REPLACE")
        || word.is_keyword("DELETE")
        || word.is_keyword("UPDATE")
        || word.is_keyword("SELECT")
}

#[tactic(auto, unfolding(crate::specs::Scope::bounds_transaction))]
fn bounds_transaction(word: &Token) -> bool
    ensures { result ≡ bounds_transaction word.now }
{
    word.is_keyword("BEGIN")
        || word.is_keyword("START")
        || word.is_keyword("COMMIT")
        || word.is_keyword("ROLLBACK")
}

#[tactic(auto, unfolding(crate::specs::Scope::is_left_out))]
fn is_left_out(word: &Token) -> bool
    ensures { result ≡ is_left_out word.now }
{
    word.is_keyword("JOIN")
        || word.is_keyword("ORDER")
        || word.is_keyword("LIMIT")
        || word.is_keyword("ON")
        || word.is_keyword("DEFAULT")
}

fn has_left_out(words: &[Token]) -> bool
    ensures { result ≡ list_any is_left_out words.now }
{
    // Anywhere in the line, also where the word would be a name: such a name stands in backquotes.
    words.iter().any(|word| is_left_out(word))
}

/// Whether `)`, `,` and `(` are at the front.
fn begins_row(words: &[Token]) -> bool
    ensures { result ≡ begins_row words.now }
{
    match words {
        [closing, comma, opening, ..] => {
            closing.is_sign(")") && comma.is_sign(",") && opening.is_sign("(")
        }
        [_, _] => false,
        [_] => false,
        [] => false,
    }
}

/// Whether `)`, `,` and `(` are somewhere.
fn has_next_row(words: &[Token]) -> bool
    ensures { result ≡ has_next_row words.now }
{
    for i in 0..words.len() {
        if begins_row(&words[i..]) {
            return true;
        }
    }
    false
}

/// What follows the first VALUES.
fn after_values(words: &[Token]) -> &[Token]
    ensures { result.now ≡ after_values words.now }
{
    for i in 0..words.len() {
        if words[i].is_keyword("VALUES") {
            return &words[i + 1..];
        }
    }
    &words[words.len()..]
}

/// Whether it is an INSERT or a REPLACE of more than one row.
fn inserts_rows(word: &Token, rest: &[Token]) -> bool
    ensures { result ≡ inserts_rows word.now rest.now }
{
    (word.is_keyword("INSERT") || word.is_keyword("REPLACE")) && has_next_row(after_values(rest))
}

/// Whether the line has what MySQL has and this program leaves out.
#[tactic(auto, unfolding(crate::specs::Scope::is_out_of_scope))]
pub fn is_out_of_scope(words: &[Token]) -> bool
    ensures { result ≡ is_out_of_scope words.now }
{
    match words {
        [] => false,
        [word, rest @ ..] => {
            !(begins_statement(word) || bounds_transaction(word))
                || has_left_out(words)
                || inserts_rows(word, rest)
        }
    }
}
