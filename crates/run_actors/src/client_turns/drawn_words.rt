//! What a line says with the number that it drew.

ghost use Rattle.std.specs.Prelude.{◌≡◌, IfOk};
ghost use Rattle.tool_program.specs.JournalWords.Clients.{word_numbered};

use base_script::ScriptWord;
use base_values::Duplicate;
use server_prepare::numbered;
use std::alloc::AllocError;

/// What a line says with the number that it drew, where it drew one.
pub fn word_numbered(word: &ScriptWord, draw: Option<u64>) -> Result<ScriptWord, AllocError>
    ensures { IfOk result (λ full. full ≡ word_numbered draw word.now) }
{
    match (word, draw) {
        (ScriptWord::Do(statement), Some(number)) => Ok(ScriptWord::Do(numbered(
            statement, number,
        )?)),
        _ => word.copy(),
    }
}
