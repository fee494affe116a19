//! The reader of ALTER TABLE.

ghost use Rattle.base_values.specs.Faults.{Answers};
ghost use Rattle.sql_alter.specs.AlterText.{alter_at};

use crate::clauses::{clauses_at, front_at};
use base_values::Name;
use base_values::row_conversion::Clauses;
use sql_change::{AlterCode, AlterFault};
use sql_grammar::text_words;
use std::alloc::Global;

/// Reads the text of an ALTER of the table of this name in a plan of this version, with or without ALTER TABLE and the name in front.
#[tactic(auto, unfolding(crate::specs::Clauses::read))]
pub fn read_alter(
    alloc: Global,
    text: &str,
    table: &Name,
    version: u32,
) -> Result<Clauses, AlterFault>
    ensures { Answers (λ clauses. clauses) result (alter_at version table.now text.now) }
{
    let read = text_words(alloc, text)?;
    let rest = front_at(alloc, table, read.words.as_slice())?;
    let clauses = clauses_at(alloc, version, rest)?;
    if read.is_faulty {
        return Err(AlterFault::Refused(AlterCode::Syntax));
    }
    Ok(clauses)
}
