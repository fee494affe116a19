//! Checkpoint rows: the rows of the changelog that say how far the migration has come, so that another run can go on from there.

ghost use Rattle.std.specs.Prelude.{◌≡◌, ◌++◌, IfOk, OnOk};
ghost use Rattle.tool_changelog.specs.Checkpoints.{short_text, reach_text, checkpoint_text, checkpoint_value, checkpoint_row};

use base_values::{Chars, Key, Kind, Row, Shared, StoreFault, Text, Value, print_row, store};
use std::alloc::{AllocError, Global};

/// The hint of a checkpoint row.
pub const CHECKPOINT_HINT: &str = "checkpoint";

/// How many characters the value of a row of the changelog has at most.
const MOST_CHARACTERS: u16 = 255;

/// How far the rows are copied.
#[derive(Drop)]
pub enum Reach {
    /// No row is copied.
    Nothing,
    /// The rows up to this key, and with it, are copied.
    To(Key),
    /// All rows are copied.
    All,
}

fn print_reach(reach: &Reach, into: &mut Text) -> Result<(), AllocError>
    ensures { OnOk result (into.new ≡ into.old ++ reach_text reach.now) }
{
    match reach {
        Reach::Nothing => into.push_str("-"),
        Reach::To(key) => print_row(key.as_slice(), into),
        Reach::All => into.push_str("*"),
    }
}

/// The text as the column stores it; none where it has too many characters.
#[tactic(auto, unfolding(base_values::specs::StoredValues::stores, base_values::specs::StoredValues::text_within))]
fn short_text(alloc: Global, text: &str) -> Result<Option<Value>, AllocError>
    ensures { IfOk result (λ value. value ≡ short_text text.now) }
{
    let text = Value::Text(Chars::new(alloc, text)?);
    match store(alloc, &text, Kind::VarChar(MOST_CHARACTERS), false) {
        Ok(value) => Ok(Some(value)),
        Err(StoreFault::Refused(_)) => Ok(None),
        Err(StoreFault::Memory) => Err(AllocError),
    }
}

/// The value of a checkpoint row; none where it has too many characters.
pub fn checkpoint_value(
    alloc: Global,
    position: u64,
    reach: &Reach,
) -> Result<Option<Value>, AllocError>
    ensures { IfOk result (λ value. value ≡ checkpoint_value position reach.now) }
{
    let mut text = Text::new(alloc);
    text.push_number(i128::from(position))?;
    text.push_str(" ")?;
    print_reach(reach, &mut text)?;
    short_text(alloc, text.as_str())
}

/// The checkpoint row of a position and a reach; none where its value has more than 255 characters.
#[tactic(auto, unfolding(crate::specs::Checkpoints::checkpoint_row))]
pub fn checkpoint_row(
    alloc: Global,
    position: u64,
    reach: &Reach,
) -> Result<Option<Row>, AllocError>
    ensures { IfOk result (λ row. row ≡ checkpoint_row position reach.now) }
{
    let Some(value) = checkpoint_value(alloc, position, reach)? else {
        return Ok(None);
    };
    let hint = Chars::new(alloc, CHECKPOINT_HINT)?;
    Ok(Some(Shared::from_vec(vec![in alloc; Value::Num(0), Value::Text(hint), value]?)?))
}
