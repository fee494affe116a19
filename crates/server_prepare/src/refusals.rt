//! Refusals.

ghost use Rattle.std.specs.Prelude.{◌≡◌};
ghost use Rattle.server_model.specs.Answers.{refuses, refuses_value};

use base_values::row_conversion::UnfitAt;
use server_model::Answer;

/// What was checked, or the answer that refuses the statement.
pub type Checked<T> = Result<T, Answer>;

/// The refusal of a column that doesn't take its value.
pub fn refuses_value(at: UnfitAt) -> Answer
    ensures { result ≡ refuses_value at }
{
    let column = Some(at.column);
    let number = at.unfit.number();
    Answer::Refused { number, column }
}

/// A refusal of no column.
pub fn refuses(number: u16) -> Answer
    ensures { result ≡ refuses number }
{
    let column = None;
    Answer::Refused { number, column }
}
