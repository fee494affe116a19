//! Answers with the numbers that were drawn.

ghost use Rattle.std.specs.Prelude.{◌≡◌, None};

use server_model::Answer;

/// An answer, and the number that was drawn for an AUTO_INCREMENT column.
#[derive(Drop)]
pub struct DrawnAnswer {
    /// The answer.
    pub answer: Answer,
    /// The number, where one was drawn.
    pub drawn: Option<u64>,
}

/// An answer for which no number was drawn.
pub fn undrawn(answer: Answer) -> DrawnAnswer
    ensures answer { result.answer ≡ answer }
    ensures drawn { result.drawn ≡ None }
{
    DrawnAnswer {
        answer,
        drawn: None,
    }
}
