//! How a call of the program ends.

ghost use Rattle.std.specs.Prelude.{◌≡◌};
ghost use Rattle.top_endings.specs.Endings.{status_number};

/// How a call of the program ends.
#[derive(Clone, Copy)]
pub enum Status {
    /// The ALTER was done.
    Done,
    /// The words are no command.
    Usage,
    /// The plan is refused.
    Refused,
    /// The migration was reverted.
    Reverted,
    /// The source failed.
    ReadFault,
    /// The sink failed.
    WriteFault,
    /// There was no memory.
    NoMemory,
    /// The journal is full, and the run hasn't ended.
    TurnsSpent,
    /// The trace breaks a rule.
    No,
}

impl Status {
    /// The number that the process ends with.
    pub fn number(self) -> u8
        ensures { result ≡ status_number self }
    {
        match self {
            Status::Done => 0,
            Status::Usage => 1,
            Status::Refused => 2,
            Status::Reverted => 3,
            Status::ReadFault => 4,
            Status::WriteFault => 5,
            Status::NoMemory => 6,
            Status::TurnsSpent => 7,
            Status::No => 8,
        }
    }
}
