//! Why the keys of a document aren't those of a plan.

ghost use Rattle.std.specs.Prelude.{◌≡◌};

use base_values::Fault;

/// Why a plan's keys are refused, each with its number.
#[derive(Clone, Copy, Debug)]
pub enum KeyRefusal {
    /// 51: a key is none of a plan.
    UnknownKey,
    /// 52: a key that a plan has to have isn't there.
    MissingKey,
    /// 53: a value has another type than it has to.
    WrongType,
    /// 54: a number is out of its range.
    OutOfRange,
    /// 55: a count is over its limit.
    TooMany,
}

impl KeyRefusal {
    ghost use Rattle.plan_keys.specs.Refusals.{key_code};

    /// The refusal's number and its name.
    pub fn code(self) -> (u16, &'static str)
        ensures { (result.0, result.1.now) ≡ key_code self }
    {
        match self {
            KeyRefusal::UnknownKey => (51, "unknown_key"),
            KeyRefusal::MissingKey => (52, "missing_key"),
            KeyRefusal::WrongType => (53, "wrong_type"),
            KeyRefusal::OutOfRange => (54, "out_of_range"),
            KeyRefusal::TooMany => (55, "too_many"),
        }
    }
}

/// Why a plan's keys aren't read: it is refused, or there is no memory.
pub type KeyFault = Fault<KeyRefusal>;

/// What has another type than it has to.
pub(crate) const WRONG_TYPE: KeyFault = KeyFault::Refused(KeyRefusal::WrongType);
