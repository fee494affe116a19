//! The requests that wait.

ghost use Rattle.std.specs.Prelude.{◌≡◌, ◌==◌, ◌++◌, [], ◌∷◌, not, filter, option_copied, OnOk, OnErr};
ghost use Rattle.std.specs.List.{list_any};
ghost use Rattle.server_model.specs.States.{waiting_of};

use base_values::Duplicate;
use server_model::{Request, Waiting};
use std::alloc::AllocError;

/// The session's request that waits.
pub fn waiting_of(waiting: &[Waiting], number: u32) -> Option<&Waiting>
    ensures { option_copied result ≡ waiting_of number waiting.now }
{
    waiting.iter().find(|one| one.session == number)
}

/// Whether the session's request waits.
pub fn is_waiting(waiting: &[Waiting], number: u32) -> bool
    ensures { result ≡ list_any (λ one. one.session == number) waiting.now }
{
    waiting.iter().any(|one| one.session == number)
}

/// The session's request waits after all others; all is as before where there is no memory.
pub fn begin_wait(
    waiting: &mut Vec<Waiting>,
    number: u32,
    request: &Request,
) -> Result<(), AllocError>
    ensures ok { OnOk result (waiting.new.items ≡ waiting.old.items ++ record { session = number; request = request.now } ∷ []) }
    ensures err { OnErr result (waiting.new.items ≡ waiting.old.items) }
{
    waiting.push(Waiting {
        session: number,
        request: request.copy()?,
    })?;
    Ok(())
}

/// The session's request waits no more.
pub fn end_wait(waiting: &mut Vec<Waiting>, number: u32)
    ensures { waiting.new.items ≡ filter (λ one. not (one.session == number)) waiting.old.items }
{
    waiting.retain(|one| one.session != number);
}
