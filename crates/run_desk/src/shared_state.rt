//! What the workers take turns at.
ghost use Rattle.std.specs.Prelude.{◌≡◌, ◌≢◌, ◌↔◌, List, [], ◌∷◌, ◌++◌, true, false, Ok};

use std::alloc::AllocError;

/// One turn in a shared state's list: which worker took it, and what it adds.
#[derive(Debug, Drop)]
pub struct Entry<E> {
    pub worker: u32,
    pub event: E,
}

/// A list of turns that workers add to, one at a time.
pub trait SharedState {
    /// What a shared state begins with.
    type Opening;

    /// What one turn adds to the list, beside the worker's number.
    type Event;

    ghost use Rattle.std.specs.Prelude.{List};
    ghost use Rattle.run_desk.specs.declared.shared_state.Entry.{Entry};

    ghost opening: { Self → Self.Opening };

    ghost entries: { Self → List (Entry Self.Event) };

    ghost is_over: { Self.Opening → List (Entry Self.Event) → Type 0 };

    /// Takes one turn for this worker, and says whether it did: `false` where none is left, and an error where there was no memory
    /// for it. A turn that was taken is one entry more in the list.
    fn take_turn(&mut self, worker: u32) -> Result<bool, AllocError>
        ensures opening { opening self.new ≡ opening self.old }
        ensures over { (result ≡ Ok false) ↔ is_over (opening self.old) (entries self.old) }
        ensures took { result ≡ Ok true → ((event : Self.Event) × (entries self.new ≡ entries self.old ++ record { worker = worker; event = event } ∷ [])) }
        ensures others { result ≢ Ok true → entries self.new ≡ entries self.old };

    ghost stays_over: { (start : Self.Opening) (before after : List (Entry Self.Event)) → is_over start before → is_over start (before ++ after) };
}
