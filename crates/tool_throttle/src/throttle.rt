//! When the tool holds back.

ghost use Rattle.std.specs.Prelude.{◌≡◌};
ghost use Rattle.tool_throttle.specs.Throttle.{answer_at};

use std::marker::Model;

/// Whether a piece of work may begin.
#[derive(Clone, Copy)]
pub enum Go {
    /// It may.
    Go,
    /// It may not yet.
    Hold {
        /// Whether the load is a cause. Where it isn't, the operator's command alone is.
        load: bool,
    },
}

/// How much load the tool tolerates.
#[derive(Drop)]
pub struct Throttle {
    max_load: u64,
}

impl Model for Throttle {
    ghost use Rattle.std.specs.Prelude.{ℕ};

    ghost Value = { ℕ };

    ghost view = { λ t. t.max_load };
}

impl Throttle {
    /// A throttle that holds above this load.
    pub fn new(max_load: u64) -> Throttle
        ensures { result ≡ max_load }
    {
        Throttle { max_load }
    }

    /// Whether work may begin under this load, where the operator commanded the tool to hold, or didn't.
    pub fn asks(&self, load: u64, commanded: bool) -> Go
        ensures { result ≡ answer_at self.now load commanded }
    {
        let loaded = load > self.max_load;
        if commanded || loaded {
            Go::Hold { load: loaded }
        } else {
            Go::Go
        }
    }
}
