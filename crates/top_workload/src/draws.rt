//! Numbers drawn one after the other.

ghost use Rattle.std.specs.Prelude.{◌≡◌};
ghost use Rattle.top_workload.specs.Draws.{next_state, drawn};

const MULTIPLIER: u64 = 6_364_136_223_846_793_005;

const INCREMENT: u64 = 1_442_695_040_888_963_407;

/// Where the draws are.
#[derive(Drop)]
pub(crate) struct Draws {
    pub(crate) state: u64,
}

impl Draws {
    /// The next number; it is below 2^31.
    #[tactic(auto, using(crate::proofs::States::product_wraps))]
    pub(crate) fn draw(&mut self) -> u64
        ensures drawn { result ≡ drawn self.old.state }
        ensures state { self.new.state ≡ next_state self.old.state }
    {
        self.state = self.state.wrapping_mul(MULTIPLIER).wrapping_add(INCREMENT);
        self.state >> 33
    }
}
