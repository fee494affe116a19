//! The actors of a run by their places in the fixed order.

ghost use Rattle.std.specs.Prelude.{◌≡◌, ◌<◌, length, slice_get, Some};
ghost use Rattle.tool_program.specs.Orders.{actors};

use crate::run::Run;
use base_script::Actor;
use server_api::Serve;

/// How many actors the plan has.
pub(crate) fn actor_count<V: Serve>(run: &Run<'_, V>) -> usize
    ensures { result ≡ length (actors run.now.plan) }
{
    run_actors::actor_count(run.plan())
}

/// The actor at a place of the fixed order, from 0.
pub(crate) fn actor_at<V: Serve>(run: &Run<'_, V>, place: usize) -> Actor
    requires { place < length (actors run.now.plan) }
    ensures { slice_get (actors run.now.plan) place ≡ Some result }
{
    run_actors::actor_at(run.plan(), place)
}
