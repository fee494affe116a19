//! What each step tells the seat that makes it. These types are for the proofs alone.
ghost use Rattle.run_desk.specs.Steps.{Drew, Looked, Counted, Served, Compared};
ghost use Rattle.run_desk.specs.Views.{next, others, witnesses};

use crate::hand::View;
use crate::shared_state::SharedState;
use atomic_table::{Join, Play, Split};
use std::marker::PhantomData;

/// A ticket is drawn.
pub struct Draw;

impl<S, O, E> Play<S, View<O, E>> for Draw {
    ghost then = { Drew };
}

/// The number that is served is read.
pub struct Look<B> {
    shared_state: PhantomData<B>,
}

impl<B: SharedState> Play<Option<B>, View<B::Opening, B::Event>> for Look<B> {
    ghost then = { Looked B.opening B.entries };
}

/// An entry is counted.
pub struct Count<B> {
    shared_state: PhantomData<B>,
}

impl<B: SharedState> Play<Option<B>, View<B::Opening, B::Event>> for Count<B> {
    ghost then = { Counted B.entries };
}

/// The next number is served.
pub struct Serve;

impl<S, O, E> Play<S, View<O, E>> for Serve {
    ghost then = { Served };
}

/// What two have seen is compared.
pub struct Compare;

impl<S, O, E> Play<S, View<O, E>> for Compare {
    ghost then = { Compared };
}

/// The first of the workers gets a seat.
pub struct Deal;

impl<O, E> Split<View<O, E>> for Deal {
    ghost left = { others };

    ghost right = { next };
}

/// A witness is made of what the seat has seen.
pub struct Tell;

impl<O, E> Split<View<O, E>> for Tell {
    ghost left = { λ view. view };

    ghost right = { witnesses };
}

/// One seat has the hands of both.
pub struct Gather;

impl<O, E> Join<View<O, E>> for Gather {
    ghost use Rattle.std.specs.Prelude.{[], ◌++◌};

    ghost both = { λ mine other. other ++ mine };

    ghost spent = { [] };
}
