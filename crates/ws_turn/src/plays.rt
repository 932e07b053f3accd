//! What each step of a seat tells, and what it makes of the views.
ghost use Rattle.std.specs.Prelude.{Option};

use crate::logged::Logged;
use crate::view::View;
use atomic_table::{Join, Play, Split};
use std::marker::{Brand, PhantomData};

/// Draws a ticket.
pub(crate) struct Draw;

impl<S: Logged> Play<Option<S>, View<S, S::Entry, S::Base>> for Draw {
    ghost use Rattle.ws_turn.specs.Inside.Steps.{Draws};

    ghost then = { Draws S.list S.base S.by S.gives };
}

/// Looks whether the turn has come.
pub(crate) struct Look;

impl<S: Logged> Play<Option<S>, View<S, S::Entry, S::Base>> for Look {
    ghost use Rattle.ws_turn.specs.Inside.Steps.{Looks};

    ghost then = { Looks S.list S.base S.by S.gives };
}

/// The value that a step tells of. Each call picks it.
pub(crate) trait Told<S> {
    ghost told: { Option S };
}

impl<S> Told<S> for Brand {
    ghost use Rattle.std.specs.Prelude.{None};

    ghost told = { None };
}

/// Raises the count to the length of the list that the value of B stands for.
pub(crate) struct Raise<B> {
    of: PhantomData<B>,
}

impl<S: Logged, B: Told<S>> Play<Option<S>, View<S, S::Entry, S::Base>> for Raise<B> {
    ghost use Rattle.ws_turn.specs.Inside.Steps.{Raises};

    ghost then = { Raises S.list S.base S.by S.gives B.told };
}

/// Serves the next ticket.
pub(crate) struct HandOn;

impl<S: Logged> Play<Option<S>, View<S, S::Entry, S::Base>> for HandOn {
    ghost use Rattle.ws_turn.specs.Inside.Steps.{HandsOn};

    ghost then = { HandsOn S.list S.base S.by S.gives };
}

/// Rings a bell.
pub(crate) struct Ring;

impl<S: Logged> Play<Option<S>, View<S, S::Entry, S::Base>> for Ring {
    ghost use Rattle.ws_turn.specs.Inside.Steps.{Rings};

    ghost then = { Rings S.list S.base S.by S.gives };
}

/// Looks at the serving word, and sees what was told.
pub(crate) struct Learn;

impl<S: Logged> Play<Option<S>, View<S, S::Entry, S::Base>> for Learn {
    ghost use Rattle.ws_turn.specs.Inside.Steps.{Learns};

    ghost then = { Learns S.list S.base S.by S.gives };
}

/// Makes the pass of the number that the last entry gave.
pub(crate) struct Fork;

impl<S, E, B> Split<View<S, E, B>> for Fork {
    ghost use Rattle.ws_turn.specs.Inside.Steps.{fork, forked};

    ghost left = { forked };

    ghost right = { fork };
}

/// Tells one pass what another has seen.
pub(crate) struct Note;

impl<S, E, B> Split<View<S, E, B>> for Note {
    ghost use Rattle.ws_turn.specs.Inside.Steps.{note};

    ghost left = { λ v. v };

    ghost right = { note };
}

impl<S, E, B> Join<View<S, E, B>> for Note {
    ghost use Rattle.ws_turn.specs.Inside.Steps.{told_of, over};

    ghost both = { told_of };

    ghost spent = { over };
}

/// Lets a pass go on in the seat of one that is joined to it.
pub(crate) struct Merge;

impl<S, E, B> Join<View<S, E, B>> for Merge {
    ghost use Rattle.ws_turn.specs.Inside.Steps.{merged, over};

    ghost both = { merged };

    ghost spent = { over };
}
