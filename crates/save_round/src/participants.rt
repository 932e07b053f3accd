//! The participants of a workspace.
ghost use Rattle.std.specs.Prelude.{◌≡◌};

use crate::Participant;
use std::marker::Model;

/// Participants in order. Of those of one name the first counts, and no other is called. A contract sees the list of
/// them.
#[derive(Drop)]
pub struct Participants<P: Participant> {
    pub(crate) all: Vec<P>,
}

impl<P: Participant> Model for Participants<P> {
    ghost use Rattle.std.specs.Prelude.{List};

    ghost Value = { List P };

    ghost view = { λ p. p.all.items };
}

impl<P: Participant> Participants<P> {
    /// These participants, of which nothing is copied.
    pub fn of(all: Vec<P>) -> Participants<P>
        ensures { result ≡ all.items }
    {
        Participants { all }
    }

    /// The participants, of which nothing is copied.
    pub fn into_vec(self) -> Vec<P>
        ensures { result.items ≡ self }
    {
        let Participants { all } = self;
        all
    }

    /// The participants in order.
    pub fn as_slice(&self) -> &[P]
        ensures { result.now ≡ self.now }
    {
        self.all.as_slice()
    }
}
