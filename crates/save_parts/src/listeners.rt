//! The listeners of a workspace.
ghost use Rattle.std.specs.Prelude.{◌≡◌, ◌∷◌, [], map};
ghost use Rattle.save_parts.specs.Heard.{heard_more, HeardMore};

use crate::Listener;
use delta_kind::Delta;
use std::marker::Model;

/// Listeners in order. A contract sees the list of them.
#[derive(Drop)]
pub struct Listeners<L: Listener> {
    all: Vec<L>,
}

impl<L: Listener> Model for Listeners<L> {
    ghost use Rattle.std.specs.Prelude.{List};

    ghost Value = { List L };

    ghost view = { λ l. l.all.items };
}

impl<L: Listener> Listeners<L> {
    /// These listeners, of which nothing is copied.
    pub fn of(all: Vec<L>) -> Listeners<L>
        ensures { result ≡ all.items }
    {
        Listeners { all }
    }

    /// The listeners, of which nothing is copied.
    pub fn into_vec(self) -> Vec<L>
        ensures { result.items ≡ self }
    {
        let Listeners { all } = self;
        all
    }

    /// Each listener is told what changed, one after another.
    pub fn tell(&mut self, delta: &Delta)
        ensures { HeardMore (delta.now ∷ []) (map (λ l. L.heard l) self.old) (map (λ l. L.heard l) self.new) }
    {
        tell_each(&mut self.all, delta);
    }
}

/// Each of these is told.
fn tell_each<L: Listener>(all: &mut Vec<L>, delta: &Delta)
    ensures { HeardMore (delta.now ∷ []) (map (λ l. L.heard l) all.old.items) (map (λ l. L.heard l) all.new.items) }
{
    for at in 0..all.len() {
        tell_one(&mut all[at], delta);
    }
}

/// One is told.
fn tell_one<L: Listener>(one: &mut L, delta: &Delta)
    ensures { L.heard one.new ≡ heard_more (delta.now ∷ []) (L.heard one.old) }
{
    one.told(delta)
}
