//! A listener.
ghost use Rattle.std.specs.Prelude.{◌≡◌, ◌∷◌, [], List, Option};
ghost use Rattle.delta_kind.specs.declared.node.DeltaNode.{DeltaNode};
ghost use Rattle.save_parts.specs.Heard.{heard_more};

use delta_kind::Delta;

/// Who is told what changed, as the platform's `IResourceChangeListener`.
pub trait Listener: Drop {
    // what it was told, in order, where it tells that
    ghost heard: { Self → Option (List (List DeltaNode)) };

    /// It is told what changed since it was told before (`resourceChanged`).
    fn told(&mut self, delta: &Delta)
        ensures { heard self.new ≡ heard_more (delta.now ∷ []) (heard self.old) };
}

impl Listener for Box<dyn Listener + Send> {
    ghost heard = { λ l. (Listener-box l).heard l.value };

    fn told(&mut self, delta: &Delta) {
        (**self).told(delta)
    }
}
