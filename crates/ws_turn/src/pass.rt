ghost use Rattle.std.specs.Prelude.{◌≡◌, ◌∷◌, [], false, length, is_some, Some};
ghost use Rattle.ws_turn.specs.Lists.{of, has, HasNoneOf};
ghost use Rattle.ws_turn.specs.Inside.Steps.{in_hand};

use crate::logged::Logged;
use crate::view::Chair;

/// A thread's token at a lock, which knows what the thread has seen of the lock's history.
/// Contracts see its number, the entries that it has seen, which are a beginning of the lock's one history, those of its
/// own number, the numbers that its entries gave and of which no pass was made, the numbers of the passes that were
/// joined to it since it took the value, and whether it holds the value.
#[derive(Drop)]
pub struct Pass<S: Logged> {
    pub(crate) seat: Chair<S>,
    pub(crate) number: u64,
    pub(crate) at: u64,
    ghost live: { seat.me.0.spent ≡ false },
    ghost numbered: { seat.me.0.number ≡ Some number },
    ghost counted: { at ≡ length seat.me.0.seen },
    ghost rests: { (seat.me.0.told ≡ []) × (seat.me.0.pending ≡ []) },
    ghost held: { (is_some seat.me.0.ticket ≡ is_some seat.me.0.held) × (seat.me.1 ≡ in_hand seat.me.0.held) },
    // What it has seen has just those entries of its number that it knows as its own, and none of a number that it gave in vain.
    // No pass that was joined to it had its number.
    ghost own: { of S.by number seat.me.0.seen ≡ seat.me.0.mine },
    ghost silent: { HasNoneOf S.by seat.me.0.lost seat.me.0.seen },
    ghost apart: { has number seat.me.0.joined ≡ false },
}

impl<S: Logged> Pass<S> {
    ghost use Rattle.ws_turn.specs.Passes.{known, IsFaithful};

    /// The number that its entries have. It never changes.
    pub fn number(&self) -> u64
        ensures { result ≡ (known self.now).number }
    {
        self.number
    }

    /// How many entries it has seen. It never falls.
    pub fn at(&self) -> u64
        ensures length { result ≡ length (known self.now).seen }
        ensures own { IsFaithful S.by (known self.now) }
    {
        self.at
    }
}
