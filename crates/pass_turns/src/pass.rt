//! A thread's token.
ghost use Rattle.std.specs.Prelude.{◌≡◌, true, false, length};
ghost use Rattle.std.specs.Option.{ForSome};
ghost use Rattle.ws_turn.specs.Passes.{known, base_in};

use crate::machine::Machine;
use ws_turn::Pass as Token;

/// A thread's token at a machine that many threads share. Contracts see its number, the entries that it has seen, which are
/// a beginning of what the machine has done, those of its own number, and the numbers that it gave in vain. The pass has
/// entered and hasn't left.
#[derive(Drop)]
pub struct Pass<S: Machine> {
    pub(crate) token: Token<S>,
    ghost idle: { (known token).holds ≡ false },
    ghost there: { ForSome (base_in token) (λ b. S.is_there b (known token).seen (known token).number ≡ true) },
}

impl<S: Machine> Pass<S> {
    ghost use Rattle.pass_turns.specs.Turns.{knows, IsFaithful};

    /// The number that its entries have. It never changes.
    pub fn number(&self) -> u64
        ensures { result ≡ (knows self.now).number }
    {
        self.token.number()
    }

    /// How many entries it has seen. It never falls.
    pub fn at(&self) -> u64
        ensures length { result ≡ length (knows self.now).seen }
        ensures own { IsFaithful S.by (knows self.now) }
    {
        self.token.at()
    }
}
