//! The beginning of a turn.
ghost use Rattle.std.specs.Prelude.{◌≡◌, true, false};
ghost use Rattle.ws_turn.specs.Lists.{StartsWith, of};
ghost use Rattle.ws_turn.specs.Passes.{known, base_of, IsOf};
ghost use Rattle.pass_turns.specs.Tokens.{took};

use crate::machine::Machine;
use std::sync::Wait;
use ws_turn::{Pass as Token, Shared};

/// Waits for the token's turn, and takes the machine.
pub(crate) fn begin_turn<S: Machine, R: Wait>(rt: &R, lock: &Shared<S>, token: &mut Token<S>) -> S
    requires of { IsOf lock.now token.old }
    requires idle { (known token.old).holds ≡ false }
    requires there { S.is_there (base_of S.base lock.now) (known token.old).seen (known token.old).number ≡ true }
    ensures of { IsOf lock.now token.new }
    ensures took { known token.new ≡ took (known token.old) (S.list result) }
    ensures begins { StartsWith (S.list result) (known token.old).seen }
    ensures own { of S.by (known token.old).number (S.list result) ≡ (known token.old).mine }
    ensures base { S.base result ≡ base_of S.base lock.now }
    ensures legal { S.legal (base_of S.base lock.now) (S.list result) }
    ensures there { S.is_there (base_of S.base lock.now) (S.list result) (known token.old).number ≡ true }
{
    let machine = lock.take(rt, token);
    machine.settle();
    machine
}
