//! How passes are let in and taken in, over the tokens of the lock.
ghost use Rattle.std.specs.Prelude.{◌≡◌, ◌++◌, ◌∷◌, [], true, false, IfOk, IfErr, OnOk, OnErr, Ok, Err};
ghost use Rattle.ws_turn.specs.Passes.{known, base_of, IsOf};
ghost use Rattle.pass_turns.specs.Turns.{shown, LetIn, LetNobodyIn, TookIn, StaysThere};

use crate::begin::begin_turn;
use crate::machine::{LeaveError, Machine};
use std::alloc::Global;
use std::sync::Wait;
use ws_turn::{NoMemory, Pass as Token, Shared};

/// Waits for the token's turn, and lets a new pass in.
pub(crate) fn let_in<S: Machine, R: Wait>(
    rt: &R,
    lock: &Shared<S>,
    alloc: Global,
    token: &mut Token<S>,
) -> Result<Token<S>, NoMemory>
    requires of { IsOf lock.now token.old }
    requires idle { (known token.old).holds ≡ false }
    requires there { S.is_there (base_of S.base lock.now) (known token.old).seen (known token.old).number ≡ true }
    ensures of { IsOf lock.now token.new × IfOk result (IsOf lock.now) }
    ensures idle { ((known token.new).holds ≡ false) × IfOk result (λ new. (known new).holds ≡ false) }
    ensures there { S.is_there (base_of S.base lock.now) (known token.new).seen (known token.new).number ≡ true }
    ensures new_there { IfOk result (λ new. S.is_there (base_of S.base lock.now) (known new).seen (known new).number ≡ true) }
    ensures ok { IfOk result (λ new. LetIn S.by S.gives S.lets_in S.legal (base_of S.base lock.now) (shown (known token.old)) (shown (known token.new)) (shown (known new))) }
    ensures err { OnErr result (LetNobodyIn S.by S.gives S.lets_in S.legal (base_of S.base lock.now) (shown (known token.old)) (shown (known token.new))) }
{
    let mut machine = begin_turn(rt, lock, token);
    let entered = machine.enter(alloc, token.number());
    machine.settle();
    match entered {
        Ok(number) => match lock.split(alloc, token, &machine, number) {
            Ok(new) => {
                lock.give_back(token, machine);
                Ok(new)
            }
            Err(error) => {
                lock.give_back(token, machine);
                Err(error)
            }
        },
        Err(error) => {
            lock.give_back(token, machine);
            Err(error)
        }
    }
}

/// Waits for the other token's turn, and takes its pass in, which leaves. Where it doesn't leave its token is handed back.
pub(crate) fn take_in<S: Machine, R: Wait>(
    rt: &R,
    lock: &Shared<S>,
    alloc: Global,
    token: &mut Token<S>,
    mut other: Token<S>,
) -> Result<(), (LeaveError, Token<S>)>
    requires of { IsOf lock.now token.old × IsOf lock.now other }
    requires idle { ((known token.old).holds ≡ false) × ((known other).holds ≡ false) }
    requires there { S.is_there (base_of S.base lock.now) (known token.old).seen (known token.old).number ≡ true }
    requires other_there { S.is_there (base_of S.base lock.now) (known other).seen (known other).number ≡ true }
    ensures of { IsOf lock.now token.new × IfErr result (λ e. IsOf lock.now e.1) }
    ensures idle { ((known token.new).holds ≡ false) × IfErr result (λ e. (known e.1).holds ≡ false) }
    ensures there { S.is_there (base_of S.base lock.now) (known token.new).seen (known token.new).number ≡ true }
    ensures other_there { IfErr result (λ e. S.is_there (base_of S.base lock.now) (known e.1).seen (known e.1).number ≡ true) }
    ensures ok { OnOk result (TookIn S.by S.left S.legal (base_of S.base lock.now) (shown (known token.old)) (shown (known other)) (shown (known token.new))) }
    ensures same { OnErr result (known token.new ≡ known token.old) }
    ensures err { IfErr result (λ e. StaysThere S.by S.gives S.asked S.legal (base_of S.base lock.now) e.0 (shown (known other)) (shown (known e.1))) }
{
    let mut machine = begin_turn(rt, lock, &mut other);
    let left = machine.leave(alloc, other.number());
    machine.settle();
    match left {
        Ok(()) => {
            lock.join(token, other);
            lock.give_back(token, machine);
            Ok(())
        }
        Err(error) => {
            lock.give_back(&mut other, machine);
            Err((error, other))
        }
    }
}
