//! How one token that holds the machine tells passes what was done.
ghost use Rattle.std.specs.Prelude.{◌≡◌, true};
ghost use Rattle.std.specs.List.{AllByRecursion};
ghost use Rattle.ws_turn.specs.Passes.{known, IsOf};
ghost use Rattle.pass_turns.specs.Turns.{knows, CameTo, Pairs};

use crate::machine::Machine;
use crate::pass::Pass;
use ws_turn::{Pass as Token, Shared};

/// The pass has then seen what the token has, which holds the machine and stays as it is.
fn tell<S: Machine>(lock: &Shared<S>, token: &mut Token<S>, pass: &mut Pass<S>)
    requires of { IsOf lock.now token.old × IsOf lock.now pass.old.token }
    requires holds { (known token.old).holds ≡ true }
    ensures of { IsOf lock.now token.new × IsOf lock.now pass.new.token }
    ensures token { known token.new ≡ known token.old }
    ensures pass { CameTo S.by (known token.old).seen (knows pass.old) (knows pass.new) }
{
    lock.meet(token, &mut pass.token);
    lock.meet(&mut pass.token, token);
}

/// Each of the passes has then seen what the token has.
pub(crate) fn tell_all<S: Machine>(
    lock: &Shared<S>,
    token: &mut Token<S>,
    passes: &mut Vec<Pass<S>>,
)
    requires of { IsOf lock.now token.old }
    requires all_of { AllByRecursion (λ p. IsOf lock.now p.token) passes.old.items }
    requires holds { (known token.old).holds ≡ true }
    ensures of { IsOf lock.now token.new }
    ensures token { known token.new ≡ known token.old }
    ensures passes { Pairs (λ p q. IsOf lock.now q.token × CameTo S.by (known token.old).seen (knows p) (knows q)) passes.old.items passes.new.items }
{
    for at in 0..passes.len() {
        tell(lock, token, &mut passes[at]);
    }
}
