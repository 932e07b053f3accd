//! What many threads share.
ghost use Rattle.std.specs.Prelude.{◌≡◌, ◌≢◌, ◌++◌, ◌∷◌, [], ℕ, Bool, List, Option, Some, None, true, false, IfOk, IfErr, OnOk, OnErr};
ghost use Rattle.ws_turn.specs.Lists.{given};
ghost use Rattle.pass_turns.specs.Adds.{AddsUpToOne, WasRefused};

use std::alloc::Global;
use ws_turn::{Logged, NoMemory};

/// Why a pass doesn't leave.
#[derive(Clone, Copy, Debug, PartialEq, Eq)]
pub enum LeaveError {
    /// It has something that it must give back first. That it asked is written down.
    Busy,
    /// Memory wanted, and nothing was done.
    Memory,
}

/// A machine that does what passes ask, one event at a time, and writes it down: the list that it stands for is what was
/// done since the time of its base.
pub trait Machine: Logged {
    // the entries may follow the base
    ghost legal: { Self.Base → List Self.Entry → Type 0 };

    // after the entries the pass is there: it has entered and hasn't left
    ghost is_there: { Self.Base → List Self.Entry → ℕ → Bool };

    // the entry lets a pass in
    ghost lets_in: { Self.Entry → Type 0 };

    // by the entry its pass has left
    ghost left: { Self.Entry → Type 0 };

    // by the entry its pass asked to leave, and stays
    ghost asked: { Self.Entry → Type 0 };

    // after the entries nothing is out, so that the machine may be closed
    ghost may_close: { Self.Base → List Self.Entry → Bool };

    /// Whether nothing is out, so that the machine may be closed.
    fn may_close(&self) -> bool
        ensures { result ≡ may_close (Self.base self.now) (Self.list self.now) };

    /// What was done may follow the base, as of every machine. Nothing is done.
    fn settle(&self)
        ensures { legal (Self.base self.now) (Self.list self.now) };

    /// Lets a new pass in, whose number it gives: none that was given before, and not 0. Where memory wants nothing was done.
    fn enter(&mut self, alloc: Global, pass: u64) -> Result<u64, NoMemory>
        requires { is_there (Self.base self.old) (Self.list self.old) pass ≡ true }
        ensures base { Self.base self.new ≡ Self.base self.old }
        ensures ok { IfOk result (λ m. (x : Self.Entry) × (Self.list self.new ≡ Self.list self.old ++ x ∷ []) × (Self.by x ≡ pass) × lets_in x × (Self.gives x ≡ Some m)) }
        ensures new { IfOk result (λ m. (m ≢ 0) × (given Self.gives m (Self.list self.old) ≡ false)) }
        ensures there { IfOk result (λ m. (is_there (Self.base self.new) (Self.list self.new) m ≡ true) × (is_there (Self.base self.new) (Self.list self.new) pass ≡ true)) }
        ensures err { OnErr result (Self.list self.new ≡ Self.list self.old) };

    /// The pass leaves, unless it has something that it must give back first. Both is written down.
    fn leave(&mut self, alloc: Global, pass: u64) -> Result<(), LeaveError>
        requires { is_there (Self.base self.old) (Self.list self.old) pass ≡ true }
        ensures base { Self.base self.new ≡ Self.base self.old }
        ensures ok { OnOk result ((x : Self.Entry) × (Self.list self.new ≡ Self.list self.old ++ x ∷ []) × (Self.by x ≡ pass) × left x × (Self.gives x ≡ None)) }
        ensures err { IfErr result (λ e. (more : List Self.Entry) × (Self.list self.new ≡ Self.list self.old ++ more) × AddsUpToOne Self.by Self.gives pass more × WasRefused asked e more) }
        ensures still { OnErr result (is_there (Self.base self.new) (Self.list self.new) pass ≡ true) };

    // a pass that is there stays while others do what they do
    ghost stays: { (b : Self.Base) (h : List Self.Entry) (x : Self.Entry) (n : ℕ) → is_there b h n ≡ true → Self.Logged.by x ≢ n → is_there b (h ++ x ∷ []) n ≡ true };
}
