//! A machine with its passes.
ghost use Rattle.std.specs.Prelude.{◌≡◌, List, [], ◌∷◌, ◌++◌, ℕ, true, false, IfOk, IfErr, OnOk, OnErr, Err};
ghost use Rattle.std.specs.List.{AllByRecursion};
ghost use Rattle.ws_turn.specs.Lists.{StartsWith, longer, of};

use crate::attempt::Attempt;
use crate::begin::begin_turn;
use crate::deed::Deed;
use crate::entering::{let_in, take_in};
use crate::machine::{LeaveError, Machine};
use crate::meeting::tell_all;
use crate::pass::Pass;
use std::alloc::Global;
use std::sync::Wait;
use std::thread;
use ws_turn::{NoMemory, Shared};

/// A machine that many threads share, each with a pass. One pass at a time has its turn, in the order in which they asked,
/// and all that passes have seen are beginnings of one history.
#[derive(Drop)]
pub struct Room<S: Machine> {
    lock: Shared<S>,
}

impl<S: Machine> Room<S> {
    ghost use Rattle.pass_turns.specs.Adds.{Tried};
    ghost use Rattle.pass_turns.specs.Turns.{knows, base_of, IsOf, IsFaithful, TookTurn, LetIn, LetNobodyIn, TookIn, StaysThere, CameTo, EndsWith, Pairs};

    /// A room with this machine, which has done nothing yet, and its first pass, which has the number 0. Where memory wants
    /// the machine is handed back.
    pub fn new(alloc: Global, machine: S) -> Result<(Room<S>, Pass<S>), (NoMemory, S)>
        requires fresh { S.list machine ≡ [] }
        requires there { S.is_there (S.base machine) [] 0 ≡ true }
        ensures of { IfOk result (λ r. IsOf r.0 r.1) }
        ensures base { IfOk result (λ r. base_of S.base r.0 ≡ S.base machine) }
        ensures pass { IfOk result (λ r. knows r.1 ≡ record { number = 0; seen = []; mine = []; lost = [] }) }
        ensures err { IfErr result (λ e. e.1 ≡ machine) }
    {
        let (lock, token) = Shared::new(alloc, machine)?;
        Ok((Room { lock }, Pass { token }))
    }

    /// Waits for the pass's turn, and does the deed in it. Nothing is said of how long it waits.
    pub fn turn<R: Wait, D: Deed<S>>(
        &self,
        rt: &R,
        alloc: Global,
        pass: &mut Pass<S>,
        deed: &mut D,
    ) -> D::Answer
        requires of { IsOf self.now pass.old }
        requires may { (h : List S.Entry) → StartsWith h (knows pass.old).seen → of S.by (knows pass.old).number h ≡ (knows pass.old).mine → S.legal (base_of S.base self.now) h
            → D.may deed.old (base_of S.base self.now) (knows pass.old).number h }
        ensures of { IsOf self.now pass.new }
        ensures took { TookTurn S.by S.legal (D.did deed.old deed.new) (base_of S.base self.now) result (knows pass.old) (knows pass.new) }
    {
        let mut machine = begin_turn(rt, &self.lock, &mut pass.token);
        let number = pass.token.number();
        let answer = deed.make(alloc, &mut machine, number);
        machine.settle();
        self.lock.give_back(&mut pass.token, machine);
        answer
    }

    /// Waits for the pass's turn, and makes the attempt in it; none where it has to wait.
    fn try_once<R: Wait, A: Attempt<S>>(
        &self,
        rt: &R,
        alloc: Global,
        pass: &mut Pass<S>,
        attempt: &mut A,
    ) -> Option<A::Answer>
        requires of { IsOf self.now pass.old }
        requires may { (h : List S.Entry) → StartsWith h (knows pass.old).seen → of S.by (knows pass.old).number h ≡ (knows pass.old).mine → S.legal (base_of S.base self.now) h
            → A.may attempt.old (base_of S.base self.now) (knows pass.old).number h }
        ensures of { IsOf self.now pass.new }
        ensures took { TookTurn S.by S.legal (Tried (A.did attempt.old) (attempt.new ≡ attempt.old)) (base_of S.base self.now) result (knows pass.old) (knows pass.new) }
    {
        let mut machine = begin_turn(rt, &self.lock, &mut pass.token);
        let number = pass.token.number();
        let answer = attempt.attempt(alloc, &mut machine, number);
        machine.settle();
        self.lock.give_back(&mut pass.token, machine);
        answer
    }

    /// Waits until the pass's attempt has an answer, turn after turn. It may wait for ever.
    pub fn wait<R: Wait, A: Attempt<S>>(
        &self,
        rt: &R,
        alloc: Global,
        pass: &mut Pass<S>,
        attempt: &mut A,
    ) -> A::Answer
        requires of { IsOf self.now pass.old }
        requires may { (h : List S.Entry) → StartsWith h (knows pass.old).seen → of S.by (knows pass.old).number h ≡ (knows pass.old).mine → S.legal (base_of S.base self.now) h
            → A.may attempt.old (base_of S.base self.now) (knows pass.old).number h }
        ensures of { IsOf self.now pass.new }
        ensures took { TookTurn S.by S.legal (A.did attempt.old) (base_of S.base self.now) result (knows pass.old) (knows pass.new) }
    {
        for _ in rt.forever() {
            match self.try_once(rt, alloc, pass, attempt) {
                Some(answer) => return answer,
                None => thread::yield_now(),
            }
        }
        unreachable!()
    }

    /// Lets a new pass in, whose number no pass has had, and which has seen what the pass has seen then. Waits for the pass's
    /// turn. Where memory wants none is let in, but the entry that gives the number may stand.
    pub fn split<R: Wait>(
        &self,
        rt: &R,
        alloc: Global,
        pass: &mut Pass<S>,
    ) -> Result<Pass<S>, NoMemory>
        requires { IsOf self.now pass.old }
        ensures of { IsOf self.now pass.new × IfOk result (IsOf self.now) }
        ensures ok { IfOk result (λ new. LetIn S.by S.gives S.lets_in S.legal (base_of S.base self.now) (knows pass.old) (knows pass.new) (knows new)) }
        ensures err { OnErr result (LetNobodyIn S.by S.gives S.lets_in S.legal (base_of S.base self.now) (knows pass.old) (knows pass.new)) }
    {
        let token = let_in(rt, &self.lock, alloc, &mut pass.token)?;
        Ok(Pass { token })
    }

    /// Takes in another pass, which leaves: the pass has then seen what each of the two had seen. Waits for the other's turn.
    /// Where it doesn't leave it is handed back, and the pass stays as it was.
    pub fn join<R: Wait>(
        &self,
        rt: &R,
        alloc: Global,
        pass: &mut Pass<S>,
        other: Pass<S>,
    ) -> Result<(), (LeaveError, Pass<S>)>
        requires { IsOf self.now pass.old × IsOf self.now other }
        ensures of { IsOf self.now pass.new × IfErr result (λ e. IsOf self.now e.1) }
        ensures ok { OnOk result (TookIn S.by S.left S.legal (base_of S.base self.now) (knows pass.old) (knows other) (knows pass.new)) }
        ensures same { OnErr result (knows pass.new ≡ knows pass.old) }
        ensures err { IfErr result (λ e. StaysThere S.by S.gives S.asked S.legal (base_of S.base self.now) e.0 (knows other) (knows e.1)) }
    {
        let Pass { token } = other;
        match take_in(rt, &self.lock, alloc, &mut pass.token, token) {
            Ok(()) => Ok(()),
            Err((error, token)) => Err((error, Pass { token })),
        }
    }

    /// The pass has then seen what each of the two had seen; the other stays as it is. Waits for nobody, and takes no memory.
    pub fn meet(&self, pass: &mut Pass<S>, other: &mut Pass<S>)
        requires { IsOf self.now pass.old × IsOf self.now other.old }
        ensures of { IsOf self.now pass.new × IsOf self.now other.new }
        ensures pass { knows pass.new ≡ record (knows pass.old) { seen = longer (knows pass.old).seen (knows other.old).seen } }
        ensures begins { StartsWith (knows pass.new).seen (knows pass.old).seen × StartsWith (knows pass.new).seen (knows other.old).seen }
        ensures faithful { IsFaithful S.by (knows pass.new) }
        ensures other { knows other.new ≡ knows other.old }
    {
        self.lock.meet(&mut pass.token, &mut other.token);
    }

    /// Waits for the pass's turn, and ends the room, where nothing of the machine is out: gives the machine, whose history
    /// begins with what the pass and each of the others had seen. Where something is out nothing ends. The others, and the
    /// pass, have seen that history then.
    pub fn close<R: Wait>(
        self,
        rt: &R,
        pass: Pass<S>,
        others: &mut Vec<Pass<S>>,
    ) -> Result<S, (Room<S>, Pass<S>)>
        requires of { IsOf self pass }
        requires others { AllByRecursion (λ p. IsOf self p) others.old.items }
        ensures base { IfOk result (λ m. S.base m ≡ base_of S.base self) }
        ensures closed { IfOk result (λ m. S.may_close (base_of S.base self) (S.list m) ≡ true) }
        ensures ok { IfOk result (λ m. EndsWith S.by S.legal (base_of S.base self) (S.list m) (knows pass)) }
        ensures told { IfOk result (λ m. Pairs (λ p q. CameTo S.by (S.list m) (knows p) (knows q)) others.old.items others.new.items) }
        ensures refused { IfErr result (λ e. (h : List S.Entry) × S.legal (base_of S.base self) h × (S.may_close (base_of S.base self) h ≡ false) × CameTo S.by h (knows pass) (knows e.1)
            × Pairs (λ p q. IsOf self q × CameTo S.by h (knows p) (knows q)) others.old.items others.new.items) }
        ensures same { IfErr result (λ e. (e.0 ≡ self) × IsOf e.0 e.1) }
    {
        let Pass { mut token } = pass;
        let machine = begin_turn(rt, &self.lock, &mut token);
        tell_all(&self.lock, &mut token, others);
        if machine.may_close() {
            return Ok(machine);
        }
        self.lock.give_back(&mut token, machine);
        Err((self, Pass { token }))
    }
}
