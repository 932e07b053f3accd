ghost use Rattle.std.specs.Prelude.{◌≡◌, ◌≢◌, List, [], ◌∷◌, ◌++◌, true, false, IfOk, IfErr, OnOk, OnErr};
ghost use Rattle.ws_turn.specs.Lists.{StartsWith, longer, of, numbers, HasNoneOf};

use crate::NoMemory;
use crate::logged::Logged;
use crate::pass::Pass;
use crate::plays::Fork;
use crate::steps::{
    WORDS, await_turn, draw_ticket, hand_back, learn_from, merge_in, raise_for, take_out,
};
use crate::view::{Turns, View};
use atomic_table::Table;
use std::alloc::{AllocError, Global};
use std::snapshot::Snapshot;
use std::sync::Wait;

/// A lock round a value that stands for a history. One pass at a time holds the value, in the order in which they asked.
/// All that its passes have seen are beginnings of one history, to which a pass that gives the value back adds its entry.
/// It ends by being dropped, also while its value is out. A pass that is dropped while it holds the value, or with the
/// value, leaves the others waiting.
#[derive(Drop)]
pub struct Shared<S: Logged> {
    pub(crate) table: Table<
        Option<S>,
        View<S, <S as Logged>::Entry, <S as Logged>::Base>,
        Snapshot<S>,
        Turns<S>,
        Global,
    >,
    ghost sized: { (table.shared.table_id.words ≡ 67) × (table.shared.table_id.slots ≡ 1) },
}

impl<S: Logged> Shared<S> {
    ghost use Rattle.ws_turn.specs.Passes.{known, base_of, IsOf, IsFaithful, IsNext, Enters};

    /// A lock with this value in it, whose base is the lock's, and the first pass, which has the number 0.
    /// Where memory runs out the value is handed back.
    pub fn new(alloc: Global, value: S) -> Result<(Shared<S>, Pass<S>), (NoMemory, S)>
        requires { S.list value ≡ [] }
        ensures of { IfOk result (λ r. IsOf r.0 r.1) }
        ensures base { IfOk result (λ r. base_of S.base r.0 ≡ S.base value) }
        ensures pass { IfOk result (λ r. known r.1 ≡ record { number = 0; seen = []; mine = []; lost = []; joined = []; holds = false }) }
        ensures err { IfErr result (λ e. e.1 ≡ value) }
    {
        let about = Snapshot::of(&value);
        let mut slots = match Vec::with_capacity(alloc, 1) {
            Ok(slots) => slots,
            Err(error) => return Err((error, value)),
        };
        slots.push_reserved(Some(value));
        match Table::new(alloc, &[0; WORDS], slots, &about) {
            Ok((table, seat)) => Ok((
                Shared { table },
                Pass {
                    seat,
                    number: 0,
                    at: 0,
                },
            )),
            Err(mut refused) => Err((AllocError, refused.slots.pop().unwrap().unwrap())),
        }
    }

    /// Waits for the turn, and takes the value, whose history the pass has then seen. Takes no memory.
    /// Nothing is said of how long it waits: not that another pass gives the value back.
    pub fn take<R: Wait>(&self, rt: &R, pass: &mut Pass<S>) -> S
        requires of { IsOf self.now pass.old }
        requires idle { (known pass.old).holds ≡ false }
        ensures of { IsOf self.now pass.new }
        ensures pass { known pass.new ≡ record (known pass.old) { seen = S.list result; joined = []; holds = true } }
        ensures begins { StartsWith (S.list result) (known pass.old).seen }
        ensures own { IsFaithful S.by (known pass.new) }
        ensures base { S.base result ≡ base_of S.base self.now }
    {
        let desk = &self.table.shared;
        let ticket = draw_ticket(desk, &mut pass.seat);
        await_turn(rt, desk, &mut pass.seat, ticket);
        let value = take_out(desk, &mut pass.seat);
        pass.at = value.entries();
        value
    }

    /// Gives the value back, with the history that the pass has seen, or with one entry more, which is then in the lock's
    /// history. That entry is of the pass's number, or of the number of a pass that was joined to it while it held the
    /// value. A number that the entry gives is lost: no pass will have it. Takes no memory, and waits for nobody.
    pub fn give_back(&self, pass: &mut Pass<S>, value: S)
        requires of { IsOf self.now pass.old }
        requires holds { (known pass.old).holds ≡ true }
        requires base { S.base value ≡ base_of S.base self.now }
        requires next { IsNext S.by S.gives (known pass.old) (S.list value) }
        ensures of { IsOf self.now pass.new }
        ensures idle { (known pass.new).holds ≡ false }
        ensures as_taken { S.list value ≡ (known pass.old).seen → known pass.new ≡ record (known pass.old) { joined = []; holds = false } }
        ensures with_more { (more : List S.Entry) → S.list value ≡ (known pass.old).seen ++ more → known pass.new ≡ record (known pass.old) { seen = S.list value; mine = (known pass.old).mine ++ of S.by (known pass.old).number more; lost = (known pass.old).lost ++ numbers S.gives more; joined = []; holds = false } }
        ensures own { IsFaithful S.by (known pass.new) }
    {
        let desk = &self.table.shared;
        pass.at = value.entries();
        hand_back(desk, &mut pass.seat, value);
    }

    /// The pass has then seen what each of the two had seen; the other stays as it is. Takes no memory, and waits for nobody.
    pub fn meet(&self, pass: &mut Pass<S>, other: &mut Pass<S>)
        requires of { IsOf self.now pass.old × IsOf self.now other.old }
        ensures of { IsOf self.now pass.new × IsOf self.now other.new }
        ensures pass { known pass.new ≡ record (known pass.old) { seen = longer (known pass.old).seen (known other.old).seen } }
        ensures begins { StartsWith (known pass.new).seen (known pass.old).seen × StartsWith (known pass.new).seen (known other.old).seen }
        ensures own { IsFaithful S.by (known pass.new) }
        ensures holder { (known pass.old).holds ≡ true → (known pass.new).seen ≡ (known pass.old).seen }
        ensures other { known other.new ≡ known other.old }
    {
        learn_from(&self.table.shared, &mut pass.seat, &mut other.seat);
        pass.at = pass.at.max(other.at);
    }

    /// Makes a pass of the number that the value's last entry gives, and which no entry gave before. The entry is of the
    /// pass's number, and is in the lock's history from then on. The pass goes on holding the value, and the new pass has
    /// seen as much. After NoMemory all is as before; today's lock takes no memory here.
    pub fn split(
        &self,
        alloc: Global,
        pass: &mut Pass<S>,
        value: &S,
        number: u64,
    ) -> Result<Pass<S>, NoMemory>
        requires of { IsOf self.now pass.old }
        requires holds { (known pass.old).holds ≡ true }
        requires base { S.base value.now ≡ base_of S.base self.now }
        requires enters { Enters S.by S.gives (known pass.old) (S.list value.now) number }
        ensures of { IsOf self.now pass.new × IfOk result (IsOf self.now) }
        ensures pass { (more : List S.Entry) → S.list value.now ≡ (known pass.old).seen ++ more → OnOk result (known pass.new ≡ record (known pass.old) { seen = S.list value.now; mine = (known pass.old).mine ++ more }) }
        ensures new { IfOk result (λ p. known p ≡ record { number = number; seen = S.list value.now; mine = []; lost = []; joined = []; holds = false }) }
        ensures own { IsFaithful S.by (known pass.new) × IfOk result (λ p. IsFaithful S.by (known p)) }
        ensures err { OnErr result (known pass.new ≡ known pass.old) }
    {
        let _ = alloc;
        let desk = &self.table.shared;
        raise_for(desk, &mut pass.seat, value);
        let seat = desk.split_seat::<Fork>(&mut pass.seat);
        pass.at = value.entries();
        Ok(Pass {
            seat,
            number,
            at: pass.at,
        })
    }

    /// Joins another pass, which is then gone. The pass has seen what each of the two had seen. Where the other held the
    /// value the pass holds it instead, and may give it back with an entry of the other's number. Takes no memory, and
    /// waits for nobody.
    pub fn join(&self, pass: &mut Pass<S>, other: Pass<S>)
        requires of { IsOf self.now pass.old × IsOf self.now other }
        requires idle { (known pass.old).holds ≡ false }
        ensures of { IsOf self.now pass.new }
        ensures pass { known pass.new ≡ record { number = (known pass.old).number; seen = longer (known other).seen (known pass.old).seen; mine = (known pass.old).mine; lost = (known pass.old).lost ++ (known other).lost; joined = (known other).number ∷ (known other).joined; holds = (known other).holds } }
        ensures begins { StartsWith (known pass.new).seen (known pass.old).seen × StartsWith (known pass.new).seen (known other).seen }
        ensures own { IsFaithful S.by (known pass.new) }
        ensures holder { (known other).holds ≡ true → (known pass.new).seen ≡ (known other).seen }
        ensures theirs { of S.by (known other).number (known pass.new).seen ≡ (known other).mine }
    {
        let Pass { seat, at, .. } = other;
        merge_in(&self.table.shared, &mut pass.seat, seat);
        pass.at = pass.at.max(at);
    }
}
