//! The steps of a seat.
ghost use Rattle.std.specs.Prelude.{◌≡◌, ◌≢◌, ℕ, ◌<◌, ◌≤◌, ◌%◌, ◌^◌, ◌++◌, ◌∷◌, [], false, true, List, Some, None, is_some};
ghost use Rattle.ws_turn.specs.Lists.{StartsWith, HasNoneOf, longer, of, put_before};
ghost use Rattle.ws_turn.specs.Inside.Steps.{queued, IsHanded, MayRaise, raised, handed_on, told_of, informed, Agrees};

use crate::logged::Logged;
use crate::plays::{Draw, HandOn, Learn, Look, Merge, Note, Raise, Ring, Told};
use crate::view::{Chair, Desk};
use std::marker::Brand;
use std::sync::Wait;
use std::{hint, mem};

const TICKETS: usize = 0;

const SERVING: usize = 1;

const COUNT: usize = 2;

/// The first bell.
const BELL: usize = 3;

/// How many bells there are. Of so many threads that wait, no two share one.
const BELLS: u64 = 64;

/// How many words the lock has: three, and the bells.
pub(crate) const WORDS: usize = 67;

const VALUE: usize = 0;

/// How often the thread whose turn is next looks before it sleeps.
const SPINS: u32 = 64;

/// A ticket, up to wrapping.
pub(crate) fn draw_ticket<S: Logged>(desk: &Desk<S>, chair: &mut Chair<S>) -> u64
    requires here { (chair.old.table_id ≡ desk.now.table_id) × (desk.now.table_id.words ≡ 67) }
    requires live { chair.old.me.0.spent ≡ false }
    requires idle { (chair.old.me.0.ticket ≡ None) × (chair.old.me.0.held ≡ None) }
    requires number { (n : ℕ) × (chair.old.me.0.number ≡ Some n) }
    ensures same { (chair.new.table_id ≡ chair.old.table_id) × (chair.new.id ≡ chair.old.id) }
    ensures drawn { (k : ℕ) × (result ≡ k % 2 ^ 64) × (chair.new.me ≡ (queued S.list S.base S.by S.gives chair.old.me.0 k, chair.old.me.1)) }
{
    desk.fetch_add::<Draw>(chair, TICKETS, 1)
}

/// Looks at the serving word once.
fn look_once<S: Logged>(desk: &Desk<S>, chair: &mut Chair<S>) -> u64
    requires here { (chair.old.table_id ≡ desk.now.table_id) × (desk.now.table_id.words ≡ 67) }
    requires live { (chair.old.me.0.spent ≡ false) × (chair.old.me.0.held ≡ None) }
    requires queued { (k : ℕ) × (chair.old.me.0.ticket ≡ Some k) }
    ensures same { (chair.new.table_id ≡ chair.old.table_id) × (chair.new.id ≡ chair.old.id) }
    ensures turn { (k : ℕ) → chair.old.me.0.ticket ≡ Some k → result ≡ k % 2 ^ 64 → IsHanded S.list S.base S.by S.gives chair.old.me chair.new.me }
    ensures waits { (k : ℕ) → chair.old.me.0.ticket ≡ Some k → result ≢ k % 2 ^ 64 → chair.new.me ≡ chair.old.me }
{
    desk.load::<Look>(chair, SERVING)
}

/// Whether it is worth to look again at once: the ticket is the next that is served, and hasn't been looked for too often.
fn may_spin(spins: u32, found: u64, ticket: u64) -> bool
    ensures { result ≡ true → spins < 64 }
{
    spins < SPINS && found.wrapping_add(1) == ticket
}

/// The bell of those that wait with this ticket.
fn bell_of(ticket: u64) -> usize
    ensures { (3 ≤ result) × (result < 67) }
{
    BELL + (ticket % BELLS) as usize
}

/// Waits for the turn, and takes the slot in hand. Who isn't next sleeps at once, on the bell of its ticket.
/// No wake is lost: it reads the bell before it looks, and who serves its ticket rings only then, so behind a look that
/// came too early there is a ring that the read didn't see, which keeps it from sleeping or wakes it.
pub(crate) fn await_turn<S: Logged, R: Wait>(
    rt: &R,
    desk: &Desk<S>,
    chair: &mut Chair<S>,
    ticket: u64,
)
    requires here { (chair.old.table_id ≡ desk.now.table_id) × (desk.now.table_id.words ≡ 67) }
    requires live { (chair.old.me.0.spent ≡ false) × (chair.old.me.0.held ≡ None) }
    requires queued { (k : ℕ) × (chair.old.me.0.ticket ≡ Some k) × (ticket ≡ k % 2 ^ 64) }
    ensures same { (chair.new.table_id ≡ chair.old.table_id) × (chair.new.id ≡ chair.old.id) }
    ensures turn { IsHanded S.list S.base S.by S.gives chair.old.me chair.new.me }
{
    let bell = bell_of(ticket);
    let mut spins = 0;
    for _ in rt.forever() {
        let rung = desk.peek(bell);
        let found = look_once(desk, chair);
        if found == ticket {
            break;
        }
        if may_spin(spins, found, ticket) {
            spins += 1;
            hint::spin_loop();
        } else {
            desk.park(rt, bell, (rung % (1 << 32)) as u32);
        }
    }
}

/// Takes the value out of the slot in hand.
pub(crate) fn take_out<S: Logged>(desk: &Desk<S>, chair: &mut Chair<S>) -> S
    requires here { chair.old.table_id ≡ desk.now.table_id }
    requires held { (x : S) × (chair.old.me.1 ≡ (0, Some x) ∷ []) }
    ensures same { (chair.new.table_id ≡ chair.old.table_id) × (chair.new.id ≡ chair.old.id) }
    ensures out { (chair.old.me.1 ≡ (0, Some result) ∷ []) × (chair.new.me ≡ (chair.old.me.0, (0, None) ∷ [])) }
{
    desk.exchange(chair, VALUE, None).unwrap()
}

/// Raises the count to the length of the value's list. B tells of the value.
fn make_raise<B: Told<S>, S: Logged>(desk: &Desk<S>, chair: &mut Chair<S>, value: &S)
    requires here { (chair.old.table_id ≡ desk.now.table_id) × (desk.now.table_id.words ≡ 67) }
    requires told { B.told ≡ Some value.now }
    requires live { (chair.old.me.0.spent ≡ false) × (chair.old.me.0.pending ≡ []) }
    requires more { (more : List S.Entry) × MayRaise S.list S.base S.by S.gives value.now more chair.old.me.0 }
    ensures same { (chair.new.table_id ≡ chair.old.table_id) × (chair.new.id ≡ chair.old.id) }
    ensures raised { (more : List S.Entry) → S.list value.now ≡ chair.old.me.0.seen ++ more → chair.new.me ≡ (raised S.list S.base S.by S.gives chair.old.me.0 value.now more, chair.old.me.1) }
    ensures agrees { Agrees S.list S.base S.by S.gives chair.new.me.0 × HasNoneOf S.by chair.new.me.0.pending chair.new.me.0.seen }
{
    let entries = value.entries();
    desk.store::<Raise<B>>(chair, COUNT, entries);
}

/// Raises the count for a value that is lent: the call picks what it tells of.
pub(crate) fn raise_for<S: Logged>(desk: &Desk<S>, chair: &mut Chair<S>, value: &S)
    requires here { (chair.old.table_id ≡ desk.now.table_id) × (desk.now.table_id.words ≡ 67) }
    requires live { (chair.old.me.0.spent ≡ false) × (chair.old.me.0.pending ≡ []) }
    requires more { (more : List S.Entry) × MayRaise S.list S.base S.by S.gives value.now more chair.old.me.0 }
    ensures same { (chair.new.table_id ≡ chair.old.table_id) × (chair.new.id ≡ chair.old.id) }
    ensures raised { (more : List S.Entry) → S.list value.now ≡ chair.old.me.0.seen ++ more → chair.new.me ≡ (raised S.list S.base S.by S.gives chair.old.me.0 value.now more, chair.old.me.1) }
    ensures agrees { Agrees S.list S.base S.by S.gives chair.new.me.0 × HasNoneOf S.by chair.new.me.0.pending chair.new.me.0.seen }
{
    make_raise::<Brand, S>(desk, chair, value);
}

/// Puts a value into the slot in hand.
fn put_in<S: Logged>(desk: &Desk<S>, chair: &mut Chair<S>, value: S)
    requires here { chair.old.table_id ≡ desk.now.table_id }
    requires held { chair.old.me.1 ≡ (0, None) ∷ [] }
    ensures same { (chair.new.table_id ≡ chair.old.table_id) × (chair.new.id ≡ chair.old.id) }
    ensures put { chair.new.me ≡ (chair.old.me.0, (0, Some value) ∷ []) }
{
    desk.exchange(chair, VALUE, Some(value));
}

/// Rings the bell of those that wait with this ticket, and wakes who sleeps on it.
fn ring<S: Logged>(desk: &Desk<S>, chair: &mut Chair<S>, ticket: u64)
    requires here { (chair.old.table_id ≡ desk.now.table_id) × (desk.now.table_id.words ≡ 67) }
    ensures same { (chair.new.table_id ≡ chair.old.table_id) × (chair.new.id ≡ chair.old.id) }
    ensures me { chair.new.me ≡ chair.old.me }
{
    let bell = bell_of(ticket);
    desk.fetch_add::<Ring>(chair, bell, 1);
    desk.wake_all(bell);
}

/// Gives the slot in hand back, serves the next ticket, and rings for who has it. Where nobody has it yet it doesn't ring:
/// who draws it later finds it served.
pub(crate) fn serve_next<S: Logged>(desk: &Desk<S>, chair: &mut Chair<S>)
    requires here { (chair.old.table_id ≡ desk.now.table_id) × (desk.now.table_id.words ≡ 67) × (desk.now.table_id.slots ≡ 1) }
    requires held { (chair.old.me.0.spent ≡ false) × ((y : S) × (chair.old.me.0.held ≡ Some y) × (chair.old.me.1 ≡ (0, Some y) ∷ [])) }
    ensures same { (chair.new.table_id ≡ chair.old.table_id) × (chair.new.id ≡ chair.old.id) }
    ensures on { chair.new.me ≡ (handed_on S.list S.base S.by S.gives chair.old.me.0, []) }
{
    let next = desk.fetch_add::<HandOn>(chair, SERVING, 1).wrapping_add(1);
    if desk.peek(TICKETS) != next {
        ring(desk, chair, next);
    }
}

/// Gives the value back: raises the count, puts the value into the slot and serves the next ticket.
pub(crate) fn hand_back<S: Logged>(desk: &Desk<S>, chair: &mut Chair<S>, value: S)
    requires here { (chair.old.table_id ≡ desk.now.table_id) × (desk.now.table_id.words ≡ 67) × (desk.now.table_id.slots ≡ 1) }
    requires live { (chair.old.me.0.spent ≡ false) × (chair.old.me.0.pending ≡ []) }
    requires held { chair.old.me.1 ≡ (0, None) ∷ [] }
    requires more { (more : List S.Entry) × MayRaise S.list S.base S.by S.gives value more chair.old.me.0 }
    ensures same { (chair.new.table_id ≡ chair.old.table_id) × (chair.new.id ≡ chair.old.id) }
    ensures on { (more : List S.Entry) → S.list value ≡ chair.old.me.0.seen ++ more → chair.new.me ≡ (handed_on S.list S.base S.by S.gives (raised S.list S.base S.by S.gives chair.old.me.0 value more), []) }
    ensures agrees { Agrees S.list S.base S.by S.gives chair.new.me.0 }
{
    raise_for(desk, chair, &value);
    put_in(desk, chair, value);
    serve_next(desk, chair);
}

/// Tells a seat what another has seen, and lets it look.
pub(crate) fn learn_from<S: Logged>(desk: &Desk<S>, chair: &mut Chair<S>, other: &mut Chair<S>)
    requires here { (chair.old.table_id ≡ desk.now.table_id) × (other.old.table_id ≡ desk.now.table_id) × (desk.now.table_id.words ≡ 67) }
    requires live { (chair.old.me.0.spent ≡ false) × (other.old.me.0.spent ≡ false) }
    ensures chair { (chair.new.table_id ≡ chair.old.table_id) × (chair.new.id ≡ chair.old.id) }
    ensures other { (other.new.table_id ≡ other.old.table_id) × (other.new.id ≡ other.old.id) × (other.new.me ≡ other.old.me) }
    ensures seen { chair.new.me ≡ (informed S.list S.base S.by S.gives (told_of chair.old.me.0 other.old.me.0), chair.old.me.1) }
    ensures begins { StartsWith chair.new.me.0.seen chair.old.me.0.seen × StartsWith chair.new.me.0.seen other.old.me.0.seen }
    ensures agrees { Agrees S.list S.base S.by S.gives chair.new.me.0 }
    ensures held { is_some chair.old.me.0.held ≡ true → chair.new.me.0.seen ≡ chair.old.me.0.seen }
{
    let note = desk.split_seat::<Note>(other);
    desk.join_seat::<Note>(chair, note);
    look_again(desk, chair);
}

/// Sees what was told.
fn look_again<S: Logged>(desk: &Desk<S>, chair: &mut Chair<S>)
    requires here { (chair.old.table_id ≡ desk.now.table_id) × (desk.now.table_id.words ≡ 67) }
    requires live { chair.old.me.0.spent ≡ false }
    ensures chair { (chair.new.table_id ≡ chair.old.table_id) × (chair.new.id ≡ chair.old.id) }
    ensures seen { chair.new.me ≡ (informed S.list S.base S.by S.gives chair.old.me.0, chair.old.me.1) }
    ensures begins { StartsWith chair.new.me.0.seen chair.old.me.0.seen × StartsWith chair.new.me.0.seen chair.old.me.0.told }
    ensures agrees { Agrees S.list S.base S.by S.gives chair.new.me.0 }
    ensures held { is_some chair.old.me.0.held ≡ true → chair.new.me.0.seen ≡ chair.old.me.0.seen }
{
    desk.load::<Learn>(chair, SERVING);
}

/// Lets a pass that holds nothing go on in the seat of another, which is joined to it.
pub(crate) fn merge_in<S: Logged>(desk: &Desk<S>, chair: &mut Chair<S>, mut other: Chair<S>)
    requires here { (chair.old.table_id ≡ desk.now.table_id) × (other.table_id ≡ desk.now.table_id) × (desk.now.table_id.words ≡ 67) }
    requires live { (chair.old.me.0.spent ≡ false) × (other.me.0.spent ≡ false) }
    requires numbers { ((a : ℕ) × (chair.old.me.0.number ≡ Some a)) × ((b : ℕ) × (other.me.0.number ≡ Some b)) }
    requires idle { (chair.old.me.0.ticket ≡ None) × (chair.old.me.0.held ≡ None) × (chair.old.me.1 ≡ []) }
    ensures here { chair.new.table_id ≡ chair.old.table_id }
    ensures merged { chair.new.me ≡ (record other.me.0 { number = chair.old.me.0.number; seen = longer other.me.0.seen chair.old.me.0.seen; told = []; mine = chair.old.me.0.mine; lost = chair.old.me.0.lost ++ other.me.0.lost; joined = put_before other.me.0.number other.me.0.joined }, other.me.1) }
    ensures begins { StartsWith chair.new.me.0.seen chair.old.me.0.seen × StartsWith chair.new.me.0.seen other.me.0.seen }
    ensures agrees { Agrees S.list S.base S.by S.gives chair.new.me.0 }
    ensures theirs { (b : ℕ) → other.me.0.number ≡ Some b → of S.by b chair.new.me.0.seen ≡ other.me.0.mine }
    ensures held { is_some other.me.0.held ≡ true → chair.new.me.0.seen ≡ other.me.0.seen }
{
    learn_from(desk, &mut other, chair);
    let old = mem::replace(chair, other);
    desk.join_seat::<Merge>(chair, old);
    look_again(desk, chair);
}
