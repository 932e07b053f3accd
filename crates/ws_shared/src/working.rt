//! What a worker of a pool asks beside a pass's other calls.
ghost use Rattle.std.specs.Prelude.{◌≡◌, true};
ghost use Rattle.pass_turns.specs.Turns.{knows, TookTurn};
ghost use Rattle.ws_locked.specs.Asked.{is_plain};
ghost use Rattle.ws_locked.specs.Jobs.{HasTakenJob, WereAsleep};

use crate::workspace::{Pass, Workspace};
use crate::{NoMemory, Vow};
use builder_api::Builder;
use core_event::{Event, Reply};
use res_path::Name;
use save_round::Participant;
use std::alloc::Global;
use std::sync::Wait;
use std::sync::atomic::AtomicBool;
use ws_locked::{Asleep, TakeJob, WishUnless};
use ws_outside::Disk;

impl<D: Disk, B: Builder, P: Participant, V: Vow> Workspace<D, B, P, V> {
    ghost use Rattle.ws_locked.specs.Halls.{state_in};
    ghost use Rattle.ws_shared.specs.Calls.{IsOf, StoodUnless, legal_from, opening_of, pass_of};

    /// The pass takes the job that comes next, in its next turn: its name. None where no job may be run now, and where the pass
    /// has a rule, a job, an open batch or the services. Then it leaves no entry, nor where memory wants.
    pub fn take_job<R: Wait>(
        &self,
        rt: &R,
        alloc: Global,
        pass: &mut Pass<D, B, P, V>,
    ) -> Result<Option<Name>, NoMemory>
        requires { IsOf self.now pass.old }
        ensures of { IsOf self.now pass.new }
        ensures taken { TookTurn pass_of legal_from (λ o. HasTakenJob (state_in o)) (opening_of self.now) result (knows pass.old) (knows pass.new) }
    {
        let mut deed = TakeJob;
        self.room.turn(rt, alloc, pass, &mut deed)
    }

    /// Of these names those of jobs that sleep, in their order, at the end of a history that begins with what the pass had
    /// seen, and which it has seen then. It leaves no entry, and takes no memory.
    pub fn asleep<R: Wait>(
        &self,
        rt: &R,
        alloc: Global,
        pass: &mut Pass<D, B, P, V>,
        names: Vec<Name>,
    ) -> Vec<Name>
        requires { IsOf self.now pass.old }
        ensures of { IsOf self.now pass.new }
        ensures asleep { TookTurn pass_of legal_from (λ o n found added answer. WereAsleep names.items (state_in o) n found added answer.items) (opening_of self.now) result (knows pass.old) (knows pass.new) }
    {
        let mut deed = Asleep { names };
        let asleep = self.room.turn(rt, alloc, pass, &mut deed);
        drop(deed);
        asleep
    }

    /// Does an event of the pass that enters or leaves nobody and leaves the services where they are, in the first of the
    /// pass's turns in which no rule of another pass is in its way; or gives it up where one is and the flag is set, and then
    /// there is no reply. Until then, and where it is given up, it leaves no entry.
    ///
    /// A pass that must wait takes turn after turn, and looks at the flag in each: so who sets it need wake nobody.
    pub fn do_unless<R: Wait>(
        &self,
        rt: &R,
        alloc: Global,
        pass: &mut Pass<D, B, P, V>,
        event: Event,
        stop: &AtomicBool,
    ) -> Result<Option<Reply>, NoMemory>
        requires of { IsOf self.now pass.old }
        requires plain { is_plain event ≡ true }
        ensures of { IsOf self.now pass.new }
        ensures tried { StoodUnless (opening_of self.now) event result (knows pass.old) (knows pass.new) }
    {
        let mut wish = WishUnless { event, stop };
        let answer = self.room.wait(rt, alloc, pass, &mut wish);
        drop(wish);
        answer
    }
}
