//! What the lock keeps.
ghost use Rattle.std.specs.Prelude.{◌≡◌, ◌++◌, List, [], Some, drop, is_none, map, true, IfErr, IfOk};
ghost use Rattle.std.specs.Option.{option_map};
ghost use Rattle.core_event.specs.declared.entry.Entry.{Entry};

use crate::telling::told_from;
use crate::vow::Vow;
use crate::{Opening, Services};
use builder_api::Builder;
use core_event::{Event, Reply, WsRule};
use delta_kind::Delta;
use elem_tree::LayerTree;
use res_path::NoMemory;
use save_round::Participant;
use std::alloc::{AllocError, Global};
use std::marker::{Model, PhantomData};
use std::snapshot::Snapshot;
use ws_core::{Core, JobCount};
use ws_outside::Disk;

/// The core, and the services while they are home.
#[derive(Drop)]
pub(crate) struct Hold<D: Disk, B: Builder, P: Participant> {
    pub(crate) core: Core<LayerTree>,
    pub(crate) services: Option<Services<D, B, P>>,
}

/// The core of a workspace, with its services while no pass has them. A contract sees these, and with which services the
/// workspace was opened. It is one pointer wide, so that a lock moves no more.
///
/// The services are home exactly where no pass has them, and then they fit what was done.
#[derive(Drop)]
pub struct Locked<D: Disk, B: Builder, P: Participant, V: Vow> {
    pub(crate) hold: Box<Hold<D, B, P>>,
    pub(crate) opening: Opening<D, B, P>,
    pub(crate) vow: PhantomData<V>,
}

impl<D: Disk, B: Builder, P: Participant, V: Vow> Model for Locked<D, B, P, V> {
    ghost use Rattle.std.specs.Prelude.{◌≡◌, Option, Some, None};
    ghost use Rattle.std.specs.Option.{option_map};
    ghost use Rattle.std.specs.Coded.{codes};
    ghost use Rattle.core_event.specs.contracts.entry.Entry as of_entry;
    ghost use Rattle.ws_durable.specs.contracts.durable.Durable as durable;
    ghost use Rattle.ws_elem.specs.contracts.element.Element as element;
    ghost use Rattle.proj_desc.specs.contracts.command.Command as command;
    ghost use Rattle.job_manager.specs.contracts.manager.JobManager as job_manager;
    ghost use Rattle.service_desk.specs.contracts.desk.Desk as desk;
    ghost use Rattle.ws_core.specs.Inside.Codes.{moment_code};
    ghost use Rattle.ws_locked.specs.Fits.{Fits};
    ghost use Rattle.ws_locked.specs.Halls.{Hall, IsHall, trio_of};

    ghost Value = { Hall D B P };

    ghost coded = { Prim.hlevel (codes, of_entry.the_row.coded, durable.the_row.coded, moment_code element.the_row.coded command.the_row.coded job_manager.the_row.coded desk.the_row.coded) };

    ghost view = { λ l. record {
      core = l.hold.value.core;
      services = option_map (λ s. trio_of s) l.hold.value.services;
      opening = l.opening;
    } };

    ghost invariant = { λ l. IsHall B.tells P.tells (Fits D.moment D.left_since D.may_leave D.faults V.fits) (record {
      core = l.hold.value.core;
      services = option_map (λ s. trio_of s) l.hold.value.services;
      opening = l.opening;
    }) };
}

impl<D: Disk, B: Builder, P: Participant, V: Vow> Locked<D, B, P, V> {
    ghost use Rattle.job_manager.specs.Managers.{first_manager};
    ghost use Rattle.save_history.specs.Kept.{IsKept};
    ghost use Rattle.ws_core.specs.Histories.{Legal, notices, replay};
    ghost use Rattle.ws_locked.specs.Fits.{Fits};
    ghost use Rattle.pass_history.specs.Served.{keeps_services, who_serves};
    ghost use Rattle.pass_history.specs.There.{is_there};
    ghost use Rattle.ws_locked.specs.Asked.{HasCounted, WasAsked, WasTried};
    ghost use Rattle.ws_locked.specs.Halls.{IsHall, opened_by, opened_in, told_by, trio_of};

    /// A workspace that was just opened, with its services at home. Where memory wants both are handed back.
    pub fn of(
        alloc: Global,
        core: Core<LayerTree>,
        services: Services<D, B, P>,
    ) -> Result<Locked<D, B, P, V>, (NoMemory, Core<LayerTree>, Services<D, B, P>)>
        requires nothing_done { core.history ≡ [] }
        requires first { core.opened.manager ≡ first_manager }
        requires kept { IsKept D.moment D.left_since D.may_leave D.faults core services.keeper }
        requires vowed { V.fits (record { state = core.opened; builders = map (λ b. B.tells b) services.builders; participants = map (λ p. P.tells p) services.participants }) (map (λ b. B.tells b) services.builders) [] }
        ensures core { IfOk result (λ l. l.core ≡ core) }
        ensures services { IfOk result (λ l. l.services ≡ Some (trio_of services)) }
        ensures opening { IfOk result (λ l. (l.opening.core.value ≡ core) × (l.opening.keeper.value ≡ services.keeper) × (l.opening.builders.value ≡ services.builders) × (l.opening.participants.value ≡ services.participants)) }
        ensures err { IfErr result (λ e. (e.1 ≡ core) × (e.2 ≡ services)) }
    {
        let _ = core.state();
        let opening = Opening {
            core: Snapshot::of(&core),
            keeper: Snapshot::of(&services.keeper),
            builders: Snapshot::of(&services.builders),
            participants: Snapshot::of(&services.participants),
        };
        match boxed(alloc, core, services) {
            Ok(hold) => Ok(Locked {
                hold,
                opening,
                vow: PhantomData,
            }),
            Err((core, services)) => Err((AllocError, core, services)),
        }
    }

    /// The core, and the services where they are home. It takes no memory.
    fn into_parts(self) -> (Core<LayerTree>, Option<Services<D, B, P>>)
        ensures core { result.0 ≡ self.core }
        ensures services { option_map trio_of result.1 ≡ self.services }
        ensures hall { IsHall B.tells P.tells (Fits D.moment D.left_since D.may_leave D.faults V.fits) self }
        ensures replayed { self.core.state ≡ replay (opened_in self) self.core.history }
    {
        let _ = self.hold.core.state();
        let Locked {
            hold,
            opening: _,
            vow: _,
        } = self;
        let Hold { core, services } = Box::into_inner(hold);
        (core, services)
    }

    /// The core and the services, where they are home. It takes no memory.
    pub fn into_home(self) -> (Core<LayerTree>, Services<D, B, P>)
        requires home { is_none (who_serves (opened_in self) self.core.history) ≡ true }
        ensures core { result.0 ≡ self.core }
        ensures services { Some (trio_of result.1) ≡ self.services }
        ensures fits { Fits D.moment D.left_since D.may_leave D.faults V.fits (opened_by B.tells P.tells self.opening) self.opening.keeper.value self.core.history (told_by B.tells P.tells (trio_of result.1)) }
    {
        let (core, services) = self.into_parts();
        match services {
            Some(services) => (core, services),
            None => unreachable!(),
        }
    }

    /// The workspace was opened with no job, and its history may follow. Nothing is done.
    pub(crate) fn stands(&self)
        ensures first { (opened_in self.now).manager ≡ first_manager }
        ensures legal { Legal (opened_in self.now) self.now.core.history }
    {
        let _ = self.hold.core.history();
    }

    /// What the history tells, but for so many of its first notices.
    pub(crate) fn notices(&self, alloc: Global, from: usize) -> Result<Vec<Delta>, NoMemory>
        ensures { IfOk result (λ told. told.items ≡ drop from (notices (opened_in self.now) self.now.core.history)) }
    {
        told_from(alloc, self.hold.core.history(), from)
    }

    /// How many jobs wait or are run, and how many were finished.
    pub(crate) fn jobs(&self) -> JobCount
        ensures { HasCounted (opened_in self.now) 0 self.now.core.history [] result }
    {
        let _ = self.hold.core.state();
        self.hold.core.jobs()
    }

    /// Does an event by which the services stay where they are, as `Core::step` does.
    pub(crate) fn ask(&mut self, alloc: Global, pass: u64, event: Event) -> Result<Reply, NoMemory>
        requires there { is_there (opened_in self.old) self.old.core.history pass ≡ true }
        requires keeps { keeps_services event ≡ true }
        ensures opening { self.new.opening ≡ self.old.opening }
        ensures asked { (added : List Entry) × (self.new.core.history ≡ self.old.core.history ++ added) × WasAsked event (opened_in self.old) pass self.old.core.history added result }
    {
        let _ = self.hold.core.state();
        self.hold.core.step(alloc, pass, event)
    }

    /// Whether it is worth to try the event: false only where it would find that it must wait. It takes no memory.
    pub(crate) fn may_go(&self, pass: u64, event: &Event) -> bool {
        match event {
            Event::Begin(rule) => may_begin(&self.hold.core, pass, rule),
            _ => true,
        }
    }

    /// Tries the event, which is copied, as `ask` does it; none where it only found that it must wait.
    pub(crate) fn try_event(
        &mut self,
        alloc: Global,
        pass: u64,
        event: &Event,
    ) -> Result<Option<Reply>, NoMemory>
        requires there { is_there (opened_in self.old) self.old.core.history pass ≡ true }
        requires keeps { keeps_services event.now ≡ true }
        ensures opening { self.new.opening ≡ self.old.opening }
        ensures tried { (added : List Entry) × (self.new.core.history ≡ self.old.core.history ++ added) × WasTried event.now (opened_in self.old) pass self.old.core.history added result }
    {
        let reply = self.ask(alloc, pass, event.copy()?)?;
        if reply.answer.is_attempt(event) {
            return Ok(None);
        }
        Ok(Some(reply))
    }
}

/// The core, with its services at home, where memory doesn't want.
fn boxed<D: Disk, B: Builder, P: Participant>(
    alloc: Global,
    core: Core<LayerTree>,
    services: Services<D, B, P>,
) -> Result<Box<Hold<D, B, P>>, (Core<LayerTree>, Services<D, B, P>)>
    ensures ok { IfOk result (λ hold. hold.value ≡ record { core = core; services = Some services }) }
    ensures err { IfErr result (λ e. (e.0 ≡ core) × (e.1 ≡ services)) }
{
    let hold = Hold {
        core,
        services: Some(services),
    };
    match Box::new(alloc, hold) {
        Ok(hold) => Ok(hold),
        Err(failed) => {
            let Hold { core, services } = failed.value;
            match services {
                Some(services) => Err((core, services)),
                None => unreachable!(),
            }
        }
    }
}

/// Whether no rule of another pass may be in the way of this one.
fn may_begin(core: &Core<LayerTree>, pass: u64, rule: &WsRule) -> bool {
    core.outer(pass).is_some() || core.state().manager().passes.rules().is_free(rule)
}
