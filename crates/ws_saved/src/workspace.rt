//! A workspace, its store and its participants.
ghost use Rattle.std.specs.Prelude.{◌≡◌, ℕ, List, [], map, true, None as nothing, IfOk, OnOk, OnErr, option_copied};
ghost use Rattle.builder_api.specs.Told.{Told as BuilderTold};
ghost use Rattle.build_core.specs.Histories.{book_of};
ghost use Rattle.build_host.specs.Builds.{IsBuild};
ghost use Rattle.build_host.specs.Hosts.{Goes, IsReady, Serves};
ghost use Rattle.build_run.specs.Commands.{IsAnswered};
ghost use Rattle.run_order.specs.Lists.{Cut, Grew};
ghost use Rattle.save_history.specs.Kept.{IsKept};
ghost use Rattle.save_history.specs.Stages.{HasSaved};
ghost use Rattle.save_history.specs.Steps.{step_in};
ghost use Rattle.ws_core.specs.Histories.{entry_of, has_entered, written};
ghost use Rattle.ws_core.specs.Steps.{step};
ghost use Rattle.ws_saved.specs.Sound.{IsSound};

use crate::NoMemory;
use build_host::build;
use build_run::BuildAnswer;
use builder_api::{BuildKind, Builder, Builders, Meanings};
use core_event::{Event, Reply};
use elem_tree::LayerTree;
use res_path::Name;
use save_host::{Keeper, save};
use save_kind::SaveKind;
use save_round::{Participant, Participants};
use save_run::Saved;
use std::alloc::Global;
use std::marker::Model;
use std::snapshot::Snapshot;
use ws_core::Core;
use ws_outside::Disk;

/// An open workspace with the store that it is saved in and who takes part in its saves. A contract sees these three, and
/// the participants as they were when the workspace was opened.
///
/// At every moment since the store was opened each crash left a point of the workspace's history, that is the state to which
/// it was opened or one that a save was to write; and now a crash leaves that of the save that was acknowledged last, or of
/// one begun after it. A call on the disk failed exactly where its count of faults rose, which it did for each save that
/// ended so. No save is under way between calls, and the participants had the calls of the saves that ended, and no others.
#[derive(Drop)]
pub struct SavedWorkspace<D: Disk, P: Participant> {
    core: Core<LayerTree>,
    keeper: Keeper<D>,
    participants: Participants<P>,
    began: Snapshot<Participants<P>>,
}

impl<D: Disk, P: Participant> Model for SavedWorkspace<D, P> {
    ghost use Rattle.std.specs.Prelude.{map};
    ghost use Rattle.std.specs.Coded.{codes};
    ghost use Rattle.core_event.specs.contracts.entry.Entry as of_entry;
    ghost use Rattle.ws_durable.specs.contracts.durable.Durable as durable;
    ghost use Rattle.ws_elem.specs.contracts.element.Element as element;
    ghost use Rattle.proj_desc.specs.contracts.command.Command as command;
    ghost use Rattle.job_manager.specs.contracts.manager.JobManager as job_manager;
    ghost use Rattle.service_desk.specs.contracts.desk.Desk as desk;
    ghost use Rattle.ws_core.specs.Inside.Codes.{moment_code};
    ghost use Rattle.ws_saved.specs.Sound.{IsSound, Space};

    ghost Value = { Space D P };

    ghost coded = { Prim.hlevel (codes, of_entry.the_row.coded, durable.the_row.coded, moment_code element.the_row.coded command.the_row.coded job_manager.the_row.coded desk.the_row.coded) };

    ghost view = { λ w. record { core = w.core; keeper = w.keeper; participants = w.participants; began = w.began.value } };

    ghost invariant = { λ w. IsSound D.moment D.left_since D.may_leave D.faults w.core w.keeper (map (λ p. P.tells p) w.began.value) (map (λ p. P.tells p) w.participants) };
}

impl<D: Disk, P: Participant> SavedWorkspace<D, P> {
    /// A workspace that was just opened, with its store and its participants. It takes no memory.
    pub fn of(
        core: Core<LayerTree>,
        keeper: Keeper<D>,
        participants: Participants<P>,
    ) -> SavedWorkspace<D, P>
        requires nothing_done { core.history ≡ [] }
        requires kept { IsKept D.moment D.left_since D.may_leave D.faults core keeper }
        ensures core { result.core ≡ core }
        ensures keeper { result.keeper ≡ keeper }
        ensures participants { result.participants ≡ participants }
        ensures began { result.began ≡ participants }
    {
        let began = Snapshot::of(&participants);
        SavedWorkspace {
            core,
            keeper,
            participants,
            began,
        }
    }

    /// Does an event that is none of a save, as `Core::perform` does.
    pub fn perform(&mut self, alloc: Global, pass: u64, event: Event) -> Result<(), NoMemory>
        requires entered { has_entered pass self.old.core.state ≡ true }
        requires plain { step_in event ≡ nothing }
        ensures opened { self.new.core.opened ≡ self.old.core.opened }
        ensures state { OnOk result (self.new.core.state ≡ (step self.old.core.state pass event).0) }
        ensures history { OnOk result (self.new.core.history ≡ written self.old.core.history (entry_of self.old.core.state pass event)) }
        ensures err { OnErr result (self.new.core ≡ self.old.core) }
        ensures start { (self.new.keeper.began ≡ self.old.keeper.began) × (self.new.began ≡ self.old.began) }
        ensures keeper { self.new.keeper ≡ self.old.keeper }
        ensures participants { self.new.participants ≡ self.old.participants }
    {
        self.core.perform(alloc, pass, event)
    }

    /// Does an event that is none of a save, as `Core::step` does, and gives the reply.
    pub fn step(&mut self, alloc: Global, pass: u64, event: Event) -> Result<Reply, NoMemory>
        requires entered { has_entered pass self.old.core.state ≡ true }
        requires plain { step_in event ≡ nothing }
        ensures opened { self.new.core.opened ≡ self.old.core.opened }
        ensures state { OnOk result (self.new.core.state ≡ (step self.old.core.state pass event).0) }
        ensures reply { IfOk result (λ reply. reply ≡ (step self.old.core.state pass event).1) }
        ensures history { OnOk result (self.new.core.history ≡ written self.old.core.history (entry_of self.old.core.state pass event)) }
        ensures err { OnErr result (self.new.core ≡ self.old.core) }
        ensures start { (self.new.keeper.began ≡ self.old.keeper.began) × (self.new.began ≡ self.old.began) }
        ensures keeper { self.new.keeper ≡ self.old.keeper }
        ensures participants { self.new.participants ≡ self.old.participants }
    {
        self.core.step(alloc, pass, event)
    }

    /// The worker makes a build, as build_host's `build` does.
    pub fn build<B: Builder, M: Meanings>(
        &mut self,
        builders: &mut Builders<B>,
        alloc: Global,
        kind: BuildKind,
        project: Option<&Name>,
    ) -> Result<BuildAnswer, NoMemory>
        requires { IsReady M.meaning self.old.core (map (λ b. B.tells b) builders.old) }
        ensures made { OnOk result (Grew (IsBuild M.meaning 1 kind (option_copied project.entry)) self.old.core.history self.new.core.history) }
        ensures cut { OnErr result (Grew (Cut (IsBuild M.meaning 1 kind (option_copied project.entry))) self.old.core.history self.new.core.history) }
        ensures answered { IfOk result (λ answer. (first : ℕ) × (began : List BuilderTold)
            × IsAnswered M.meaning kind (option_copied project.entry) (book_of self.old.core 1 0 (map (λ b. B.tells b) builders.old) (map (λ b. B.tells b) builders.old)) answer
            (book_of self.new.core 1 first began (map (λ b. B.tells b) builders.new))) }
        ensures home { OnOk result (self.old.core.state.manager.passes.services ≡ nothing → self.new.core.state.manager.passes.services ≡ nothing) }
        ensures goes { Goes self.old.core self.new.core }
        ensures serves { Serves M.meaning self.old.core self.new.core (map (λ b. B.tells b) builders.old) (map (λ b. B.tells b) builders.new) }
        ensures start { (self.new.keeper.began ≡ self.old.keeper.began) × (self.new.began ≡ self.old.began) }
    {
        build::<B, M>(&mut self.core, builders, alloc, kind, project)
    }

    /// The worker makes a save, as save_host's `save` does: it began and ended so, or its beginning was refused with a
    /// number. Answers `NoMemory` where memory wanted before anything was done.
    pub fn save(&mut self, alloc: Global, kind: SaveKind) -> Result<Saved, NoMemory>
        requires worker { has_entered 1 self.old.core.state ≡ true }
        ensures saved { IfOk result (λ saved. HasSaved 1 kind saved self.old.core self.new.core) }
        ensures same { OnErr result (self.new.core ≡ self.old.core) }
        ensures start { (self.new.keeper.began ≡ self.old.keeper.began) × (self.new.began ≡ self.old.began) }
    {
        save(
            alloc,
            &mut self.core,
            &mut self.keeper,
            &mut self.participants,
            1,
            kind,
        )
    }

    /// The workspace.
    pub fn core(&self) -> &Core<LayerTree>
        ensures { result.now ≡ self.now.core }
    {
        &self.core
    }

    /// The workspace, its store and its participants, with what holds of them. It takes no memory.
    pub fn into_parts(self) -> (Core<LayerTree>, Keeper<D>, Participants<P>)
        ensures core { result.0 ≡ self.core }
        ensures keeper { result.1 ≡ self.keeper }
        ensures participants { result.2 ≡ self.participants }
        ensures sound { IsSound D.moment D.left_since D.may_leave D.faults self.core self.keeper (map (λ p. P.tells p) self.began) (map (λ p. P.tells p) self.participants) }
    {
        let SavedWorkspace {
            core,
            keeper,
            participants,
            began: _,
        } = self;
        (core, keeper, participants)
    }
}
