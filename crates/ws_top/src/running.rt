//! The workspace that was opened is run, and what was done is written.
ghost use Rattle.std.specs.Prelude.{◌≡◌, ℕ, [], map, take, Some, IsSome};
ghost use Rattle.sched_rules.specs.Atoms.{atom_contains, atom_conflicts};
ghost use Rattle.rule_table.specs.Tables.{IsApart};
ghost use Rattle.builder_api.specs.Told.{HaveMeanings};
ghost use Rattle.ws_durable.specs.Saved.{saved};
ghost use Rattle.save_format.specs.Valid.{Valid};
ghost use Rattle.save_store.specs.Stored.{IsStored};
ghost use Rattle.save_history.specs.Kept.{TellsFaults, disk_of, first_disk};
ghost use Rattle.save_history.specs.Rounds.{HadSaves, rounds_of};
ghost use Rattle.ws_core.specs.Durables.{kept_since};
ghost use Rattle.ws_core.specs.Histories.{replay};
ghost use Rattle.phase_run.specs.Calm.{IsCalm};
ghost use Rattle.ws_opening.specs.Opened.{opened_state};
ghost use Rattle.ws_top.specs.Areas.{TellsDiskFault};
ghost use Rattle.ws_top.specs.Builds.{MakesBuilds};
ghost use Rattle.ws_top.specs.Inside.Opening.{RunsFrom};
ghost use Rattle.ws_top.specs.Inside.Parts.{Nothing, Same, Performs};
ghost use Rattle.ws_top.specs.Inside.Running.{KeepsStore, LeavesStore, end_status};
ghost use Rattle.ws_top.specs.Outcomes.{Shuffle, CutShuffle, StoppedShuffle, IsOneThread, HaveTakenPart, HearsNotices};
ghost use Rattle.ws_top.specs.Texts.{report_of, status_line};

use crate::kit::{Areas, Kit};
use crate::report::{Telling, write_run};
use crate::response::{Outcome, want};
use builder_api::{Builder, Meanings};
use elem_tree::LayerTree;
use phase_run::run_phases;
use run_text::Unwritten;
use save_host::Keeper;
use save_parts::Listener;
use save_round::{KeptState, Participant, restore_all};
use save_store::Store;
use script_lang::Script;
use std::alloc::Global;
use ws_core::{Core, State};
use ws_durable::Durable;
use ws_opening::{Kept, Opened, workspace};
use ws_outside::{Disk, Sink};
use ws_saved::SavedWorkspace;

/// Runs the script on the workspace that was kept so. What was done is told as it is asked for.
pub fn perform_from<K: Sink, D: Disk, L: Listener, B: Builder, P: Participant, M: Meanings>(
    alloc: Global,
    sink: &mut K,
    store: Store<D>,
    kit: Kit<L, B, P>,
    durable: Durable,
    script: Script,
    telling: Telling,
) -> Outcome<D, L, B, P>
    requires valid { Valid (saved durable) }
    requires stored { IsStored D.may_leave [] store }
    requires means { HaveMeanings M.meaning (map (λ b. B.tells b) kit.builders) }
    ensures performs { Performs (Shuffle M.meaning (opened_state result.kept (map (λ b. B.tells b) kit.builders)) script) (CutShuffle M.meaning (opened_state result.kept (map (λ b. B.tells b) kit.builders)) script) (StoppedShuffle M.meaning (opened_state result.kept (map (λ b. B.tells b) kit.builders)) script) result.kept (report_of telling (map (λ p. P.tells p) kit.participants)) (opened_state result.kept (map (λ b. B.tells b) kit.builders)) (K.written sink.old) (K.written sink.new) (K.faults sink.old) (K.faults sink.new) result.status result.history }
    ensures from { RunsFrom (Some durable) result.kept (K.written sink.old) (K.written sink.new) (K.faults sink.old) (K.faults sink.new) result.status result.history }
    ensures heard { HearsNotices (opened_state result.kept (map (λ b. B.tells b) kit.builders)) result.status result.history (map (λ l. L.heard l) kit.listeners) (map (λ l. L.heard l) result.kit.listeners) }
    ensures builds { MakesBuilds M.meaning (opened_state result.kept (map (λ b. B.tells b) kit.builders)) result.history (map (λ b. B.tells b) kit.builders) (map (λ b. B.tells b) result.kit.builders) }
    ensures participants { HaveTakenPart result.kept (opened_state result.kept (map (λ b. B.tells b) kit.builders)) result.status result.history (map (λ p. P.tells p) kit.participants) (map (λ p. P.tells p) result.kit.participants) }
    ensures fault { TellsDiskFault (D.faults store.areas.disk) (D.faults result.areas.disk) result.status }
    ensures store { LeavesStore D.moment D.left_since D.may_leave D.faults store result.areas.disk result.kept (opened_state result.kept (map (λ b. B.tells b) kit.builders)) result.history }
{
    match workspace(alloc, durable, &kit.builders) {
        Ok(opened) => {
            perform_in::<K, D, L, B, P, M>(alloc, sink, store, kit, opened, script, telling)
        }
        Err(_) => want(alloc, sink, areas_of(store), kit),
    }
}

/// The areas of a store in which nothing was saved.
fn areas_of<D: Disk>(store: Store<D>) -> Areas<D>
    ensures { result.disk ≡ store.areas.disk }
{
    Areas {
        disk: store.into_disk(),
    }
}

/// Participants get back what they kept, and then the script is run on the workspace that was opened.
fn perform_in<K: Sink, D: Disk, L: Listener, B: Builder, P: Participant, M: Meanings>(
    alloc: Global,
    sink: &mut K,
    store: Store<D>,
    kit: Kit<L, B, P>,
    opened: Opened,
    script: Script,
    telling: Telling,
) -> Outcome<D, L, B, P>
    requires some { IsSome opened.kept }
    requires opened { opened.core.opened ≡ opened_state opened.kept (map (λ b. B.tells b) kit.builders) }
    requires state { opened.core.state ≡ opened.core.opened }
    requires history { opened.core.history ≡ [] }
    requires states { opened.states.items ≡ kept_since opened.core.opened }
    requires stored { IsStored D.may_leave [] store }
    requires means { HaveMeanings M.meaning (map (λ b. B.tells b) kit.builders) }
    ensures performs { Performs (Shuffle M.meaning (opened_state result.kept (map (λ b. B.tells b) kit.builders)) script) (CutShuffle M.meaning (opened_state result.kept (map (λ b. B.tells b) kit.builders)) script) (StoppedShuffle M.meaning (opened_state result.kept (map (λ b. B.tells b) kit.builders)) script) result.kept (report_of telling (map (λ p. P.tells p) kit.participants)) (opened_state result.kept (map (λ b. B.tells b) kit.builders)) (K.written sink.old) (K.written sink.new) (K.faults sink.old) (K.faults sink.new) result.status result.history }
    ensures from { RunsFrom opened.kept result.kept (K.written sink.old) (K.written sink.new) (K.faults sink.old) (K.faults sink.new) result.status result.history }
    ensures heard { HearsNotices (opened_state result.kept (map (λ b. B.tells b) kit.builders)) result.status result.history (map (λ l. L.heard l) kit.listeners) (map (λ l. L.heard l) result.kit.listeners) }
    ensures builds { MakesBuilds M.meaning (opened_state result.kept (map (λ b. B.tells b) kit.builders)) result.history (map (λ b. B.tells b) kit.builders) (map (λ b. B.tells b) result.kit.builders) }
    ensures participants { HaveTakenPart result.kept (opened_state result.kept (map (λ b. B.tells b) kit.builders)) result.status result.history (map (λ p. P.tells p) kit.participants) (map (λ p. P.tells p) result.kit.participants) }
    ensures fault { TellsDiskFault (D.faults store.areas.disk) (D.faults result.areas.disk) result.status }
    ensures store { LeavesStore D.moment D.left_since D.may_leave D.faults store result.areas.disk result.kept (opened_state result.kept (map (λ b. B.tells b) kit.builders)) result.history }
{
    let Kit {
        builders,
        listeners,
        mut participants,
    } = kit;
    let restored = restore_all(&mut participants, opened.states.as_slice());
    let kit = Kit {
        builders,
        listeners,
        participants,
    };
    match restored {
        Ok(()) => {
            perform_on::<K, D, L, B, P, M>(alloc, sink, store, kit, opened, script, telling)
        }
        Err(_) => {
            drop(opened);
            want(alloc, sink, areas_of(store), kit)
        }
    }
}

/// Runs the script on the workspace that was opened.
fn perform_on<K: Sink, D: Disk, L: Listener, B: Builder, P: Participant, M: Meanings>(
    alloc: Global,
    sink: &mut K,
    store: Store<D>,
    kit: Kit<L, B, P>,
    opened: Opened,
    script: Script,
    telling: Telling,
) -> Outcome<D, L, B, P>
    requires some { IsSome opened.kept }
    requires opened { opened.core.opened ≡ opened_state opened.kept (map (λ b. B.tells b) kit.builders) }
    requires state { opened.core.state ≡ opened.core.opened }
    requires history { opened.core.history ≡ [] }
    requires states { opened.states.items ≡ kept_since opened.core.opened }
    requires stored { IsStored D.may_leave [] store }
    requires means { HaveMeanings M.meaning (map (λ b. B.tells b) kit.builders) }
    ensures performs { Performs (Shuffle M.meaning opened.core.opened script) (CutShuffle M.meaning opened.core.opened script) (StoppedShuffle M.meaning opened.core.opened script) result.kept (report_of telling (map (λ p. P.tells p) kit.participants)) opened.core.opened (K.written sink.old) (K.written sink.new) (K.faults sink.old) (K.faults sink.new) result.status result.history }
    ensures heard { HearsNotices opened.core.opened result.status result.history (map (λ l. L.heard l) kit.listeners) (map (λ l. L.heard l) result.kit.listeners) }
    ensures builds { MakesBuilds M.meaning opened.core.opened result.history (map (λ b. B.tells b) kit.builders) (map (λ b. B.tells b) result.kit.builders) }
    ensures kept { result.kept ≡ opened.kept }
    ensures had { HadSaves (rounds_of result.history).ended (map (λ p. P.tells p) kit.participants) (map (λ p. P.tells p) result.kit.participants) }
    ensures fault { TellsDiskFault (D.faults store.areas.disk) (D.faults result.areas.disk) result.status }
    ensures store { KeepsStore D.moment D.left_since D.may_leave D.faults store result.areas.disk opened.core.opened result.history }
{
    let Opened { core, kept, states } = opened;
    let Kit {
        mut builders,
        mut listeners,
        participants,
    } = kit;
    let keeper = Keeper::of(store);
    let mut space = SavedWorkspace::of(core, keeper, participants);
    let phases = script.phases.as_slice();
    let ran = run_phases::<L, D, P, B, M>(&mut space, &mut builders, alloc, &mut listeners, phases);
    let (core, keeper, participants) = space.into_parts();
    let kit = Kit {
        builders,
        listeners,
        participants,
    };
    match ran {
        Ok(()) => report(
            alloc,
            sink,
            core,
            keeper,
            kept,
            kit,
            states.as_slice(),
            telling,
        ),
        Err(_) => report_cut(
            alloc,
            sink,
            core,
            keeper,
            kept,
            kit,
            states.as_slice(),
            telling,
        ),
    }
}

/// Writes what a whole script did, and what participants got back of these states.
fn report<K: Sink, D: Disk, L: Listener, B: Builder, P: Participant>(
    alloc: Global,
    sink: &mut K,
    core: Core<LayerTree>,
    keeper: Keeper<D>,
    kept: Kept,
    kit: Kit<L, B, P>,
    states: &[KeptState],
    telling: Telling,
) -> Outcome<D, L, B, P>
    requires some { IsSome kept }
    requires calm { IsCalm core.history }
    requires states { states.now ≡ kept_since core.opened }
    requires told { TellsFaults keeper.failed (D.faults (first_disk keeper)) (D.faults (disk_of keeper)) }
    ensures performs { Performs (Same core.history) (Same core.history) Nothing result.kept (report_of telling (map (λ p. P.tells p) kit.participants)) core.opened (K.written sink.old) (K.written sink.new) (K.faults sink.old) (K.faults sink.new) result.status result.history }
    ensures fault { TellsDiskFault (D.faults (first_disk keeper)) (D.faults result.areas.disk) result.status }
    ensures history { result.history ≡ core.history }
    ensures kept { result.kept ≡ kept }
    ensures disk { result.areas.disk ≡ disk_of keeper }
    ensures kit { result.kit ≡ kit }
{
    if keeper.has_failed() {
        report_as(
            alloc,
            sink,
            core,
            keeper,
            kept,
            kit,
            states,
            telling,
            5,
            b"status 5\n",
        )
    } else {
        report_as(
            alloc,
            sink,
            core,
            keeper,
            kept,
            kit,
            states,
            telling,
            0,
            b"status 0\n",
        )
    }
}

/// The same with a status, whose line is given.
fn report_as<K: Sink, D: Disk, L: Listener, B: Builder, P: Participant>(
    alloc: Global,
    sink: &mut K,
    core: Core<LayerTree>,
    keeper: Keeper<D>,
    kept: Kept,
    kit: Kit<L, B, P>,
    states: &[KeptState],
    telling: Telling,
    status: u8,
    line: &[u8],
) -> Outcome<D, L, B, P>
    requires some { IsSome kept }
    requires calm { IsCalm core.history }
    requires states { states.now ≡ kept_since core.opened }
    requires told { TellsFaults keeper.failed (D.faults (first_disk keeper)) (D.faults (disk_of keeper)) }
    requires status { status ≡ end_status keeper.failed }
    requires line { line.now ≡ status_line status }
    ensures performs { Performs (Same core.history) (Same core.history) Nothing result.kept (report_of telling (map (λ p. P.tells p) kit.participants)) core.opened (K.written sink.old) (K.written sink.new) (K.faults sink.old) (K.faults sink.new) result.status result.history }
    ensures fault { TellsDiskFault (D.faults (first_disk keeper)) (D.faults result.areas.disk) result.status }
    ensures history { result.history ≡ core.history }
    ensures kept { result.kept ≡ kept }
    ensures disk { result.areas.disk ≡ disk_of keeper }
    ensures kit { result.kit ≡ kit }
{
    match write_run(
        sink,
        alloc,
        &core,
        &kit.participants,
        states,
        telling,
        status,
        line,
    ) {
        Ok(()) => ended(core, keeper, kept, kit, status),
        Err(Unwritten::Fault) => ended(core, keeper, kept, kit, 4),
        Err(Unwritten::Memory) => ended(core, keeper, kept, kit, 8),
    }
}

/// Writes what was done before memory ended.
fn report_cut<K: Sink, D: Disk, L: Listener, B: Builder, P: Participant>(
    alloc: Global,
    sink: &mut K,
    core: Core<LayerTree>,
    keeper: Keeper<D>,
    kept: Kept,
    kit: Kit<L, B, P>,
    states: &[KeptState],
    telling: Telling,
) -> Outcome<D, L, B, P>
    requires some { IsSome kept }
    requires states { states.now ≡ kept_since core.opened }
    requires told { TellsFaults keeper.failed (D.faults (first_disk keeper)) (D.faults (disk_of keeper)) }
    ensures performs { Performs Nothing (Same core.history) (Same core.history) result.kept (report_of telling (map (λ p. P.tells p) kit.participants)) core.opened (K.written sink.old) (K.written sink.new) (K.faults sink.old) (K.faults sink.new) result.status result.history }
    ensures fault { TellsDiskFault (D.faults (first_disk keeper)) (D.faults result.areas.disk) result.status }
    ensures status { result.status ≡ 8 }
    ensures history { result.history ≡ core.history }
    ensures kept { result.kept ≡ kept }
    ensures disk { result.areas.disk ≡ disk_of keeper }
    ensures kit { result.kit ≡ kit }
{
    let _ = write_run(
        sink,
        alloc,
        &core,
        &kit.participants,
        states,
        telling,
        8,
        b"status 8\n",
    );
    ended(core, keeper, kept, kit, 8)
}

/// At each front of the history rules are apart, as of every workspace. Nothing is done.
fn keep_apart(core: &Core<LayerTree>)
    ensures { (n : ℕ) → IsApart atom_contains atom_conflicts (replay core.now.opened (take n core.now.history)).manager.passes.rules }
{
    let _ = core.history();
}

/// The state is let go.
fn let_go(state: State<LayerTree>) {
    drop(state);
}

/// What a run ends with.
fn ended<D: Disk, L: Listener, B: Builder, P: Participant>(
    core: Core<LayerTree>,
    keeper: Keeper<D>,
    kept: Kept,
    kit: Kit<L, B, P>,
    status: u8,
) -> Outcome<D, L, B, P>
    ensures status { result.status ≡ status }
    ensures thread { IsOneThread core.opened result.history }
    ensures history { result.history ≡ core.history }
    ensures kept { result.kept ≡ kept }
    ensures disk { result.areas.disk ≡ disk_of keeper }
    ensures kit { result.kit ≡ kit }
{
    keep_apart(&core);
    let (history, state) = core.into_history();
    let_go(state);
    let areas = Areas {
        disk: keeper.into_disk(),
    };
    Outcome {
        status,
        history,
        kept,
        areas,
        kit,
    }
}
