// The store of a run.
ghost use Rattle.std.specs.Prelude.{◌≡◌, [], false};
ghost use Rattle.ws_durable.specs.Saved.{saved};
ghost use Rattle.save_format.specs.Valid.{Valid};
ghost use Rattle.save_store.specs.Stored.{IsNarrow, IsStored};
ghost use Rattle.ws_core.specs.Sessions.{Session};
ghost use Rattle.save_history.specs.Points.{IsAsked};
ghost use Rattle.save_history.specs.Kept.{IsKept, IsTried, disk_of, points_at};
ghost use Rattle.save_host.specs.Inside.Writes.{IsWritten, failed_after, write_of};

use save_kind::SaveKind;
use save_run::WriteFault;
use save_store::{SaveFault, Store};
use std::alloc::Global;
use std::marker::Model;
use std::snapshot::Snapshot;
use ws_durable::Durable;
use ws_outside::Disk;

/// The store of a run, which knows how it was opened, and whether a call on the disk failed since then. A contract sees
/// the store as it was opened and as it is.
#[derive(Drop)]
pub struct Keeper<D: Disk> {
    store: Store<D>,
    began: Snapshot<Store<D>>,
    failed: bool,
}

impl<D: Disk> Model for Keeper<D> {
    ghost use Rattle.std.specs.Coded.{codes};
    ghost use Rattle.ws_durable.specs.contracts.durable.Durable as durable;
    ghost use Rattle.save_history.specs.Kept.{Keeper as Keeping};

    ghost Value = { Keeping D };

    ghost coded = { Prim.hlevel (codes, durable.the_row.coded) };

    ghost view = { λ k. record { began = k.began.value; store = k.store; failed = k.failed } };
}

impl<D: Disk> Keeper<D> {
    /// The keeper of a store that was just opened: before anything is done each crash image holds the one point, the state
    /// to which it was opened.
    pub fn of(store: Store<D>) -> Keeper<D>
        ensures keeper { result ≡ record { began = store; store = store; failed = false } }
        ensures kept { (x : Session) → x.history ≡ [] → IsStored D.may_leave [] store → IsKept D.moment D.left_since D.may_leave D.faults x result }
    {
        let began = Snapshot::of(&store);
        Keeper {
            store,
            began,
            failed: false,
        }
    }

    /// Whether a call on the disk failed in a save.
    pub fn has_failed(&self) -> bool
        ensures { result ≡ self.now.failed }
    {
        self.failed
    }

    /// The disk.
    pub fn into_disk(self) -> D
        ensures { result ≡ disk_of self }
    {
        let Keeper {
            store,
            began: _,
            failed: _,
        } = self;
        store.into_disk()
    }

    /// Writes what is kept of a workspace as a save of the kind. Its faults are those of the store, which can be used after
    /// them: Disk exactly where the disk's count of faults rose in this call.
    pub fn write(&mut self, alloc: Global, kind: SaveKind, now: &Durable) -> Result<(), WriteFault>
        requires { IsNarrow now.now → Valid (saved now.now) }
        ensures began { self.new.began ≡ self.old.began }
        ensures tried { (x : Session) → IsAsked (points_at x self.old) (saved now.now) → IsKept D.moment D.left_since D.may_leave D.faults x self.old
            → IsTried D.moment D.left_since D.may_leave D.faults result x self.new }
    {
        let written = write(&mut self.store, alloc, kind, now);
        self.failed = has_failed(self.failed, &written);
        told(written)
    }
}

/// Writes a state as a save of the kind.
fn write<D: Disk>(
    store: &mut Store<D>,
    alloc: Global,
    kind: SaveKind,
    now: &Durable,
) -> Result<(), SaveFault>
    requires { IsNarrow now.now → Valid (saved now.now) }
    ensures { IsWritten D.moment D.left_since D.may_leave D.faults now.now result store.old store.new }
{
    match kind {
        SaveKind::Full => store.full(alloc, now),
        SaveKind::Snapshot => store.snapshot(alloc, now),
    }
}

/// Whether a call on the disk failed before this, or in it.
fn has_failed(before: bool, written: &Result<(), SaveFault>) -> bool
    ensures { result ≡ failed_after before written.now }
{
    match written {
        Err(SaveFault::Disk) => true,
        Err(SaveFault::TooLarge | SaveFault::NumbersUsed | SaveFault::Memory) | Ok(()) => before,
    }
}

/// The same result, as saves have it.
fn told(written: Result<(), SaveFault>) -> Result<(), WriteFault>
    ensures { result ≡ write_of written }
{
    match written {
        Ok(()) => Ok(()),
        Err(SaveFault::Disk) => Err(WriteFault::Disk),
        Err(SaveFault::TooLarge) => Err(WriteFault::TooLarge),
        Err(SaveFault::NumbersUsed) => Err(WriteFault::NumbersUsed),
        Err(SaveFault::Memory) => Err(WriteFault::Memory),
    }
}
