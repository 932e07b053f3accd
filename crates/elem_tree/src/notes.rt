//! What a layer keeps of some paths.
ghost use Rattle.std.specs.Prelude.{◌≡◌, is_some, not, true, IfOk, OnOk, OnErr, IfSome, IfNone, IsOk, IsSome, Some};
ghost use Rattle.std.specs.Option.{option_copied, option_map};
ghost use Rattle.std.specs.FinMap as map;
ghost use Rattle.res_path.specs.Paths.{Names};
ghost use Rattle.elem_tree.specs.Inside.Slots.{note_in, is_known, touched, touched_at, noted_at, readied_at, closed_at, closed_all, spared_at};
ghost use Rattle.elem_tree.specs.Inside.Joins.{IsSpared};
ghost use Rattle.elem_tree.specs.Inside.Entries.{SetsAt, found};

use crate::NoMemory;
use crate::slot::{Slot, copied};
use res_path::Path;
use std::alloc::Global;
use std::collections::BTreeMap;
use std::collections::btree_map::Iter;
use std::marker::Model;
use ws_elem::Element;

/// A slot for each of some paths. A contract sees the finite map.
#[derive(Debug, Drop)]
pub(crate) struct Notes {
    slots: BTreeMap<Path, Slot>,
}

impl Model for Notes {
    ghost use Rattle.std.specs.FinMap as map;
    ghost use Rattle.ws_elem.specs.RoomyTrees.{names_code};
    ghost use Rattle.elem_tree.specs.Inside.Slots.{Slots};
    ghost use Rattle.elem_tree.specs.contracts.slot.Slot as slot;

    ghost Value = { Slots };

    ghost coded = { map.code names_code slot.the_row.coded };

    ghost view = { λ notes. map.from_entries notes.slots.entries };
}

impl Notes {
    /// No slots. It takes no memory.
    pub(crate) fn empty(alloc: Global) -> Notes
        ensures { result ≡ map.empty }
    {
        Notes {
            slots: BTreeMap::new(alloc),
        }
    }

    pub(crate) fn len(&self) -> usize
        ensures { result ≡ map.len self.now }
    {
        self.slots.len()
    }

    fn get(&self, path: &Path) -> Option<&Slot>
        ensures { option_copied result ≡ map.get self.now path.now }
    {
        self.slots.get(path)
    }

    /// Whether the path's entry before is known, noted or ready.
    pub(crate) fn is_known(&self, path: &Path) -> bool
        ensures { result ≡ is_known (map.get self.now path.now) }
    {
        match self.get(path) {
            Some(Slot::Spare) | None => false,
            Some(_) => true,
        }
    }

    /// Whether the path's entry before is noted.
    pub(crate) fn is_noted(&self, path: &Path) -> bool
        ensures { result ≡ is_some (note_in (map.get self.now path.now)) }
    {
        match self.get(path) {
            Some(slot) => slot.is_noted(),
            None => false,
        }
    }

    /// The slots in path order.
    pub(crate) fn iter(&self) -> Iter<'_, Path, Slot>
        ensures { result ≡ map.entries self.now }
    {
        self.slots.iter()
    }

    fn put(&mut self, path: Path, slot: Slot) -> Result<(), NoMemory>
        ensures ok { OnOk result (self.new ≡ map.insert self.old path slot) }
        ensures err { OnErr result (self.new ≡ self.old) }
    {
        self.slots.insert(path, slot)?;
        Ok(())
    }

    /// Puts the slot in the place of the path's own. It takes no memory.
    pub(crate) fn set(&mut self, path: &Path, slot: Slot)
        requires { IsSome (map.get self.old path.now) }
        ensures { self.new ≡ map.insert self.old path.now slot }
    {
        fill_slot(&mut self.slots, path, slot);
    }

    /// Something is put or taken at a path whose entry is known. It takes no memory.
    pub(crate) fn touch(&mut self, path: &Path)
        requires { is_known (map.get self.old path.now) ≡ true }
        ensures { self.new ≡ touched_at self.old path.now }
    {
        touch_slot(&mut self.slots, path);
    }

    pub(crate) fn take(&mut self, path: &Path)
        ensures { self.new ≡ map.remove self.old path.now }
    {
        self.slots.remove(path);
    }

    /// Takes the first slot out, with its path.
    pub(crate) fn pop(&mut self) -> Option<(Path, Slot)>
        ensures first { IfSome result (λ e. map.get self.old e.0 ≡ Some e.1) }
        ensures gone { IfSome result (λ e. self.new ≡ map.remove self.old e.0) }
        ensures none { IfNone result (self.old ≡ map.empty) }
    {
        self.slots.pop_first()
    }

    /// Notes the path's entry, unless it is known: then that is the one before.
    pub(crate) fn note(&mut self, path: &Path, entry: Option<&Element>) -> Result<(), NoMemory>
        ensures ok { OnOk result (self.new ≡ noted_at self.old path.now (option_copied entry.entry)) }
        ensures err { OnErr result (self.new ≡ self.old) }
        ensures never { is_known (map.get self.old path.now) ≡ true → IsOk result }
    {
        if self.is_known(path) {
            self.touch(path);
            return Ok(());
        }
        self.put(path.copy()?, Slot::Noted(copied(entry)?))
    }

    /// Makes the path's entry ready, unless it is known. Whether it wasn't known.
    pub(crate) fn ready(&mut self, path: &Path, entry: Option<&Element>) -> Result<bool, NoMemory>
        ensures answer { IfOk result (λ is_new. is_new ≡ not (is_known (map.get self.old path.now))) }
        ensures ok { OnOk result (self.new ≡ readied_at self.old path.now (option_copied entry.entry)) }
        ensures err { OnErr result (self.new ≡ self.old) }
    {
        if self.is_known(path) {
            return Ok(false);
        }
        self.put(path.copy()?, Slot::Ready(copied(entry)?))?;
        Ok(true)
    }

    /// Removes the slots of these paths whose entries are ready. It takes no memory.
    pub(crate) fn close_all(&mut self, paths: &[Path])
        ensures { self.new ≡ closed_all self.old paths.now }
    {
        for path in paths {
            self.close(path);
        }
    }

    fn close(&mut self, path: &Path)
        ensures { self.new ≡ closed_at self.old path.now }
    {
        if self.is_known(path) && !self.is_noted(path) {
            self.take(path);
        }
    }

    /// Gives each path of the others a slot. Where memory wants some may have none.
    pub(crate) fn make_slots(&mut self, others: &Notes) -> Result<(), NoMemory>
        ensures spared { IsSpared self.old self.new }
        ensures ok { OnOk result ((p : Names) → IsSome (map.get others.now p) → IsSome (map.get self.new p)) }
    {
        for (path, _) in others.iter() {
            self.make_slot(path)?;
        }
        Ok(())
    }

    fn make_slot(&mut self, path: &Path) -> Result<(), NoMemory>
        ensures ok { OnOk result (self.new ≡ spared_at self.old path.now) }
        ensures err { OnErr result (self.new ≡ self.old) }
    {
        if self.get(path).is_some() {
            return Ok(());
        }
        self.put(path.copy()?, Slot::Spare)
    }
}

/// Puts the slot in the place of the path's own.
fn fill_slot(slots: &mut BTreeMap<Path, Slot>, path: &Path, slot: Slot)
    requires { IsSome (found slots.old.entries path.now) }
    ensures { SetsAt slots.old.entries slots.new.entries path.now (Some slot) }
{
    match slots.get_mut(path) {
        Some(place) => place.turn_into(slot),
        None => drop(slot),
    }
}

/// Something is put or taken at the path.
fn touch_slot(slots: &mut BTreeMap<Path, Slot>, path: &Path)
    requires { IsSome (found slots.old.entries path.now) }
    ensures { SetsAt slots.old.entries slots.new.entries path.now (option_map touched (found slots.old.entries path.now)) }
{
    if let Some(slot) = slots.get_mut(path) {
        slot.touch();
    }
}
