//! Puts and takes that note what was there before.
ghost use Rattle.std.specs.Prelude.{◌≡◌, true, false, if◌then◌else◌, IfOk, OnOk, OnErr, IsOk};
ghost use Rattle.std.specs.FinMap as map;
ghost use Rattle.ws_elem.specs.Rooms.{no_room, has_room, with_room};
ghost use Rattle.elem_tree.specs.Layers.{undone, with_before};
ghost use Rattle.elem_tree.specs.Inside.Slots.{IsReady, befores_of, is_known};

use crate::NoMemory;
use crate::newest::Newest;
use crate::notes::Notes;
use res_path::Path;
use std::alloc::Global;
use ws_elem::Element;

pub(crate) fn put_noted(
    notes: &mut Notes,
    newest: &mut Newest,
    path: Path,
    element: Element,
) -> Result<Option<Element>, NoMemory>
    requires ready { IsReady notes.old newest.old.map newest.old.room }
    ensures before { IfOk result (λ before. before ≡ map.get newest.old.map path) }
    ensures ok { OnOk result (newest.new.map ≡ map.insert newest.old.map path element) }
    ensures noted { OnOk result (befores_of notes.new ≡ with_before (befores_of notes.old) path (map.get newest.old.map path)) }
    ensures err { OnErr result ((newest.new.map ≡ newest.old.map) × (befores_of notes.new ≡ befores_of notes.old)) }
    ensures ready { IsReady notes.new newest.new.map newest.new.room }
    ensures room { newest.new.room ≡ newest.old.room }
    ensures never { has_room newest.old.room path ≡ true → IsOk result }
{
    if notes.is_known(&path) {
        put_known(notes, newest, path, element)
    } else {
        put_unknown(notes, newest, path, element)
    }
}

/// Puts at a path whose entry is known.
fn put_known(
    notes: &mut Notes,
    newest: &mut Newest,
    path: Path,
    element: Element,
) -> Result<Option<Element>, NoMemory>
    requires ready { IsReady notes.old newest.old.map newest.old.room }
    requires known { is_known (map.get notes.old path) ≡ true }
    ensures before { IfOk result (λ before. before ≡ map.get newest.old.map path) }
    ensures ok { OnOk result (newest.new.map ≡ map.insert newest.old.map path element) }
    ensures noted { OnOk result (befores_of notes.new ≡ with_before (befores_of notes.old) path (map.get newest.old.map path)) }
    ensures err { OnErr result ((newest.new.map ≡ newest.old.map) × (befores_of notes.new ≡ befores_of notes.old)) }
    ensures ready { IsReady notes.new newest.new.map newest.new.room }
    ensures room { newest.new.room ≡ newest.old.room }
    ensures never { has_room newest.old.room path ≡ true → IsOk result }
{
    notes.touch(&path);
    match newest.put(path, element) {
        Ok(before) => Ok(before),
        Err(wanted) => Err(wanted),
    }
}

/// Puts at a path whose entry isn't known, and which has no room then.
fn put_unknown(
    notes: &mut Notes,
    newest: &mut Newest,
    path: Path,
    element: Element,
) -> Result<Option<Element>, NoMemory>
    requires ready { IsReady notes.old newest.old.map newest.old.room }
    requires unknown { is_known (map.get notes.old path) ≡ false }
    ensures before { IfOk result (λ before. before ≡ map.get newest.old.map path) }
    ensures ok { OnOk result (newest.new.map ≡ map.insert newest.old.map path element) }
    ensures noted { OnOk result (befores_of notes.new ≡ with_before (befores_of notes.old) path (map.get newest.old.map path)) }
    ensures err { OnErr result ((newest.new.map ≡ newest.old.map) × (befores_of notes.new ≡ befores_of notes.old)) }
    ensures ready { IsReady notes.new newest.new.map newest.new.room }
    ensures room { newest.new.room ≡ newest.old.room }
{
    let at = path.copy()?;
    notes.note(&at, newest.elements().get(&at))?;
    match newest.put(path, element) {
        Ok(before) => {
            drop(at);
            Ok(before)
        }
        Err(wanted) => {
            take_back(notes, at);
            Err(wanted)
        }
    }
}

fn take_back(notes: &mut Notes, path: Path)
    ensures { notes.new ≡ map.remove notes.old path }
{
    notes.take(&path);
}

pub(crate) fn take_noted(
    notes: &mut Notes,
    newest: &mut Newest,
    path: &Path,
) -> Result<Option<Element>, NoMemory>
    requires ready { IsReady notes.old newest.old.map newest.old.room }
    ensures before { IfOk result (λ before. before ≡ map.get newest.old.map path.now) }
    ensures ok { OnOk result (newest.new.map ≡ map.remove newest.old.map path.now) }
    ensures noted { OnOk result (befores_of notes.new ≡ with_before (befores_of notes.old) path.now (map.get newest.old.map path.now)) }
    ensures err { OnErr result ((newest.new.map ≡ newest.old.map) × (befores_of notes.new ≡ befores_of notes.old)) }
    ensures ready { IsReady notes.new newest.new.map newest.new.room }
    ensures room { newest.new.room ≡ newest.old.room }
    ensures never { has_room newest.old.room path.now ≡ true → IsOk result }
{
    notes.note(path, newest.elements().get(path))?;
    Ok(newest.take(path))
}

pub(crate) fn make_room_noted(
    notes: &mut Notes,
    newest: &mut Newest,
    path: &Path,
) -> Result<(), NoMemory>
    requires ready { IsReady notes.old newest.old.map newest.old.room }
    ensures ready { IsReady notes.new newest.new.map newest.new.room }
    ensures noted { befores_of notes.new ≡ befores_of notes.old }
    ensures map { newest.new.map ≡ newest.old.map }
    ensures ok { OnOk result (newest.new.room ≡ with_room newest.old.room path.now) }
    ensures err { OnErr result (newest.new.room ≡ newest.old.room) }
{
    let is_new = notes.ready(path, newest.elements().get(path))?;
    match newest.make_room(path) {
        Ok(()) => Ok(()),
        Err(wanted) => {
            unready(notes, path, is_new);
            Err(wanted)
        }
    }
}

/// Takes the slot out again, where it is new.
fn unready(notes: &mut Notes, path: &Path, is_new: bool)
    ensures { notes.new ≡ (if is_new then map.remove notes.old path.now else notes.old) }
{
    if is_new {
        notes.take(path);
    }
}

pub(crate) fn drop_room_noted(notes: &mut Notes, newest: &mut Newest)
    requires ready { IsReady notes.old newest.old.map newest.old.room }
    ensures ready { IsReady notes.new newest.new.map newest.new.room }
    ensures noted { befores_of notes.new ≡ befores_of notes.old }
    ensures map { newest.new.map ≡ newest.old.map }
    ensures room { newest.new.room ≡ no_room }
{
    notes.close_all(newest.roomy());
    newest.drop_room();
}

/// The notes with which a layer begins: the entry of each path with room is ready.
pub(crate) fn ready_notes(alloc: Global, newest: &Newest) -> Result<Notes, NoMemory>
    ensures ready { IfOk result (λ notes. IsReady notes newest.now.map newest.now.room) }
    ensures none { IfOk result (λ notes. befores_of notes ≡ map.empty) }
{
    let mut notes = Notes::empty(alloc);
    let mut rest = newest.roomy();
    while let Some((path, others)) = rest.split_first() {
        notes.ready(path, newest.elements().get(path))?;
        rest = others;
    }
    Ok(notes)
}
