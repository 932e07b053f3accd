//! Equal operations. Each kind is copied by a function of its own: one function that copied all of them would clear the
//! temporaries of all when it is entered.
ghost use Rattle.std.specs.Prelude.{◌≡◌, IfOk};

use crate::{NoMemory, Op, Want};
use bytes::Bytes;
use mark_set::{RawAttrs, RawText, RawValue};
use res_path::{Name, Path};
use ws_elem::Depth;

impl Op {
    /// An equal operation, which shares its texts.
    pub fn copy(&self) -> Result<Op, NoMemory>
        ensures { IfOk result (λ copy. copy ≡ self.now) }
    {
        match self {
            Op::CreateFile(path, bytes) => create_file(path, bytes),
            Op::CreateFolder(path) => create_folder(path),
            Op::CreateProject(path) => create_project(path),
            Op::Delete(path) => delete(path),
            Op::Write(path, bytes) => write(path, bytes),
            Op::Touch(path) => touch(path),
            Op::Derived(path, on) => derived(path, *on),
            Op::Move(from, to) => move_to(from, to),
            Op::Copy(from, to) => copy_to(from, to),
            Op::Open(path) => open(path),
            Op::Close(path) => close(path),
            Op::Describe(path, text) => describe(path, text),
            Op::Forget(path) => forget(path),
            Op::Mark(path, mark_type, attrs) => mark(path, mark_type, attrs),
            Op::Attr(path, id, name, value) => attr(path, *id, name, value),
            Op::Unmark(path, id) => unmark(path, *id),
            Op::ClearMarks(path, mark_type, depth) => clear_marks(path, mark_type, *depth),
            Op::Partner(name) => partner(name),
            Op::Sync(path, name, bytes) => sync(path, name, bytes),
            Op::Flush(path, name, depth) => flush(path, name, *depth),
            Op::Read(path, want) => read(path, *want),
        }
    }
}

impl Clone for Op {
    ghost is_clone = { λ op copy. copy ≡ op };

    fn clone(&self) -> Result<Op, NoMemory> {
        self.copy()
    }
}

fn create_file(path: &Path, bytes: &Bytes) -> Result<Op, NoMemory>
    ensures { IfOk result (λ copy. copy ≡ Op.CreateFile path.now bytes.now) }
{
    Ok(Op::CreateFile(path.copy()?, bytes.clone()?))
}

fn create_folder(path: &Path) -> Result<Op, NoMemory>
    ensures { IfOk result (λ copy. copy ≡ Op.CreateFolder path.now) }
{
    Ok(Op::CreateFolder(path.copy()?))
}

fn create_project(path: &Path) -> Result<Op, NoMemory>
    ensures { IfOk result (λ copy. copy ≡ Op.CreateProject path.now) }
{
    Ok(Op::CreateProject(path.copy()?))
}

fn delete(path: &Path) -> Result<Op, NoMemory>
    ensures { IfOk result (λ copy. copy ≡ Op.Delete path.now) }
{
    Ok(Op::Delete(path.copy()?))
}

fn write(path: &Path, bytes: &Bytes) -> Result<Op, NoMemory>
    ensures { IfOk result (λ copy. copy ≡ Op.Write path.now bytes.now) }
{
    Ok(Op::Write(path.copy()?, bytes.clone()?))
}

fn touch(path: &Path) -> Result<Op, NoMemory>
    ensures { IfOk result (λ copy. copy ≡ Op.Touch path.now) }
{
    Ok(Op::Touch(path.copy()?))
}

fn derived(path: &Path, on: bool) -> Result<Op, NoMemory>
    ensures { IfOk result (λ copy. copy ≡ Op.Derived path.now on) }
{
    Ok(Op::Derived(path.copy()?, on))
}

fn move_to(from: &Path, to: &Path) -> Result<Op, NoMemory>
    ensures { IfOk result (λ copy. copy ≡ Op.Move from.now to.now) }
{
    Ok(Op::Move(from.copy()?, to.copy()?))
}

fn copy_to(from: &Path, to: &Path) -> Result<Op, NoMemory>
    ensures { IfOk result (λ copy. copy ≡ Op.Copy from.now to.now) }
{
    Ok(Op::Copy(from.copy()?, to.copy()?))
}

fn open(path: &Path) -> Result<Op, NoMemory>
    ensures { IfOk result (λ copy. copy ≡ Op.Open path.now) }
{
    Ok(Op::Open(path.copy()?))
}

fn close(path: &Path) -> Result<Op, NoMemory>
    ensures { IfOk result (λ copy. copy ≡ Op.Close path.now) }
{
    Ok(Op::Close(path.copy()?))
}

fn describe(path: &Path, text: &Bytes) -> Result<Op, NoMemory>
    ensures { IfOk result (λ copy. copy ≡ Op.Describe path.now text.now) }
{
    Ok(Op::Describe(path.copy()?, text.clone()?))
}

fn forget(path: &Path) -> Result<Op, NoMemory>
    ensures { IfOk result (λ copy. copy ≡ Op.Forget path.now) }
{
    Ok(Op::Forget(path.copy()?))
}

fn mark(path: &Path, mark_type: &RawText, attrs: &RawAttrs) -> Result<Op, NoMemory>
    ensures { IfOk result (λ copy. copy ≡ Op.Mark path.now mark_type.now attrs.now) }
{
    Ok(Op::Mark(path.copy()?, mark_type.copy()?, attrs.copy()?))
}

fn attr(path: &Path, id: u64, name: &RawText, value: &Option<RawValue>) -> Result<Op, NoMemory>
    ensures { IfOk result (λ copy. copy ≡ Op.Attr path.now id name.now value.now) }
{
    Ok(Op::Attr(path.copy()?, id, name.copy()?, value.clone()?))
}

fn unmark(path: &Path, id: u64) -> Result<Op, NoMemory>
    ensures { IfOk result (λ copy. copy ≡ Op.Unmark path.now id) }
{
    Ok(Op::Unmark(path.copy()?, id))
}

fn clear_marks(path: &Path, mark_type: &RawText, depth: Depth) -> Result<Op, NoMemory>
    ensures { IfOk result (λ copy. copy ≡ Op.ClearMarks path.now mark_type.now depth) }
{
    Ok(Op::ClearMarks(path.copy()?, mark_type.copy()?, depth))
}

fn partner(name: &Name) -> Result<Op, NoMemory>
    ensures { IfOk result (λ copy. copy ≡ Op.Partner name.now) }
{
    Ok(Op::Partner(name.copy()?))
}

fn sync(path: &Path, name: &Name, bytes: &Option<Bytes>) -> Result<Op, NoMemory>
    ensures { IfOk result (λ copy. copy ≡ Op.Sync path.now name.now bytes.now) }
{
    Ok(Op::Sync(path.copy()?, name.copy()?, bytes.clone()?))
}

fn flush(path: &Path, name: &Name, depth: Depth) -> Result<Op, NoMemory>
    ensures { IfOk result (λ copy. copy ≡ Op.Flush path.now name.now depth) }
{
    Ok(Op::Flush(path.copy()?, name.copy()?, depth))
}

fn read(path: &Path, want: Want) -> Result<Op, NoMemory>
    ensures { IfOk result (λ copy. copy ≡ Op.Read path.now want) }
{
    Ok(Op::Read(path.copy()?, want))
}
