//! How operations are printed.
ghost use Rattle.std.specs.Prelude.{◌≡◌, ◌++◌, true, OnOk};
ghost use Rattle.script_words.specs.Words.{Grows, is_bare};
ghost use Rattle.script_ops.specs.Operations.{operation_parts, operation_text, want_word};
ghost use Rattle.script_parts.specs.Inside.Printed.{AreParts};
ghost use Rattle.op_kind.specs.declared.op.Op.TheVariants.{Mark, Attr, ClearMarks, Sync};

use crate::NoMemory;
use bytes::Bytes;
use mark_set::{RawAttrs, RawText, RawValue};
use op_kind::{Op, Want};
use res_path::{Name, Path};
use script_parts::{
    any_word, depth_word, name_word, path_word, put_attributes, put_created, put_four, put_next,
    put_number, put_set, put_three, put_two, switch_word, text_word,
};
use ws_elem::Depth;

/// Appends an operation's command as a script has it, without an end of line. After want of memory a part of it may
/// have been appended, and what stood there before stays in front.
pub fn put_operation(out: &mut Vec<u8>, op: &Op) -> Result<(), NoMemory>
    ensures text { OnOk result (out.new.items ≡ out.old.items ++ operation_text op.now) }
    ensures kept { Grows out.old.items out.new.items }
{
    put_doing(out, op)
}

/// The same as `put_operation`. Contracts learn that the words of its line stand for its parts.
pub fn put_doing(out: &mut Vec<u8>, op: &Op) -> Result<(), NoMemory>
    ensures text { OnOk result (out.new.items ≡ out.old.items ++ operation_text op.now) }
    ensures kept { Grows out.old.items out.new.items }
    ensures parts { OnOk result (AreParts (operation_parts op.now)) }
{
    match op {
        Op::CreateProject(path) => put_created(out, b"project", path_word(path)),
        Op::CreateFolder(path) => put_created(out, b"folder", path_word(path)),
        Op::CreateFile(path, bytes) => {
            put_created(out, b"file", path_word(path))?;
            put_next(out, any_word(bytes))
        }
        Op::Delete(path) => put_two(out, b"delete", path_word(path)),
        Op::Write(path, bytes) => put_three(out, b"write", path_word(path), any_word(bytes)),
        Op::Touch(path) => put_two(out, b"touch", path_word(path)),
        Op::Derived(path, derived) => {
            put_three(out, b"derived", path_word(path), switch_word(*derived))
        }
        Op::Move(path, to) => put_three(out, b"move", path_word(path), path_word(to)),
        Op::Copy(path, to) => put_three(out, b"copy", path_word(path), path_word(to)),
        Op::Open(path) => put_two(out, b"open", path_word(path)),
        Op::Close(path) => put_two(out, b"close", path_word(path)),
        Op::Describe(path, text) => put_three(out, b"describe", path_word(path), any_word(text)),
        Op::Forget(path) => put_two(out, b"forget", path_word(path)),
        Op::Mark(path, kind, attributes) => put_mark(out, path, kind, attributes),
        Op::Attr(path, id, name, value) => put_attr(out, path, *id, name, value),
        Op::Unmark(path, id) => {
            put_two(out, b"unmark", path_word(path))?;
            put_number(out, *id)
        }
        Op::ClearMarks(path, kind, depth) => put_clear_marks(out, path, kind, *depth),
        Op::Partner(name) => put_two(out, b"partner", name_word(name)),
        Op::Sync(path, name, bytes) => put_sync(out, path, name, bytes),
        Op::Flush(path, name, depth) => put_four(
            out,
            b"flush",
            path_word(path),
            name_word(name),
            depth_word(*depth),
        ),
        Op::Read(path, want) => put_two(out, want_word(*want), path_word(path)),
    }
}

fn put_mark(
    out: &mut Vec<u8>,
    path: &Path,
    kind: &RawText,
    attributes: &RawAttrs,
) -> Result<(), NoMemory>
    ensures text { OnOk result (out.new.items ≡ out.old.items ++ operation_text (Mark path.now kind.now attributes.now)) }
    ensures kept { Grows out.old.items out.new.items }
    ensures parts { OnOk result (AreParts (operation_parts (Mark path.now kind.now attributes.now))) }
{
    put_three(out, b"mark", path_word(path), text_word(kind))?;
    put_attributes(out, attributes.as_slice())?;
    Ok(())
}

fn put_attr(
    out: &mut Vec<u8>,
    path: &Path,
    id: u64,
    name: &RawText,
    value: &Option<RawValue>,
) -> Result<(), NoMemory>
    ensures text { OnOk result (out.new.items ≡ out.old.items ++ operation_text (Attr path.now id name.now value.now)) }
    ensures kept { Grows out.old.items out.new.items }
    ensures parts { OnOk result (AreParts (operation_parts (Attr path.now id name.now value.now))) }
{
    put_two(out, b"attr", path_word(path))?;
    put_number(out, id)?;
    put_next(out, text_word(name))?;
    put_set(out, value)?;
    Ok(())
}

fn put_clear_marks(
    out: &mut Vec<u8>,
    path: &Path,
    kind: &RawText,
    depth: Depth,
) -> Result<(), NoMemory>
    ensures text { OnOk result (out.new.items ≡ out.old.items ++ operation_text (ClearMarks path.now kind.now depth)) }
    ensures kept { Grows out.old.items out.new.items }
    ensures parts { OnOk result (AreParts (operation_parts (ClearMarks path.now kind.now depth))) }
{
    put_four(
        out,
        b"clearmarks",
        path_word(path),
        text_word(kind),
        depth_word(depth),
    )?;
    Ok(())
}

fn put_sync(
    out: &mut Vec<u8>,
    path: &Path,
    name: &Name,
    bytes: &Option<Bytes>,
) -> Result<(), NoMemory>
    ensures text { OnOk result (out.new.items ≡ out.old.items ++ operation_text (Sync path.now name.now bytes.now)) }
    ensures kept { Grows out.old.items out.new.items }
    ensures parts { OnOk result (AreParts (operation_parts (Sync path.now name.now bytes.now))) }
{
    match bytes {
        None => put_three(out, b"nosync", path_word(path), name_word(name)),
        Some(bytes) => put_four(
            out,
            b"sync",
            path_word(path),
            name_word(name),
            any_word(bytes),
        ),
    }
}

fn want_word(want: Want) -> &'static [u8]
    ensures word { result.now ≡ want_word want }
    ensures bare { is_bare result.now ≡ true }
{
    match want {
        Want::Show => b"show",
        Want::Cat => b"cat",
        Want::Tree => b"tree",
        Want::Digest => b"digest",
    }
}
