//! Which operation the words of a line are.
ghost use Rattle.std.specs.Prelude.{◌≢◌, ◌∷◌, codes, IfOk};
ghost use Rattle.script_parts.specs.Parts.{keyword, FitsPart};
ghost use Rattle.script_ops.specs.Operations.{operation_parts};
ghost use Rattle.script_parts.specs.Inside.Found.{IsFound};
ghost use Rattle.script_ops.specs.Inside.Verbs.{begun_with};

use crate::NoMemory;
use crate::verb::Verb;
use op_kind::{Op, Want};
use script_parts::{
    is_key, name_alone, path_alone, path_and_bytes, path_and_id, path_and_name, path_and_switch,
    path_id_change, path_kind_attributes, path_kind_depth, path_name_bytes, path_name_depth,
    two_paths,
};
use script_words::Token;
use std::alloc::Global;

/// The operation whose line begins with the verb and goes on with these tokens.
pub fn operation_with(alloc: Global, verb: Verb, rest: &mut [Token]) -> Result<Option<Op>, NoMemory>
    ensures { IfOk result (IsFound operation_parts (begun_with verb rest.old)) }
{
    match verb {
        Verb::Mark => marked(alloc, rest),
        Verb::Attr => set(alloc, rest),
        Verb::ClearMarks => cleared(alloc, rest),
        _ => Ok(plain_operation(verb, rest)),
    }
}

/// The operation whose line begins so, where it is one of those whose texts aren't copied.
fn plain_operation(verb: Verb, rest: &mut [Token]) -> Option<Op>
    requires mark { verb ≢ Verb.Mark }
    requires attr { verb ≢ Verb.Attr }
    requires clear_marks { verb ≢ Verb.ClearMarks }
    ensures { IsFound operation_parts (begun_with verb rest.old) result }
{
    match verb {
        Verb::Create => created(rest),
        Verb::Delete => deleted(rest),
        Verb::Write => written(rest),
        Verb::Touch => touched(rest),
        Verb::Derived => derived(rest),
        Verb::Move => moved(rest),
        Verb::Copy => copied(rest),
        Verb::Open => opened(rest),
        Verb::Close => closed(rest),
        Verb::Describe => described(rest),
        Verb::Forget => forgotten(rest),
        Verb::Unmark => unmarked(rest),
        Verb::Partner => registered(rest),
        Verb::Sync => synchronised(rest),
        Verb::NoSync => unsynchronised(rest),
        Verb::Flush => flushed(rest),
        Verb::Show => shown(rest),
        Verb::Cat => told(rest),
        Verb::Tree => listed(rest),
        Verb::Digest => digested(rest),
        _ => None,
    }
}

fn created(rest: &mut [Token]) -> Option<Op>
    ensures { IsFound operation_parts (begun_with Verb.Create rest.old) result }
{
    let [kind, more @ ..] = rest else {
        return None;
    };
    if is_key(kind, b"project") {
        return project(kind, more);
    }
    if is_key(kind, b"folder") {
        return folder(kind, more);
    }
    if is_key(kind, b"file") {
        return file(kind, more);
    }
    None
}

fn project(kind: &Token, rest: &mut [Token]) -> Option<Op>
    requires { FitsPart kind.now (keyword (codes "project")) }
    ensures { IsFound operation_parts (begun_with Verb.Create (kind.now ∷ rest.old)) result }
{
    match path_alone(rest) {
        None => None,
        Some(path) => Some(Op::CreateProject(path)),
    }
}

fn folder(kind: &Token, rest: &mut [Token]) -> Option<Op>
    requires { FitsPart kind.now (keyword (codes "folder")) }
    ensures { IsFound operation_parts (begun_with Verb.Create (kind.now ∷ rest.old)) result }
{
    match path_alone(rest) {
        None => None,
        Some(path) => Some(Op::CreateFolder(path)),
    }
}

fn file(kind: &Token, rest: &mut [Token]) -> Option<Op>
    requires { FitsPart kind.now (keyword (codes "file")) }
    ensures { IsFound operation_parts (begun_with Verb.Create (kind.now ∷ rest.old)) result }
{
    match path_and_bytes(rest) {
        None => None,
        Some((path, bytes)) => Some(Op::CreateFile(path, bytes)),
    }
}

fn deleted(rest: &mut [Token]) -> Option<Op>
    ensures { IsFound operation_parts (begun_with Verb.Delete rest.old) result }
{
    match path_alone(rest) {
        None => None,
        Some(path) => Some(Op::Delete(path)),
    }
}

fn touched(rest: &mut [Token]) -> Option<Op>
    ensures { IsFound operation_parts (begun_with Verb.Touch rest.old) result }
{
    match path_alone(rest) {
        None => None,
        Some(path) => Some(Op::Touch(path)),
    }
}

fn opened(rest: &mut [Token]) -> Option<Op>
    ensures { IsFound operation_parts (begun_with Verb.Open rest.old) result }
{
    match path_alone(rest) {
        None => None,
        Some(path) => Some(Op::Open(path)),
    }
}

fn closed(rest: &mut [Token]) -> Option<Op>
    ensures { IsFound operation_parts (begun_with Verb.Close rest.old) result }
{
    match path_alone(rest) {
        None => None,
        Some(path) => Some(Op::Close(path)),
    }
}

fn forgotten(rest: &mut [Token]) -> Option<Op>
    ensures { IsFound operation_parts (begun_with Verb.Forget rest.old) result }
{
    match path_alone(rest) {
        None => None,
        Some(path) => Some(Op::Forget(path)),
    }
}

fn shown(rest: &mut [Token]) -> Option<Op>
    ensures { IsFound operation_parts (begun_with Verb.Show rest.old) result }
{
    match path_alone(rest) {
        None => None,
        Some(path) => Some(Op::Read(path, Want::Show)),
    }
}

fn told(rest: &mut [Token]) -> Option<Op>
    ensures { IsFound operation_parts (begun_with Verb.Cat rest.old) result }
{
    match path_alone(rest) {
        None => None,
        Some(path) => Some(Op::Read(path, Want::Cat)),
    }
}

fn listed(rest: &mut [Token]) -> Option<Op>
    ensures { IsFound operation_parts (begun_with Verb.Tree rest.old) result }
{
    match path_alone(rest) {
        None => None,
        Some(path) => Some(Op::Read(path, Want::Tree)),
    }
}

fn digested(rest: &mut [Token]) -> Option<Op>
    ensures { IsFound operation_parts (begun_with Verb.Digest rest.old) result }
{
    match path_alone(rest) {
        None => None,
        Some(path) => Some(Op::Read(path, Want::Digest)),
    }
}

fn written(rest: &mut [Token]) -> Option<Op>
    ensures { IsFound operation_parts (begun_with Verb.Write rest.old) result }
{
    match path_and_bytes(rest) {
        None => None,
        Some((path, bytes)) => Some(Op::Write(path, bytes)),
    }
}

fn described(rest: &mut [Token]) -> Option<Op>
    ensures { IsFound operation_parts (begun_with Verb.Describe rest.old) result }
{
    match path_and_bytes(rest) {
        None => None,
        Some((path, text)) => Some(Op::Describe(path, text)),
    }
}

fn moved(rest: &mut [Token]) -> Option<Op>
    ensures { IsFound operation_parts (begun_with Verb.Move rest.old) result }
{
    match two_paths(rest) {
        None => None,
        Some((path, to)) => Some(Op::Move(path, to)),
    }
}

fn copied(rest: &mut [Token]) -> Option<Op>
    ensures { IsFound operation_parts (begun_with Verb.Copy rest.old) result }
{
    match two_paths(rest) {
        None => None,
        Some((path, to)) => Some(Op::Copy(path, to)),
    }
}

fn derived(rest: &mut [Token]) -> Option<Op>
    ensures { IsFound operation_parts (begun_with Verb.Derived rest.old) result }
{
    match path_and_switch(rest) {
        None => None,
        Some((path, derived)) => Some(Op::Derived(path, derived)),
    }
}

fn marked(alloc: Global, rest: &[Token]) -> Result<Option<Op>, NoMemory>
    ensures { IfOk result (IsFound operation_parts (begun_with Verb.Mark rest.now)) }
{
    match path_kind_attributes(alloc, rest)? {
        None => Ok(None),
        Some((path, kind, attributes)) => Ok(Some(Op::Mark(path, kind, attributes))),
    }
}

fn set(alloc: Global, rest: &[Token]) -> Result<Option<Op>, NoMemory>
    ensures { IfOk result (IsFound operation_parts (begun_with Verb.Attr rest.now)) }
{
    match path_id_change(alloc, rest)? {
        None => Ok(None),
        Some((path, id, (name, value))) => Ok(Some(Op::Attr(path, id, name, value))),
    }
}

fn unmarked(rest: &mut [Token]) -> Option<Op>
    ensures { IsFound operation_parts (begun_with Verb.Unmark rest.old) result }
{
    match path_and_id(rest) {
        None => None,
        Some((path, id)) => Some(Op::Unmark(path, id)),
    }
}

fn cleared(alloc: Global, rest: &[Token]) -> Result<Option<Op>, NoMemory>
    ensures { IfOk result (IsFound operation_parts (begun_with Verb.ClearMarks rest.now)) }
{
    match path_kind_depth(alloc, rest)? {
        None => Ok(None),
        Some((path, kind, depth)) => Ok(Some(Op::ClearMarks(path, kind, depth))),
    }
}

fn registered(rest: &mut [Token]) -> Option<Op>
    ensures { IsFound operation_parts (begun_with Verb.Partner rest.old) result }
{
    match name_alone(rest) {
        None => None,
        Some(name) => Some(Op::Partner(name)),
    }
}

fn synchronised(rest: &mut [Token]) -> Option<Op>
    ensures { IsFound operation_parts (begun_with Verb.Sync rest.old) result }
{
    match path_name_bytes(rest) {
        None => None,
        Some((path, name, bytes)) => Some(Op::Sync(path, name, Some(bytes))),
    }
}

fn unsynchronised(rest: &mut [Token]) -> Option<Op>
    ensures { IsFound operation_parts (begun_with Verb.NoSync rest.old) result }
{
    match path_and_name(rest) {
        None => None,
        Some((path, name)) => Some(Op::Sync(path, name, None)),
    }
}

fn flushed(rest: &mut [Token]) -> Option<Op>
    ensures { IsFound operation_parts (begun_with Verb.Flush rest.old) result }
{
    match path_name_depth(rest) {
        None => None,
        Some((path, name, depth)) => Some(Op::Flush(path, name, depth)),
    }
}
