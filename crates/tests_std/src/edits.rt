//! Edits and problems as they are told: of each edit its path from the output, in path order, with the file that is put
//! there, or a dash where one is removed; after a semicolon of each problem its four parts.
use crate::rows::Row;
use crate::views::{OUTPUT, command_of, files_of, handed_of, path};
use builder_api::{Builder, Edits, Problem};
use bytes::Bytes;
use res_path::{NoMemory, Path};
use std::alloc::{AllocError, Global};
use std::collections::BTreeMap;

pub fn put(out: &mut String, text: &str) -> Result<(), NoMemory> {
    out.push_str(text)?;
    Ok(())
}

fn put_bytes(out: &mut String, bytes: &[u8]) -> Result<(), NoMemory> {
    for byte in bytes {
        match *byte {
            10 => out.push('+')?,
            b' ' => out.push('~')?,
            255 => out.push('!')?,
            byte => out.push(char::from(byte))?,
        }
    }
    Ok(())
}

/// A file, as it is written in rows.
pub fn put_file(out: &mut String, path: &Path, bytes: &Bytes) -> Result<(), NoMemory> {
    put(out, path.as_str())?;
    put(out, "=")?;
    put_bytes(out, bytes.as_slice())?;
    put(out, " ")
}

fn put_edit(out: &mut String, path: &Path, edit: Option<&Bytes>) -> Result<(), NoMemory> {
    match edit {
        Some(bytes) => put_file(out, path, bytes),
        None => {
            put(out, path.as_str())?;
            put(out, "- ")
        }
    }
}

fn put_problem(alloc: Global, out: &mut String, problem: &Problem) -> Result<(), NoMemory> {
    let line = problem.line;
    let severity = problem.severity;
    put(out, problem.location.as_str())?;
    put(out, format!(in alloc; " {line} {severity} ")?.as_str())?;
    put(out, problem.message.text())?;
    put(out, ", ")
}

fn by_path(alloc: Global, edits: &Edits) -> Result<BTreeMap<Path, Option<Bytes>>, NoMemory> {
    let mut all = BTreeMap::new(alloc);
    for edit in edits.files.as_slice() {
        all.insert(edit.0.copy()?, edit.1.clone()?)?;
    }
    Ok(all)
}

pub fn put_edits(alloc: Global, out: &mut String, edits: &Edits) -> Result<(), NoMemory> {
    for (path, edit) in by_path(alloc, edits)?.iter() {
        put_edit(out, path, edit.as_ref())?;
    }
    put(out, "; ")?;
    for problem in edits.problems.as_slice() {
        put_problem(alloc, out, problem)?;
    }
    Ok(())
}

fn built(
    alloc: Global,
    builder: &mut impl Builder,
    roots: &str,
    files: BTreeMap<Path, Bytes>,
) -> Result<Edits, NoMemory> {
    let command = command_of(alloc, builder.name())?;
    let handed = handed_of(alloc, roots, files)?;
    match builder.build(&command, &handed) {
        Ok(edits) => Ok(edits),
        Err(_) => Err(AllocError),
    }
}

/// What the builder answers.
pub fn put_built(
    alloc: Global,
    out: &mut String,
    builder: &mut impl Builder,
    row: &Row<'_>,
) -> Result<(), NoMemory> {
    let files = files_of(alloc, row.files)?;
    let edits = built(alloc, builder, row.paths, files)?;
    put_edits(alloc, out, &edits)
}

/// The path in the workspace of one from the output.
fn at_output(alloc: Global, from: &Path) -> Result<Path, NoMemory> {
    let output = path(alloc, OUTPUT)?;
    match from.rebase(alloc, &Path::root(), &output) {
        Ok(at) => Ok(at),
        Err(_) => Err(AllocError),
    }
}

fn set(files: &mut BTreeMap<Path, Bytes>, at: Path, bytes: Option<Bytes>) -> Result<(), NoMemory> {
    match bytes {
        Some(bytes) => {
            files.insert(at, bytes)?;
        }
        None => {
            files.remove(&at);
        }
    }
    Ok(())
}

/// Makes an edit below the output.
fn make(
    alloc: Global,
    files: &mut BTreeMap<Path, Bytes>,
    edit: &(Path, Option<Bytes>),
) -> Result<(), NoMemory> {
    let at = at_output(alloc, &edit.0)?;
    let bytes = edit.1.clone()?;
    set(files, at, bytes)
}

/// What the builder answers where its edits were made and it is called once more, after it was cleaned.
pub fn put_again(
    alloc: Global,
    out: &mut String,
    builder: &mut impl Builder,
    row: &Row<'_>,
) -> Result<(), NoMemory> {
    let mut files = files_of(alloc, row.files)?;
    let edits = built(alloc, builder, row.paths, files_of(alloc, row.files)?)?;
    for edit in edits.files.as_slice() {
        make(alloc, &mut files, edit)?;
    }
    builder.clean();
    let edits = built(alloc, builder, row.paths, files)?;
    put_edits(alloc, out, &edits)
}
