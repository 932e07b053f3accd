//! Files, and what is handed of them, as they are written in rows.
ghost use Rattle.std.specs.Prelude.{IfOk};
ghost use Rattle.std.specs.List.Sorted.{IsStrictlySortedBy};
ghost use Rattle.std.specs.Map.{keys_of};
ghost use Rattle.res_path.specs.Paths.{path_cmp};

use crate::deltas::delta_of;
use crate::rows::cut;
use builder_api::{BuildKind, Handed, Paths, View};
use bytes::Bytes;
use proj_desc::{Command, Inputs};
use res_path::{Name, NoMemory, Path};
use std::alloc::{AllocError, Global};
use std::collections::BTreeMap;

/// The output of all commands.
pub const OUTPUT: &str = "/P/out";

pub fn path(alloc: Global, text: &str) -> Result<Path, NoMemory> {
    match Path::parse(alloc, text) {
        Ok(path) => Ok(path),
        Err(_) => Err(AllocError),
    }
}

/// The byte that stands for this one in rows: a line feed for `+`, a blank for `~`, and a byte that is no text for `!`.
fn meant(byte: u8) -> u8 {
    match byte {
        b'+' => 10,
        b'~' => b' ',
        b'!' => 255,
        byte => byte,
    }
}

/// The bytes that a text in a row tells.
pub fn bytes(alloc: Global, text: &str) -> Result<Bytes, NoMemory> {
    let mut meant_bytes = Vec::new(alloc);
    for byte in text.as_bytes() {
        meant_bytes.push(meant(*byte))?;
    }
    Ok(Bytes::from_vec(meant_bytes)?)
}

/// The file that a word `PATH=TEXT` tells.
pub fn file(alloc: Global, word: &str) -> Result<(Path, Bytes), NoMemory> {
    let (at, text) = cut(word, '=');
    Ok((path(alloc, at)?, bytes(alloc, text)?))
}

/// The files of words with blanks between.
pub fn files_of(alloc: Global, text: &str) -> Result<BTreeMap<Path, Bytes>, NoMemory> {
    let mut files = BTreeMap::new(alloc);
    for word in text.split_whitespace() {
        let (at, bytes) = file(alloc, word)?;
        files.insert(at, bytes)?;
    }
    Ok(files)
}

/// The paths of words with blanks between.
pub fn paths_of(alloc: Global, text: &str) -> Result<Vec<Path>, NoMemory> {
    let mut paths = Vec::new(alloc);
    for word in text.split_whitespace() {
        paths.push(path(alloc, word)?)?;
    }
    Ok(paths)
}

fn in_order(alloc: Global, files: BTreeMap<Path, Bytes>) -> Result<Vec<(Path, Bytes)>, NoMemory>
    ensures { IfOk result (λ rows. IsStrictlySortedBy path_cmp (keys_of rows.items)) }
{
    let mut left = files;
    let mut rows = Vec::new(alloc);
    while let Some(file) = left.pop_first() {
        rows.push(file)?;
    }
    Ok(rows)
}

pub fn view_of(alloc: Global, files: BTreeMap<Path, Bytes>) -> Result<View, NoMemory> {
    Ok(View::of(in_order(alloc, files)?))
}

/// What is handed of these files for a command that reads these roots; after an `@` the words of a delta.
pub fn handed_of(
    alloc: Global,
    roots: &str,
    files: BTreeMap<Path, Bytes>,
) -> Result<Handed, NoMemory> {
    let (roots, words) = cut(roots, '@');
    let inputs = Paths::of(paths_of(alloc, roots)?);
    let delta = delta_of(alloc, words)?;
    let output = path(alloc, OUTPUT)?;
    let view = view_of(alloc, files)?;
    Ok(Handed {
        kind: BuildKind::Incremental,
        last: delta.is_some(),
        delta,
        view,
        inputs,
        output,
    })
}

/// A command of this builder. Builders go by what is handed with it.
pub fn command_of(alloc: Global, builder: &str) -> Result<Command, NoMemory> {
    let Ok(builder) = Name::parse(alloc, builder) else {
        return Err(AllocError);
    };
    let output = path(alloc, "/out")?;
    Ok(Command {
        builder,
        inputs: Inputs::empty(alloc),
        output,
    })
}
