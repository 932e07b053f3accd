//! What is kept between builds.
ghost use Rattle.std.specs.Prelude.{◌≡◌, [], IfOk, IfSome};
ghost use Rattle.include_lines.specs.Expanding.{expanded, missing};
ghost use Rattle.include_lines.specs.Cutting.{AreParts};
ghost use Rattle.std_expand.specs.Inside.Lookups.{found};

use crate::named::Named;
use bytes::Bytes;
use include_lines::{CutFile, Expanded};
use res_path::NoMemory;
use std::alloc::Global;
use std::collections::BTreeMap;
use std::marker::Model;

/// Files cut at the lines that include others, by their contents. A contract sees the list of contents.
#[derive(Drop)]
pub(crate) struct Kept {
    files: BTreeMap<Bytes, CutFile>,
}

impl Model for Kept {
    ghost use Rattle.std.specs.Prelude.{ℕ, List, map};
    ghost use Rattle.std.specs.List.{AllByRecursion};
    ghost use Rattle.include_lines.specs.Cutting.{AreParts};

    ghost Value = { List (List ℕ) };

    ghost view = { λ k. map (λ e. e.0) k.files.entries };

    ghost invariant = { λ k. AllByRecursion (λ e. AreParts 1 e.0 e.1) k.files.entries };
}

impl Kept {
    /// Nothing is kept. It takes no memory.
    pub(crate) fn nothing(alloc: Global) -> Kept
        ensures { result ≡ [] }
    {
        Kept {
            files: BTreeMap::new(alloc),
        }
    }

    /// All that is kept goes.
    pub(crate) fn clear(&mut self)
        ensures { self.new ≡ [] }
    {
        self.files.clear();
    }

    /// What becomes of the file with these contents. How it is cut is kept.
    pub(crate) fn expand(
        &mut self,
        alloc: Global,
        named: &Named,
        bytes: &Bytes,
    ) -> Result<Expanded, NoMemory>
        ensures bytes { IfOk result (λ e. e.bytes ≡ expanded (found named.now.files.entries) bytes.now) }
        ensures missing { IfOk result (λ e. e.missing.items ≡ missing (found named.now.files.entries) 1 bytes.now) }
    {
        if let Some(cut) = self.get(bytes) {
            return expand_cut(alloc, named, bytes, cut);
        }
        let cut = CutFile::of(alloc, bytes, 1)?;
        let made = expand_cut(alloc, named, bytes, &cut)?;
        self.put(bytes.clone()?, cut)?;
        Ok(made)
    }

    /// How the file with these contents is cut, where that is kept.
    fn get(&self, bytes: &Bytes) -> Option<&CutFile>
        ensures { IfSome result (λ cut. AreParts 1 bytes.now cut.now) }
    {
        self.files.get(bytes)
    }

    /// Keeps how the file with these contents is cut.
    fn put(&mut self, bytes: Bytes, cut: CutFile) -> Result<(), NoMemory>
        requires { AreParts 1 bytes cut }
    {
        self.files.insert(bytes, cut)?;
        Ok(())
    }
}

/// What becomes of the file with these contents, which is cut so.
fn expand_cut(
    alloc: Global,
    named: &Named,
    bytes: &Bytes,
    cut: &CutFile,
) -> Result<Expanded, NoMemory>
    requires { AreParts 1 bytes.now cut.now }
    ensures bytes { IfOk result (λ e. e.bytes ≡ expanded (found named.now.files.entries) bytes.now) }
    ensures missing { IfOk result (λ e. e.missing.items ≡ missing (found named.now.files.entries) 1 bytes.now) }
{
    cut.expand(alloc, named)
}
