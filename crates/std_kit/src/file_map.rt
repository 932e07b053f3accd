//! Files by path.
ghost use Rattle.std.specs.Prelude.{◌≡◌, [], ◌∷◌, MatchOption, OnOk, OnErr};
ghost use Rattle.std.specs.List.{list_any};
ghost use Rattle.std.specs.Option.{option_copied};
ghost use Rattle.std.specs.FinMap as map;
ghost use Rattle.res_path.specs.Paths.{is_prefix, overlap};
ghost use Rattle.std_kit.specs.Placed.{AreMade, is_free};
ghost use Rattle.std_kit.specs.Inside.Neighbours.{IsLast, IsFirst};

use bytes::Bytes;
use res_path::{NoMemory, Path};
use std::alloc::Global;
use std::collections::BTreeMap;
use std::marker::Model;
use std::ops::Bound;

/// Contents by path, in path order. A contract sees the finite map.
#[derive(Drop)]
pub(crate) struct FileMap {
    files: BTreeMap<Path, Bytes>,
}

impl Model for FileMap {
    ghost use Rattle.std.specs.FinMap as map;
    ghost use Rattle.std.specs.Coded.{coded_ℕ, coded_list};
    ghost use Rattle.builder_api.specs.Files.{Files};

    ghost Value = { Files };

    ghost coded = { map.code (coded_list (coded_list coded_ℕ)) (coded_list coded_ℕ) };

    ghost view = { λ m. map.from_entries m.files.entries };
}

impl FileMap {
    /// No files. It takes no memory.
    pub(crate) fn empty(alloc: Global) -> FileMap
        ensures { result ≡ map.empty }
    {
        FileMap {
            files: BTreeMap::new(alloc),
        }
    }

    /// Puts the file at the path.
    pub(crate) fn put(&mut self, path: Path, bytes: Bytes) -> Result<(), NoMemory>
        ensures ok { OnOk result (self.new ≡ map.insert self.old path bytes) }
        ensures err { OnErr result (self.new ≡ self.old) }
    {
        self.files.insert(path, bytes)?;
        Ok(())
    }

    /// Takes the file at the path out, if there is one. It takes no memory.
    pub(crate) fn take(&mut self, path: &Path) -> Option<Bytes>
        ensures before { result ≡ map.get self.old path.now }
        ensures removed { self.new ≡ map.remove self.old path.now }
    {
        self.files.remove(path)
    }

    /// Takes the first file in path order out, if there is one. It takes no memory.
    pub(crate) fn take_first(&mut self) -> Option<(Path, Bytes)>
        ensures { MatchOption result (map.entries self.old ≡ []) (λ e. map.entries self.old ≡ e ∷ map.entries self.new) }
    {
        self.files.pop_first()
    }

    /// The last path at or before this one in path order.
    fn last_until(&self, path: &Path) -> Option<&Path>
        ensures { IsLast self.now path.now (option_copied result) }
    {
        let mut until = self.files.range((Bound::Unbounded, Bound::Included(path)));
        match until.next_back() {
            Some((last, _)) => Some(last),
            None => None,
        }
    }

    /// The first path at or after this one in path order.
    fn first_from(&self, path: &Path) -> Option<&Path>
        ensures { IsFirst self.now path.now (option_copied result) }
    {
        let mut from = self.files.range((Bound::Included(path), Bound::Unbounded));
        match from.next() {
            Some((first, _)) => Some(first),
            None => None,
        }
    }

    /// Whether the path lies at or below that of a file. As no two overlap, it lies so of the last one before it.
    fn is_under_one(&self, path: &Path) -> bool
        requires { AreMade self.now }
        ensures { result ≡ list_any (λ q. is_prefix q path.now) (map.keys self.now) }
    {
        match self.last_until(path) {
            Some(last) => last.is_prefix_of(path),
            None => false,
        }
    }

    /// Whether the path of a file lies at or below this one. If so, then that of the first one after it.
    fn is_over_one(&self, path: &Path) -> bool
        ensures { result ≡ list_any (λ q. is_prefix path.now q) (map.keys self.now) }
    {
        match self.first_from(path) {
            Some(first) => path.is_prefix_of(first),
            None => false,
        }
    }

    /// Whether the path overlaps that of a file.
    fn overlaps_one(&self, path: &Path) -> bool
        requires { AreMade self.now }
        ensures { result ≡ list_any (overlap path.now) (map.keys self.now) }
    {
        self.is_over_one(path) || self.is_under_one(path)
    }

    /// Whether the path has a name, and overlaps that of no file. Costs two searches.
    pub(crate) fn is_free(&self, path: &Path) -> bool
        requires { AreMade self.now }
        ensures { result ≡ is_free self.now path.now }
    {
        if path.depth() == 0 {
            return false;
        }
        !self.overlaps_one(path)
    }
}
