//! The files that a builder sees.
ghost use Rattle.std.specs.Prelude.{◌≡◌, IfOk};
ghost use Rattle.std.specs.FinMap.{entries, empty, find, get};
ghost use Rattle.std.specs.List.Sorted.{IsStrictlySortedBy};
ghost use Rattle.std.specs.Map.{keys_of};
ghost use Rattle.std.specs.Option.{option_copied};
ghost use Rattle.res_path.specs.Paths.{path_cmp};

use bytes::Bytes;
use res_path::{NoMemory, Path};
use std::alloc::Global;
use std::cmp::Ordering;
use std::marker::Model;

/// The files that a builder sees, with their contents, in path order. A contract sees the finite map from path to
/// contents.
#[derive(Drop)]
pub struct View {
    files: Vec<(Path, Bytes)>,
}

impl Model for View {
    ghost use Rattle.std.specs.FinMap as map;
    ghost use Rattle.std.specs.Coded.{coded_ℕ, coded_list};
    ghost use Rattle.std.specs.List.Sorted.{IsStrictlySortedBy};
    ghost use Rattle.std.specs.Map.{keys_of};
    ghost use Rattle.res_path.specs.Paths.{path_cmp};
    ghost use Rattle.builder_api.specs.Files.{Files};

    ghost Value = { Files };

    ghost coded = { map.code (coded_list (coded_list coded_ℕ)) (coded_list coded_ℕ) };

    ghost view = { λ v. map.from_entries v.files.items };

    ghost invariant = { λ v. IsStrictlySortedBy path_cmp (keys_of v.files.items) };
}

impl View {
    /// No files. It takes no memory.
    pub fn empty(alloc: Global) -> View
        ensures { result ≡ empty }
    {
        View {
            files: Vec::new(alloc),
        }
    }

    /// These files, of which nothing is copied.
    pub fn of(files: Vec<(Path, Bytes)>) -> View
        requires { IsStrictlySortedBy path_cmp (keys_of files.items) }
        ensures { entries result ≡ files.items }
    {
        View { files }
    }

    /// The files in path order, each path once.
    pub fn as_slice(&self) -> &[(Path, Bytes)]
        ensures { result.now ≡ entries self.now }
    {
        self.files.as_slice()
    }

    /// The contents of the file at the path, if it is seen. Costs a comparison of paths for each halving of the files, and
    /// no memory.
    pub fn find(&self, path: &Path) -> Option<&Bytes>
        ensures { option_copied result ≡ get self.now path.now }
    {
        find_among(self.files.as_slice(), path)
    }

    /// The files, of which nothing is copied.
    pub fn into_vec(self) -> Vec<(Path, Bytes)>
        ensures { result.items ≡ entries self }
    {
        let View { files } = self;
        files
    }

    /// An equal view, which shares texts and contents.
    pub fn copy(&self) -> Result<View, NoMemory>
        ensures { IfOk result (λ copy. copy ≡ self.now) }
    {
        self.clone()
    }
}

impl Clone for View {
    ghost use Rattle.std.specs.Prelude.{◌≡◌};

    ghost is_clone = { λ view copy. copy ≡ view };

    fn clone(&self) -> Result<View, NoMemory> {
        let files = self.files.clone()?;
        Ok(View { files })
    }
}

/// The contents of the file at the path among files in path order, of which each step leaves half.
fn find_among<'a>(files: &'a [(Path, Bytes)], path: &Path) -> Option<&'a Bytes>
    requires { IsStrictlySortedBy path_cmp (keys_of files.now) }
    ensures { option_copied result ≡ find path_cmp path.now files.now }
{
    let (lower, rest) = files.split_at(files.len() / 2);
    let Some((file, higher)) = rest.split_first() else {
        return None;
    };
    match path.cmp(&file.0) {
        Ordering::Less => find_among(lower, path),
        Ordering::Equal => Some(&file.1),
        Ordering::Greater => find_among(higher, path),
    }
}
