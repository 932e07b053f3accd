//! Files by name.
ghost use Rattle.std.specs.Prelude.{◌≡◌, ℕ, List, true, Some, IfOk, OnOk, if◌then◌else◌};
ghost use Rattle.std.specs.List.{list_all};
ghost use Rattle.std.specs.Str.{bytes_eq};
ghost use Rattle.res_path.specs.Paths.{is_prefix};
ghost use Rattle.std_kit.specs.Roots.{relative};
ghost use Rattle.std_expand.specs.Expand.{relative_text, file_named};
ghost use Rattle.std_expand.specs.Inside.Lookups.{found};

use bytes::Bytes;
use include_lines::Included;
use res_path::{NoMemory, Path};
use std::alloc::Global;
use std::collections::BTreeMap;
use std_kit::relative;

/// The files of a root, by the texts of their relative paths.
#[derive(Drop)]
pub(crate) struct Named {
    alloc: Global,
    files: BTreeMap<Bytes, Bytes>,
}

impl Included for Named {
    ghost use Rattle.std_expand.specs.Inside.Lookups.{found};

    ghost files = { λ n. found n.files.entries };

    fn find(&self, name: &[u8]) -> Result<Option<&[u8]>, NoMemory> {
        let name = Bytes::copy_from_slice(self.alloc, name)?;
        match self.files.get(&name) {
            Some(bytes) => Ok(Some(bytes.as_slice())),
            None => Ok(None),
        }
    }
}

impl Named {
    /// One more, in the place of one that has the name.
    fn put(&mut self, name: Bytes, bytes: Bytes) -> Result<(), NoMemory>
        ensures { OnOk result ((n : List ℕ) → found self.new.files.entries n ≡ (if bytes_eq name n then Some bytes else found self.old.files.entries n)) }
    {
        self.files.insert(name, bytes)?;
        Ok(())
    }
}

/// The files of the root by name. Contents are shared.
pub(crate) fn named_files(
    alloc: Global,
    root: &Path,
    files: &[(Path, Bytes)],
) -> Result<Named, NoMemory>
    requires { list_all (λ e. is_prefix root.now e.0) files.now ≡ true }
    ensures { IfOk result (λ named. (n : List ℕ) → found named.files.entries n ≡ file_named root.now files.now n) }
{
    let mut named = Named {
        alloc,
        files: BTreeMap::new(alloc),
    };
    let mut rest = files;
    // The first of a name counts, so it is put last.
    while let Some((file, others)) = rest.split_last() {
        named.put(name_of(alloc, root, &file.0)?, file.1.clone()?)?;
        rest = others;
    }
    Ok(named)
}

/// The text of the path from the root.
fn name_of(alloc: Global, root: &Path, path: &Path) -> Result<Bytes, NoMemory>
    requires { is_prefix root.now path.now ≡ true }
    ensures { IfOk result (λ name. name ≡ relative_text (relative root.now path.now)) }
{
    let path = relative(alloc, root, path)?;
    let text = path.as_str().as_bytes();
    Ok(Bytes::copy_from_slice(alloc, text.split_at(1).1)?)
}
