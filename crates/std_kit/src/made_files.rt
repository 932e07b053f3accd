//! The files that a builder makes.
ghost use Rattle.std.specs.Prelude.{◌≡◌, IfOk, OnOk, OnErr};
ghost use Rattle.std.specs.FinMap.{empty};
ghost use Rattle.std_kit.specs.Placed.{AreMade, is_free, with_placed};

use crate::file_map::FileMap;
use bytes::Bytes;
use res_path::{NoMemory, Path};
use std::alloc::Global;
use std::marker::Model;

/// The files that a builder makes, at paths from its output: each has a name, and no two overlap. A contract sees the
/// finite map from path to contents.
#[derive(Drop)]
pub struct MadeFiles {
    files: FileMap,
}

impl Model for MadeFiles {
    ghost use Rattle.std.specs.FinMap as map;
    ghost use Rattle.std.specs.Coded.{coded_ℕ, coded_list};
    ghost use Rattle.builder_api.specs.Files.{Files};
    ghost use Rattle.std_kit.specs.Placed.{AreMade};

    ghost Value = { Files };

    ghost coded = { map.code (coded_list (coded_list coded_ℕ)) (coded_list coded_ℕ) };

    ghost view = { λ m. m.files };

    ghost invariant = { λ m. AreMade m.files };
}

impl MadeFiles {
    /// No files. It takes no memory.
    pub fn empty(alloc: Global) -> MadeFiles
        ensures { result ≡ empty }
    {
        MadeFiles {
            files: FileMap::empty(alloc),
        }
    }

    /// Places the file at the path, where that has a name and overlaps the path of no file placed before. Whether it
    /// was placed. Costs a few comparisons of paths, in the logarithm of the files.
    pub fn place(&mut self, path: Path, bytes: Bytes) -> Result<bool, NoMemory>
        ensures answer { IfOk result (λ placed. placed ≡ is_free self.old path) }
        ensures ok { OnOk result (self.new ≡ with_placed self.old path bytes) }
        ensures err { OnErr result (self.new ≡ self.old) }
    {
        if !self.files.is_free(&path) {
            return Ok(false);
        }
        self.files.put(path, bytes)?;
        Ok(true)
    }

    /// The files, of which nothing is copied.
    pub(crate) fn into_map(self) -> FileMap
        ensures files { result ≡ self }
        ensures made { AreMade self }
    {
        let MadeFiles { files } = self;
        files
    }
}
