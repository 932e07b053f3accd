//! A list of paths.
ghost use Rattle.std.specs.Prelude.{◌≡◌, [], IfOk};

use res_path::{NoMemory, Path};
use std::alloc::Global;
use std::marker::Model;

/// Paths in order. A contract sees the list of them.
#[derive(Drop)]
pub struct Paths {
    paths: Vec<Path>,
}

impl Model for Paths {
    ghost use Rattle.std.specs.Prelude.{List};
    ghost use Rattle.res_path.specs.Paths.{Names};

    ghost Value = { List Names };

    ghost view = { λ p. p.paths.items };
}

impl Paths {
    /// No paths. It takes no memory.
    pub fn empty(alloc: Global) -> Paths
        ensures { result ≡ [] }
    {
        Paths {
            paths: Vec::new(alloc),
        }
    }

    /// These paths, of which nothing is copied.
    pub fn of(paths: Vec<Path>) -> Paths
        ensures { result ≡ paths.items }
    {
        Paths { paths }
    }

    /// The paths in order.
    pub fn as_slice(&self) -> &[Path]
        ensures { result.now ≡ self.now }
    {
        self.paths.as_slice()
    }

    /// The paths, of which nothing is copied.
    pub fn into_vec(self) -> Vec<Path>
        ensures { result.items ≡ self }
    {
        let Paths { paths } = self;
        paths
    }

    /// Equal paths, which share their texts.
    pub fn copy(&self) -> Result<Paths, NoMemory>
        ensures { IfOk result (λ copy. copy ≡ self.now) }
    {
        self.clone()
    }
}

impl Clone for Paths {
    ghost use Rattle.std.specs.Prelude.{◌≡◌};

    ghost is_clone = { λ paths copy. copy ≡ paths };

    fn clone(&self) -> Result<Paths, NoMemory> {
        let paths = self.paths.clone()?;
        Ok(Paths { paths })
    }
}
