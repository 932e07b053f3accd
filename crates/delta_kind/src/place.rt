//! Where a node was, or where it is.
ghost use Rattle.std.specs.Prelude.{◌≡◌, IfOk, None as nowhere};
ghost use Rattle.std.specs.Option.{option_copied};

use res_path::Path;
use std::alloc::Global;
use std::marker::Model;
use ws_elem::NoMemory;

/// Where what is at a path was, or where what was there is: a path, or none where nothing moved. A contract sees the
/// optional path.
///
/// Nearly all nodes of a delta have none, so a path is kept apart: without one a place is small and takes no memory.
#[derive(Debug, Drop)]
pub struct Place {
    path: Option<Box<Path>>,
}

impl Model for Place {
    ghost use Rattle.std.specs.Prelude.{Option};
    ghost use Rattle.std.specs.Coded.{coded_option};
    ghost use Rattle.std.specs.Option.{option_map};
    ghost use Rattle.res_path.specs.Paths.{Names};
    ghost use Rattle.ws_elem.specs.RoomyTrees.{names_code};

    ghost Value = { Option Names };

    ghost coded = { coded_option names_code };

    ghost view = { λ p. option_map (λ b. b.value) p.path };
}

impl Place {
    /// No path. It takes no memory.
    pub fn none() -> Place
        ensures { result ≡ nowhere }
    {
        Place { path: None }
    }

    /// The place of this path, if one is given.
    pub fn of(alloc: Global, path: Option<Path>) -> Result<Place, NoMemory>
        ensures { IfOk result (λ place. place ≡ path) }
    {
        match path {
            None => Ok(Place::none()),
            Some(path) => Ok(Place {
                path: Some(Box::new(alloc, path)?),
            }),
        }
    }

    /// The path, if there is one.
    pub fn path(&self) -> Option<&Path>
        ensures { option_copied result ≡ self.now }
    {
        match &self.path {
            None => None,
            Some(path) => Some(path.as_ref()),
        }
    }

    /// An equal place, whose path shares its text.
    pub fn copy(&self) -> Result<Place, NoMemory>
        ensures { IfOk result (λ copy. copy ≡ self.now) }
    {
        self.clone()
    }
}

impl Clone for Place {
    ghost use Rattle.std.specs.Prelude.{◌≡◌};

    ghost is_clone = { λ place copy. copy ≡ place };

    fn clone(&self) -> Result<Place, NoMemory> {
        match &self.path {
            None => Ok(Place::none()),
            Some(path) => Ok(Place {
                path: Some(path.clone()?),
            }),
        }
    }
}

impl PartialEq for Place {
    ghost use Rattle.std.specs.Option.{option_eq};
    ghost use Rattle.std.specs.Cmp.Lexicographic.{lists_equiv, nat_list_eq_equiv, options_equiv};
    ghost use Rattle.std.specs.Cmp.{partial_equiv_from_equiv};
    ghost use Rattle.res_path.specs.Paths.{path_eq};

    ghost eq = { option_eq path_eq };

    ghost laws = { partial_equiv_from_equiv (options_equiv (lists_equiv nat_list_eq_equiv)) };

    fn eq(&self, other: &Place) -> bool {
        match (self.path(), other.path()) {
            (None, None) => true,
            (Some(path), Some(other)) => path == other,
            _ => false,
        }
    }
}

impl Eq for Place {
    ghost use Rattle.std.specs.Cmp.Lexicographic.{lists_equiv, nat_list_eq_equiv, options_equiv};

    ghost laws = { options_equiv (lists_equiv nat_list_eq_equiv) };
}
