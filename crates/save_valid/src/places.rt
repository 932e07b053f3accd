//! Where elements stand in a tree, and on the shelf.
ghost use Rattle.std.specs.Prelude.{◌≡◌, ◌≢◌, ◌⊎◌, ◌↔◌, [], length, IsTrue, IsSomeAnd};
ghost use Rattle.std.specs.Option.{option_copied};
ghost use Rattle.ws_elem.specs.declared.kind.Kind.TheVariants.{File, Folder, Project, Root};
ghost use Rattle.save_valid.specs.Places.{IsOpen, IsClosed};

use crate::each::Test;
use res_path::Path;
use ws_elem::{ElemMap, Element, Kind, NoMemory};

fn is_kind(element: &Element, kind: Kind) -> bool
    ensures { IsTrue result ↔ (element.now.kind ≡ kind) }
{
    element.kind == kind
}

fn is_open(element: Option<&Element>) -> bool
    ensures { IsTrue result ↔ IsSomeAnd (option_copied element.entry) IsOpen }
{
    match element {
        None => false,
        Some(element) => match element.kind {
            Kind::File => false,
            Kind::Folder => true,
            Kind::Project => element.opened,
            Kind::Root => true,
        },
    }
}

fn is_closed(element: Option<&Element>) -> bool
    ensures { IsTrue result ↔ IsSomeAnd (option_copied element.entry) IsClosed }
{
    match element {
        None => false,
        Some(element) => is_kind(element, Kind::Project) && !element.opened,
    }
}

fn is_folder(element: Option<&Element>) -> bool
    ensures { IsTrue result ↔ IsSomeAnd (option_copied element.entry) (λ e. e.kind ≡ Folder) }
{
    match element {
        None => false,
        Some(element) => is_kind(element, Kind::Folder),
    }
}

fn is_member(element: &Element) -> bool
    ensures { IsTrue result ↔ ((element.now.kind ≡ File) ⊎ (element.now.kind ≡ Folder)) }
{
    is_kind(element, Kind::File) || is_kind(element, Kind::Folder)
}

fn has_depth_of_kind(path: &Path, element: &Element) -> bool
    ensures { IsTrue result ↔ ((element.now.kind ≡ Project) ↔ (length path.now ≡ 1)) }
{
    is_kind(element, Kind::Project) == (path.depth() == 1)
}

fn is_root_placed(element: &Element) -> bool
    ensures { IsTrue result ↔ (element.now.kind ≢ Project) }
{
    !is_kind(element, Kind::Project)
}

fn is_placed_below(parent: Option<&Element>, path: &Path, element: &Element) -> bool
    ensures { IsTrue result ↔ ((element.now.kind ≢ Root) × IsSomeAnd (option_copied parent.entry) IsOpen
        × ((element.now.kind ≡ Project) ↔ (length path.now ≡ 1))) }
{
    !is_kind(element, Kind::Root) && is_open(parent) && has_depth_of_kind(path, element)
}

/// An element has its place in this tree.
#[derive(Clone, Copy, Debug)]
pub struct Placed<'a> {
    pub tree: &'a ElemMap,
}

impl<'a> Test for Placed<'a> {
    ghost use Rattle.save_valid.specs.Places.{IsPlaced};

    ghost holds = { λ t. IsPlaced t.tree.now.map };

    fn is_met(&self, path: &Path, element: &Element) -> Result<bool, NoMemory> {
        match path.parent()? {
            None => Ok(is_root_placed(element)),
            Some(parent) => Ok(is_placed_below(self.tree.get(&parent), path, element)),
        }
    }
}

/// An element has its place on this shelf, beside this tree.
#[derive(Clone, Copy, Debug)]
pub struct Shelved<'a> {
    pub tree: &'a ElemMap,
    pub shelf: &'a ElemMap,
}

impl<'a> Test for Shelved<'a> {
    ghost use Rattle.save_valid.specs.Places.{IsShelved};

    ghost holds = { λ s. IsShelved s.tree.now.map s.shelf.now.map };

    fn is_met(&self, path: &Path, element: &Element) -> Result<bool, NoMemory> {
        if path.depth() < 2 || !is_member(element) {
            return Ok(false);
        }
        match path.parent()? {
            None => Ok(false),
            Some(parent) => {
                Ok(is_closed(self.tree.get(&parent)) || is_folder(self.shelf.get(&parent)))
            }
        }
    }
}
