//! Descriptions of projects, and built records of their commands.
ghost use Rattle.std.specs.Prelude.{◌≡◌, ◌↔◌, ◌≤◌, ◌∷◌, [], length, map, IsTrue, IfOk, IfSome, IsSomeAnd};
ghost use Rattle.std.specs.List.{AllByRecursion};
ghost use Rattle.std.specs.Option.{option_copied, option_map};
ghost use Rattle.res_path.specs.Names.{IsName};
ghost use Rattle.ws_durable.specs.Saved.{saved_built};
ghost use Rattle.ws_elem.specs.declared.kind.Kind.TheVariants.{Project};
ghost use Rattle.save_valid.specs.Descriptions.{IsCanonical, HasCommand, IsBuiltIn};

use crate::each::Test;
use proj_desc::{Command, Desc, DescError};
use res_path::{Name, Path, PathError};
use std::alloc::{AllocError, Global};
use ws_durable::Built;
use ws_elem::{Attached, Attachments, ElemMap, Element, Kind, NoMemory};

fn is_canonical(alloc: Global, project: &Name, text: &[u8]) -> Result<bool, NoMemory>
    ensures { IfOk result (λ is. IsTrue is ↔ IsCanonical project.now text.now) }
{
    match Desc::canonical(alloc, project, text) {
        Ok(bytes) => Ok(bytes.as_slice() == text),
        Err(DescError::Bad(_)) => Ok(false),
        Err(DescError::Memory) => Err(AllocError),
    }
}

fn has_command(alloc: Global, project: &Name, text: &[u8], index: u16) -> Result<bool, NoMemory>
    ensures { IfOk result (λ is. IsTrue is ↔ HasCommand project.now text.now index) }
{
    match Desc::parse(alloc, project, text) {
        Ok(desc) => Ok((index as usize) < desc.commands.as_slice().len()),
        Err(DescError::Bad(_)) => Ok(false),
        Err(DescError::Memory) => Err(AllocError),
    }
}

/// A project has a canonical description.
#[derive(Clone, Copy, Debug)]
pub struct Described {
    pub alloc: Global,
}

impl Test for Described {
    ghost use Rattle.save_valid.specs.Descriptions.{IsDescribed};

    ghost holds = { λ d p e. IsDescribed p e };

    fn is_met(&self, path: &Path, element: &Element) -> Result<bool, NoMemory> {
        if element.kind != Kind::Project {
            return Ok(true);
        }
        is_described(self.alloc, path.last(), &element.attached)
    }
}

fn is_described(alloc: Global, project: Option<&str>, attached: &Attached) -> Result<bool, NoMemory>
    ensures { IfOk result (λ is. IsTrue is ↔ IfSome (option_map (λ name. name.now) project.entry) (λ name. IsName name × IsCanonical name attached.now.desc)) }
{
    match project {
        None => Ok(true),
        Some(project) => is_canonical_of(alloc, project, attached),
    }
}

fn is_canonical_of(alloc: Global, project: &str, attached: &Attached) -> Result<bool, NoMemory>
    ensures { IfOk result (λ is. IsTrue is ↔ (IsName project.now × IsCanonical project.now attached.now.desc)) }
{
    let nothing = Attachments::none();
    match Name::parse(alloc, project) {
        Ok(name) => is_canonical(alloc, &name, &attached.or(&nothing).desc),
        Err(PathError::Memory) => Err(AllocError),
        Err(PathError::TooLong) => Ok(false),
        Err(PathError::TooDeep) => Ok(false),
        Err(PathError::BadSegment { at: _ }) => Ok(false),
    }
}

fn is_project_of(
    alloc: Global,
    element: Option<&Element>,
    project: &Name,
    index: u16,
) -> Result<bool, NoMemory>
    ensures { IfOk result (λ is. IsTrue is ↔ IsSomeAnd (option_copied element.entry) (λ e. (e.kind ≡ Project) × HasCommand project.now e.attached.desc index)) }
{
    let nothing = Attachments::none();
    match element {
        None => Ok(false),
        Some(element) => {
            if element.kind != Kind::Project {
                return Ok(false);
            }
            has_command(alloc, project, &element.attached.or(&nothing).desc, index)
        }
    }
}

fn project_path(alloc: Global, project: &Name) -> Result<Path, NoMemory>
    ensures { IfOk result (λ path. path ≡ project.now ∷ []) }
{
    match Path::root().join(alloc, project) {
        Ok(path) => Ok(path),
        Err(_) => Err(AllocError),
    }
}

fn is_built_in(alloc: Global, tree: &ElemMap, built: &Built) -> Result<bool, NoMemory>
    ensures { IfOk result (λ is. IsTrue is ↔ IsBuiltIn tree.now.map (saved_built built.now)) }
{
    let project = &built.project;
    let path = project_path(alloc, project)?;
    let there = is_project_of(alloc, tree.get(&path), project, built.index)?;
    let canonical = Command::is_canonical(alloc, project, &built.command)?;
    Ok(there && canonical && has_few_references(built))
}

fn has_few_references(built: &Built) -> bool
    ensures { IsTrue result ↔ (length built.now.references ≤ 256) }
{
    built.references.as_slice().len() <= 256
}

/// Whether each built record names a project of the tree, which has a command of its number, keeps the canonical text of a
/// command of the project, and has at most 256 references.
pub fn are_built_in(alloc: Global, tree: &ElemMap, built: &[Built]) -> Result<bool, NoMemory>
    ensures { IfOk result (λ is. IsTrue is ↔ AllByRecursion (IsBuiltIn tree.now.map) (map saved_built built.now)) }
{
    for of in built {
        if !is_built_in(alloc, tree, of)? {
            return Ok(false);
        }
    }
    Ok(true)
}
