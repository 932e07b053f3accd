//! What the projects of a tree describe.
ghost use Rattle.std.specs.Prelude.{◌≡◌, ◌∷◌, [], IfOk};
ghost use Rattle.build_plan.specs.Descriptions.{empty_desc, desc_of, described_by, desc_at};

use crate::NoMemory;
use proj_desc::{Desc, DescError};
use res_path::{Name, Path};
use std::alloc::{AllocError, Global};
use ws_elem::{Attachments, Element, TreeRep};

/// The description of the open project of this name; none where no open project is there. Where its text is no
/// description of the project, it is one without references and commands. Reads the text once.
pub fn description<T: TreeRep>(
    alloc: Global,
    tree: &T,
    project: &Name,
) -> Result<Option<Desc>, NoMemory>
    ensures { IfOk result (λ desc. desc ≡ desc_at (T.tree tree.now) project.now) }
{
    let path = path_of(alloc, project)?;
    match tree.get(&path) {
        None => Ok(None),
        Some(element) => described_by(alloc, project, element),
    }
}

/// The description of the project that the element is, if it is an open one.
pub fn described_by(
    alloc: Global,
    project: &Name,
    element: &Element,
) -> Result<Option<Desc>, NoMemory>
    ensures { IfOk result (λ desc. desc ≡ described_by project.now element.now) }
{
    if element.kind.is_project() && element.opened {
        let nothing = Attachments::none();
        let desc = desc_of(
            alloc,
            project,
            element.attached.or(&nothing).desc.as_slice(),
        )?;
        return Ok(Some(desc));
    }
    Ok(None)
}

/// The description of the project that the text is, the empty one where it is none.
fn desc_of(alloc: Global, project: &Name, text: &[u8]) -> Result<Desc, NoMemory>
    ensures { IfOk result (λ desc. desc ≡ desc_of project.now text.now) }
{
    match Desc::parse(alloc, project, text) {
        Ok(desc) => Ok(desc),
        Err(DescError::Bad(_)) => Ok(empty_desc(alloc)),
        Err(DescError::Memory) => Err(AllocError),
    }
}

fn empty_desc(alloc: Global) -> Desc
    ensures { result ≡ empty_desc }
{
    Desc::empty(alloc)
}

/// The project's path.
fn path_of(alloc: Global, project: &Name) -> Result<Path, NoMemory>
    ensures { IfOk result (λ path. path ≡ project.now ∷ []) }
{
    match Path::root().join(alloc, project) {
        Ok(path) => Ok(path),
        Err(_) => Err(AllocError),
    }
}
