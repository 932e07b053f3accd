//! Which operation forgets what was built last.
ghost use Rattle.std.specs.Prelude.{◌≡◌, None as nothing, IfOk, length};
ghost use Rattle.std.specs.Option.{option_map};
ghost use Rattle.proj_desc.specs.Causes.{desc_cause};
ghost use Rattle.op_kind.specs.Places.{project_name};
ghost use Rattle.op_kind.specs.Problems.{command_count};
ghost use Rattle.ws_content.specs.Deeds.{all_from, forgets};
ghost use Rattle.ws_content.specs.Inside.Parts.{IsDescribed};

use crate::NoMemory;
use bytes::Bytes;
use op_kind::Op;
use op_plan::checks::name_of;
use proj_desc::{Desc, DescError};
use res_path::{Name, Path};
use std::alloc::{AllocError, Global};

/// The commands of a project, from one on.
#[derive(Drop)]
pub struct From {
    pub project: Name,
    pub index: u16,
}

/// The commands of which the operation forgets what was built last. Of one that is refused for its description no clause
/// says which these are.
pub fn forgets(alloc: Global, op: &Op) -> Result<Option<From>, NoMemory>
    ensures { IfOk result (λ found. IsDescribed op.now → option_map (λ f. (f.project, f.index)) found ≡ forgets op.now) }
{
    match op {
        Op::Delete(path) | Op::Move(path, _) | Op::Forget(path) => all_from(alloc, path, 0),
        Op::Describe(path, text) => beyond(alloc, path, text),
        Op::CreateFile(_, _)
        | Op::CreateFolder(_)
        | Op::CreateProject(_)
        | Op::Write(_, _)
        | Op::Touch(_)
        | Op::Derived(_, _)
        | Op::Copy(_, _)
        | Op::Open(_)
        | Op::Close(_)
        | Op::Mark(_, _, _)
        | Op::Attr(_, _, _, _)
        | Op::Unmark(_, _)
        | Op::ClearMarks(_, _, _)
        | Op::Partner(_)
        | Op::Sync(_, _, _)
        | Op::Flush(_, _, _)
        | Op::Read(_, _) => Ok(None),
    }
}

/// The commands from this one on of the project at the path, if the path is a project's.
fn all_from(alloc: Global, path: &Path, index: u16) -> Result<Option<From>, NoMemory>
    ensures { IfOk result (λ found. option_map (λ f. (f.project, f.index)) found ≡ all_from path.now index) }
{
    if path.depth() != 1 {
        return Ok(None);
    }
    let project = name_of(alloc, path)?;
    Ok(Some(From { project, index }))
}

/// The commands that the project at the path hasn't any more with the description that the text is.
fn beyond(alloc: Global, path: &Path, text: &Bytes) -> Result<Option<From>, NoMemory>
    ensures { IfOk result (λ found. desc_cause (project_name path.now) text.now ≡ nothing
        → option_map (λ f. (f.project, f.index)) found ≡ all_from path.now (command_count text.now)) }
{
    if path.depth() != 1 {
        return Ok(None);
    }
    let project = name_of(alloc, path)?;
    match Desc::parse(alloc, &project, text.as_slice()) {
        Ok(desc) => {
            let Ok(index) = u16::try_from(desc.commands.as_slice().len()) else {
                return Err(AllocError);
            };
            Ok(Some(From { project, index }))
        }
        Err(DescError::Bad(_)) => Ok(None),
        Err(DescError::Memory) => Err(AllocError),
    }
}
