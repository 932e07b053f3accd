//! The least of some paths.
ghost use Rattle.std.specs.Prelude.{◌≡◌, if◌then◌else◌, Some, IfOk, OnOk};
ghost use Rattle.output_edits.specs.Bad.{lesser};

use crate::NoMemory;
use res_path::Path;

/// The path where this is so and it is less than what was found before, and else that.
pub(crate) fn keep_if(is_so: bool, found: &mut Option<Path>, path: &Path) -> Result<(), NoMemory>
    ensures { OnOk result (found.new ≡ (if is_so then lesser found.old path.now else found.old)) }
{
    if !is_so {
        return Ok(());
    }
    let before = found.take();
    *found = lesser(before, path)?;
    Ok(())
}

/// The lesser of the path and of what was found before.
fn lesser(found: Option<Path>, path: &Path) -> Result<Option<Path>, NoMemory>
    ensures { IfOk result (λ least. least ≡ lesser found path.now) }
{
    match found {
        None => Ok(Some(path.copy()?)),
        Some(least) => lesser_of_two(least, path),
    }
}

fn lesser_of_two(least: Path, path: &Path) -> Result<Option<Path>, NoMemory>
    ensures { IfOk result (λ found. found ≡ lesser (Some least) path.now) }
{
    if *path < least {
        Ok(Some(path.copy()?))
    } else {
        Ok(Some(least))
    }
}
