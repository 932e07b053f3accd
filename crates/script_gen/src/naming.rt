//! Names and paths with numbers in them.
ghost use Rattle.std.specs.Prelude.{◌≡◌, ◌++◌, ◌∷◌, [], codes, decimal, IfOk};
ghost use Rattle.script_gen.specs.Generated.{numbered, project_path, source_path};

use crate::NoMemory;
use bytes::{ByteStr, Bytes};
use res_path::{Name, Path};
use std::alloc::{AllocError, Global};

/// The name that is this text.
pub fn name_of(text: ByteStr) -> Result<Name, NoMemory>
    ensures { IfOk result (λ name. name ≡ text) }
{
    match Name::from_text(text) {
        Ok(name) => Ok(name),
        Err(_) => Err(AllocError),
    }
}

/// The name of letters and a number.
pub fn numbered(alloc: Global, letters: &str, number: u64) -> Result<Name, NoMemory>
    ensures { IfOk result (λ name. name ≡ numbered letters.now number) }
{
    name_of(ByteStr::from_string(format!(in alloc; "{letters}{number}")?)?)
}

/// The bytes of the number in decimal.
pub fn contents(alloc: Global, number: u64) -> Result<Bytes, NoMemory>
    ensures { IfOk result (λ bytes. bytes ≡ decimal number) }
{
    Bytes::from_string(format!(in alloc; "{number}")?)
}

/// The path with one more name.
pub fn below(alloc: Global, path: &Path, name: &Name) -> Result<Path, NoMemory>
    ensures { IfOk result (λ longer. longer ≡ path.now ++ name.now ∷ []) }
{
    match path.join(alloc, name) {
        Ok(longer) => Ok(longer),
        Err(_) => Err(AllocError),
    }
}

/// The path of the project of this number.
pub fn project_path(alloc: Global, project: u64) -> Result<Path, NoMemory>
    ensures { IfOk result (λ path. path ≡ project_path project) }
{
    below(alloc, &Path::root(), &numbered(alloc, "G", project)?)
}

/// The path of the folder with the files of the project of this number.
pub fn source_path(alloc: Global, project: u64) -> Result<Path, NoMemory>
    ensures { IfOk result (λ path. path ≡ source_path project) }
{
    let project = project_path(alloc, project)?;
    below(alloc, &project, &name_of(ByteStr::from_static("src"))?)
}

/// The path of the file of this number in the folder.
pub fn file_path(alloc: Global, source: &Path, file: u64) -> Result<Path, NoMemory>
    ensures { IfOk result (λ path. path ≡ source.now ++ numbered (codes "f") file ∷ []) }
{
    below(alloc, source, &numbered(alloc, "f", file)?)
}
