//! Which files count.
ghost use Rattle.std.specs.Prelude.{◌≡◌, ◌++◌, ◌∷◌, [], IfOk};
ghost use Rattle.std.specs.Option.{option_map};
ghost use Rattle.res_path.specs.Paths.{parent};
ghost use Rattle.std_expand.specs.Sources.{is_left, stem_of, source_stem};

use res_path::{Name, NoMemory, Path};
use std::alloc::{AllocError, Global};
use std::str::from_utf8;

/// The file's last name without `.in`, where the file counts: the name ends so, and a name is left.
pub(crate) fn source_stem(path: &Path) -> Option<&[u8]>
    ensures { option_map (λ stem. stem.now) result ≡ source_stem path.now }
{
    match path.last() {
        Some(name) => stem_of(name.as_bytes()),
        None => None,
    }
}

/// The name without the `.in` at its end, where that is there and a name is left.
fn stem_of(name: &[u8]) -> Option<&[u8]>
    ensures { option_map (λ stem. stem.now) result ≡ stem_of name.now }
{
    match name.strip_suffix(b".in".as_slice()) {
        Some(stem) => { if is_left(stem) { Some(stem) } else { None } }
        None => None,
    }
}

/// Whether what is left of a name is one: it isn't empty, `.` or `..`.
fn is_left(stem: &[u8]) -> bool
    ensures { result ≡ is_left stem.now }
{
    if stem.is_empty() {
        return false;
    }
    !(stem == b".".as_slice() || stem == b"..".as_slice())
}

/// The path with this last name, without `.in`, in the place of its own.
pub(crate) fn with_stem(alloc: Global, path: &Path, stem: &[u8]) -> Result<Path, NoMemory>
    ensures { IfOk result (λ out. out ≡ parent path.now ++ stem.now ∷ []) }
{
    let above = match path.parent()? {
        Some(above) => above,
        None => Path::root(),
    };
    let name = name_of(alloc, stem)?;
    // The path gets shorter.
    match above.join(alloc, &name) {
        Ok(out) => Ok(out),
        Err(_) => Err(AllocError),
    }
}

/// The name of this text. One that is left of a name without `.in` is refused for memory alone.
fn name_of(alloc: Global, stem: &[u8]) -> Result<Name, NoMemory>
    ensures { IfOk result (λ name. name ≡ stem.now) }
{
    let Ok(text) = from_utf8(stem) else {
        return Err(AllocError);
    };
    match Name::parse(alloc, text) {
        Ok(name) => Ok(name),
        Err(_) => Err(AllocError),
    }
}
