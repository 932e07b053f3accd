//! Edits whose paths would be past the limits.
ghost use Rattle.std.specs.Prelude.{◌≡◌, ◌∷◌, [], ◌++◌, nat_lt, length};
ghost use Rattle.res_path.specs.Paths.{path_text};
ghost use Rattle.proj_desc.specs.FirstCause.{first_cause, when};
ghost use Rattle.output_edits.specs.Bad.{goes_too_deep, gets_too_long};
ghost use Rattle.output_edits.specs.Judging.{Decides};

use crate::EditRefusal;
use bytes::Bytes;
use res_path::Path;

/// The most names that a path may have.
const MAX_DEPTH: usize = 64;

/// The most bytes that a path's text may have.
const MAX_TEXT: usize = 4096;

/// Refused where a file would be put below the output at a path that is too deep, and then at one that is too long.
pub(crate) fn check_limits(
    output: &Path,
    edits: &[(Path, Option<Bytes>)],
) -> Result<(), EditRefusal>
    ensures { Decides (first_cause (when (goes_too_deep output.now edits.now) EditRefusal.TooDeep
        ∷ when (gets_too_long output.now edits.now) EditRefusal.TooLong ∷ [])) result }
{
    if goes_too_deep(output, edits) {
        return Err(EditRefusal::TooDeep);
    }
    if gets_too_long(output, edits) {
        return Err(EditRefusal::TooLong);
    }
    Ok(())
}

/// Whether a file would be put at a path that is too deep.
fn goes_too_deep(output: &Path, edits: &[(Path, Option<Bytes>)]) -> bool
    ensures { result ≡ goes_too_deep output.now edits.now }
{
    edits
        .iter()
        .any(|edit| edit.1.is_some() && is_too_deep(output, &edit.0))
}

/// Whether a file would be put at a path that is too long.
fn gets_too_long(output: &Path, edits: &[(Path, Option<Bytes>)]) -> bool
    ensures { result ≡ gets_too_long output.now edits.now }
{
    edits
        .iter()
        .any(|edit| edit.1.is_some() && is_too_long(output, &edit.0))
}

/// Whether the path below the output has too many names.
fn is_too_deep(output: &Path, path: &Path) -> bool
    ensures { result ≡ nat_lt 64 (length (output.now ++ path.now)) }
{
    output.depth() + path.depth() > MAX_DEPTH
}

/// Whether the text of the path below the output has too many bytes.
fn is_too_long(output: &Path, path: &Path) -> bool
    ensures { result ≡ nat_lt 4096 (length (path_text (output.now ++ path.now))) }
{
    text_len(output, path) > MAX_TEXT
}

/// How many bytes the text of the path below the output has. A root's text is a slash that no other path's text has.
fn text_len(output: &Path, path: &Path) -> usize
    ensures { result ≡ length (path_text (output.now ++ path.now)) }
{
    if path.depth() == 0 {
        return output.as_str().len();
    }
    if output.depth() == 0 {
        return path.as_str().len();
    }
    output.as_str().len() + path.as_str().len()
}
