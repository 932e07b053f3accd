//! The text of a tree, and its digest.
ghost use Rattle.std.specs.Prelude.{◌≡◌, ◌≢◌, ◌++◌, true, length, drop, if◌then◌else◌, [], IfOk, OnOk};
ghost use Rattle.std.specs.FinMap.{get};
ghost use Rattle.std.specs.List.{flat_map};
ghost use Rattle.std.specs.Option.{option_copied};
ghost use Rattle.res_path.specs.Paths.{is_prefix, slashed};
ghost use Rattle.ws_elem.specs.Kinds.{is_file};
ghost use Rattle.report_text.specs.Trees.{names_text, relative_text, contents_words, tree_line, found_line, tree_lines, tree_text, digest_text};

use crate::NoMemory;
use crate::put::{put_counted, put_hexadecimal, put_text};
use res_path::Path;
use script_words::put_word;
use sha2::{Digest, Sha256};
use std::alloc::Global;
use ws_elem::{ElemMap, Element};

/// The text of what a tree has at or below the path: a line for each element, in path order. Costs a few comparisons of
/// paths for each element at or below the path, and one pass over each file's bytes.
pub fn tree_text(alloc: Global, tree: &ElemMap, at: &Path) -> Result<Vec<u8>, NoMemory>
    ensures { IfOk result (λ text. text.items ≡ tree_text tree.now.map at.now) }
{
    let paths = tree.below(alloc, at)?;
    let mut out = Vec::new(alloc);
    put_paths(&mut out, tree, at, paths.as_slice())?;
    Ok(out)
}

/// Appends the lines of what a tree has at these paths.
fn put_paths(out: &mut Vec<u8>, tree: &ElemMap, base: &Path, paths: &[Path]) -> Result<(), NoMemory>
    ensures { OnOk result (out.new.items ≡ out.old.items ++ flat_map (λ p. found_line base.now p (get tree.now.map p)) paths.now) }
{
    for path in paths {
        put_found(out, base, path, tree.get(path))?;
    }
    Ok(())
}

fn put_found(
    out: &mut Vec<u8>,
    base: &Path,
    path: &Path,
    found: Option<&Element>,
) -> Result<(), NoMemory>
    ensures { OnOk result (out.new.items ≡ out.old.items ++ found_line base.now path.now (option_copied found.entry)) }
{
    match found {
        Some(element) => put_tree_line(out, base, path, element),
        None => Ok(()),
    }
}

/// The lines of these elements, with their paths as they are seen from the base.
pub fn tree_lines(
    alloc: Global,
    elements: &[(Path, Element)],
    base: &Path,
) -> Result<Vec<u8>, NoMemory>
    ensures { IfOk result (λ text. text.items ≡ tree_lines base.now elements.now) }
{
    let mut out = Vec::new(alloc);
    for (path, element) in elements {
        put_tree_line(&mut out, base, path, element)?;
    }
    Ok(out)
}

/// The SHA-256 of the text that `tree_lines` gives, in lower-case hexadecimal.
pub fn digest_text(
    alloc: Global,
    elements: &[(Path, Element)],
    base: &Path,
) -> Result<Vec<u8>, NoMemory>
    ensures { IfOk result (λ text. text.items ≡ digest_text base.now elements.now) }
{
    let text = tree_lines(alloc, elements, base)?;
    let mut out = Vec::new(alloc);
    put_hexadecimal(&mut out, &Sha256::digest(text.as_slice()))?;
    Ok(out)
}

/// Appends the line of an element: its path as it is seen from the base, its kind, and of a file the length and the
/// SHA-256 of its bytes in lower-case hexadecimal. The base itself is a full stop; a path that isn't below the base is
/// whole.
pub fn put_tree_line(
    out: &mut Vec<u8>,
    base: &Path,
    path: &Path,
    element: &Element,
) -> Result<(), NoMemory>
    ensures { OnOk result (out.new.items ≡ out.old.items ++ tree_line base.now (path.now, element.now)) }
{
    put_word(out, relative_text(path, base))?;
    put_text(out, " ")?;
    put_text(out, element.kind.word())?;
    put_contents(out, element)?;
    put_text(out, "\n")
}

/// Appends the length and the digest of a file's bytes.
fn put_contents(out: &mut Vec<u8>, element: &Element) -> Result<(), NoMemory>
    ensures { OnOk result (out.new.items ≡ out.old.items ++ (if is_file element.now.kind then contents_words element.now.bytes else [])) }
{
    if element.kind.is_file() {
        put_digest(out, element.bytes.as_slice())
    } else {
        Ok(())
    }
}

fn put_digest(out: &mut Vec<u8>, bytes: &[u8]) -> Result<(), NoMemory>
    ensures { OnOk result (out.new.items ≡ out.old.items ++ contents_words bytes.now) }
{
    put_counted(out, " ", bytes.len() as u64)?;
    put_text(out, " ")?;
    put_hexadecimal(out, &Sha256::digest(bytes))
}

/// The path as it is seen from the base.
fn relative_text<'a>(path: &'a Path, base: &Path) -> &'a [u8]
    ensures { result.now ≡ relative_text base.now path.now }
{
    if !base.is_prefix_of(path) {
        return path.as_str().as_bytes();
    }
    if path.depth() == base.depth() {
        return ".".as_bytes();
    }
    names_below(path, base)
}

/// The names of a path after those of the base, joined by slashes.
fn names_below<'a>(path: &'a Path, base: &Path) -> &'a [u8]
    requires below { is_prefix base.now path.now ≡ true }
    requires apart { length path.now ≢ length base.now }
    ensures { result.now ≡ names_text (drop (length base.now) path.now) }
{
    let text = path.as_str().as_bytes();
    let start = kept_len(base) + 1;
    let (_, below) = text.split_at(start);
    below
}

/// How many bytes the names of a path take, each with its slash.
fn kept_len(path: &Path) -> usize
    ensures { result ≡ length (slashed path.now) }
{
    if path.depth() == 0 {
        0
    } else {
        path.as_str().len()
    }
}
