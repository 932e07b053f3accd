//! Elements and trees as they are written in rows.
ghost use Rattle.std.specs.Prelude.{◌≡◌, IfOk};
ghost use Rattle.std.specs.Option.{option_copied};

use crate::asserting::holds;
use crate::rows::cut;
use res_path::Path;
use std::alloc::{AllocError, Global};
use std::process::Abort;
use ws_elem::{ElemMap, Element, Kind, NoMemory};

/// The number that the text is, 0 where it is none.
pub fn number(text: &str) -> u64 {
    match text.parse() {
        Ok(number) => number,
        Err(_) => 0,
    }
}

fn kind_of(letter: &str) -> Option<(Kind, bool)> {
    match letter {
        "r" => Some((Kind::Root, false)),
        "p" => Some((Kind::Project, true)),
        "q" => Some((Kind::Project, false)),
        "d" => Some((Kind::Folder, false)),
        "f" => Some((Kind::File, false)),
        _ => None,
    }
}

/// An element: a letter, of which `p` is an open project's and `q` a closed one's, the node, and the stamp after a dot. Anything
/// else is none.
pub fn element(text: &str) -> Option<Element> {
    let (letter, rest) = text.split_at_checked(1)?;
    let (kind, opened) = kind_of(letter)?;
    let (node, stamp) = cut(rest, '.');
    Some(Element {
        stamp: number(stamp),
        opened,
        ..Element::bare(kind, number(node))
    })
}

pub fn copied(element: Option<&Element>) -> Result<Option<Element>, NoMemory>
    ensures { IfOk result (λ copy. copy ≡ option_copied element.entry) }
{
    match element {
        Some(element) => Ok(Some(element.copy()?)),
        None => Ok(None),
    }
}

pub fn path(alloc: Global, text: &str) -> Result<Path, NoMemory> {
    match Path::parse(alloc, text) {
        Ok(path) => Ok(path),
        Err(_) => Err(AllocError),
    }
}

pub fn set(tree: &mut ElemMap, path: Path, element: Option<Element>) -> Result<(), NoMemory> {
    match element {
        Some(element) => {
            tree.put(path, element)?;
        }
        None => {
            tree.take(&path);
        }
    }
    Ok(())
}

/// The tree of words `PATH=ELEMENT` with blanks between.
pub fn tree_of(alloc: Global, text: &str) -> Result<ElemMap, NoMemory> {
    let mut tree = ElemMap::empty(alloc);
    for word in text.split_whitespace() {
        let (at, what) = cut(word, '=');
        set(&mut tree, path(alloc, at)?, element(what))?;
    }
    Ok(tree)
}

pub fn put(out: &mut String, text: &str) -> Result<(), NoMemory> {
    out.push_str(text)?;
    Ok(())
}

fn letter_of(element: &Element) -> &'static str {
    match element.kind {
        Kind::Root => "r",
        Kind::Project if element.opened => "p",
        Kind::Project => "q",
        Kind::Folder => "d",
        Kind::File => "f",
    }
}

/// The element as it is written, or a dash for none.
pub fn put_element(
    alloc: Global,
    out: &mut String,
    element: Option<&Element>,
) -> Result<(), NoMemory> {
    let Some(element) = element else {
        return put(out, "-");
    };
    let node = element.node;
    put(out, letter_of(element))?;
    put(out, format!(in alloc; "{node}")?.as_str())?;
    let stamp = element.stamp;
    if stamp != 0 {
        put(out, format!(in alloc; ".{stamp}")?.as_str())?;
    }
    Ok(())
}

/// The tree as it is written.
pub fn put_tree(alloc: Global, out: &mut String, tree: &ElemMap) -> Result<(), NoMemory> {
    for (path, element) in tree.iter() {
        put(out, path.as_str())?;
        put(out, "=")?;
        put_element(alloc, out, Some(element))?;
        put(out, " ")?;
    }
    Ok(())
}

/// The tree is written so.
pub fn is_written(
    rt: &(impl Abort + AllocGlobal),
    tree: &ElemMap,
    text: &str,
) -> Result<(), NoMemory> {
    let mut out = String::new(rt.alloc());
    put_tree(rt.alloc(), &mut out, tree)?;
    holds(rt, out.as_str() == text);
    Ok(())
}
