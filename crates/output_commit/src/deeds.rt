//! What is to be put at one path.
ghost use Rattle.std.specs.Prelude.{◌≡◌, Some, IfOk};
ghost use Rattle.std.specs.Option.{option_copied};
ghost use Rattle.ws_elem.specs.Kinds.{is_file};
ghost use Rattle.op_kind.specs.Places.{has_file};
ghost use Rattle.output_commit.specs.Placed.{has_bytes, is_container, serves, is_rewritten, made, rewritten, fresh, nodes_of, stamps_of};

use crate::NoMemory;
use bytes::Bytes;
use output_edits::new_file;
use ws_elem::{Element, Kind};

/// Whether a file with these contents is there.
fn has_bytes(bytes: &Bytes, there: Option<&Element>) -> bool
    ensures { result ≡ has_bytes bytes.now (option_copied there.entry) }
{
    match there {
        None => false,
        Some(element) => element.kind.is_file() && element.bytes == *bytes,
    }
}

/// Whether something is there in which files can lie.
fn is_container(there: Option<&Element>) -> bool
    ensures { result ≡ is_container (option_copied there.entry) }
{
    match there {
        None => false,
        Some(element) => !element.kind.is_file(),
    }
}

/// Whether a file is there.
pub(crate) fn has_file(there: Option<&Element>) -> bool
    ensures { result ≡ has_file (option_copied there.entry) }
{
    match there {
        None => false,
        Some(element) => element.kind.is_file(),
    }
}

/// Whether what is there serves.
pub(crate) fn serves(wanted: &Element, there: Option<&Element>) -> bool
    ensures { result ≡ serves wanted.now (option_copied there.entry) }
{
    if wanted.kind.is_file() {
        has_bytes(&wanted.bytes, there)
    } else {
        is_container(there)
    }
}

/// Whether what is there is a file that gets other contents.
fn is_rewritten(wanted: &Element, there: Option<&Element>) -> bool
    ensures { result ≡ is_rewritten wanted.now (option_copied there.entry) }
{
    wanted.kind.is_file() && has_file(there)
}

/// How many nodes are drawn for what is to be put.
pub(crate) fn nodes_of(wanted: &Element, there: Option<&Element>) -> u64
    ensures { result ≡ nodes_of wanted.now (option_copied there.entry) }
{
    if serves(wanted, there) || is_rewritten(wanted, there) {
        0
    } else {
        1
    }
}

/// How many stamps are drawn for what is to be put.
pub(crate) fn stamps_of(wanted: &Element, there: Option<&Element>) -> u64
    ensures { result ≡ stamps_of wanted.now (option_copied there.entry) }
{
    if wanted.kind.is_file() && !serves(wanted, there) {
        1
    } else {
        0
    }
}

/// What is to be put, with these numbers: nothing, where what is there serves.
pub(crate) fn fresh(
    node: u64,
    stamp: u64,
    wanted: &Element,
    there: Option<&Element>,
) -> Result<Option<Element>, NoMemory>
    ensures { IfOk result (λ e. e ≡ fresh node stamp wanted.now (option_copied there.entry)) }
{
    if serves(wanted, there) {
        return Ok(None);
    }
    if !is_rewritten(wanted, there) {
        return Ok(Some(made(node, stamp, wanted)?));
    }
    match there {
        None => Ok(None),
        Some(file) => Ok(Some(rewritten(file, stamp, &wanted.bytes)?)),
    }
}

/// The file with other contents and this stamp.
fn rewritten(file: &Element, stamp: u64, bytes: &Bytes) -> Result<Element, NoMemory>
    ensures { IfOk result (λ e. e ≡ rewritten stamp bytes.now file.now) }
{
    let mut element = file.copy()?;
    element.stamp = stamp;
    element.bytes = bytes.clone()?;
    Ok(element)
}

/// A new file or folder with these numbers.
fn made(node: u64, stamp: u64, wanted: &Element) -> Result<Element, NoMemory>
    ensures { IfOk result (λ e. e ≡ made node stamp wanted.now) }
{
    if wanted.kind.is_file() {
        new_file(node, stamp, &wanted.bytes)
    } else {
        Ok(Element::bare(Kind::Folder, node))
    }
}
