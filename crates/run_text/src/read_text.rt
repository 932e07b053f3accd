//! What was read.
ghost use Rattle.std.specs.Prelude.{◌≡◌, ◌++◌, OnOk};
ghost use Rattle.std.specs.List.{flat_map};
ghost use Rattle.report_text.specs.Elements.{shown_text};
ghost use Rattle.report_text.specs.Trees.{digest_text};
ghost use Rattle.run_text.specs.Replies.{first_text, contents_word, place_text, elements_text, read_text, seen_text};

use crate::NoMemory;
use core_event::Event;
use op_kind::{Entries, Op, Partners, Want};
use report_text::{digest_text, put_number, put_path, put_shown, put_text};
use res_path::{Name, Path};
use script_words::put_word;
use ws_elem::Element;

/// Appends what was asked of an element and its path.
fn put_shown_at(
    out: &mut Vec<u8>,
    path: &Path,
    element: &Element,
    partners: &[Name],
) -> Result<(), NoMemory>
    ensures { OnOk result (out.new.items ≡ out.old.items ++ place_text partners.now (path.now, element.now)) }
{
    put_path(out, "\n  ", path)?;
    put_text(out, " ")?;
    put_shown(out, element, partners)
}

/// Appends how many elements there are, and each with its path.
fn put_tree(
    out: &mut Vec<u8>,
    entries: &[(Path, Element)],
    partners: &[Name],
) -> Result<(), NoMemory>
    ensures { OnOk result (out.new.items ≡ out.old.items ++ elements_text partners.now entries.now) }
{
    put_number(out, entries.len() as u64)?;
    put_text(out, " elements")?;
    put_places(out, entries, partners)
}

fn put_places(
    out: &mut Vec<u8>,
    entries: &[(Path, Element)],
    partners: &[Name],
) -> Result<(), NoMemory>
    ensures { OnOk result (out.new.items ≡ out.old.items ++ flat_map (place_text partners.now) entries.now) }
{
    for (path, element) in entries {
        put_shown_at(out, path, element, partners)?;
    }
    Ok(())
}

/// Appends what is shown of the element, if there is one.
fn put_first(
    out: &mut Vec<u8>,
    entries: &[(Path, Element)],
    partners: &[Name],
) -> Result<(), NoMemory>
    ensures { OnOk result (out.new.items ≡ out.old.items ++ first_text (shown_text partners.now) entries.now) }
{
    match entries {
        [] => Ok(()),
        [(_, element), ..] => put_shown(out, element, partners),
    }
}

/// Appends the contents of the element, if there is one, as a word.
fn put_first_contents(out: &mut Vec<u8>, entries: &[(Path, Element)]) -> Result<(), NoMemory>
    ensures { OnOk result (out.new.items ≡ out.old.items ++ first_text contents_word entries.now) }
{
    match entries {
        [] => Ok(()),
        [(_, element), ..] => put_word(out, element.bytes.as_slice()),
    }
}

/// Appends the digest of these elements, whose paths are seen from this one.
pub fn put_digest(
    out: &mut Vec<u8>,
    path: &Path,
    entries: &[(Path, Element)],
) -> Result<(), NoMemory>
    ensures { OnOk result (out.new.items ≡ out.old.items ++ digest_text path.now entries.now) }
{
    let digest = digest_text(*out.allocator(), entries, path)?;
    match out.extend_from_slice(digest.as_slice()) {
        Ok(_) => Ok(()),
        Err(error) => Err(error),
    }
}

/// Appends what was read at the path.
fn put_read(
    out: &mut Vec<u8>,
    want: Want,
    path: &Path,
    entries: &[(Path, Element)],
    partners: &[Name],
) -> Result<(), NoMemory>
    ensures { OnOk result (out.new.items ≡ out.old.items ++ read_text want path.now entries.now partners.now) }
{
    match want {
        Want::Show => put_first(out, entries, partners),
        Want::Cat => put_first_contents(out, entries),
        Want::Tree => put_tree(out, entries, partners),
        Want::Digest => put_digest(out, path, entries),
    }
}

/// Appends what the event read.
pub(crate) fn put_seen(
    out: &mut Vec<u8>,
    event: &Event,
    entries: &Entries,
    partners: &Partners,
) -> Result<(), NoMemory>
    ensures { OnOk result (out.new.items ≡ out.old.items ++ seen_text event.now entries.now partners.now) }
{
    match event {
        Event::Operation(Op::Read(path, want)) => {
            put_read(out, *want, path, entries.as_slice(), partners.as_slice())
        }
        _ => Ok(()),
    }
}
