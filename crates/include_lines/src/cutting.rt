//! A file cut at the lines that include others.
ghost use Rattle.std.specs.Prelude.{◌≡◌, ◌++◌, ◌+◌, ◌≤◌, ◌<◌, length, take, drop, IfOk, OnOk};
ghost use Rattle.std.specs.List.{flat_map};
ghost use Rattle.include_lines.specs.Expanding.{Files, expanded, missing};
ghost use Rattle.include_lines.specs.Cutting.{AreParts, part_bytes, part_missing};

use crate::NoMemory;
use crate::lines::{first_line, include_name};
use bytes::Bytes;
use std::alloc::Global;
use std::marker::Model;

/// A line that includes a file.
#[derive(Drop)]
pub struct IncludeLine {
    pub number: u64,
    pub name: Bytes,
}

/// A part of a file.
#[derive(Drop)]
pub enum Part {
    /// Lines that include no file.
    Text(Bytes),
    Include(IncludeLine),
}

/// A file cut at the lines that include others. A contract sees the list of its parts.
#[derive(Drop)]
pub struct CutFile {
    parts: Vec<Part>,
}

impl Model for CutFile {
    ghost use Rattle.std.specs.Prelude.{List};
    ghost use Rattle.include_lines.specs.declared.cutting.Part.{Part};

    ghost Value = { List Part };

    ghost view = { λ c. c.parts.items };
}

impl CutFile {
    /// The parts of the file, whose bytes are shared. The first line has the number `first`, which is 1 for a whole
    /// file; one past the greatest number keeps that. Costs one pass over the bytes.
    pub fn of(alloc: Global, bytes: &Bytes, first: u64) -> Result<CutFile, NoMemory>
        ensures { IfOk result (λ cut. AreParts first bytes.now cut) }
    {
        let mut parts = Vec::new(alloc);
        let mut left = bytes.clone()?;
        let mut plain = 0;
        let mut number = first;
        while plain < left.len() {
            plain = pass_line(alloc, &mut parts, &mut left, plain, number)?;
            number = number.saturating_add(1);
        }
        push_text(&mut parts, left)?;
        Ok(CutFile { parts })
    }

    /// The parts in order.
    pub fn parts(&self) -> &[Part]
        ensures { result.now ≡ self.now }
    {
        self.parts.as_slice()
    }
}

/// Passes the line of this number, which follows the plain ones that are passed already. Where it includes a file, it
/// becomes a part, and the plain ones before it too; how many bytes of plain ones then lie before the next line.
fn pass_line(
    alloc: Global,
    parts: &mut Vec<Part>,
    left: &mut Bytes,
    plain: usize,
    number: u64,
) -> Result<usize, NoMemory>
    requires { plain < length left.old }
    ensures whole { IfOk result (λ next. (files : Files) → flat_map (part_bytes files) parts.new.items ++ take next left.new ++ expanded files (drop next left.new)
        ≡ flat_map (part_bytes files) parts.old.items ++ take plain left.old ++ expanded files (drop plain left.old)) }
    ensures told { IfOk result (λ next. (files : Files) → flat_map (part_missing files) parts.new.items ++ missing files (number + 1) (drop next left.new)
        ≡ flat_map (part_missing files) parts.old.items ++ missing files number (drop plain left.old)) }
    ensures bound { IfOk result (λ next. next ≤ length left.new) }
    ensures shorter { IfOk result (λ next. length (drop next left.new) < length (drop plain left.old)) }
{
    let (line, _) = first_line(left.as_slice().split_at(plain).1);
    let size = line.len();
    let Some(name) = include_name(line) else {
        return Ok(plain + size);
    };
    let name = Bytes::copy_from_slice(alloc, name)?;
    let text = left.split_to(plain)?;
    push_text(parts, text)?;
    left.advance(size);
    parts.push(Part::Include(IncludeLine { number, name }))?;
    Ok(0)
}

/// Adds a part of lines that include no file, where there are some.
fn push_text(parts: &mut Vec<Part>, text: Bytes) -> Result<(), NoMemory>
    ensures whole { OnOk result ((files : Files) → flat_map (part_bytes files) parts.new.items ≡ flat_map (part_bytes files) parts.old.items ++ text) }
    ensures told { OnOk result ((files : Files) → flat_map (part_missing files) parts.new.items ≡ flat_map (part_missing files) parts.old.items) }
{
    if !text.is_empty() {
        parts.push(Part::Text(text))?;
    }
    Ok(())
}
