//! A file with the files that its lines include.
ghost use Rattle.std.specs.Prelude.{◌≡◌, ◌++◌, [], IfOk, OnOk};
ghost use Rattle.std.specs.List.{flat_map};
ghost use Rattle.std.specs.Option.{option_map, unwrap_or};
ghost use Rattle.include_lines.specs.Expanding.{Files, line_number, told};
ghost use Rattle.include_lines.specs.Cutting.{part_bytes, part_missing};

use crate::cutting::{CutFile, IncludeLine, Part};
use crate::message::message;
use bytes::Bytes;
use mark_set::{MarkText, NoMemory};
use std::alloc::Global;

/// The files that lines may include, by the names that stand in those lines.
pub trait Included {
    // the bytes of the file of a name, where there is one
    ghost files: { Self → Files };

    /// The bytes of the file of this name, if there is one.
    fn find(&self, name: &[u8]) -> Result<Option<&[u8]>, NoMemory>
        ensures { IfOk result (λ found. option_map (λ bytes. bytes.now) found ≡ files self.now name.now) };
}

/// A line that includes a file that isn't there.
#[derive(Drop)]
pub struct Missing {
    /// The line's number, at most 2,147,483,647.
    pub line: i32,
    /// `missing NAME`, in at most 200 bytes.
    pub message: MarkText,
}

/// What becomes of a file.
#[derive(Drop)]
pub struct Expanded {
    pub bytes: Bytes,
    /// The lines that include files that aren't there, in order.
    pub missing: Vec<Missing>,
}

/// What becomes of a file, so far.
#[derive(Drop)]
struct Making {
    bytes: Vec<u8>,
    missing: Vec<Missing>,
}

impl CutFile {
    /// The file with each line that includes another, its line feed included, replaced by the bytes of that file, as
    /// they are. A line for which there is no file is left out, and told. A file without such lines shares its bytes.
    /// Costs one pass over what it gives, and a search for each such line.
    pub fn expand<F: Included>(&self, alloc: Global, files: &F) -> Result<Expanded, NoMemory>
        ensures bytes { IfOk result (λ e. e.bytes ≡ flat_map (part_bytes (F.files files.now)) self.now) }
        ensures missing { IfOk result (λ e. e.missing.items ≡ flat_map (part_missing (F.files files.now)) self.now) }
    {
        if let [Part::Text(bytes)] = self.parts() {
            return Ok(Expanded {
                bytes: bytes.clone()?,
                missing: Vec::new(alloc),
            });
        }
        let Making { bytes, missing } = put_parts(alloc, files, self.parts())?;
        Ok(Expanded {
            bytes: Bytes::from_vec(bytes)?,
            missing,
        })
    }
}

/// What the parts come to.
fn put_parts<F: Included>(alloc: Global, files: &F, parts: &[Part]) -> Result<Making, NoMemory>
    ensures bytes { IfOk result (λ made. made.bytes.items ≡ flat_map (part_bytes (F.files files.now)) parts.now) }
    ensures missing { IfOk result (λ made. made.missing.items ≡ flat_map (part_missing (F.files files.now)) parts.now) }
{
    let mut made = Making {
        bytes: Vec::new(alloc),
        missing: Vec::new(alloc),
    };
    for part in parts {
        put_part(alloc, files, &mut made, part)?;
    }
    Ok(made)
}

/// Adds what a part comes to.
fn put_part<F: Included>(
    alloc: Global,
    files: &F,
    made: &mut Making,
    part: &Part,
) -> Result<(), NoMemory>
    ensures bytes { OnOk result (made.new.bytes.items ≡ made.old.bytes.items ++ part_bytes (F.files files.now) part.now) }
    ensures missing { OnOk result (made.new.missing.items ≡ made.old.missing.items ++ part_missing (F.files files.now) part.now) }
{
    match part {
        Part::Text(bytes) => {
            made.bytes.extend_from_slice(bytes.as_slice())?;
            Ok(())
        }
        Part::Include(line) => put_included(alloc, files, made, line),
    }
}

/// Adds the bytes of the file that the line includes, or that it isn't there.
fn put_included<F: Included>(
    alloc: Global,
    files: &F,
    made: &mut Making,
    line: &IncludeLine,
) -> Result<(), NoMemory>
    ensures bytes { OnOk result (made.new.bytes.items ≡ made.old.bytes.items ++ unwrap_or (F.files files.now line.now.name) []) }
    ensures missing { OnOk result (made.new.missing.items ≡ made.old.missing.items ++ told line.now.number line.now.name (F.files files.now line.now.name)) }
{
    match files.find(line.name.as_slice())? {
        Some(bytes) => {
            made.bytes.extend_from_slice(bytes)?;
            Ok(())
        }
        None => {
            let message = message(alloc, line.name.as_slice())?;
            made.missing.push(Missing {
                line: line_number(line.number),
                message,
            })?;
            Ok(())
        }
    }
}

/// The number that is told of a line.
fn line_number(number: u64) -> i32
    ensures { result ≡ line_number number }
{
    match i32::try_from(number) {
        Ok(line) => line,
        Err(_) => i32::MAX,
    }
}
