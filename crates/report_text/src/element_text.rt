//! What is shown of an element.
ghost use Rattle.std.specs.Prelude.{◌≡◌, ◌++◌, codes, IfOk, OnOk};
ghost use Rattle.std.specs.FinMap.{get, entries};
ghost use Rattle.std.specs.List.{flat_map};
ghost use Rattle.std.specs.Option.{option_copied};
ghost use Rattle.mark_set.specs.declared.value.Value.TheVariants as value;
ghost use Rattle.script_words.specs.Words.{word_text};
ghost use Rattle.report_text.specs.Elements.{switch, contents_text, switches_text, counts_text, value_text, attribute_text, marker_text, marks_text, partner_name, syncs_text, shown_text};

use crate::NoMemory;
use crate::put::{put_counted, put_named, put_text};
use itoa::Buffer;
use mark_set::{Attrs, MarkSet, MarkText, Marker, Value};
use res_path::Name;
use std::alloc::Global;
use sync_set::SyncSet;
use ws_elem::{Attachments, Element};

/// What is shown of an element, where the partners have these names in the order of their numbers.
pub fn shown_text(alloc: Global, element: &Element, names: &[Name]) -> Result<Vec<u8>, NoMemory>
    ensures { IfOk result (λ text. text.items ≡ shown_text names.now element.now) }
{
    let mut out = Vec::new(alloc);
    put_shown(&mut out, element, names)?;
    Ok(out)
}

/// Appends what is shown of an element, where the partners have these names in the order of their numbers: its own line,
/// and then a line for each marker, by id, and for each partner that keeps bytes with it, by number, LF before each. A
/// partner past the last name is shown with an empty one.
pub fn put_shown(out: &mut Vec<u8>, element: &Element, names: &[Name]) -> Result<(), NoMemory>
    ensures { OnOk result (out.new.items ≡ out.old.items ++ shown_text names.now element.now) }
{
    put_contents(out, element)?;
    put_switches(out, element)?;
    put_counts(out, element)?;
    let nothing = Attachments::none();
    let attachments = element.attached.or(&nothing);
    put_marks(out, &attachments.marks)?;
    put_syncs(out, &attachments.syncs, names)
}

fn put_contents(out: &mut Vec<u8>, element: &Element) -> Result<(), NoMemory>
    ensures { OnOk result (out.new.items ≡ out.old.items ++ contents_text element.now) }
{
    put_text(out, element.kind.word())?;
    put_counted(out, " node ", element.node)?;
    put_counted(out, " stamp ", element.stamp)?;
    put_counted(out, " len ", element.bytes.len() as u64)
}

fn put_switches(out: &mut Vec<u8>, element: &Element) -> Result<(), NoMemory>
    ensures { OnOk result (out.new.items ≡ out.old.items ++ switches_text element.now) }
{
    put_switch(out, " derived ", element.derived)?;
    put_switch(out, " open ", element.opened)
}

/// Appends a text, and whether it holds.
fn put_switch(out: &mut Vec<u8>, before: &str, on: bool) -> Result<(), NoMemory>
    ensures { OnOk result (out.new.items ≡ out.old.items ++ before.now ++ switch on) }
{
    put_text(out, before)?;
    put_text(out, if on { "on" } else { "off" })
}

fn put_counts(out: &mut Vec<u8>, element: &Element) -> Result<(), NoMemory>
    ensures { OnOk result (out.new.items ≡ out.old.items ++ counts_text element.now) }
{
    let nothing = Attachments::none();
    let attachments = element.attached.or(&nothing);
    put_counted(out, " desc ", attachments.desc_stamp)?;
    put_counted(out, " marks ", attachments.marks.len() as u64)?;
    put_counted(out, " syncs ", attachments.syncs.len() as u64)
}

fn put_marks(out: &mut Vec<u8>, marks: &MarkSet) -> Result<(), NoMemory>
    ensures { OnOk result (out.new.items ≡ out.old.items ++ marks_text marks.now) }
{
    let ids = marks.ids(*out.allocator())?;
    put_ids(out, marks, ids.as_slice())
}

/// Appends the markers of these ids.
fn put_ids(out: &mut Vec<u8>, marks: &MarkSet, ids: &[u64]) -> Result<(), NoMemory>
    ensures { OnOk result (out.new.items ≡ out.old.items ++ flat_map (λ id. marker_text id (get marks.now id)) ids.now) }
{
    for id in ids {
        put_marker(out, *id, marks.get(*id))?;
    }
    Ok(())
}

fn put_marker(out: &mut Vec<u8>, id: u64, marker: Option<&Marker>) -> Result<(), NoMemory>
    ensures { OnOk result (out.new.items ≡ out.old.items ++ marker_text id (option_copied marker.entry)) }
{
    let Some(marker) = marker else {
        return Ok(());
    };
    put_counted(out, "\n  mark ", id)?;
    put_named(out, " ", marker.mark_type.text().as_bytes())?;
    put_attributes(out, &marker.attrs)
}

fn put_attributes(out: &mut Vec<u8>, attrs: &Attrs) -> Result<(), NoMemory>
    ensures { OnOk result (out.new.items ≡ out.old.items ++ flat_map attribute_text (entries attrs.now)) }
{
    for (name, value) in attrs.iter() {
        put_attribute(out, name, value)?;
    }
    Ok(())
}

fn put_attribute(out: &mut Vec<u8>, name: &MarkText, value: &Value) -> Result<(), NoMemory>
    ensures { OnOk result (out.new.items ≡ out.old.items ++ attribute_text (name.now, value.now)) }
{
    put_named(out, " ", name.text().as_bytes())?;
    put_text(out, " ")?;
    put_value(out, value)
}

fn put_value(out: &mut Vec<u8>, value: &Value) -> Result<(), NoMemory>
    ensures { OnOk result (out.new.items ≡ out.old.items ++ value_text value.now) }
{
    match value {
        Value::Int(n) => put_int(out, *n),
        Value::Bool(true) => put_text(out, "bool true"),
        Value::Bool(false) => put_text(out, "bool false"),
        Value::Text(text) => put_named(out, "text ", text.text().as_bytes()),
    }
}

fn put_int(out: &mut Vec<u8>, n: i32) -> Result<(), NoMemory>
    ensures { OnOk result (out.new.items ≡ out.old.items ++ value_text (value.Int n)) }
{
    let mut buffer = Buffer::new();
    put_text(out, "int ")?;
    put_text(out, buffer.format(n))
}

fn put_syncs(out: &mut Vec<u8>, syncs: &SyncSet, names: &[Name]) -> Result<(), NoMemory>
    ensures { OnOk result (out.new.items ≡ out.old.items ++ syncs_text names.now syncs.now) }
{
    for (partner, bytes) in syncs.iter() {
        put_sync(out, partner_name(names, *partner), bytes.as_slice())?;
    }
    Ok(())
}

fn put_sync(out: &mut Vec<u8>, name: &str, bytes: &[u8]) -> Result<(), NoMemory>
    ensures { OnOk result (out.new.items ≡ out.old.items ++ codes "\n  sync " ++ word_text name.now ++ codes " " ++ word_text bytes.now) }
{
    put_named(out, "\n  sync ", name.as_bytes())?;
    put_named(out, " ", bytes)
}

fn partner_name(names: &[Name], partner: u32) -> &str
    ensures { result.now ≡ partner_name names.now partner }
{
    match names.get(partner as usize) {
        Some(name) => name.text(),
        None => "",
    }
}
