//! Elements as they are written. Nothing is copied, and no memory is taken but the sink's own.

ghost use Rattle.std.specs.Prelude.{◌≡◌, ◌<◌, ◌^◌, [], ◌∷◌, length, map, OnOk};
ghost use Rattle.std.specs.List.{flat_map, AllByRecursion};
ghost use Rattle.std.specs.FinMap as finite;
ghost use Rattle.save_form.specs.Lists.{list};
ghost use Rattle.save_elem.specs.Elems.{kind, value, attribute, marker, sync, elem};
ghost use Rattle.save_elem.specs.Telling.{told, told_value, told_attr, told_mark, told_sync, lasting, saved, IsNarrow, IsNarrowAttr, IsNarrowMark, IsNarrowSync};
ghost use Rattle.save_elem.specs.Inside.Spellings.{spell_attr, spell_mark, spell_sync};

use mark_set::{Attrs, MarkSet, MarkText, Marker, Value};
use save_sink::{Sink, put_flag, put_text, put_u8, put_u32, put_u64};
use sync_set::SyncSet;
use ws_elem::{Attachments, Element, Kind};

fn put_kind<S: Sink>(sink: &mut S, of: Kind) -> Result<(), S::Fault>
    ensures { OnOk result (sink.new ≡ S.after sink.old (kind.spell of)) }
{
    put_u8(sink, of.number())
}

#[tactic(auto, unfolding(crate::specs::Elems::value))]
fn put_value<S: Sink>(sink: &mut S, of: &Value) -> Result<(), S::Fault>
    ensures { OnOk result (sink.new ≡ S.after sink.old (value.spell (told_value of.now))) }
{
    match of {
        Value::Int(n) => {
            put_u8(sink, 0)?;
            put_u32(sink, n.cast_unsigned())
        }
        Value::Bool(b) => {
            put_u8(sink, 1)?;
            put_flag(sink, *b)
        }
        Value::Text(text) => {
            put_u8(sink, 2)?;
            put_text(sink, text.text().as_bytes())
        }
    }
}

fn put_attr<S: Sink>(sink: &mut S, name: &MarkText, value: &Value) -> Result<(), S::Fault>
    ensures { OnOk result (sink.new ≡ S.after sink.old (spell_attr (name.now, value.now))) }
{
    put_text(sink, name.text().as_bytes())?;
    put_value(sink, value)
}

fn put_each_attr<S: Sink>(sink: &mut S, attrs: &Attrs) -> Result<(), S::Fault>
    ensures { OnOk result (sink.new ≡ S.after sink.old (flat_map spell_attr (finite.entries attrs.now))) }
{
    for (name, value) in attrs.iter() {
        put_attr(sink, name, value)?;
    }
    Ok(())
}

#[tactic(auto, using(crate::proofs::Each::spelled_lists))]
fn put_attrs<S: Sink>(sink: &mut S, attrs: &Attrs) -> Result<(), S::Fault>
    requires { length (map told_attr (finite.entries attrs.now)) < 2 ^ 32 }
    ensures { OnOk result (sink.new ≡ S.after sink.old ((list attribute).spell (map told_attr (finite.entries attrs.now)))) }
{
    put_u32(sink, attrs.len() as u32)?;
    put_each_attr(sink, attrs)
}

fn put_mark<S: Sink>(sink: &mut S, of: &Marker) -> Result<(), S::Fault>
    requires { IsNarrowMark (told_mark of.now) }
    ensures { OnOk result (sink.new ≡ S.after sink.old (spell_mark of.now)) }
{
    put_u64(sink, of.id)?;
    put_text(sink, of.mark_type.text().as_bytes())?;
    put_attrs(sink, &of.attrs)
}

fn put_each_mark<S: Sink>(sink: &mut S, marks: &MarkSet) -> Result<(), S::Fault>
    requires { AllByRecursion IsNarrowMark (map told_mark (lasting marks.now)) }
    ensures { OnOk result (sink.new ≡ S.after sink.old (flat_map spell_mark (lasting marks.now))) }
{
    for of in marks.iter() {
        put_lasting(sink, of)?;
    }
    Ok(())
}

fn put_lasting<S: Sink>(sink: &mut S, of: &Marker) -> Result<(), S::Fault>
    requires { AllByRecursion IsNarrowMark (map told_mark (saved (of.now ∷ []))) }
    ensures { OnOk result (sink.new ≡ S.after sink.old (flat_map spell_mark (saved (of.now ∷ [])))) }
{
    if of.is_transient() {
        return Ok(());
    }
    put_mark(sink, of)
}

/// How many markers are saved.
pub fn count_lasting(marks: &MarkSet) -> usize
    ensures { result ≡ length (lasting marks.now) }
{
    let _all = marks.len();
    let mut count = 0;
    for of in marks.iter() {
        count += count_one(of);
    }
    count
}

fn count_one(of: &Marker) -> usize
    ensures { result ≡ length (saved (of.now ∷ [])) }
{
    if of.is_transient() { 0 } else { 1 }
}

#[tactic(auto, using(crate::proofs::Each::spelled_lists))]
fn put_marks<S: Sink>(sink: &mut S, marks: &MarkSet) -> Result<(), S::Fault>
    requires count { length (map told_mark (lasting marks.now)) < 2 ^ 32 }
    requires narrow { AllByRecursion IsNarrowMark (map told_mark (lasting marks.now)) }
    ensures { OnOk result (sink.new ≡ S.after sink.old ((list marker).spell (map told_mark (lasting marks.now)))) }
{
    put_u32(sink, count_lasting(marks) as u32)?;
    put_each_mark(sink, marks)
}

fn put_each_sync<S: Sink>(sink: &mut S, syncs: &SyncSet) -> Result<(), S::Fault>
    requires { AllByRecursion IsNarrowSync (map told_sync (finite.entries syncs.now)) }
    ensures { OnOk result (sink.new ≡ S.after sink.old (flat_map spell_sync (finite.entries syncs.now))) }
{
    for (partner, bytes) in syncs.iter() {
        put_u32(sink, *partner)?;
        put_text(sink, bytes)?;
    }
    Ok(())
}

#[tactic(auto, using(crate::proofs::Each::spelled_lists))]
fn put_syncs<S: Sink>(sink: &mut S, syncs: &SyncSet) -> Result<(), S::Fault>
    requires count { length (map told_sync (finite.entries syncs.now)) < 2 ^ 32 }
    requires narrow { AllByRecursion IsNarrowSync (map told_sync (finite.entries syncs.now)) }
    ensures { OnOk result (sink.new ≡ S.after sink.old ((list sync).spell (map told_sync (finite.entries syncs.now)))) }
{
    put_u32(sink, syncs.len() as u32)?;
    put_each_sync(sink, syncs)
}

/// The element without its transient markers. Nothing of it is copied.
#[tactic(auto, unfolding(crate::specs::Elems::elem))]
pub fn put_elem<S: Sink>(sink: &mut S, element: &Element) -> Result<(), S::Fault>
    requires { IsNarrow (told element.now) }
    ensures { OnOk result (sink.new ≡ S.after sink.old (elem.spell (told element.now))) }
{
    let nothing = Attachments::none();
    let attached = element.attached.or(&nothing);
    put_kind(sink, element.kind)?;
    put_u64(sink, element.node)?;
    put_u64(sink, element.stamp)?;
    put_flag(sink, element.opened)?;
    put_flag(sink, element.derived)?;
    put_u64(sink, attached.desc_stamp)?;
    put_text(sink, &attached.desc)?;
    put_text(sink, &element.bytes)?;
    put_marks(sink, &attached.marks)?;
    put_syncs(sink, &attached.syncs)
}
