//! Sets of markers: what each change answers, what stands then, and what a delta tells.
//!
//! Values are copied, taken apart and put together on their way.
use crate::asserting::{holds, must};
use crate::rows::{Row, check, cut, number, put, put_shown, row_of, spelt};
use mark_set::{
    Attrs, Change, MarkError, MarkSet, MarkText, Marker, MarkerDelta, RawAttrs, RawText, RawValue,
    Value, ValueCause,
};
use std::process::Abort;

/// Changes stand with a semicolon between: `new` makes a marker of a type with attributes, `put` gives one attribute a
/// value, `off` takes one away, `del` takes the marker away. A value is a number, `true`, `false` or a text.
///
/// `answers` gives the answers, `stays` what stands after them, `types` the ids of a type, `durable` what is saved, `delta`
/// what becomes of the first set by more changes, and `text` whether a text of this length is one of a marker's.
const ROWS: &str =
    "stays|7 problem message=first severity=-2, |new 7 problem severity=0 message=first severity=-2
stays|1 problem done=true severity=2, |new 1 problem severity=2 done=true
stays|1 problem done=true severity=2, |new 1 problem severity=1 done=true; put 1 severity=2
stays|1 problem a=0 b=2 c=1, |new 1 problem c=1; put 1 b=2; put 1 a=0
stays|1 problem b=2, |new 1 problem c=1 a=1 b=2; off 1 a; off 1 c; off 1 x
stays|1 task, 2 problem, |new 2 problem; new 3 problem; new 1 task; del 3
stays|none|new 1 t; new 2 t; new 4 t; new 3 t; del 1; del 2; del 3; del 4
answers|ok unknown ok unknown |new 1 t; del 2; del 1; del 1
answers|ok empty long-name empty long-text |new 1 problem; new 2 0*t message=65536*t; new 2 256*t =1; new 2 problem =1; new 2 problem message=65536*t
answers|ok unknown empty long-name empty long-text ok |new 1 problem; off 9 0*n; off 1 0*n; off 1 256*n; put 1 =65536*t; put 1 a=65536*t; put 1 a=65535*t
stays|1 problem, |new 1 problem; new 2 0*t; new 2 256*t; new 2 problem =1; new 2 problem message=65536*t; off 9 a; off 1 0*n; off 1 256*n; del 9
answers|empty ok ok long-name long-name long-name |new 1 0*t; new 2 t; new 3 255*t; new 4 256*t; new 5 65535*t; new 6 65536*t
answers|empty ok ok long-name long-name long-name |new 1 t =true; new 2 t t=true; new 3 t 255*t=true; new 4 t 256*t=true; new 5 t 65535*t=true; new 6 t 65536*t=true
answers|ok ok long-text |new 1 t message=0*t; new 2 t message=65535*t; new 3 t message=65536*t
text|ok |65535*t
text|long-text |65536*t
types|1 2 |new 4 task; new 2 problem; new 1 problem; new 3 task|problem
types||new 4 task; new 2 problem|prob
durable|1 problem transient=false, 3 task transient=1, 4 task, |new 4 task; new 2 problem transient=true; new 1 problem transient=false; new 3 task transient=1
durable|2 problem, |new 2 problem transient=true; off 2 transient
durable|none|new 2 problem transient=true
delta|3 - problem done=false, 9 * problem done=false, 12 + problem, |new 9 problem done=false; new 3 problem done=false; new 5 problem done=false|del 3; put 9 done=true; put 9 done=yes; new 12 problem done=true
delta||new 9 problem done=false; new 3 problem|put 9 done=true; put 9 done=false
delta|1 * task, |new 1 task|del 1; new 1 problem";

fn raw(rt: &(impl Abort + AllocGlobal), text: &str) -> RawText {
    let text = RawText::of(spelt(rt, text));
    RawText::of(must(rt, text.copy()).into_string())
}

fn raw_value(rt: &(impl Abort + AllocGlobal), text: &str) -> RawValue {
    let value = match (text, text.parse()) {
        ("true", _) => RawValue::Bool(true),
        ("false", _) => RawValue::Bool(false),
        (_, Ok(number)) => RawValue::Int(number),
        _ => RawValue::Text(raw(rt, text)),
    };
    let copy = must(rt, value.copy());
    holds(rt, copy == value);
    copy
}

fn raw_attributes(rt: &(impl Abort + AllocGlobal), text: &str) -> RawAttrs {
    let mut attrs = RawAttrs::empty(rt.alloc());
    for word in text.split_whitespace() {
        let (name, value) = cut(word, '=');
        must(rt, attrs.push(raw(rt, name), raw_value(rt, value)));
    }
    let again = RawAttrs::of(must(rt, attrs.copy()).into_vec());
    holds(rt, again.len() == attrs.len());
    again
}

fn answer(given: Result<(), MarkError>) -> &'static str {
    match given {
        Ok(()) => "ok ",
        Err(MarkError::MarkerUnknown) => "unknown ",
        Err(MarkError::BadValue(ValueCause::EmptyName)) => "empty ",
        Err(MarkError::BadValue(ValueCause::LongName)) => "long-name ",
        Err(MarkError::BadValue(ValueCause::LongText)) => "long-text ",
        Err(MarkError::Memory) => "memory ",
    }
}

fn change(
    rt: &(impl Abort + AllocGlobal),
    marks: &mut MarkSet,
    text: &str,
) -> Result<(), MarkError> {
    let (verb, rest) = cut(text.trim(), ' ');
    let (id, rest) = cut(rest, ' ');
    let id = u64::from(number(id));
    if verb == "new" {
        let (kind, rest) = cut(rest, ' ');
        let attrs = raw_attributes(rt, rest);
        return marks.create(rt.alloc(), id, spelt(rt, kind).as_str(), attrs.as_slice());
    }
    let (name, value) = cut(rest, '=');
    let value = match verb {
        "put" => Some(raw_value(rt, value)),
        "off" => None,
        _ => return marks.delete(id),
    };
    marks.set(rt.alloc(), id, spelt(rt, name).as_str(), value)
}

/// Makes changes, and tells their answers.
fn put_changes(rt: &(impl Abort + AllocGlobal), out: &mut String, marks: &mut MarkSet, text: &str) {
    for part in text.split(';') {
        put(rt, out, answer(change(rt, marks, part)));
    }
}

fn set_of(rt: &(impl Abort + AllocGlobal), text: &str) -> MarkSet {
    let mut marks = MarkSet::empty();
    for part in text.split(';') {
        let _ = change(rt, &mut marks, part);
    }
    must(rt, marks.copy())
}

fn again(attrs: Attrs) -> Attrs {
    Attrs::of(attrs.into_vec())
}

fn put_attributes(rt: &(impl Abort + AllocGlobal), out: &mut String, attrs: &Attrs) {
    let attrs = again(must(rt, attrs.copy()));
    holds(rt, attrs.is_empty() == (attrs == Attrs::empty(rt.alloc())));
    holds(rt, attrs.is_empty() == (attrs.len() == 0));
    for (name, value) in attrs.iter() {
        holds(rt, attrs.get(name) == Some(value));
        put(rt, out, " ");
        put(rt, out, must(rt, name.copy()).text());
        put(rt, out, "=");
        match must(rt, value.copy()) {
            Value::Int(n) => put_shown(rt, out, &n),
            Value::Bool(on) => put_shown(rt, out, &on),
            Value::Text(text) => put(rt, out, text.text()),
        }
    }
    put(rt, out, ", ");
}

fn put_marker(rt: &(impl Abort + AllocGlobal), out: &mut String, marker: &Marker) {
    let marker = must(rt, marker.copy());
    put_shown(rt, out, &marker.id);
    put(rt, out, " ");
    put(rt, out, marker.mark_type.text());
    put_attributes(rt, out, &marker.attrs);
}

fn put_set(rt: &(impl Abort + AllocGlobal), out: &mut String, marks: &MarkSet) {
    let ids = must(rt, marks.ids(rt.alloc()));
    holds(rt, ids.len() == marks.len());
    if marks.is_empty() {
        put(rt, out, "none");
    }
    for id in &ids {
        if let Some(marker) = marks.get(*id) {
            put_marker(rt, out, marker);
        }
    }
}

pub fn put_delta(rt: &(impl Abort + AllocGlobal), out: &mut String, delta: &MarkerDelta) {
    let delta = must(rt, delta.copy());
    let sign = match delta.change {
        Change::Added => " + ",
        Change::Removed => " - ",
        Change::Changed => " * ",
    };
    put_shown(rt, out, &delta.id);
    put(rt, out, sign);
    put(rt, out, delta.mark_type.text());
    put_attributes(rt, out, &delta.old);
}

fn put_deltas(rt: &(impl Abort + AllocGlobal), out: &mut String, old: &MarkSet, changes: &str) {
    let mut new = must(rt, old.copy());
    holds(rt, new == *old);
    for part in changes.split(';') {
        let _ = change(rt, &mut new, part);
    }
    for delta in &must(rt, MarkSet::delta(rt.alloc(), old, &new)) {
        put_delta(rt, out, delta);
    }
}

fn put_type(rt: &(impl Abort + AllocGlobal), out: &mut String, marks: &MarkSet, kind: &str) {
    for id in &must(rt, marks.by_type(rt.alloc(), kind)) {
        put_shown(rt, out, id);
        put(rt, out, " ");
    }
}

fn parsed(rt: &(impl Abort + AllocGlobal), text: &str) -> Result<(), MarkError> {
    MarkText::parse(rt.alloc(), spelt(rt, text).as_str())?;
    Ok(())
}

fn told(rt: &(impl Abort + AllocGlobal), row: &Row<'_>) -> String {
    let mut out = String::new(rt.alloc());
    let marks = set_of(rt, row.one);
    match row.word {
        "answers" => put_changes(rt, &mut out, &mut MarkSet::empty(), row.one),
        "stays" => put_set(rt, &mut out, &marks),
        "types" => put_type(rt, &mut out, &marks, row.two),
        "durable" => put_set(rt, &mut out, &must(rt, marks.durable(rt.alloc()))),
        "delta" => put_deltas(rt, &mut out, &marks, row.two),
        _ => put(rt, &mut out, answer(parsed(rt, row.one))),
    }
    out
}

#[test]
fn sets_of_markers_are_what_the_rows_say(rt: HostRuntime) {
    for line in ROWS.lines() {
        let row = row_of(line);
        check(&rt, &row, told(&rt, &row).as_str());
    }
}
