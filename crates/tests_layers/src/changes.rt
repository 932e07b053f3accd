//! Changes as they are recorded, composed and undone.
ghost use Rattle.std.specs.Prelude.{◌≡◌, ◌<◌, IfSome, IfOk, IsTrue};
ghost use Rattle.std.specs.Option.{option_copied};
ghost use Rattle.std.specs.FinMap as map;
ghost use Rattle.layer_log.specs.Records.{Meets};

use crate::asserting::holds;
use crate::elements::{copied, element, is_written, path, put, put_element, put_tree, set};
use crate::rows::{check_all, cut};
use layer_log::{Change, Changes, Steps};
use res_path::Path;
use std::alloc::Global;
use std::marker::Brand;
use std::process::Abort;
use std::sync::ledger::{Blank, Ledger};
use ws_elem::{ElemMap, Element, NoMemory};

/// The layers' changes are written `PATH=ELEMENT`, what is there afterwards, with blanks between. Told of a path are its entries
/// before and after, and of a layer first how many paths have a change.
const ROWS: &str = "each|1 /P/a=f3.2>f4.3 ; |/P/a=- /P/a=f4.3|/=r1 /P=p2 /P/a=f3.2
net|/P/a=f3.2>f4.3 |/P/a=-; /P/a=f4.3|/=r1 /P=p2 /P/a=f3.2
undo|/=r1 /P=p2 /P/a=f3.2 |/P/a=-; /P/a=f4.3|/=r1 /P=p2 /P/a=f3.2
each|2 /P/a=f3.2>- /P/b=->f3.2 ; 2 /P/b=f3.2>- /P/c=->f3.2 ; |/P/a=- /P/b=f3.2; /P/b=- /P/c=f3.2|/=r1 /P=p2 /P/a=f3.2
net|/P/a=f3.2>- /P/c=->f3.2 |/P/a=- /P/b=f3.2; /P/b=- /P/c=f3.2|/=r1 /P=p2 /P/a=f3.2
newest|/=r1 /P=p2 /P/c=f3.2 |/P/a=- /P/b=f3.2; /P/b=- /P/c=f3.2|/=r1 /P=p2 /P/a=f3.2
undo|/=r1 /P=p2 /P/a=f3.2 |/P/a=- /P/b=f3.2; /P/b=- /P/c=f3.2|/=r1 /P=p2 /P/a=f3.2
each|3 /P/a=f3.2>- /P/b=->- /P/c=->f3.2 ; |/P/a=- /P/b=f3.2 /P/b=- /P/c=f3.2|/=r1 /P=p2 /P/a=f3.2
net|/P/a=f3.2>- /P/c=->f3.2 |/P/a=- /P/b=f3.2 /P/b=- /P/c=f3.2|/=r1 /P=p2 /P/a=f3.2
net|/P/a=f3.2>d4 |/P/a=-; /P/a=d4|/=r1 /P=p2 /P/a=f3.2
each|2 /P=p2>q2 /P/a=f3.2>- ; 2 /P=q2>p2 /P/a=->f3.2 ; |/P=q2 /P/a=-; /P=p2 /P/a=f3.2|/=r1 /P=p2 /P/a=f3.2
net||/P=q2 /P/a=-; /P=p2 /P/a=f3.2|/=r1 /P=p2 /P/a=f3.2
undo|/=r1 /P=p2 /P/a=f3.2 |/P=q2 /P/a=-; /P=p2 /P/a=f3.2|/=r1 /P=p2 /P/a=f3.2
each|2 /P=p2>p2 /P/a=f3.2>f3.2 ; |/P=q2 /P/a=- /P=p2 /P/a=f3.2|/=r1 /P=p2 /P/a=f3.2
net|/P/b=f4.3>- |/P/c=f5.4 /P/c=-; /P/b=-|/=r1 /P=p2 /P/b=f4.3
net|/P/a=f3.2>f3.5 |/P/a=f3.3; /P/a=f3.4 /P/b=f4.1; /P/a=f3.5 /P/b=-|/=r1 /P=p2 /P/a=f3.2
undo|/=r1 /P=p2 /P/a=f3.2 |/P/a=f3.3; /P/a=f3.4 /P/b=f4.1; /P/a=f3.5 /P/b=-|/=r1 /P=p2 /P/a=f3.2
each|0 ; ||
net||";

/// The entry that the path has after the changes.
fn last_entry(changes: &Changes, tree: &ElemMap, path: &Path) -> Result<Option<Element>, NoMemory>
    ensures { IfOk result (λ last. IfSome (map.get changes.now path.now) (λ r. r.after ≡ last)) }
{
    match changes.get(path) {
        Some(change) => copied(change.after.as_ref()),
        None => copied(tree.get(path)),
    }
}

/// Records the path's new entry. Where memory wants, all stays as it was, and a second call does what the first would have done.
fn record(
    rt: &(impl Abort + AllocGlobal),
    changes: &mut Changes,
    path: &Path,
    before: Option<&Element>,
    after: Option<&Element>,
) -> Result<(), NoMemory>
    requires { IfSome (map.get changes.old path.now) (λ r. r.after ≡ option_copied before) }
{
    let stood = text_of(rt, changes)?;
    if changes.record(path, before, after).is_ok() {
        return Ok(());
    }
    holds(rt, text_of(rt, changes)?.as_str() == stood.as_str());
    changes.record(path, before, after)
}

/// Records the path's new entry, and does it to the tree.
fn record_at(
    rt: &(impl Abort + AllocGlobal),
    tree: &mut ElemMap,
    changes: &mut Changes,
    at: Path,
    after: Option<Element>,
) -> Result<(), NoMemory> {
    let before = last_entry(changes, tree, &at)?;
    record(rt, changes, &at, before.as_ref(), after.as_ref())?;
    set(tree, at, after)
}

/// Records what the words tell, and does it to the tree.
fn record_all(
    rt: &(impl Abort + AllocGlobal),
    tree: &mut ElemMap,
    changes: &mut Changes,
    text: &str,
) -> Result<(), NoMemory> {
    for word in text.split_whitespace() {
        let (at, what) = cut(word, '=');
        record_at(rt, tree, changes, path(rt.alloc(), at)?, element(what))?;
    }
    Ok(())
}

fn push_layer(
    rt: &(impl Abort + AllocGlobal),
    layers: &mut Vec<Changes>,
    tree: &mut ElemMap,
    text: &str,
) -> Result<(), NoMemory> {
    let mut changes = Changes::none(rt.alloc());
    record_all(rt, tree, &mut changes, text)?;
    layers.push(changes)?;
    Ok(())
}

fn push_layers(
    rt: &(impl Abort + AllocGlobal),
    layers: &mut Vec<Changes>,
    tree: &mut ElemMap,
    text: &str,
) -> Result<(), NoMemory> {
    for part in text.split(';') {
        push_layer(rt, layers, tree, part)?;
    }
    Ok(())
}

pub fn layers_of(
    rt: &(impl Abort + AllocGlobal),
    tree: &mut ElemMap,
    text: &str,
) -> Result<Vec<Changes>, NoMemory> {
    let mut layers = Vec::new(rt.alloc());
    push_layers(rt, &mut layers, tree, text)?;
    Ok(layers)
}

/// Whether the next change, if the path has one, begins as this one ends.
fn is_followed(change: Option<&Change>, next: &Change) -> Result<bool, NoMemory>
    ensures { IfOk result (λ is. IsTrue is → IfSome (option_copied change.entry) (λ r. r.after ≡ next.now.before)) }
{
    let Some(change) = change else {
        return Ok(true);
    };
    let step = Change {
        before: copied(change.after.as_ref())?,
        after: copied(next.before.as_ref())?,
    };
    Ok(step.is_idle())
}

/// Whether each path in both begins in the next as it ends in the first.
fn do_meet(first: &Changes, next: &Changes) -> Result<bool, NoMemory>
    ensures { IfOk result (λ is. IsTrue is → Meets first.now next.now) }
{
    for (path, change) in next.iter() {
        if !is_followed(first.get(path), change)? {
            return Ok(false);
        }
    }
    Ok(true)
}

fn compose(
    rt: &(impl Abort + AllocGlobal),
    first: &Changes,
    next: &Changes,
) -> Result<Changes, NoMemory> {
    if do_meet(first, next)? {
        return Changes::compose(rt.alloc(), first, next);
    }
    panic!(rt; "the layers don't meet")
}

/// The first and then the next, which takes one step for each change of the next.
fn counted<L: Ledger>(
    first: Changes,
    next: &Changes,
    blank: Blank,
) -> Result<(Changes, Steps<L>), NoMemory>
    requires name { blank.name ≡ L.name }
    requires parts { blank.parts ≡ L.parts }
    requires some { 0 < blank.parts }
    requires meets { Meets first next.now }
    ensures steps { IfOk result (λ r. r.1 ≡ map.len next.now) }
{
    let mut steps = Steps::start(blank);
    let joined = first.then(next, &mut steps)?;
    Ok((joined, steps))
}

fn join<L: Ledger>(
    rt: &impl Abort,
    first: Changes,
    next: &Changes,
    blank: Blank,
) -> Result<Changes, NoMemory>
    requires name { blank.name ≡ L.name }
    requires parts { blank.parts ≡ L.parts }
    requires some { 0 < blank.parts }
{
    if do_meet(&first, next)? {
        let (joined, _) = counted::<L>(first, next, blank)?;
        return Ok(joined);
    }
    panic!(rt; "the layers don't meet")
}

/// What the layers come to by `compose`, which is what they come to by `then`.
pub fn net_of(rt: &(impl Abort + AllocGlobal), layers: &[Changes]) -> Result<Changes, NoMemory> {
    let mut net = Changes::none(rt.alloc());
    let mut joined = Changes::none(rt.alloc());
    for layer in layers {
        net = compose(rt, &net, layer)?;
        joined = join::<Brand>(rt, joined, layer, Blank::new(1))?;
    }
    holds(
        rt,
        text_of(rt, &net)?.as_str() == text_of(rt, &joined)?.as_str(),
    );
    Ok(net)
}

fn put_change(
    alloc: Global,
    out: &mut String,
    path: &Path,
    change: &Change,
) -> Result<(), NoMemory> {
    put(out, path.as_str())?;
    put(out, "=")?;
    put_element(alloc, out, change.before.as_ref())?;
    put(out, ">")?;
    put_element(alloc, out, change.after.as_ref())?;
    put(out, " ")
}

/// The entries of each path, in path order, of a copy of its change.
pub fn put_changes(
    rt: &(impl Abort + AllocGlobal),
    out: &mut String,
    changes: &Changes,
) -> Result<(), NoMemory> {
    for (path, change) in changes.iter() {
        put_change(rt.alloc(), out, path, &change.copy()?)?;
        holds(rt, changes.get(path).is_some());
    }
    Ok(())
}

/// How many paths have a change in each layer, and their entries.
pub fn put_each(
    rt: &(impl Abort + AllocGlobal),
    out: &mut String,
    layers: &[Changes],
) -> Result<(), NoMemory> {
    for layer in layers {
        put_counted(rt, out, layer)?;
    }
    Ok(())
}

fn put_counted(
    rt: &(impl Abort + AllocGlobal),
    out: &mut String,
    changes: &Changes,
) -> Result<(), NoMemory> {
    let count = changes.len();
    put(out, format!(in rt.alloc(); "{count} ")?.as_str())?;
    put_changes(rt, out, changes)?;
    put(out, "; ")
}

fn text_of(rt: &(impl Abort + AllocGlobal), changes: &Changes) -> Result<String, NoMemory> {
    let mut out = String::new(rt.alloc());
    put_changes(rt, &mut out, changes)?;
    Ok(out)
}

/// The tree before the layers, the last one undone first.
fn undone(newest: &ElemMap, layers: &[Changes]) -> Result<ElemMap, NoMemory> {
    let mut tree = newest.copy()?;
    for layer in layers.iter().rev() {
        tree = layer.undo(&tree)?;
    }
    Ok(tree)
}

/// The tree before the layers, to which their net change leads back at once.
pub fn put_undone(
    rt: &(impl Abort + AllocGlobal),
    out: &mut String,
    newest: &ElemMap,
    layers: &[Changes],
) -> Result<(), NoMemory> {
    put_tree(rt.alloc(), out, &undone(newest, layers)?)?;
    let at_once = net_of(rt, layers)?.undo(newest)?;
    is_written(rt, &at_once, out.as_str())
}

#[test]
fn changes_are_what_the_rows_say(rt: HostRuntime) {
    check_all(&rt, ROWS);
}
