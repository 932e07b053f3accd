//! The whole text.

ghost use Rattle.std.specs.Prelude.{◌≡◌, ◌<◌, ◌-◌, ◌^◌, ◌↔◌, ◌++◌, length, map, min, IsTrue, OnOk};
ghost use Rattle.std.specs.List.{flat_map, AllByRecursion};
ghost use Rattle.save_form.specs.Forms.{number};
ghost use Rattle.save_state.specs.States.{state};
ghost use Rattle.save_text.specs.Telling.{nothing, told_row, AreNarrow, IsNarrowBuilt, IsNarrowKept, IsNarrowState};
ghost use Rattle.save_text.specs.Inside.Between.{between};
ghost use Rattle.save_text.specs.Inside.Spellings.{spell_built, spell_kept, spell_state};
ghost use Rattle.save_text.specs.Inside.Told.{told_built, told_kept, told_state};

use crate::records::{put_built, put_kept, put_names};
use crate::source::{Trees, are_changes_narrow, put_changes};
use save_sink::{Length, Sink, put_u32, put_u64};
use ws_durable::{Built, Durable, Kept};
use ws_elem::ElemMap;

fn put_built_of<S: Sink>(sink: &mut S, tree: &ElemMap, of: &Built) -> Result<(), S::Fault>
    requires { IsNarrowBuilt (told_built tree.now.map of.now) }
    ensures { OnOk result (sink.new ≡ S.after sink.old (spell_built (told_built tree.now.map of.now))) }
{
    let changes = Trees {
        before: tree,
        after: &of.tree,
    };
    let references = of.references.as_slice();
    put_built(
        sink,
        &of.project,
        of.index,
        &of.command,
        references,
        &changes,
    )
}

fn put_each_built<S: Sink>(sink: &mut S, tree: &ElemMap, built: &[Built]) -> Result<(), S::Fault>
    requires { AllByRecursion IsNarrowBuilt (map (told_built tree.now.map) built.now) }
    ensures { OnOk result (sink.new ≡ S.after sink.old (flat_map spell_built (map (told_built tree.now.map) built.now))) }
{
    for of in built {
        put_built_of(sink, tree, of)?;
    }
    Ok(())
}

fn put_kept_of<S: Sink>(sink: &mut S, tree: &ElemMap, of: &Kept) -> Result<(), S::Fault>
    requires { IsNarrowKept (told_kept tree.now.map of.now) }
    ensures { OnOk result (sink.new ≡ S.after sink.old (spell_kept (told_kept tree.now.map of.now))) }
{
    match &of.tree {
        None => put_kept::<S, Trees<'_>>(sink, &of.participant, &of.bytes, None),
        Some(kept) => {
            let changes = Trees {
                before: tree,
                after: kept,
            };
            put_kept(sink, &of.participant, &of.bytes, Some(&changes))
        }
    }
}

fn put_each_kept<S: Sink>(sink: &mut S, tree: &ElemMap, kept: &[Kept]) -> Result<(), S::Fault>
    requires { AllByRecursion IsNarrowKept (map (told_kept tree.now.map) kept.now) }
    ensures { OnOk result (sink.new ≡ S.after sink.old (flat_map spell_kept (map (told_kept tree.now.map) kept.now))) }
{
    for of in kept {
        put_kept_of(sink, tree, of)?;
    }
    Ok(())
}

fn put_fields<S: Sink>(
    sink: &mut S,
    base: &ElemMap,
    shelf: &ElemMap,
    durable: &Durable,
) -> Result<(), S::Fault>
    requires { IsNarrowState (told_state base.now.map shelf.now.map durable.now) }
    ensures { OnOk result (sink.new ≡ S.after sink.old (spell_state (told_state base.now.map shelf.now.map durable.now))) }
{
    put_u64(sink, durable.next_node)?;
    put_u64(sink, durable.next_stamp)?;
    put_u64(sink, durable.next_marker)?;
    put_names(sink, durable.partners.as_slice())?;
    put_changes(
        sink,
        &Trees {
            before: base,
            after: &durable.tree,
        },
    )?;
    put_changes(
        sink,
        &Trees {
            before: shelf,
            after: &durable.shelf,
        },
    )?;
    put_builds(sink, durable)?;
    put_keeps(sink, durable)
}

#[tactic(auto, using(crate::proofs::States::lengths))]
fn put_builds<S: Sink>(sink: &mut S, durable: &Durable) -> Result<(), S::Fault>
    requires count { length (map (told_built durable.now.tree.map) durable.now.built) < 2 ^ 32 }
    requires narrow { AllByRecursion IsNarrowBuilt (map (told_built durable.now.tree.map) durable.now.built) }
    ensures { OnOk result (sink.new ≡ S.after sink.old ((number 4).spell (length (map (told_built durable.now.tree.map) durable.now.built))
        ++ flat_map spell_built (map (told_built durable.now.tree.map) durable.now.built))) }
{
    let built = durable.built.as_slice();
    put_u32(sink, built.len() as u32)?;
    put_each_built(sink, &durable.tree, built)
}

#[tactic(auto, using(crate::proofs::States::lengths))]
fn put_keeps<S: Sink>(sink: &mut S, durable: &Durable) -> Result<(), S::Fault>
    requires count { length (map (told_kept durable.now.tree.map) durable.now.kept) < 2 ^ 32 }
    requires narrow { AllByRecursion IsNarrowKept (map (told_kept durable.now.tree.map) durable.now.kept) }
    ensures { OnOk result (sink.new ≡ S.after sink.old ((number 4).spell (length (map (told_kept durable.now.tree.map) durable.now.kept))
        ++ flat_map spell_kept (map (told_kept durable.now.tree.map) durable.now.kept))) }
{
    let kept = durable.kept.as_slice();
    put_u32(sink, kept.len() as u32)?;
    put_each_kept(sink, &durable.tree, kept)
}

/// The text of a durable state against a base tree and a base shelf, without transient markers. Asks that it can be
/// written. Nothing is copied.
pub fn put_state<S: Sink>(
    sink: &mut S,
    base: &ElemMap,
    shelf: &ElemMap,
    durable: &Durable,
) -> Result<(), S::Fault>
    requires { IsNarrowState (told_state base.now.map shelf.now.map durable.now) }
    ensures { OnOk result (sink.new ≡ S.after sink.old ((state nothing nothing).spell (told_state base.now.map shelf.now.map durable.now))) }
{
    put_fields(sink, base, shelf, durable)
}

/// How many bytes the text takes, up to 2^64 - 1. It takes no memory.
pub fn state_len(base: &ElemMap, shelf: &ElemMap, durable: &Durable) -> u64
    requires { IsNarrowState (told_state base.now.map shelf.now.map durable.now) }
    ensures { result ≡ min (length ((state nothing nothing).spell (told_state base.now.map shelf.now.map durable.now))) (2 ^ 64 - 1) }
{
    let mut sink = Length { len: 0 };
    match put_state(&mut sink, base, shelf, durable) {
        Ok(()) => sink.len,
        Err(never) => match never {},
    }
}
