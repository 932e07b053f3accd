//! Trees that are remembered: told, kept as what was built last, and given up.
ghost use Rattle.std.specs.Prelude.{◌≡◌, ◌≢◌, ◌<◌, ℕ, Bool, true, false, not, Option, Some, None as nothing, IfOk, IfSome, IsSome, OnOk, OnErr};
ghost use Rattle.std.specs.FinMap.{insert, remove, retain_keys, len};
ghost use Rattle.delta_kind.specs.Deltas.{delta};
ghost use Rattle.ws_elem.specs.Trees.{Tree};
ghost use Rattle.tree_memory.specs.Spared.{left};
ghost use Rattle.core_event.specs.Replies.{some_nodes};
ghost use Rattle.core_event.specs.Twice.{twice};
ghost use Rattle.ws_marks.specs.Marked.{is_from};
ghost use Rattle.ws_marks.specs.Places.{Records};
ghost use Rattle.ws_content.specs.States.{Remembered, with_built};
ghost use Rattle.ws_content.specs.Deeds.{kept_if, record_of, reply_of};
ghost use Rattle.ws_content.specs.Inside.Held.{Holds, IsReady};

use crate::NoMemory;
use build_due::Site;
use core_event::{Answer, Notice, Reply, Twice, answer_twice, reply_twice, untold};
use res_path::Name;
use std::alloc::Global;
use tree_memory::{Remembers, Sparing};
use ws_marks::{Marks, Record};

/// A reply that is made, and, where it tells something, the tree as it is, remembered to be the one that is told.
#[derive(Drop)]
pub struct Prepared<M> {
    pub replied: Twice<Reply>,
    pub told: Option<M>,
}

/// Makes the reply to the answer, and where something is to be told remembers the tree for that. What is remembered stays.
/// Costs what was recorded since the tree was told, where something is told.
pub fn prepare<T: Remembers + Drop>(
    alloc: Global,
    tree: &mut Sparing<T>,
    marks: &Marks<T::Memory>,
    answer: Answer,
    tells: bool,
    wants_copy: bool,
) -> Result<Prepared<T::Memory>, NoMemory>
    ensures holds { (start : ℕ) (v : Remembered) → Holds T.number start (left T.remembered tree.old) marks.now v
        → Holds T.number start (left T.remembered tree.new) marks.now v }
    ensures ready { IfOk result (λ p. (start : ℕ) (v : Remembered) → Holds T.number start (left T.remembered tree.old) marks.now v
        → IsReady T.number start (left T.remembered tree.new) marks.now (T.tree tree.old.tree) tells p.told) }
    ensures reply { IfOk result (λ p. (start : ℕ) (v : Remembered) → Holds T.number start (left T.remembered tree.old) marks.now v
        → p.replied ≡ twice wants_copy (reply_of tells v.told (T.tree tree.old.tree) answer)) }
    ensures tree { T.tree tree.new.tree ≡ T.tree tree.old.tree }
    ensures room { T.room tree.new.tree ≡ T.room tree.old.tree }
{
    if !tells {
        let replied = untold(answer_twice(answer, wants_copy)?);
        return Ok(Prepared {
            replied,
            told: None,
        });
    }
    let replied = told_reply(alloc, tree, marks.told(), answer, wants_copy)?;
    let told = tree.remember(alloc)?;
    Ok(Prepared {
        replied,
        told: Some(told),
    })
}

/// The reply that tells what changed since the tree was told.
fn told_reply<T: Remembers + Drop>(
    alloc: Global,
    tree: &Sparing<T>,
    told: &T::Memory,
    answer: Answer,
    wants_copy: bool,
) -> Result<Twice<Reply>, NoMemory>
    ensures { IfOk result (λ r. IfSome (left T.remembered tree.now (T.number told.now)) (λ t. r ≡ twice wants_copy
        (record { answer = answer; notice = some_nodes (delta t (T.tree tree.now.tree)) }))) }
{
    let delta = tree.since(alloc, told)?;
    let notice = Notice::of(alloc, delta)?;
    reply_twice(Reply { answer, notice }, wants_copy)
}

/// What was prepared is told.
pub fn settle<T: Remembers + Drop>(
    alloc: Global,
    tree: &mut Sparing<T>,
    marks: &mut Marks<T::Memory>,
    told: Option<T::Memory>,
)
    requires { (start : ℕ) × (v : Remembered) × Holds T.number start (left T.remembered tree.old) marks.old v }
    ensures holds { (start : ℕ) (v : Remembered) (t : Tree) (tells : Bool) → Holds T.number start (left T.remembered tree.old) marks.old v
        → IsReady T.number start (left T.remembered tree.old) marks.old t tells told
        → Holds T.number start (left T.remembered tree.new) marks.new (kept_if tells t v) }
    ensures tree { T.tree tree.new.tree ≡ T.tree tree.old.tree }
    ensures room { T.room tree.new.tree ≡ T.room tree.old.tree }
{
    if let Some(told) = told {
        let before = marks.tell(told);
        tree.give_up(alloc, before);
    }
}

/// Gives up the memory, if there is one.
pub fn give_up_if<T: Remembers + Drop>(
    alloc: Global,
    tree: &mut Sparing<T>,
    memory: Option<T::Memory>,
)
    requires { IfSome memory (λ x. IsSome (left T.remembered tree.old (T.number x))) }
    ensures others { (k : ℕ) → IfSome memory (λ x. k ≢ T.number x) → left T.remembered tree.new k ≡ left T.remembered tree.old k }
    ensures tree { T.tree tree.new.tree ≡ T.tree tree.old.tree }
    ensures room { T.room tree.new.tree ≡ T.room tree.old.tree }
{
    if let Some(memory) = memory {
        tree.give_up(alloc, memory);
    }
}

/// Gives up the tree of a record, if there is one.
pub fn give_up_built<T: Remembers + Drop>(
    alloc: Global,
    tree: &mut Sparing<T>,
    before: Option<Record<T::Memory>>,
)
    requires { IfSome before (λ r. IsSome (left T.remembered tree.old (T.number r.tree))) }
    ensures others { (k : ℕ) → IfSome before (λ r. k ≢ T.number r.tree) → left T.remembered tree.new k ≡ left T.remembered tree.old k }
    ensures tree { T.tree tree.new.tree ≡ T.tree tree.old.tree }
    ensures room { T.room tree.new.tree ≡ T.room tree.old.tree }
{
    if let Some(before) = before {
        tree.give_up(alloc, before.tree);
    }
}

/// The command as it stands, with the tree as it is, which is remembered from now on.
fn record_now<T: Remembers + Drop>(
    alloc: Global,
    tree: &mut Sparing<T>,
    site: &Site,
) -> Result<Record<T::Memory>, NoMemory>
    ensures project { IfOk result (λ r. r.project ≡ site.now.project) }
    ensures index { IfOk result (λ r. r.index ≡ site.now.index) }
    ensures command { IfOk result (λ r. r.command ≡ site.now.command) }
    ensures references { IfOk result (λ r. r.references ≡ site.now.references) }
    ensures own { IfOk result (λ r. left T.remembered tree.new (T.number r.tree) ≡ Some (T.tree tree.old.tree)) }
    ensures fresh { IfOk result (λ r. left T.remembered tree.old (T.number r.tree) ≡ nothing) }
    ensures others { IfOk result (λ r. (k : ℕ) → k ≢ T.number r.tree → left T.remembered tree.new k ≡ left T.remembered tree.old k) }
    ensures err { OnErr result (left T.remembered tree.new ≡ left T.remembered tree.old) }
    ensures tree { T.tree tree.new.tree ≡ T.tree tree.old.tree }
    ensures room { T.room tree.new.tree ≡ T.room tree.old.tree }
{
    let project = site.project.copy()?;
    let command = site.command.copy()?;
    let references = site.references.copy()?;
    let tree = tree.remember(alloc)?;
    Ok(Record {
        project,
        index: site.index,
        command,
        references,
        tree,
    })
}

/// What was built last for the command is what it says as it stands, and the tree as it is. Where memory wants, what is
/// remembered stays.
pub fn set_built<T: Remembers + Drop>(
    alloc: Global,
    tree: &mut Sparing<T>,
    marks: &mut Marks<T::Memory>,
    site: &Site,
) -> Result<(), NoMemory>
    requires { (start : ℕ) × (v : Remembered) × Holds T.number start (left T.remembered tree.old) marks.old v }
    ensures holds { OnOk result ((start : ℕ) (v : Remembered) → Holds T.number start (left T.remembered tree.old) marks.old v
        → Holds T.number start (left T.remembered tree.new) marks.new
        (with_built v (insert v.built (site.now.project, site.now.index) (record_of site.now (T.tree tree.old.tree))))) }
    ensures same { OnErr result ((start : ℕ) (v : Remembered) → Holds T.number start (left T.remembered tree.old) marks.old v
        → Holds T.number start (left T.remembered tree.new) marks.new v) }
    ensures ready { (start : ℕ) (v : Remembered) (t : Tree) (tells : Bool) (told : Option T.Memory) → Holds T.number start (left T.remembered tree.old) marks.old v
        → IsReady T.number start (left T.remembered tree.old) marks.old t tells told
        → IsReady T.number start (left T.remembered tree.new) marks.new t tells told }
    ensures tree { T.tree tree.new.tree ≡ T.tree tree.old.tree }
    ensures room { T.room tree.new.tree ≡ T.room tree.old.tree }
{
    let record = record_now(alloc, tree, site)?;
    let before = marks.set_built(record)?;
    give_up_built(alloc, tree, before);
    Ok(())
}

/// What was built last for the command is forgotten.
pub fn remove_built<T: Remembers + Drop>(
    alloc: Global,
    tree: &mut Sparing<T>,
    marks: &mut Marks<T::Memory>,
    project: &Name,
    index: u16,
)
    requires { (start : ℕ) × (v : Remembered) × Holds T.number start (left T.remembered tree.old) marks.old v }
    ensures holds { (start : ℕ) (v : Remembered) → Holds T.number start (left T.remembered tree.old) marks.old v
        → Holds T.number start (left T.remembered tree.new) marks.new (with_built v (remove v.built (project.now, index))) }
    ensures tree { T.tree tree.new.tree ≡ T.tree tree.old.tree }
    ensures room { T.room tree.new.tree ≡ T.room tree.old.tree }
{
    let before = marks.remove_built(project, index);
    give_up_built(alloc, tree, before);
}

/// What was built last for the project's commands from this one on is forgotten.
pub fn forget_built<T: Remembers + Drop>(
    alloc: Global,
    tree: &mut Sparing<T>,
    marks: &mut Marks<T::Memory>,
    project: &Name,
    from: u16,
)
    requires { (start : ℕ) × (v : Remembered) × Holds T.number start (left T.remembered tree.old) marks.old v }
    ensures holds { (start : ℕ) (v : Remembered) → Holds T.number start (left T.remembered tree.old) marks.old v
        → Holds T.number start (left T.remembered tree.new) marks.new (with_built v (retain_keys v.built (λ k. not (is_from project.now from k)))) }
    ensures tree { T.tree tree.new.tree ≡ T.tree tree.old.tree }
    ensures room { T.room tree.new.tree ≡ T.room tree.old.tree }
{
    while forget_first(alloc, tree, marks, project, from) {}
}

/// The first of these is forgotten. Whether there was one.
fn forget_first<T: Remembers + Drop>(
    alloc: Global,
    tree: &mut Sparing<T>,
    marks: &mut Marks<T::Memory>,
    project: &Name,
    from: u16,
) -> bool
    requires { (start : ℕ) × (v : Remembered) × Holds T.number start (left T.remembered tree.old) marks.old v }
    ensures holds { (start : ℕ) (v : Remembered) → Holds T.number start (left T.remembered tree.old) marks.old v
        → (built : Records Tree) × Holds T.number start (left T.remembered tree.new) marks.new (with_built v built)
        × (retain_keys built (λ k. not (is_from project.now from k)) ≡ retain_keys v.built (λ k. not (is_from project.now from k))) }
    ensures none { result ≡ false → (start : ℕ) (v : Remembered) → Holds T.number start (left T.remembered tree.new) marks.new v
        → retain_keys v.built (λ k. not (is_from project.now from k)) ≡ v.built }
    ensures fewer { result ≡ true → len marks.new.built < len marks.old.built }
    ensures tree { T.tree tree.new.tree ≡ T.tree tree.old.tree }
    ensures room { T.room tree.new.tree ≡ T.room tree.old.tree }
{
    match marks.take_built(project, from) {
        None => false,
        Some(record) => {
            tree.give_up(alloc, record.tree);
            true
        }
    }
}
