//! All that a workspace remembers beside its tree.
ghost use Rattle.std.specs.Prelude.{◌≡◌, ◌≤◌, [], true, Some, None as nothing, IfErr, IfOk, IfSome, IsSome, OnOk, OnErr, is_some, length};
ghost use Rattle.std.specs.FinMap as map;
ghost use Rattle.std.specs.Option.{option_copied, option_map};
ghost use Rattle.ws_marks.specs.Places.{place_of};
ghost use Rattle.ws_marks.specs.Marked.{IsPutBack, IsTaken, first_from, is_from, record_after, saving, since_begin, state_after, told_alone, with_kept, without};

use crate::records::Records;
use crate::saving::{set_in_save, take_in_save, undo_in_save};
use crate::states::States;
use crate::{NoMemory, Record, Replaced, State};
use res_path::Name;
use std::alloc::{AllocFailed, Global};
use std::collections::btree_map::Values;
use std::marker::Model;
use std::mem;

/// What a workspace remembers beside its tree: the tree that was told last, a record of each build command that was run, and
/// what each save participant keeps. `M` is what stands for a remembered tree. A contract sees the told tree, the finite
/// maps of records and of kept states, and of a save that is under way what was replaced since it began.
///
/// Where a call wants memory all is as before, and the value that it was handed is let go.
#[derive(Drop)]
pub struct Marks<M> {
    told: M,
    built: Records<M>,
    kept: States<M>,
    // While a save is under way, what was replaced since it began, the first first.
    replaced: Option<Vec<Replaced<M>>>,
    alloc: Global,
}

impl<M> Model for Marks<M> {
    ghost use Rattle.std.specs.Prelude.{IfSome};
    ghost use Rattle.std.specs.Option.{option_map};
    ghost use Rattle.ws_marks.specs.Marked.{Marked};
    ghost use Rattle.proj_desc.specs.contracts.command.Command as command;
    ghost use Rattle.ws_marks.specs.Inside.{AllThere, marked_code};

    ghost Value = { Marked M };

    ghost coded = { marked_code command.the_row.coded M.code };

    ghost view = { λ m. record { told = m.told; built = m.built; kept = m.kept; replaced = option_map (λ rs. rs.items) m.replaced } };

    ghost invariant = { λ m. IfSome m.replaced (λ rs. AllThere m.kept rs.items) };
}

impl<M: Drop> Marks<M> {
    /// The told tree alone. It takes no memory.
    pub fn of(alloc: Global, told: M) -> Marks<M>
        ensures { result ≡ told_alone told }
    {
        Marks {
            told,
            built: Records::empty(alloc),
            kept: States::empty(alloc),
            replaced: None,
            alloc,
        }
    }

    /// The tree that was told last.
    pub fn told(&self) -> &M
        ensures { result.now ≡ self.now.told }
    {
        &self.told
    }

    /// The tree is the told one from now on. Gives the one that was.
    pub fn tell(&mut self, tree: M) -> M
        ensures before { result ≡ self.old.told }
        ensures told { self.new ≡ record self.old { told = tree } }
    {
        mem::replace(&mut self.told, tree)
    }

    /// The record of the project's command of this index; none where there is none.
    pub fn built(&self, project: &Name, index: u16) -> Option<&Record<M>>
        ensures { option_copied result ≡ map.get self.now.built (project.now, index) }
    {
        self.built.get(project, index)
    }

    /// Remembers the record, in the place of the one of its project and index, which it gives.
    pub fn set_built(&mut self, new: Record<M>) -> Result<Option<Record<M>>, NoMemory>
        ensures before { IfOk result (λ before. before ≡ map.get self.old.built (place_of new)) }
        ensures ok { OnOk result (self.new ≡ record self.old { built = map.insert self.old.built (place_of new) new }) }
        ensures err { OnErr result (self.new ≡ self.old) }
    {
        self.built.put(new)
    }

    /// Takes the project's record of the least index from this one on; none where there is none. It takes no memory.
    pub fn take_built(&mut self, project: &Name, from: u16) -> Option<Record<M>>
        ensures first { result ≡ first_from self.old.built project.now from }
        ensures rest { self.new ≡ record self.old { built = without self.old.built result } }
        ensures one { IfSome result (λ r. is_from project.now from (place_of r) ≡ true) }
        ensures own { IfSome result (λ r. map.get self.old.built (place_of r) ≡ Some r) }
    {
        self.built.take(project, from)
    }

    /// Takes the record of the project's command of this index; none where there is none. It takes no memory.
    pub fn remove_built(&mut self, project: &Name, index: u16) -> Option<Record<M>>
        ensures found { result ≡ map.get self.old.built (project.now, index) }
        ensures rest { self.new ≡ record self.old { built = map.remove self.old.built (project.now, index) } }
    {
        self.built.remove(project, index)
    }

    /// All records, by project and then by index.
    pub fn records(&self) -> &[Record<M>]
        ensures { result.now ≡ map.values self.now.built }
    {
        self.built.all()
    }

    /// The first record above this place, or of all, by project and then by index; none where there is none.
    pub fn next_built(&self, after: Option<(&Name, u16)>) -> Option<&Record<M>>
        ensures next { option_copied result ≡ record_after self.now.built (option_map (λ k. (k.0.now, k.1)) after.entry) }
        ensures own { IfSome result (λ r. map.get self.now.built (place_of r.now) ≡ Some r.now) }
    {
        self.built.next(after)
    }

    /// What the participant keeps; none where it keeps nothing.
    pub fn kept(&self, name: &Name) -> Option<&State<M>>
        ensures { option_copied result ≡ map.get self.now.kept name.now }
    {
        self.kept.get(name)
    }

    /// All kept states, by the participants' names. Takes no memory.
    pub fn states(&self) -> Values<'_, Name, State<M>>
        ensures { result ≡ map.values self.now.kept }
    {
        self.kept.all()
    }

    /// The first kept state above this name, or of all, by the participants' names; none where there is none.
    pub fn next_kept(&self, after: Option<&Name>) -> Option<&State<M>>
        ensures next { option_copied result ≡ state_after self.now.kept (option_copied after.entry) }
        ensures own { IfSome result (λ s. map.get self.now.kept s.now.participant ≡ Some s.now) }
    {
        self.kept.next(after)
    }

    /// Whether a save is under way.
    pub fn is_saving(&self) -> bool
        ensures { result ≡ is_some self.now.replaced }
    {
        self.replaced.is_some()
    }

    /// A save is under way from now on, if none was. It takes no memory.
    pub fn begin_save(&mut self)
        ensures { self.new ≡ saving self.old }
    {
        if self.replaced.is_none() {
            self.replaced = Some(Vec::new(self.alloc));
        }
    }

    /// How many states were set since the save under way began, and are not undone.
    pub fn count_replaced(&self) -> usize
        ensures { result ≡ length (since_begin self.now.replaced) }
    {
        match &self.replaced {
            None => 0,
            Some(replaced) => replaced.len(),
        }
    }

    /// Keeps the state, in the place of the participant's, of which it is remembered what it replaced. Where memory wants
    /// nothing has changed, and the state comes back.
    pub fn set_kept(&mut self, new: State<M>) -> Result<(), AllocFailed<State<M>>>
        requires { IsSome self.old.replaced }
        ensures ok { OnOk result (self.new ≡ with_kept self.old new) }
        ensures err { OnErr result (self.new ≡ self.old) }
        ensures back { IfErr result (λ e. e.value ≡ new) }
    {
        match &mut self.replaced {
            None => Err(AllocFailed { value: new }),
            Some(replaced) => set_in_save(&mut self.kept, replaced, new),
        }
    }

    /// Puts what was replaced last back, if more than so many were replaced. Gives the state in its place, which was set
    /// last. It takes no memory.
    pub fn undo_last(&mut self, count: usize) -> Option<State<M>>
        ensures undone { IfSome result (λ gone. IsPutBack count self.old gone self.new) }
        ensures none { result ≡ nothing → length (since_begin self.old.replaced) ≤ count }
        ensures same { result ≡ nothing → self.new ≡ self.old }
    {
        match &mut self.replaced {
            None => None,
            Some(replaced) => undo_in_save(&mut self.kept, replaced, count),
        }
    }

    /// Takes what was replaced last: it can't be put back any more. It takes no memory.
    pub fn take_replaced(&mut self) -> Option<Replaced<M>>
        ensures last { IfSome result (λ last. IsTaken self.old last self.new) }
        ensures none { result ≡ nothing → since_begin self.old.replaced ≡ [] }
        ensures same { result ≡ nothing → self.new ≡ self.old }
    {
        let Some(replaced) = &mut self.replaced else {
            return None;
        };
        take_in_save(replaced)
    }

    /// The save is over, in which all that was replaced was taken or put back.
    pub fn end_save(&mut self)
        requires { since_begin self.old.replaced ≡ [] }
        ensures { self.new ≡ record self.old { replaced = nothing } }
    {
        self.replaced = None;
    }
}
