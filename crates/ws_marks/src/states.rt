//! States by participant.
ghost use Rattle.std.specs.Prelude.{◌≡◌, IfErr, IfOk, IfSome, IsSome, OnOk, OnErr, Some};
ghost use Rattle.std.specs.BTreeMap.{get, Updates};
ghost use Rattle.std.specs.FinMap as map;
ghost use Rattle.std.specs.List.{slice_get};
ghost use Rattle.std.specs.Option.{option_copied, option_map};
ghost use Rattle.ws_marks.specs.Marked.{set_at, state_after};
ghost use Rattle.ws_marks.specs.Places.{name_cmp};

use crate::State;
use res_path::Name;
use std::alloc::{AllocFailed, Global};
use std::collections::BTreeMap;
use std::collections::btree_map::{Range, Values};
use std::marker::Model;
use std::mem;
use std::ops::Bound;

/// States by their participants' names. A contract sees the finite map.
#[derive(Drop)]
pub(crate) struct States<M> {
    states: BTreeMap<Name, State<M>>,
}

impl<M> Model for States<M> {
    ghost use Rattle.std.specs.FinMap as map;
    ghost use Rattle.ws_marks.specs.Places.{States};
    ghost use Rattle.ws_marks.specs.Inside.{AllNamed, states_code};

    ghost Value = { States M };

    ghost coded = { states_code M.code };

    ghost view = { λ s. map.from_entries s.states.entries };

    ghost invariant = { λ s. AllNamed (map.from_entries s.states.entries) };
}

impl<M: Drop> States<M> {
    /// No states. It takes no memory.
    pub(crate) fn empty(alloc: Global) -> States<M>
        ensures { result ≡ map.empty }
    {
        States {
            states: BTreeMap::new(alloc),
        }
    }

    pub(crate) fn get(&self, name: &Name) -> Option<&State<M>>
        ensures { option_copied result ≡ map.get self.now name.now }
    {
        self.states.get(name)
    }

    /// Puts the state in the place of the participant's, which it gives. Where memory wants the state comes back.
    pub(crate) fn put(
        &mut self,
        name: Name,
        new: State<M>,
    ) -> Result<Option<State<M>>, AllocFailed<State<M>>>
        requires { name ≡ new.participant }
        ensures before { IfOk result (λ before. before ≡ map.get self.old new.participant) }
        ensures ok { OnOk result (self.new ≡ map.insert self.old new.participant new) }
        ensures err { OnErr result (self.new ≡ self.old) }
        ensures back { IfErr result (λ e. e.value ≡ new) }
        ensures named { IfSome (map.get self.old new.participant) (λ s. s.participant ≡ new.participant) }
    {
        let before = match self.states.insert(name, new) {
            Ok(before) => before,
            Err(failed) => return Err(without_name(failed)),
        };
        Ok(before)
    }

    /// Puts the state, or none, in the place of the one of this name, which it gives. It takes no memory.
    pub(crate) fn put_back(&mut self, name: &Name, before: Option<State<M>>) -> Option<State<M>>
        requires there { IsSome (map.get self.old name.now) }
        requires named { IfSome before (λ s. s.participant ≡ name.now) }
        ensures gone { result ≡ map.get self.old name.now }
        ensures set { self.new ≡ set_at self.old name.now before }
    {
        match before {
            None => self.states.remove(name),
            Some(state) => replace(&mut self.states, name, state),
        }
    }

    /// All of them, in the order of the participants' names.
    pub(crate) fn all(&self) -> Values<'_, Name, State<M>>
        ensures { result ≡ map.values self.now }
    {
        self.states.values()
    }

    /// The first state above the name, or of all.
    pub(crate) fn next(&self, after: Option<&Name>) -> Option<&State<M>>
        ensures next { option_copied result ≡ state_after self.now (option_copied after.entry) }
        ensures own { IfSome result (λ s. map.get self.now s.now.participant ≡ Some s.now) }
    {
        match after {
            None => first(self.states.range(..)),
            Some(name) => first(self.states.range((Bound::Excluded(name), Bound::Unbounded))),
        }
    }
}

/// The state that could not be put.
fn without_name<M: Drop>(failed: AllocFailed<(Name, State<M>)>) -> AllocFailed<State<M>>
    ensures { result.value ≡ failed.value.1 }
{
    let (_, state) = failed.value;
    AllocFailed { value: state }
}

/// Puts the state in the place of the one of this name, which it gives.
fn replace<M: Drop>(
    states: &mut BTreeMap<Name, State<M>>,
    name: &Name,
    state: State<M>,
) -> Option<State<M>>
    requires { IsSome (get name_cmp states.old name.now) }
    ensures gone { result ≡ get name_cmp states.old name.now }
    ensures set { Updates name_cmp states.old states.new name.now (Some state) }
{
    match states.get_mut(name) {
        Some(place) => Some(mem::replace(place, state)),
        None => None,
    }
}

/// The first of what is left.
fn first<'a, M>(left: Range<'a, Name, State<M>>) -> Option<&'a State<M>>
    ensures { option_copied result ≡ option_map (λ e. e.1) (slice_get left.entry 0) }
{
    let mut left = left;
    match left.next() {
        Some((_, state)) => Some(state),
        None => None,
    }
}
