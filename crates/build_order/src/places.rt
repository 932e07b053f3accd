//! Which component comes next.
ghost use Rattle.std.specs.Prelude.{◌≡◌, ◌≢◌, ◌⊎◌, ◌+◌, ◌<◌, true, false, ℕ, List, [], ◌∷◌, length, get_or, drop, MatchOption, IfOk, OnOk};
ghost use Rattle.build_order.specs.Inside.Graphs.{Graph, IsWithin, AreLeads, at};
ghost use Rattle.std.specs.Bool.{MatchBool};
ghost use Rattle.build_order.specs.Inside.Placings.{Holds, CanPlace, InTurn, left, is_done, leads_from, IsLast};

use crate::free::Free;
use crate::groups::targets_of;
use crate::lists::Lists;
use res_path::NoMemory;
use std::alloc::Global;

/// Components, each by its least number, as they are placed one after another.
///
/// Among the targets of a component are all to which it refers that aren't inside it and aren't placed. A component
/// that isn't placed is free, or it is parked at one to which it refers.
#[derive(Drop)]
pub struct Places {
    pub targets: Lists,
    pub parked: Lists,
    pub free: Free,
    pub is_placed: Vec<bool>,
    pub order: Vec<usize>,
}

impl Places {
    fn new(alloc: Global, graph: &Lists, leads: &[usize]) -> Result<Places, NoMemory>
        requires within { IsWithin graph.now }
        requires leads { AreLeads graph.now leads.now }
        ensures { IfOk result (Holds graph.now leads.now (leads_from 0 leads.now)) }
    {
        Ok(Places {
            targets: targets_of(alloc, graph, leads)?,
            parked: Lists::empty(alloc, leads.len())?,
            free: Free::empty(alloc),
            is_placed: vec![in alloc; false; leads.len()]?,
            order: Vec::new(alloc),
        })
    }

    /// Parks the component at one to which it refers and that isn't placed, or frees it where there is none.
    fn look(&mut self, leads: &[usize], lead: usize) -> Result<(), NoMemory>
        requires { (g : Graph) × (rest : List ℕ) × Holds g leads.now (lead ∷ rest) self.old }
        ensures holds { OnOk result ((g : Graph) (rest : List ℕ) → Holds g leads.now (lead ∷ rest) self.old → Holds g leads.now rest self.new) }
        ensures placed { self.new.is_placed ≡ self.old.is_placed }
    {
        while let Some(target) = self.target(lead) {
            let needed = lead_of(leads, target);
            if self.holds_up(lead, needed) {
                self.parked.push(needed, lead)?;
                return Ok(());
            }
            self.targets.drop_last(lead);
        }
        self.free.add(lead)?;
        Ok(())
    }

    /// The target of the component that is looked at next.
    fn target(&self, lead: usize) -> Option<usize>
        requires { lead < length self.now.targets }
        ensures { MatchOption result (get_or self.now.targets lead [] ≡ []) (IsLast (get_or self.now.targets lead [])) }
    {
        self.targets.at(lead).last().copied()
    }

    /// Whether the one component has to wait for the other.
    fn holds_up(&self, lead: usize, needed: usize) -> bool
        requires { needed < length self.now.is_placed.items }
        ensures { MatchBool result ((needed ≢ lead) × (is_done self.now.is_placed.items needed ≡ false)) ((needed ≡ lead) ⊎ (is_done self.now.is_placed.items needed ≡ true)) }
    {
        needed != lead && !self.is_placed[needed]
    }

    /// Places a free component, and looks again at those that were parked at it.
    fn place(&mut self, alloc: Global, leads: &[usize], lead: usize) -> Result<(), NoMemory>
        requires { (g : Graph) × CanPlace g leads.now lead self.old }
        ensures holds { OnOk result ((g : Graph) → CanPlace g leads.now lead self.old → Holds g leads.now [] self.new) }
        ensures fewer { OnOk result (left self.new.is_placed.items < left self.old.is_placed.items) }
    {
        self.is_placed[lead] = true;
        self.order.push(lead)?;
        let parked = self.parked.take(alloc, lead);
        for other in parked.as_slice() {
            self.look(leads, *other)?;
        }
        Ok(())
    }

    /// Looks at the number's component, if the number is the least of it.
    fn begin(&mut self, leads: &[usize], number: usize) -> Result<(), NoMemory>
        requires number { number < length leads.now }
        requires holds { (g : Graph) × Holds g leads.now (leads_from number (drop number leads.now)) self.old }
        ensures { OnOk result ((g : Graph) → Holds g leads.now (leads_from number (drop number leads.now)) self.old
            → Holds g leads.now (leads_from (number + 1) (drop (number + 1) leads.now)) self.new) }
    {
        if lead_of(leads, number) != number {
            return Ok(());
        }
        self.look(leads, number)?;
        Ok(())
    }
}

/// The least number of the component of a number.
fn lead_of(leads: &[usize], number: usize) -> usize
    requires { number < length leads.now }
    ensures { result ≡ at leads.now number }
{
    leads[number]
}

/// The components in the order in which they are built, each by its least number.
pub fn places_of(alloc: Global, graph: &Lists, leads: &[usize]) -> Result<Vec<usize>, NoMemory>
    requires within { IsWithin graph.now }
    requires leads { AreLeads graph.now leads.now }
    ensures { IfOk result (λ order. InTurn graph.now leads.now [] order.items) }
{
    let mut places = Places::new(alloc, graph, leads)?;
    for number in 0..leads.len() {
        places.begin(leads, number)?;
    }
    while let Some(lead) = places.free.pop() {
        places.place(alloc, leads, lead)?;
    }
    Ok(places.order)
}
