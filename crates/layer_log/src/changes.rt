//! What became of some paths.
ghost use Rattle.std.specs.Prelude.{◌≡◌, ◌+◌, ◌≤◌, IfSome, IfOk, OnOk, OnErr};
ghost use Rattle.std.specs.Option.{option_copied};
ghost use Rattle.std.specs.FinMap as map;
ghost use Rattle.ws_elem.specs.Trees.{Tree, set_at};
ghost use Rattle.layer_log.specs.Records.{Leads, LeadsOn, Settled, Meets, IsNetOf, recorded};
ghost use Rattle.layer_log.specs.Inside.Compositions.{Composed};

use crate::change::{Change, copied};
use crate::log::Log;
use crate::{NoMemory, Steps};
use res_path::Path;
use std::alloc::Global;
use std::collections::btree_map::Iter;
use std::marker::Model;
use std::sync::ledger::Ledger;
use ws_elem::{ElemMap, Element};

/// What became of some paths, from one tree to another: of each its entry before and its entry after. Every other path
/// has equal entries in both trees. A contract sees the finite map from path to change.
///
/// A look-up costs a few comparisons of paths, in the logarithm of the size.
#[derive(Debug, Drop)]
pub struct Changes {
    log: Log,
    // Each path's entries are known to differ.
    settled: bool,
}

impl Model for Changes {
    ghost use Rattle.std.specs.Prelude.{◌≡◌, true};
    ghost use Rattle.std.specs.FinMap as map;
    ghost use Rattle.ws_elem.specs.RoomyTrees.{names_code};
    ghost use Rattle.layer_log.specs.Records.{Records, Settled};
    ghost use Rattle.layer_log.specs.contracts.change.Change as change;

    ghost Value = { Records };

    ghost coded = { map.code names_code change.the_row.coded };

    ghost view = { λ c. c.log };

    ghost invariant = { λ c. c.settled ≡ true → Settled c.log };
}

impl Changes {
    /// No path has a change. It takes no memory.
    pub fn none(alloc: Global) -> Changes
        ensures { result ≡ map.empty }
    {
        Changes {
            log: Log::empty(alloc),
            settled: true,
        }
    }

    /// How many paths have a change.
    pub fn len(&self) -> usize
        ensures { result ≡ map.len self.now }
    {
        self.log.len()
    }

    /// The change of the path.
    pub fn get(&self, path: &Path) -> Option<&Change>
        ensures { option_copied result ≡ map.get self.now path.now }
    {
        self.log.get(path)
    }

    /// The changes, in path order.
    pub fn iter(&self) -> Iter<'_, Path, Change>
        ensures { result ≡ map.entries self.now }
    {
        self.log.iter()
    }

    /// The path had the entry `before` at last, and has the entry `after` now. Asks that a change which the path has
    /// already ends with `before`; its first entry stays, and the change stays also where it is back at that entry.
    /// Where memory wants all stays as it was. Copies the two entries and searches once or twice for the path.
    pub fn record(
        &mut self,
        path: &Path,
        before: Option<&Element>,
        after: Option<&Element>,
    ) -> Result<(), NoMemory>
        requires { IfSome (map.get self.now path.now) (λ r. r.after ≡ option_copied before) }
        ensures ok { OnOk result (self.new ≡ recorded self.old path.now (option_copied before.entry) (option_copied after.entry)) }
        ensures leads { OnOk result (LeadsOn self.old self.new path.now (option_copied before.entry) (option_copied after.entry)) }
        ensures err { OnErr result (self.new ≡ self.old) }
    {
        self.add(path, before, after)
    }

    fn add(
        &mut self,
        path: &Path,
        before: Option<&Element>,
        after: Option<&Element>,
    ) -> Result<(), NoMemory>
        ensures ok { OnOk result (self.new ≡ recorded self.old path.now (option_copied before.entry) (option_copied after.entry)) }
        ensures err { OnErr result (self.new ≡ self.old) }
    {
        let first = match self.log.get(path) {
            Some(change) => copied(change.before.as_ref())?,
            None => copied(before)?,
        };
        let change = Change {
            before: first,
            after: copied(after)?,
        };
        let path = path.copy()?;
        self.settled = false;
        self.log.put(path, change)
    }

    /// The net change of the first and then the second: each path's first entry and its last, where these differ.
    /// Asks that a path in both begins in the second as it ends in the first. Costs a copy of each change of either,
    /// and a few comparisons of paths.
    pub fn compose(alloc: Global, first: &Changes, second: &Changes) -> Result<Changes, NoMemory>
        requires { Meets first.now second.now }
        ensures net { IfOk result (λ c. IsNetOf first.now second.now c) }
        ensures most { IfOk result (λ c. map.len c ≤ map.len first.now + map.len second.now) }
    {
        let mut log = settled(alloc, &first.log)?;
        add_all(&mut log, &second.log)?;
        Ok(Changes { log, settled: true })
    }

    /// The net change of these and then the next, which `compose` gives too; none of these is copied. Asks that a path
    /// in both begins in the next as it ends here. Takes one step for each change of the next. Where memory wants,
    /// these are gone.
    ///
    /// Where a change was recorded since these were composed, those with equal entries are left out first. That takes
    /// no memory and no step, and costs a look at each of these.
    pub fn then<L: Ledger>(self, next: &Changes, steps: &mut Steps<L>) -> Result<Changes, NoMemory>
        requires { Meets self next.now }
        ensures net { IfOk result (λ c. IsNetOf self next.now c) }
        ensures most { IfOk result (λ c. map.len c ≤ map.len self + map.len next.now) }
        ensures cost { OnOk result (steps.new ≡ steps.old + map.len next.now) }
        ensures bound { steps.new ≤ steps.old + map.len next.now }
    {
        let mut log = self.into_settled();
        take_all(&mut log, &next.log, steps)?;
        Ok(Changes { log, settled: true })
    }

    /// The changes, without those whose entries are equal. It takes no memory.
    fn into_settled(self) -> Log
        ensures composed { Composed map.empty self result }
        ensures most { map.len result ≤ map.len self }
    {
        if self.settled {
            return self.log;
        }
        let mut log = self.log;
        log.settle();
        log
    }

    /// The tree from which the changes lead to this one, with this one's room. Costs a copy of the tree, and a search
    /// for each change.
    pub fn undo(&self, tree: &ElemMap) -> Result<ElemMap, NoMemory>
        ensures before { IfOk result (λ t. (a : Tree) → Leads a self.now tree.now.map → t.map ≡ a) }
        ensures room { IfOk result (λ t. t.room ≡ tree.now.room) }
    {
        let mut undone = tree.copy()?;
        for (path, change) in self.log.iter() {
            set_at(&mut undone, path, change.before.as_ref())?;
        }
        Ok(undone)
    }
}

/// Puts the element at the path, or takes what is there out where there is none to put.
fn set_at(tree: &mut ElemMap, path: &Path, element: Option<&Element>) -> Result<(), NoMemory>
    ensures ok { OnOk result (tree.new.map ≡ set_at tree.old.map path.now (option_copied element.entry)) }
    ensures room { tree.new.room ≡ tree.old.room }
{
    match element {
        Some(element) => {
            tree.put(path.copy()?, element.copy()?)?;
        }
        None => {
            tree.take(path);
        }
    }
    Ok(())
}

/// The changes, without those whose entries are equal.
fn settled(alloc: Global, log: &Log) -> Result<Log, NoMemory>
    ensures composed { IfOk result (λ c. Composed map.empty log.now c) }
    ensures most { IfOk result (λ c. map.len c ≤ map.len log.now) }
{
    let mut kept = Log::empty(alloc);
    add_all(&mut kept, log)?;
    Ok(kept)
}

/// Takes all changes of the next in.
fn add_all(log: &mut Log, next: &Log) -> Result<(), NoMemory>
    requires { Settled log.old }
    ensures composed { OnOk result (Composed log.old next.now log.new) }
    ensures most { OnOk result (map.len log.new ≤ map.len log.old + map.len next.now) }
{
    for (path, change) in next.iter() {
        log.take_in(path, change)?;
    }
    Ok(())
}

/// Takes all changes of the next in, each a step.
fn take_all<L: Ledger>(log: &mut Log, next: &Log, steps: &mut Steps<L>) -> Result<(), NoMemory>
    requires { Settled log.old }
    ensures composed { OnOk result (Composed log.old next.now log.new) }
    ensures most { OnOk result (map.len log.new ≤ map.len log.old + map.len next.now) }
    ensures cost { OnOk result (steps.new ≡ steps.old + map.len next.now) }
    ensures bound { steps.new ≤ steps.old + map.len next.now }
{
    for (path, change) in next.iter() {
        steps.tick();
        log.take_in(path, change)?;
    }
    Ok(())
}
