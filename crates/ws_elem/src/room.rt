//! The paths with room.
ghost use Rattle.std.specs.Prelude.{◌≡◌, [], ◌∷◌, false, true, not, IfOk, OnOk, OnErr, IfSome, IfNone};
ghost use Rattle.ws_elem.specs.Inside.Slots.{is_among, is_kept_apart, SetsRoom};

use crate::NoMemory;
use res_path::Path;
use std::alloc::Global;
use std::collections::BTreeSet;
use std::marker::Model;

/// Paths, none twice. A contract sees their list, in no order that it tells of.
///
/// Nearly always there is one at most, so one is kept apart. Where there are no others they take no memory, and
/// `contains`, `add`, `pop` and `clear` ask only whether there are any.
#[derive(Debug, Drop)]
pub(crate) struct RoomSet {
    one: Option<Path>,
    others: BTreeSet<Path>,
}

impl Model for RoomSet {
    ghost use Rattle.std.specs.Prelude.{◌≡◌, false, List, IfSome};
    ghost use Rattle.res_path.specs.Paths.{Names};
    ghost use Rattle.ws_elem.specs.Inside.Slots.{one_and, is_among};

    ghost Value = { List Names };

    ghost view = { λ r. one_and r.one r.others.keys };

    ghost invariant = { λ r. IfSome r.one (λ p. is_among r.others.keys p ≡ false) };
}

impl RoomSet {
    /// No paths. It takes no memory.
    pub(crate) fn new(alloc: Global) -> RoomSet
        ensures { result ≡ [] }
    {
        RoomSet {
            one: None,
            others: BTreeSet::new(alloc),
        }
    }

    /// Whether the path is among them.
    pub(crate) fn contains(&self, path: &Path) -> bool
        ensures { result ≡ is_among self.now path.now }
    {
        is_kept_apart(&self.one, path) || (!self.others.is_empty() && self.others.contains(path))
    }

    /// Adds a copy of the path. Whether it was not among them.
    pub(crate) fn add(&mut self, path: &Path) -> Result<bool, NoMemory>
        ensures answer { IfOk result (λ added. added ≡ not (is_among self.old path.now)) }
        ensures ok { OnOk result (SetsRoom self.old self.new path.now true) }
        ensures err { OnErr result (self.new ≡ self.old) }
    {
        if is_kept_apart(&self.one, path) {
            return Ok(false);
        }
        if self.one.is_none() && self.others.is_empty() {
            self.one = Some(path.copy()?);
            return Ok(true);
        }
        Ok(self.others.insert(path.copy()?)?)
    }

    /// Takes the path away.
    pub(crate) fn remove(&mut self, path: &Path)
        ensures { SetsRoom self.old self.new path.now false }
    {
        if is_kept_apart(&self.one, path) {
            drop(self.one.take());
        } else {
            self.others.remove(path);
        }
    }

    /// Takes one of them away, and gives it; none only where there are none.
    pub(crate) fn pop(&mut self) -> Option<Path>
        ensures path { IfSome result (λ p. self.old ≡ p ∷ self.new) }
        ensures gone { IfSome result (λ p. SetsRoom self.old self.new p false) }
        ensures none { IfNone result (self.old ≡ []) }
        ensures left { IfNone result (self.new ≡ []) }
    {
        if let Some(path) = self.one.take() {
            return Some(path);
        }
        if self.others.is_empty() {
            return None;
        }
        self.others.pop_first()
    }

    /// Takes all away.
    pub(crate) fn clear(&mut self)
        ensures { self.new ≡ [] }
    {
        self.one = None;
        if !self.others.is_empty() {
            self.others.clear();
        }
    }
}

impl Clone for RoomSet {
    ghost use Rattle.std.specs.Prelude.{◌≡◌};

    ghost is_clone = { λ room copy. copy ≡ room };

    fn clone(&self) -> Result<RoomSet, NoMemory> {
        let one = self.one.clone()?;
        let others = self.others.clone()?;
        Ok(RoomSet { one, others })
    }
}

/// Whether this is the path that is kept apart.
fn is_kept_apart(one: &Option<Path>, path: &Path) -> bool
    ensures { result ≡ is_kept_apart one.now path.now }
{
    match one {
        None => false,
        Some(one) => path == one,
    }
}
