//! What became of one path.
ghost use Rattle.std.specs.Prelude.{◌≡◌, ◌↔◌, IfOk, IsTrue};
ghost use Rattle.std.specs.Option.{option_copied};
ghost use Rattle.layer_log.specs.Inside.Compositions.{one_of};

use crate::NoMemory;
use crate::same::are_same;
use ws_elem::Element;

/// What became of one path: what was there before and what is there after, none where there is nothing. A contract
/// sees both.
#[derive(Debug, Drop)]
pub struct Change {
    pub before: Option<Element>,
    pub after: Option<Element>,
}

impl Change {
    /// Whether both entries are equal, in all that they hold.
    pub fn is_idle(&self) -> bool
        ensures { IsTrue result ↔ (self.now.before ≡ self.now.after) }
    {
        are_same(self.before.as_ref(), self.after.as_ref())
    }

    /// An equal change, whose elements share their texts.
    pub fn copy(&self) -> Result<Change, NoMemory>
        ensures { IfOk result (λ copy. copy ≡ self.now) }
    {
        Ok(Change {
            before: copied(self.before.as_ref())?,
            after: copied(self.after.as_ref())?,
        })
    }
}

/// An equal entry, which shares the element's texts.
pub(crate) fn copied(element: Option<&Element>) -> Result<Option<Element>, NoMemory>
    ensures { IfOk result (λ copy. copy ≡ option_copied element.entry) }
{
    match element {
        Some(element) => Ok(Some(element.copy()?)),
        None => Ok(None),
    }
}

/// The next change, after the first where there is one.
pub(crate) fn one_of(first: Option<Change>, next: &Change) -> Result<Change, NoMemory>
    ensures { IfOk result (λ change. change ≡ one_of first next.now) }
{
    match first {
        Some(first) => Ok(Change {
            before: first.before,
            after: copied(next.after.as_ref())?,
        }),
        None => next.copy(),
    }
}
