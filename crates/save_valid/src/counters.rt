//! Every number was drawn, and every partner is registered.
ghost use Rattle.std.specs.Prelude.{◌↔◌, ◌<◌, IsTrue};
ghost use Rattle.std.specs.List.{AllByRecursion};
ghost use Rattle.std.specs.FinMap.{entries, values};

use crate::each::Test;
use mark_set::MarkSet;
use res_path::Path;
use sync_set::SyncSet;
use ws_elem::{Attachments, Element, NoMemory};

/// The numbers that are drawn next, and how many partners there are.
#[derive(Clone, Copy, Debug)]
pub struct Below {
    pub node: u64,
    pub stamp: u64,
    pub marker: u64,
    pub partners: u64,
}

impl Test for Below {
    ghost use Rattle.save_valid.specs.Rules.{IsBelow};

    ghost holds = { λ c p e. IsBelow (record { node = c.node; stamp = c.stamp; marker = c.marker; partners = c.partners }) e };

    fn is_met(&self, _path: &Path, element: &Element) -> Result<bool, NoMemory> {
        Ok(self.is_above(element))
    }
}

impl Below {
    ghost use Rattle.std.specs.Prelude.{◌↔◌, IsTrue};
    ghost use Rattle.save_valid.specs.Rules.{IsBelow};

    fn is_above(&self, element: &Element) -> bool
        ensures { IsTrue result ↔ IsBelow (record { node = self.now.node; stamp = self.now.stamp; marker = self.now.marker; partners = self.now.partners }) element.now }
    {
        let nothing = Attachments::none();
        let attached = element.attached.or(&nothing);
        element.node < self.node
            && element.stamp < self.stamp
            && attached.desc_stamp < self.stamp
            && are_marks_below(&attached.marks, self.marker)
            && are_syncs_below(&attached.syncs, self.partners)
    }
}

fn are_marks_below(marks: &MarkSet, marker: u64) -> bool
    ensures { IsTrue result ↔ AllByRecursion (λ m. m.id < marker) (values marks.now) }
{
    for of in marks.iter() {
        if of.id >= marker {
            return false;
        }
    }
    true
}

fn are_syncs_below(syncs: &SyncSet, partners: u64) -> bool
    ensures { IsTrue result ↔ AllByRecursion (λ s. s.0 < partners) (entries syncs.now) }
{
    for (partner, _bytes) in syncs.iter() {
        if u64::from(*partner) >= partners {
            return false;
        }
    }
    true
}
