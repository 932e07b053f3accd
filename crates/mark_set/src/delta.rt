//! What became of markers.

ghost use Rattle.std.specs.Prelude.{◌≡◌, IfOk};
ghost use Rattle.mark_set.specs.Deltas.{added, removed, changed};

use crate::NoMemory;
use crate::attrs::Attrs;
use crate::marker::Marker;
use crate::text::MarkText;
use std::alloc::Global;
use std::marker::Model;

/// What became of a marker.
#[derive(Clone, Copy, Debug, PartialEq, Eq)]
pub enum Change {
    Added,
    Removed,
    Changed,
}

/// One marker that came, went or changed. The type of a changed marker is the one that it had; the attributes are those
/// that it had, none of one that came.
#[derive(Clone, Debug, PartialEq, Eq, Drop)]
pub struct MarkerDelta {
    pub id: u64,
    pub change: Change,
    pub mark_type: MarkText,
    pub old: Attrs,
}

impl MarkerDelta {
    /// An equal marker delta.
    pub fn copy(&self) -> Result<MarkerDelta, NoMemory>
        ensures { IfOk result (λ copy. copy ≡ self.now) }
    {
        self.clone()
    }

    pub(crate) fn added(alloc: Global, marker: &Marker) -> Result<MarkerDelta, NoMemory>
        ensures { IfOk result (λ delta. delta ≡ added marker.now) }
    {
        Ok(MarkerDelta {
            id: marker.id,
            change: Change::Added,
            mark_type: marker.mark_type.copy()?,
            old: Attrs::empty(alloc),
        })
    }

    pub(crate) fn removed(marker: &Marker) -> Result<MarkerDelta, NoMemory>
        ensures { IfOk result (λ delta. delta ≡ removed marker.now) }
    {
        Ok(MarkerDelta {
            id: marker.id,
            change: Change::Removed,
            mark_type: marker.mark_type.copy()?,
            old: marker.attrs.copy()?,
        })
    }

    pub(crate) fn changed(before: &Marker) -> Result<MarkerDelta, NoMemory>
        ensures { IfOk result (λ delta. delta ≡ changed before.now) }
    {
        Ok(MarkerDelta {
            id: before.id,
            change: Change::Changed,
            mark_type: before.mark_type.copy()?,
            old: before.attrs.copy()?,
        })
    }
}

/// A list of marker deltas, as a value. It is made from a vector and gives it back without taking memory.
#[derive(Debug, Drop)]
pub struct MarkerDeltas {
    deltas: Vec<MarkerDelta>,
}

impl Model for MarkerDeltas {
    ghost use Rattle.std.specs.Prelude.{List};
    ghost use Rattle.mark_set.specs.declared.delta.MarkerDelta.{MarkerDelta};
    ghost use Rattle.std.specs.Coded.{coded_list};
    ghost use Rattle.mark_set.specs.contracts.delta.MarkerDelta as delta;

    ghost Value = { List MarkerDelta };

    ghost coded = { coded_list delta.the_row.coded };

    ghost view = { λ list. list.deltas.items };
}

impl MarkerDeltas {
    /// These deltas.
    pub fn of(deltas: Vec<MarkerDelta>) -> MarkerDeltas
        ensures { result ≡ deltas.items }
    {
        MarkerDeltas { deltas }
    }

    /// The deltas as a slice.
    pub fn as_slice(&self) -> &[MarkerDelta]
        ensures { result.now ≡ self.now }
    {
        self.deltas.as_slice()
    }

    /// The vector given back.
    pub fn into_vec(self) -> Vec<MarkerDelta>
        ensures { result.items ≡ self }
    {
        let MarkerDeltas { deltas } = self;
        deltas
    }

    /// An equal list.
    pub fn copy(&self) -> Result<MarkerDeltas, NoMemory>
        ensures { IfOk result (λ copy. copy ≡ self.now) }
    {
        Ok(MarkerDeltas {
            deltas: self.deltas.clone()?,
        })
    }
}

impl Clone for MarkerDeltas {
    ghost is_clone = { λ list copy. copy ≡ list };

    fn clone(&self) -> Result<MarkerDeltas, NoMemory> {
        self.copy()
    }
}
