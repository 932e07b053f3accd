//! What a participant of saves keeps.
ghost use Rattle.std.specs.Prelude.{◌≡◌, IfOk};
ghost use Rattle.std.specs.Option.{option_copied};

use bytes::Bytes;
use res_path::{Name, NoMemory};
use std::marker::Model;
use ws_elem::ElemMap;

/// What a participant of saves keeps: bytes of its own and, where it asked for it, the tree of that save.
#[derive(Debug, Drop)]
pub struct Kept {
    pub participant: Name,
    pub bytes: Bytes,
    pub tree: Option<ElemMap>,
}

impl Kept {
    /// An equal state, which shares its texts.
    pub fn copy(&self) -> Result<Kept, NoMemory>
        ensures { IfOk result (λ copy. copy ≡ self.now) }
    {
        Ok(Kept {
            participant: self.participant.copy()?,
            bytes: self.bytes.clone()?,
            tree: copied(self.tree.as_ref())?,
        })
    }
}

fn copied(tree: Option<&ElemMap>) -> Result<Option<ElemMap>, NoMemory>
    ensures { IfOk result (λ copy. copy ≡ option_copied tree.entry) }
{
    match tree {
        None => Ok(None),
        Some(tree) => Ok(Some(tree.copy()?)),
    }
}

impl Clone for Kept {
    ghost use Rattle.std.specs.Prelude.{◌≡◌};

    ghost is_clone = { λ kept copy. copy ≡ kept };

    fn clone(&self) -> Result<Kept, NoMemory> {
        self.copy()
    }
}

/// Kept states, by participant. A contract sees the list of them.
#[derive(Debug, Drop)]
pub struct Keeps {
    states: Vec<Kept>,
}

impl Model for Keeps {
    ghost use Rattle.std.specs.Prelude.{List};
    ghost use Rattle.std.specs.Coded.{coded_list};
    ghost use Rattle.ws_durable.specs.declared.kept.Kept.{Kept};
    ghost use Rattle.ws_durable.specs.contracts.kept.Kept as kept;

    ghost Value = { List Kept };

    ghost coded = { coded_list kept.the_row.coded };

    ghost view = { λ k. k.states.items };
}

impl Keeps {
    /// These states, of which nothing is copied.
    pub fn of(states: Vec<Kept>) -> Keeps
        ensures { result ≡ states.items }
    {
        Keeps { states }
    }

    /// The states in order.
    pub fn as_slice(&self) -> &[Kept]
        ensures { result.now ≡ self.now }
    {
        self.states.as_slice()
    }

    /// The states, of which nothing is copied.
    pub fn into_vec(self) -> Vec<Kept>
        ensures { result.items ≡ self }
    {
        let Keeps { states } = self;
        states
    }

    /// Equal states, which share their texts.
    pub fn copy(&self) -> Result<Keeps, NoMemory>
        ensures { IfOk result (λ copy. copy ≡ self.now) }
    {
        let states = self.states.clone()?;
        Ok(Keeps { states })
    }
}
