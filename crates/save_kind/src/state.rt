//! What participants keep from one session to the next.
ghost use Rattle.std.specs.Prelude.{◌≡◌, [], IfOk};

use bytes::Bytes;
use res_path::{Name, NoMemory};
use std::alloc::Global;
use std::marker::Model;

/// What a participant wants kept: its own bytes, and whether it wants to be told in the next session what changed since
/// this save (`ISaveContext.needDelta`).
#[derive(Debug, Drop, PartialEq, Eq)]
pub struct PartState {
    pub bytes: Bytes,
    pub needs_delta: bool,
}

impl PartState {
    /// An equal state, which shares the bytes.
    pub fn copy(&self) -> Result<PartState, NoMemory>
        ensures { IfOk result (λ copy. copy ≡ self.now) }
    {
        let bytes = self.bytes.clone()?;
        Ok(PartState {
            bytes,
            needs_delta: self.needs_delta,
        })
    }
}

impl Clone for PartState {
    ghost use Rattle.std.specs.Prelude.{◌≡◌};

    ghost is_clone = { λ state copy. copy ≡ state };

    fn clone(&self) -> Result<PartState, NoMemory> {
        self.copy()
    }
}

/// The states of several participants, each with its participant's name, in an order. A contract sees the list of them.
#[derive(Debug, Drop)]
pub struct PartStates {
    states: Vec<(Name, PartState)>,
}

impl Model for PartStates {
    ghost use Rattle.std.specs.Prelude.{ℕ, List};
    ghost use Rattle.save_kind.specs.declared.state.PartState.{PartState};

    ghost Value = { List (List ℕ × PartState) };

    ghost view = { λ s. s.states.items };
}

impl PartStates {
    /// No states. It takes no memory.
    pub fn empty(alloc: Global) -> PartStates
        ensures { result ≡ [] }
    {
        PartStates {
            states: Vec::new(alloc),
        }
    }

    /// These states, of which nothing is copied.
    pub fn of(states: Vec<(Name, PartState)>) -> PartStates
        ensures { result ≡ states.items }
    {
        PartStates { states }
    }

    /// The states in order.
    pub fn as_slice(&self) -> &[(Name, PartState)]
        ensures { result.now ≡ self.now }
    {
        self.states.as_slice()
    }

    /// The states, of which nothing is copied.
    pub fn into_vec(self) -> Vec<(Name, PartState)>
        ensures { result.items ≡ self }
    {
        let PartStates { states } = self;
        states
    }

    /// Equal states, which share their bytes.
    pub fn copy(&self) -> Result<PartStates, NoMemory>
        ensures { IfOk result (λ copy. copy ≡ self.now) }
    {
        let states = self.states.clone()?;
        Ok(PartStates { states })
    }
}

impl Clone for PartStates {
    ghost use Rattle.std.specs.Prelude.{◌≡◌};

    ghost is_clone = { λ states copy. copy ≡ states };

    fn clone(&self) -> Result<PartStates, NoMemory> {
        self.copy()
    }
}
