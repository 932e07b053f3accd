//! A workspace over a state that was kept.
ghost use Rattle.std.specs.Prelude.{◌≡◌, [], map, Some, IfOk};
ghost use Rattle.ws_durable.specs.Saved.{saved};
ghost use Rattle.save_format.specs.Valid.{Valid};
ghost use Rattle.ws_core.specs.Durables.{kept_since};
ghost use Rattle.ws_core.specs.Opened.{opened_of};
ghost use Rattle.ws_opening.specs.Opened.{opened_state};

use crate::NoMemory;
use crate::kept::Kept;
use crate::naming::names_of;
use builder_api::{Builder, Builders};
use elem_tree::LayerTree;
use save_round::KeptState;
use service_desk::BuilderNames;
use std::alloc::Global;
use ws_core::Core;
use ws_durable::Durable;

/// A workspace that was just opened, in which nothing was done.
#[derive(Drop)]
pub struct Opened {
    pub core: Core<LayerTree>,
    /// Which state it was opened from.
    pub kept: Kept,
    /// What participants kept in that state, by their names, with what changed since where they asked for that.
    pub states: Vec<KeptState>,
}

/// The workspace that was kept so, with these builders, which state it was opened from, and what participants kept in it.
pub fn workspace<B: Builder>(
    alloc: Global,
    durable: Durable,
    builders: &Builders<B>,
) -> Result<Opened, NoMemory>
    requires valid { Valid (saved durable) }
    ensures kept { IfOk result (λ o. o.kept ≡ Some durable) }
    ensures opened { IfOk result (λ o. o.core.opened ≡ opened_state o.kept (map (λ b. B.tells b) builders.now)) }
    ensures state { IfOk result (λ o. o.core.state ≡ o.core.opened) }
    ensures history { IfOk result (λ o. o.core.history ≡ []) }
    ensures states { IfOk result (λ o. o.states.items ≡ kept_since o.core.opened) }
{
    let names = names_of(alloc, builders)?;
    with_builders(alloc, durable, names)
}

/// The same, with builders of these names.
fn with_builders(alloc: Global, durable: Durable, names: BuilderNames) -> Result<Opened, NoMemory>
    requires valid { Valid (saved durable) }
    ensures kept { IfOk result (λ o. o.kept ≡ Some durable) }
    ensures opened { IfOk result (λ o. o.core.opened ≡ opened_of (saved durable) names) }
    ensures state { IfOk result (λ o. o.core.state ≡ o.core.opened) }
    ensures history { IfOk result (λ o. o.core.history ≡ []) }
    ensures states { IfOk result (λ o. o.states.items ≡ kept_since o.core.opened) }
{
    let kept = Kept::of(&durable);
    let core = Core::of(alloc, durable, names)?;
    with_states(alloc, core, kept)
}

/// The same, with what participants kept in it.
fn with_states(alloc: Global, core: Core<LayerTree>, kept: Kept) -> Result<Opened, NoMemory>
    requires state { core.state ≡ core.opened }
    ensures core { IfOk result (λ o. o.core ≡ core) }
    ensures kept { IfOk result (λ o. o.kept ≡ kept) }
    ensures states { IfOk result (λ o. o.states.items ≡ kept_since o.core.opened) }
{
    match core.kept_states(alloc) {
        Ok(states) => Ok(Opened { core, kept, states }),
        Err(wanted) => {
            drop(core);
            Err(wanted)
        }
    }
}
