//! What is there in a workspace that is opened from what was kept.
ghost use Rattle.std.specs.Prelude.{◌≡◌, [], map, IfOk, None as nothing};
ghost use Rattle.std.specs.List.{AllByRecursion};
ghost use Rattle.op_kind.specs.Resources.{resources};
ghost use Rattle.ws_durable.specs.Saved.{saved};
ghost use Rattle.built_read.specs.Records.{HasCommand};
ghost use Rattle.ws_content.specs.States.{at_names, at_places, shown_built, shown_kept};
ghost use Rattle.ws_core.specs.Opened.{opened_of};
ghost use Rattle.ws_core.specs.States.{contents_of};
ghost use Rattle.ws_core.specs.Inside.Kept.{state_of};

use crate::NoMemory;
use built_read::records_of;
use elem_tree::LayerTree;
use op_kind::{Partners, Side};
use std::alloc::Global;
use ws_content::Content;
use ws_durable::{Durable, Keeps, Kept};
use ws_elem::ElemMap;
use ws_marks::{Record, State};

/// What was kept, with what was built last and what participants keep as they are remembered.
pub fn content_of(alloc: Global, durable: Durable) -> Result<Content<LayerTree>, NoMemory>
    requires { AllByRecursion HasCommand durable.built }
    ensures { IfOk result (λ c. c ≡ contents_of (opened_of (saved durable) [])) }
{
    let Durable {
        next_node,
        next_stamp,
        next_marker,
        partners,
        tree,
        shelf,
        built,
        kept,
    } = durable;
    let partners = Partners::of(partners.into_vec());
    let side = Side {
        shelf,
        next_node,
        next_stamp,
        next_marker,
        partners,
    };
    let records = records_of(alloc, built)?;
    let states = states_of(alloc, kept)?;
    let content = layered(alloc, records.as_slice(), states.as_slice(), &tree, side)?;
    Ok(content)
}

/// What participants keep, in order. Nothing is copied.
fn states_of(alloc: Global, kept: Keeps) -> Result<Vec<State<ElemMap>>, NoMemory>
    ensures { IfOk result (λ states. states.items ≡ map state_of kept) }
{
    let mut states = Vec::new(alloc);
    for one in kept.into_vec() {
        states.push(state_of(one))?;
    }
    Ok(states)
}

fn state_of(kept: Kept) -> State<ElemMap>
    ensures { result ≡ state_of kept }
{
    let Kept {
        participant,
        bytes,
        tree,
    } = kept;
    State {
        participant,
        bytes,
        tree,
    }
}

/// The tree with what stands beside it, and with what was built last and what participants keep, as it is remembered by
/// layers.
fn layered(
    alloc: Global,
    built: &[Record<ElemMap>],
    kept: &[State<ElemMap>],
    tree: &ElemMap,
    side: Side,
) -> Result<Content<LayerTree>, NoMemory>
    ensures { IfOk result (λ c. c ≡ record {
      resources = resources tree.now.map side;
      remembered = record {
        start = tree.now.map;
        told = tree.now.map;
        built = at_places (map shown_built built.now);
        kept = at_names (map shown_kept kept.now);
        before = nothing;
      };
    }) }
{
    let first = first_tree(built, tree);
    let layers = LayerTree::of(alloc, first.copy()?);
    Content::opened(alloc, layers, first, built, kept, tree, side)
}

/// The tree with which remembering is best begun: the last record's, and where there is none the tree.
fn first_tree<'a>(records: &'a [Record<ElemMap>], tree: &'a ElemMap) -> &'a ElemMap {
    match records.last() {
        Some(last) => &last.tree,
        None => tree,
    }
}
