//! The edits that a delta tells.
ghost use Rattle.std.specs.Prelude.{IfOk, IfSome};
ghost use Rattle.std_copy.specs.Inside.Shortcuts.{AreTold};

use builder_api::{Edits, Handed, Problems};
use delta_kind::Delta;
use res_path::NoMemory;
use std::alloc::Global;
use std_kit::{changes_at, is_calm, is_clear};

/// What it answers, where the delta tells it: there is one input, of whose files none lies below another, nor did one that went,
/// and the outputs are as they were made.
pub(crate) fn told_edits(
    alloc: Global,
    delta: &Delta,
    handed: &Handed,
) -> Result<Option<Edits>, NoMemory>
    ensures { IfOk result (λ found. IfSome found (λ edits. AreTold delta.now handed.now edits)) }
{
    let [root] = handed.inputs.as_slice() else {
        return Ok(None);
    };
    if !is_clear(&handed.view, root) {
        return Ok(None);
    }
    if !is_calm(delta, root, &handed.output, &handed.view)? {
        return Ok(None);
    }
    match changes_at(alloc, root, &handed.output, &handed.view, delta)? {
        Some(files) => Ok(Some(Edits {
            files,
            problems: Problems::empty(alloc),
        })),
        None => Ok(None),
    }
}
