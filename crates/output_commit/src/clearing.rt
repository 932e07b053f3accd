//! What goes.
ghost use Rattle.std.specs.Prelude.{◌≡◌, ◌++◌, [], ◌∷◌, not, if◌then◌else◌, IfOk, OnOk};
ghost use Rattle.op_plan.specs.Inside.Lists.{taken};
ghost use Rattle.output_commit.specs.Touched.{unwanted, count_files};

use crate::NoMemory;
use crate::drawing::sum_up;
use op_plan::edits::Edits;
use res_path::Path;
use ws_elem::{ElemMap, Element};

/// What isn't wanted is to go, after what is planned already. Gives how many files go.
#[tactic(auto, using(crate::proofs::Gone::goes_step, crate::proofs::Gone::files_step))]
pub(crate) fn clear(
    found: &[(Path, Element)],
    wanted: &ElemMap,
    edits: &mut Edits,
) -> Result<u64, NoMemory>
    ensures edits { OnOk result (edits.new ≡ edits.old ++ taken (unwanted wanted.now.map found.now)) }
    ensures lost { IfOk result (λ n. n ≡ count_files (unwanted wanted.now.map found.now)) }
{
    let mut lost = 0;
    let mut rest = found;
    while let Some((entry, others)) = rest.split_first() {
        let gone = take_unless(wanted.contains(&entry.0), entry, edits)?;
        lost = sum_up(lost, gone)?;
        rest = others;
    }
    Ok(lost)
}

/// What is at the path is to go, unless this is so. Gives 1 where it is a file that goes.
fn take_unless(is_so: bool, entry: &(Path, Element), edits: &mut Edits) -> Result<u64, NoMemory>
    ensures edits { OnOk result (edits.new ≡ edits.old ++ taken (if not is_so then entry.now ∷ [] else [])) }
    ensures lost { IfOk result (λ n. n ≡ count_files (if not is_so then entry.now ∷ [] else [])) }
{
    if is_so {
        return Ok(0);
    }
    edits.take(entry.0.copy()?)?;
    Ok(is_one(entry.1.kind.is_file()))
}

/// 1 where this is so, and else 0.
pub(crate) fn is_one(is_so: bool) -> u64
    ensures { result ≡ (if is_so then 1 else 0) }
{
    if is_so { 1 } else { 0 }
}
