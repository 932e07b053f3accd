//! What a history tells.
ghost use Rattle.std.specs.Prelude.{◌≡◌, drop, IfOk};
ghost use Rattle.ws_core.specs.Histories.{told_of};
ghost use Rattle.ws_locked.specs.Inside.Gathering.{told_on};

use core_event::{Entry, Notice};
use delta_kind::Delta;
use res_path::NoMemory;
use std::alloc::Global;

/// What the entries tell, in order, but for the first notices, of which so many are left out.
pub(crate) fn told_from(
    alloc: Global,
    entries: &[Entry],
    from: usize,
) -> Result<Vec<Delta>, NoMemory>
    ensures { IfOk result (λ told. told.items ≡ drop from (told_of entries.now)) }
{
    let mut told = Vec::new(alloc);
    let mut skip = from;
    for entry in entries {
        skip = tell(&mut told, &entry.reply.notice, skip)?;
    }
    Ok(told)
}

/// Adds what the notice tells, unless it is to be left out. Answers how many are left out from then on.
fn tell(told: &mut Vec<Delta>, notice: &Notice, skip: usize) -> Result<usize, NoMemory>
    ensures { IfOk result (λ left. (told.new.items, left) ≡ told_on notice.now told.old.items skip) }
{
    let Some(delta) = notice.delta() else {
        return Ok(skip);
    };
    if skip > 0 {
        return Ok(skip - 1);
    }
    told.push(delta.copy()?)?;
    Ok(0)
}
