//! What took whose place while a save is under way.
ghost use Rattle.std.specs.Prelude.{◌≡◌, ◌<◌, ◌≤◌, ◌++◌, ◌∷◌, [], Some, None as nothing, OnOk, OnErr, IfErr, IfOk, IfSome, length};
ghost use Rattle.std.specs.FinMap as map;
ghost use Rattle.std.specs.Vec.{vec_len, vec_capacity};
ghost use Rattle.ws_marks.specs.declared.state.Replaced.{Replaced};
ghost use Rattle.ws_marks.specs.Marked.{set_at};
ghost use Rattle.ws_marks.specs.Inside.{AllThere};

use crate::states::States;
use crate::{NoMemory, Replaced, State};
use res_path::Name;
use std::alloc::AllocFailed;

/// Keeps the state, and the one that it replaces behind the others that were replaced. Where memory wants nothing has
/// changed, and the state comes back.
pub(crate) fn set_in_save<M: Drop>(
    kept: &mut States<M>,
    replaced: &mut Vec<Replaced<M>>,
    new: State<M>,
) -> Result<(), AllocFailed<State<M>>>
    requires { AllThere kept.old replaced.old.items }
    ensures there { AllThere kept.new replaced.new.items }
    ensures kept { OnOk result (kept.new ≡ map.insert kept.old new.participant new) }
    ensures replaced { OnOk result (replaced.new.items ≡ replaced.old.items ++ record { participant = new.participant; before = map.get kept.old new.participant } ∷ []) }
    ensures same_kept { OnErr result (kept.new ≡ kept.old) }
    ensures same_replaced { OnErr result (replaced.new.items ≡ replaced.old.items) }
    ensures back { IfErr result (λ e. e.value ≡ new) }
{
    let Ok((name, participant)) = prepared(replaced, &new.participant) else {
        return Err(AllocFailed { value: new });
    };
    let before = kept.put(name, new)?;
    replaced.push_reserved(Replaced {
        participant,
        before,
    });
    Ok(())
}

/// Makes a place for one more that is replaced. Gives the name twice.
fn prepared<M: Drop>(replaced: &mut Vec<Replaced<M>>, name: &Name) -> Result<(Name, Name), NoMemory>
    ensures items { replaced.new.items ≡ replaced.old.items }
    ensures names { IfOk result (λ names. names ≡ (name.now, name.now)) }
    ensures place { OnOk result (vec_len replaced.new < vec_capacity replaced.new) }
{
    replaced.reserve(1)?;
    Ok((name.copy()?, name.copy()?))
}

/// Puts what was replaced last back, if more than so many were replaced. Gives the state in its place. It takes no memory.
pub(crate) fn undo_in_save<M: Drop>(
    kept: &mut States<M>,
    replaced: &mut Vec<Replaced<M>>,
    count: usize,
) -> Option<State<M>>
    requires { AllThere kept.old replaced.old.items }
    ensures there { AllThere kept.new replaced.new.items }
    ensures undone { IfSome result (λ gone. (last : Replaced M) × (replaced.old.items ≡ replaced.new.items ++ last ∷ []) × (count ≤ length replaced.new.items)
        × (map.get kept.old last.participant ≡ Some gone) × (kept.new ≡ set_at kept.old last.participant last.before)) }
    ensures none { result ≡ nothing → length replaced.old.items ≤ count }
    ensures same_kept { result ≡ nothing → kept.new ≡ kept.old }
    ensures same_replaced { result ≡ nothing → replaced.new.items ≡ replaced.old.items }
{
    if replaced.len() <= count {
        return None;
    }
    match replaced.pop() {
        None => None,
        Some(
            Replaced {
                participant,
                before,
            },
        ) => kept.put_back(&participant, before),
    }
}

/// Takes what was replaced last.
pub(crate) fn take_in_save<M: Drop>(replaced: &mut Vec<Replaced<M>>) -> Option<Replaced<M>>
    ensures last { IfSome result (λ last. replaced.old.items ≡ replaced.new.items ++ last ∷ []) }
    ensures none { result ≡ nothing → replaced.old.items ≡ [] }
    ensures same { result ≡ nothing → replaced.new.items ≡ replaced.old.items }
{
    replaced.pop()
}
