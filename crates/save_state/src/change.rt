//! Changes of a tree.

ghost use Rattle.std.specs.Prelude.{◌≡◌, IfOk, None, true, Option};
ghost use Rattle.std.specs.Option.{option_copied, option_map};
ghost use Rattle.save_form.specs.Gives.{Gives};
ghost use Rattle.save_state.specs.Paths.{path, path_of};
ghost use Rattle.save_form.specs.Lists.{is_above, list};
ghost use Rattle.save_state.specs.Changed.{is_path_below, is_rising};
ghost use Rattle.save_state.specs.States.{change};
ghost use Rattle.save_state.specs.declared.change.Change.{Change as ChangeRecord};

use crate::base::Base;
use crate::entry::Entry;
use res_path::{NoMemory, Path, PathError};
use save_form::{Item, Items, Stop, Stuck, read_list, read_text};
use std::alloc::{AllocError, Global};
use std::cmp::Ordering;
use ws_wire::In;

/// What stands at a path after the change.
#[derive(Debug, Drop)]
pub struct Change<'a> {
    pub path: Path,
    pub entry: Entry<'a>,
}

fn path_in(alloc: Global, bytes: &[u8]) -> Result<Option<Path>, NoMemory>
    ensures { IfOk result (λ p. p ≡ path_of bytes.now) }
{
    let Ok(text) = str::from_utf8(bytes) else {
        return Ok(None);
    };
    match Path::parse(alloc, text) {
        Ok(path) => Ok(Some(path)),
        Err(PathError::Memory) => Err(AllocError),
        Err(PathError::TooLong) => Ok(None),
        Err(PathError::TooDeep) => Ok(None),
        Err(PathError::BadSegment { at: _ }) => Ok(None),
    }
}

#[tactic(auto, unfolding(crate::specs::Paths::path))]
fn read_path(alloc: Global, input: &mut In<'_>) -> Result<Path, Stuck>
    ensures { Gives result input.new (path.read input.old) }
{
    let at = input.at();
    let bytes = read_text(input)?;
    match path_in(alloc, bytes.bytes())? {
        Some(path) => Ok(path),
        None => Err(Stuck::At(Stop::Bad(at))),
    }
}

fn is_path_above(before: Option<&Change<'_>>, path: &Path) -> bool
    ensures { result ≡ is_above is_path_below (option_map (λ (c : ChangeRecord). c.path) (option_copied before.entry)) path.now }
{
    match before {
        None => true,
        Some(before) => before.path.cmp(path) == Ordering::Less,
    }
}

/// Reads the changes from a base.
#[derive(Drop)]
pub struct Changes<'b, B> {
    pub base: &'b B,
}

impl<'a, 'b, B: Base> Item<'a> for Changes<'b, B> {
    type Value = Change<'a>;

    ghost form = { λ changes. change (B.entries changes.base.now) };

    #[tactic(auto, unfolding(crate::specs::States::change))]
    fn read(
        &self,
        alloc: Global,
        input: &mut In<'a>,
        before: Option<&Change<'a>>,
    ) -> Result<Change<'a>, Stuck> {
        let at = input.at();
        let path = read_path(alloc, input)?;
        if !is_path_above(before, &path) {
            return Err(Stuck::At(Stop::Bad(at)));
        }
        let at = input.at();
        let entry = Entry::read(alloc, input)?;
        if self.base.is_own(&path, entry.spelling()) {
            return Err(Stuck::At(Stop::Bad(at)));
        }
        Ok(Change { path, entry })
    }
}

/// The changes from a base, whose paths rise.
#[tactic(auto, using(crate::proofs::Searches::given_rising))]
pub fn read_changes<'a, B: Base>(
    alloc: Global,
    input: &mut In<'a>,
    base: &B,
) -> Result<Items<Change<'a>>, Stuck>
    ensures gives { Gives result input.new ((list (change (B.entries base.now))).read input.old) }
    ensures rising { IfOk result (λ changes. is_rising None changes ≡ true) }
{
    read_list(alloc, input, &Changes { base })
}
