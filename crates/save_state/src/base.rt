//! What changes are told against.

ghost use Rattle.std.specs.Prelude.{◌≡◌, ◌++◌, [], ◌∷◌, true, None, MatchOption, bytes_eq};
ghost use Rattle.save_state.specs.Entries.{Entries, spell_entry};
ghost use Rattle.save_state.specs.Changed.{changed, is_rising};

use crate::change::Change;
use res_path::Path;
use std::cmp::Ordering;

/// What changes are told against.
pub trait Base {
    ghost entries: { Self → Entries };

    /// Whether these bytes spell what stands at the path.
    fn is_own(&self, path: &Path, entry: &[u8]) -> bool
        ensures { result ≡ bytes_eq (spell_entry (entries self.now path.now)) entry.now };
}

/// The base where nothing stands.
#[derive(Clone, Copy, Debug)]
pub struct Nothing;

impl Base for Nothing {
    ghost use Rattle.std.specs.Prelude.{None};

    ghost entries = { λ _ _. None };

    #[tactic(auto, using(crate::proofs::Spellings::spellings))]
    fn is_own(&self, _path: &Path, entry: &[u8]) -> bool {
        [0u8].as_slice() == entry
    }
}

/// A base after changes, in which a path is looked for by halves.
#[derive(Drop)]
pub struct Changed<'b, 'c, 'a, B> {
    base: &'b B,
    changes: &'c [Change<'a>],
    ghost rising: { is_rising None changes.now ≡ true },
}

impl<'b, 'c, 'a, B> Changed<'b, 'c, 'a, B> {
    /// The base after these changes, whose paths rise.
    pub fn of(base: &'b B, changes: &'c [Change<'a>]) -> Changed<'b, 'c, 'a, B>
        requires { is_rising None changes.now ≡ true }
        ensures base { result.base.now ≡ base.now }
        ensures changes { result.changes.now ≡ changes.now }
    {
        Changed { base, changes }
    }
}

impl<'b, 'c, 'a, B: Base> Base for Changed<'b, 'c, 'a, B> {
    ghost entries = { λ c. changed (B.entries c.base.now) c.changes.now };

    fn is_own(&self, path: &Path, entry: &[u8]) -> bool {
        is_own_after(self.base, self.changes, path, entry)
    }
}

#[tactic(auto, using(crate::proofs::Searches::by_halves))]
fn is_own_after<B: Base>(base: &B, changes: &[Change<'_>], path: &Path, entry: &[u8]) -> bool
    requires { is_rising None changes.now ≡ true }
    ensures { result ≡ bytes_eq (spell_entry (changed (B.entries base.now) changes.now path.now)) entry.now }
{
    let Some((front, middle, back)) = halves(changes) else {
        return base.is_own(path, entry);
    };
    match path.cmp(&middle.path) {
        Ordering::Less => is_own_after(base, front, path, entry),
        Ordering::Equal => middle.entry.is_spelled(entry),
        Ordering::Greater => is_own_after(base, back, path, entry),
    }
}

// The change in the middle, with those before and behind it.
fn halves<'c, 'a>(
    changes: &'c [Change<'a>],
) -> Option<(&'c [Change<'a>], &'c Change<'a>, &'c [Change<'a>])>
    ensures { MatchOption result (changes.now ≡ []) (λ parts. changes.now ≡ parts.0.now ++ parts.1.now ∷ parts.2.now) }
{
    let (front, rest) = changes.split_at(changes.len() / 2);
    match rest.split_first() {
        None => None,
        Some((middle, back)) => Some((front, middle, back)),
    }
}
