//! The atoms of the workspace.
ghost use Rattle.std.specs.Prelude.{◌≡◌, ◌||◌};
ghost use Rattle.res_path.specs.Paths.{overlap};
ghost use Rattle.sched_rules.specs.Ranges.{same_range, lies_within, share_a_line};

use crate::{Atom, NoMemory};
use res_path::{Name, Path};
use std::cmp::Ordering;

/// What a rule of the workspace is made of. As in the platform a resource is a rule, which contains and conflicts as
/// paths are prefixes of one another.
///
/// Atoms are ordered paths first, then mutexes, then ranges of lines, each kind by its parts.
#[derive(Debug, Drop)]
pub enum WsAtom {
    /// The resource at this path and all below it.
    Path(Path),
    /// A lock that has a name and nothing else.
    Mutex(Name),
    /// The lines of a file from the one number to the other, both included. A range whose `from` is above its `to`
    /// has no lines: of the ranges it contains and conflicts with itself alone.
    Lines { file: Path, from: u32, to: u32 },
}

impl PartialEq for WsAtom {
    ghost use Rattle.std.specs.Ordering.{eq_by_cmp};
    ghost use Rattle.std.specs.Cmp.{partial_equiv_from_equiv};
    ghost use Rattle.std.proofs.lemmas.Cmp.{eq_by_cmp_equiv};
    ghost use Rattle.sched_rules.specs.Atoms.{atom_cmp};
    ghost use Rattle.sched_rules.specs.AtomLaws.{atom_cmp_total};

    ghost eq = { eq_by_cmp atom_cmp };

    ghost laws = { partial_equiv_from_equiv (eq_by_cmp_equiv atom_cmp_total) };

    fn eq(&self, other: &WsAtom) -> bool {
        self.cmp(other).is_eq()
    }
}

impl Eq for WsAtom {
    ghost use Rattle.std.proofs.lemmas.Cmp.{eq_by_cmp_equiv};
    ghost use Rattle.sched_rules.specs.AtomLaws.{atom_cmp_total};

    ghost laws = { eq_by_cmp_equiv atom_cmp_total };
}

impl PartialOrd for WsAtom {
    ghost use Rattle.std.specs.Ordering.{as_partial_cmp};
    ghost use Rattle.std.specs.Cmp.{partial_order_from_total};
    ghost use Rattle.sched_rules.specs.Atoms.{atom_cmp};
    ghost use Rattle.sched_rules.specs.AtomLaws.{atom_cmp_total};

    ghost partial_cmp = { as_partial_cmp atom_cmp };

    ghost laws = { partial_order_from_total atom_cmp_total };

    fn partial_cmp(&self, other: &WsAtom) -> Option<Ordering> {
        Some(self.cmp(other))
    }
}

impl Ord for WsAtom {
    ghost use Rattle.std.specs.Prelude.{refl};
    ghost use Rattle.sched_rules.specs.Atoms.{atom_cmp};
    ghost use Rattle.sched_rules.specs.AtomLaws.{atom_cmp_total};

    ghost cmp = { atom_cmp };

    ghost total = { atom_cmp_total };

    ghost matches_partial_cmp = { λ x y. refl };

    ghost matches_eq = { λ x y. refl };

    fn cmp(&self, other: &WsAtom) -> Ordering {
        match (self, other) {
            (WsAtom::Path(path), WsAtom::Path(other)) => path.cmp(other),
            (WsAtom::Path(_), _) => Ordering::Less,
            (WsAtom::Mutex(_), WsAtom::Path(_)) => Ordering::Greater,
            (WsAtom::Mutex(name), WsAtom::Mutex(other)) => name.cmp(other),
            (WsAtom::Mutex(_), WsAtom::Lines { .. }) => Ordering::Less,
            (
                WsAtom::Lines { file, from, to },
                WsAtom::Lines {
                    file: other,
                    from: first,
                    to: last,
                },
            ) => { file.cmp(other).then(from.cmp(first)).then(to.cmp(last)) }
            (WsAtom::Lines { .. }, _) => Ordering::Greater,
        }
    }
}

impl Atom for WsAtom {
    ghost use Rattle.sched_rules.specs.Atoms.{atom_contains, atom_conflicts};

    ghost contains = { atom_contains };

    ghost conflicts = { atom_conflicts };

    ghost use Rattle.sched_rules.specs.AtomLaws.{atoms_lawful, atom_cmp_exact};

    ghost lawful = { atoms_lawful };

    ghost exact = { atom_cmp_exact };

    fn contains(&self, other: &WsAtom) -> bool {
        match (self, other) {
            (WsAtom::Path(path), WsAtom::Path(inner)) => path.is_prefix_of(inner),
            (WsAtom::Path(path), WsAtom::Lines { file, .. }) => path.is_prefix_of(file),
            (
                WsAtom::Lines { file, from, to },
                WsAtom::Lines {
                    file: other,
                    from: first,
                    to: last,
                },
            ) => { file == other && range_contains(*from, *to, *first, *last) }
            (WsAtom::Mutex(name), WsAtom::Mutex(other)) => name == other,
            _ => false,
        }
    }

    fn conflicts(&self, other: &WsAtom) -> bool {
        match (self, other) {
            (WsAtom::Path(path), WsAtom::Path(other)) => overlap(path, other),
            (WsAtom::Path(path), WsAtom::Lines { file, .. }) => overlap(path, file),
            (WsAtom::Lines { file, .. }, WsAtom::Path(path)) => overlap(file, path),
            (
                WsAtom::Lines { file, from, to },
                WsAtom::Lines {
                    file: other,
                    from: first,
                    to: last,
                },
            ) => { file == other && ranges_conflict(*from, *to, *first, *last) }
            (WsAtom::Mutex(name), WsAtom::Mutex(other)) => name == other,
            _ => false,
        }
    }

    fn copy(&self) -> Result<WsAtom, NoMemory> {
        Ok(match self {
            WsAtom::Path(path) => WsAtom::Path(path.copy()?),
            WsAtom::Mutex(name) => WsAtom::Mutex(name.copy()?),
            WsAtom::Lines { file, from, to } => WsAtom::Lines {
                file: file.copy()?,
                from: *from,
                to: *to,
            },
        })
    }
}

/// Whether one path is a prefix of the other.
fn overlap(path: &Path, other: &Path) -> bool
    ensures { result ≡ overlap path.now other.now }
{
    path.is_prefix_of(other) || other.is_prefix_of(path)
}

fn range_contains(from: u32, to: u32, first: u32, last: u32) -> bool
    ensures { result ≡ (same_range from to first last || lies_within from to first last) }
{
    (from == first && to == last) || (from <= first && first <= last && last <= to)
}

fn ranges_conflict(from: u32, to: u32, first: u32, last: u32) -> bool
    ensures { result ≡ (same_range from to first last || share_a_line from to first last) }
{
    (from == first && to == last)
        || ((from <= to && first <= last) && (from <= last && first <= to))
}
