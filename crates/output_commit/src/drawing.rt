//! Which numbers are drawn, and how many files and elements come or go.
ghost use Rattle.std.specs.Prelude.{◌≡◌, ◌+◌, IfOk};
ghost use Rattle.std.specs.Option.{option_copied};
ghost use Rattle.std.specs.FinMap.{entries};
ghost use Rattle.output_commit.specs.Placed.{total, nodes_of, stamps_of};
ghost use Rattle.output_commit.specs.Touched.{is_touched, touches_of};
ghost use Rattle.output_commit.specs.Inside.Plans.{news_of, draw_of, add_draws};

use crate::NoMemory;
use crate::deeds::{has_file, nodes_of, serves, stamps_of};
use std::alloc::AllocError;
use ws_elem::{ElemMap, Element, TreeRep};

/// What is drawn where some elements are wanted.
#[derive(Clone, Copy)]
pub(crate) struct Draws {
    pub nodes: u64,
    pub stamps: u64,
    /// How many paths at which nothing was.
    pub news: u64,
    /// How many paths at which a file came, went or got other contents.
    pub touches: u64,
}

/// What is drawn where these are wanted.
pub(crate) fn all_draws<T: TreeRep>(tree: &T, wanted: &ElemMap) -> Result<Draws, NoMemory>
    ensures nodes { IfOk result (λ d. d.nodes ≡ total nodes_of (T.tree tree.now) (entries wanted.now.map)) }
    ensures stamps { IfOk result (λ d. d.stamps ≡ total stamps_of (T.tree tree.now) (entries wanted.now.map)) }
    ensures news { IfOk result (λ d. d.news ≡ total news_of (T.tree tree.now) (entries wanted.now.map)) }
    ensures touches { IfOk result (λ d. d.touches ≡ total touches_of (T.tree tree.now) (entries wanted.now.map)) }
{
    let mut sum = Draws {
        nodes: 0,
        stamps: 0,
        news: 0,
        touches: 0,
    };
    for (path, element) in wanted.iter() {
        sum = add(sum, one(element, tree.get(path)))?;
    }
    Ok(sum)
}

/// What is drawn for one element, with what is there.
fn one(wanted: &Element, there: Option<&Element>) -> Draws
    ensures { result ≡ draw_of wanted.now (option_copied there.entry) }
{
    Draws {
        nodes: nodes_of(wanted, there),
        stamps: stamps_of(wanted, there),
        news: if there.is_some() { 0 } else { 1 },
        touches: touches_of(wanted, there),
    }
}

/// Whether a file comes, goes or gets other contents.
fn touches_of(wanted: &Element, there: Option<&Element>) -> u64
    ensures { result ≡ touches_of wanted.now (option_copied there.entry) }
{
    if touches(wanted, there) { 1 } else { 0 }
}

fn touches(wanted: &Element, there: Option<&Element>) -> bool
    ensures { result ≡ is_touched wanted.now (option_copied there.entry) }
{
    if wanted.kind.is_file() {
        !serves(wanted, there)
    } else {
        has_file(there)
    }
}

/// The sum, where it can be counted.
fn add(sum: Draws, more: Draws) -> Result<Draws, NoMemory>
    ensures { IfOk result (λ d. d ≡ add_draws sum more) }
{
    Ok(Draws {
        nodes: sum_up(sum.nodes, more.nodes)?,
        stamps: sum_up(sum.stamps, more.stamps)?,
        news: sum_up(sum.news, more.news)?,
        touches: sum_up(sum.touches, more.touches)?,
    })
}

/// The sum, where it can be counted.
pub(crate) fn sum_up(count: u64, more: u64) -> Result<u64, NoMemory>
    ensures { IfOk result (λ n. n ≡ count + more) }
{
    match count.checked_add(more) {
        Some(total) => Ok(total),
        None => Err(AllocError),
    }
}
