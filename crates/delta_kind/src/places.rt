//! Where nodes were lost and gained.
ghost use Rattle.std.specs.Prelude.{◌≡◌, ℕ, Some, IfOk, OnOk, map, is_some};
ghost use Rattle.std.specs.Option.{option_copied, option_and_then};
ghost use Rattle.std.specs.FinMap as map;
ghost use Rattle.res_path.specs.Paths.{Names};
ghost use Rattle.delta_kind.specs.Rows.{shown, place_in, turned};
ghost use Rattle.delta_kind.specs.Inside.Passes.{has_turn};
ghost use Rattle.delta_kind.specs.Inside.Tables.{kept_place, kept_node, known, Serves};
ghost use Rattle.delta_kind.specs.declared.row.Turn.TheVariants.{Lost, Gained};

use crate::{Place, Row, Turn};
use res_path::Path;
use std::alloc::Global;
use std::collections::BTreeMap;
use std::marker::Model;
use ws_elem::NoMemory;

/// Who lost and who gained each node, as far as both happened.
#[derive(Drop)]
pub struct Moves {
    pub losers: Places,
    pub gainers: Places,
}

impl Moves {
    /// The moves of some rows. Only nodes that a row loses, and some row gains, take memory for their gainer; where no
    /// row loses a node, or none gains one, nothing does.
    pub fn of_rows(alloc: Global, rows: &[Row<'_>]) -> Result<Moves, NoMemory>
        ensures { IfOk result (λ moves. Serves (map.get moves.losers) (map.get moves.gainers) (map shown rows.now)) }
    {
        if !has_turn(rows, Turn::Lost) {
            return Ok(Moves::none(alloc));
        }
        if !has_turn(rows, Turn::Gained) {
            return Ok(Moves::none(alloc));
        }
        let losers = Places::of_losers(alloc, rows)?;
        let gainers = losers.gainers(alloc, rows)?;
        Ok(Moves { losers, gainers })
    }

    fn none(alloc: Global) -> Moves
        ensures losers { result.losers ≡ map.empty }
        ensures gainers { result.gainers ≡ map.empty }
    {
        Moves {
            losers: Places::none(alloc),
            gainers: Places::none(alloc),
        }
    }
}

/// Whether some row loses a node, or gains one.
fn has_turn(rows: &[Row<'_>], turn: Turn) -> bool
    ensures { result ≡ has_turn turn (map shown rows.now) }
{
    for row in rows {
        if row.turned(turn).is_some() {
            return true;
        }
    }
    false
}

/// A path for each of some nodes. A contract sees the finite map from node to path.
#[derive(Drop)]
pub struct Places {
    paths: BTreeMap<u64, Path>,
}

impl Model for Places {
    ghost use Rattle.std.specs.FinMap as map;
    ghost use Rattle.std.specs.Ordering.{nat_cmp};
    ghost use Rattle.std.specs.Coded.{coded_ℕ, coded_list};
    ghost use Rattle.res_path.specs.Paths.{Names};

    ghost Value = { map.FinMap nat_cmp Names };

    ghost coded = { map.code coded_ℕ (coded_list (coded_list coded_ℕ)) };

    ghost view = { λ p. map.from_entries p.paths.entries };
}

impl Places {
    /// The first path of the rows that loses each node.
    fn of_losers(alloc: Global, rows: &[Row<'_>]) -> Result<Places, NoMemory>
        ensures { IfOk result (λ places. (n : ℕ) → map.get places n ≡ place_in Lost (map shown rows.now) n) }
    {
        let mut places = Places::none(alloc);
        for row in rows {
            places.keep(row.turned(Turn::Lost), row.path)?;
        }
        Ok(places)
    }

    /// The first path of the rows that gains each node of this table.
    fn gainers(&self, alloc: Global, rows: &[Row<'_>]) -> Result<Places, NoMemory>
        ensures { IfOk result (λ places. (n : ℕ) (p : Names) → map.get self.now n ≡ Some p
            → map.get places n ≡ place_in Gained (map shown rows.now) n) }
    {
        let mut places = Places::none(alloc);
        for row in rows {
            places.keep(self.known(row.turned(Turn::Gained)), row.path)?;
        }
        Ok(places)
    }

    /// The node, where the table has it.
    fn known(&self, node: Option<u64>) -> Option<u64>
        ensures { result ≡ known self.now node }
    {
        match node {
            Some(node) => self.some_known(node),
            None => None,
        }
    }

    fn some_known(&self, node: u64) -> Option<u64>
        ensures { result ≡ known self.now (Some node) }
    {
        if self.get(node).is_some() {
            Some(node)
        } else {
            None
        }
    }

    fn none(alloc: Global) -> Places
        ensures { result ≡ map.empty }
    {
        Places {
            paths: BTreeMap::new(alloc),
        }
    }

    fn get(&self, node: u64) -> Option<&Path>
        ensures { option_copied result ≡ map.get self.now node }
    {
        self.paths.get(&node)
    }

    fn put(&mut self, node: u64, path: Path) -> Result<Option<Path>, NoMemory>
        ensures { OnOk result (self.new ≡ map.insert self.old node path) }
    {
        Ok(self.paths.insert(node, path)?)
    }

    /// Gives the node the path, unless it has one.
    fn keep(&mut self, node: Option<u64>, path: &Path) -> Result<(), NoMemory>
        ensures { OnOk result (self.new ≡ kept_place self.old path.now node) }
    {
        match node {
            Some(node) => self.keep_node(node, path),
            None => Ok(()),
        }
    }

    fn keep_node(&mut self, node: u64, path: &Path) -> Result<(), NoMemory>
        ensures { OnOk result (self.new ≡ kept_node (map.get self.old node) self.old path.now node) }
    {
        match self.get(node) {
            Some(_) => Ok(()),
            None => {
                self.put(node, path.copy()?)?;
                Ok(())
            }
        }
    }

    /// A copy of the node's path, where there is a node and it has one.
    pub fn place_of(&self, alloc: Global, node: Option<u64>) -> Result<Place, NoMemory>
        ensures { IfOk result (λ place. place ≡ option_and_then (map.get self.now) node) }
    {
        match node {
            Some(node) => place_at(alloc, self.get(node)),
            None => Ok(Place::none()),
        }
    }
}

fn place_at(alloc: Global, path: Option<&Path>) -> Result<Place, NoMemory>
    ensures { IfOk result (λ place. place ≡ option_copied path.entry) }
{
    match path {
        Some(path) => Place::of(alloc, Some(path.copy()?)),
        None => Ok(Place::none()),
    }
}
