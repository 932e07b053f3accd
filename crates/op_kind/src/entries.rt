//! Elements with their paths.
ghost use Rattle.std.specs.Prelude.{◌≡◌, [], ◌∷◌, ◌++◌, length, IfOk, OnOk, OnErr};

use res_path::{NoMemory, Path};
use std::alloc::Global;
use std::marker::Model;
use ws_elem::Element;

/// Elements with their paths. A contract sees the list.
#[derive(Clone, Debug, Drop)]
pub struct Entries {
    entries: Vec<(Path, Element)>,
}

impl Model for Entries {
    ghost use Rattle.op_kind.specs.Entries.{Entries};
    ghost use Rattle.std.specs.Coded.{coded×, coded_list, coded_ℕ};
    ghost use Rattle.ws_elem.specs.contracts.element.Element as element;

    ghost Value = { Entries };

    ghost coded = { coded_list (coded× (coded_list (coded_list coded_ℕ)) element.the_row.coded) };

    ghost view = { λ e. e.entries.items };
}

impl Entries {
    /// No elements. It takes no memory.
    pub fn empty(alloc: Global) -> Entries
        ensures { result ≡ [] }
    {
        Entries {
            entries: Vec::new(alloc),
        }
    }

    /// These elements with their paths. It takes no memory.
    pub fn of(entries: Vec<(Path, Element)>) -> Entries
        ensures { result ≡ entries.items }
    {
        Entries { entries }
    }

    /// The elements with their paths.
    pub fn as_slice(&self) -> &[(Path, Element)]
        ensures { result.now ≡ self.now }
    {
        self.entries.as_slice()
    }

    /// How many elements.
    pub fn len(&self) -> usize
        ensures { result ≡ length self.now }
    {
        self.entries.len()
    }

    /// The elements with their paths, of which nothing is copied. It takes no memory.
    pub fn into_vec(self) -> Vec<(Path, Element)>
        ensures { result.items ≡ self }
    {
        let Entries { entries } = self;
        entries
    }

    /// Adds an element as the last.
    pub fn push(&mut self, path: Path, element: Element) -> Result<(), NoMemory>
        ensures ok { OnOk result (self.new ≡ self.old ++ (path, element) ∷ []) }
        ensures err { OnErr result (self.new ≡ self.old) }
    {
        self.entries.push((path, element))?;
        Ok(())
    }

    /// Equal elements, which share their texts.
    pub fn copy(&self) -> Result<Entries, NoMemory>
        ensures { IfOk result (λ copy. copy ≡ self.now) }
    {
        self.clone()
    }
}
