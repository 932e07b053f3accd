//! What the last build of a project's command left.
ghost use Rattle.std.specs.Prelude.{◌≡◌, IfOk};

use crate::Names;
use bytes::Bytes;
use res_path::{Name, NoMemory};
use std::marker::Model;
use ws_elem::ElemMap;

/// What the last build of a project's command left: the command as it was, the references of the project as they were,
/// and the tree that was built.
#[derive(Debug, Drop)]
pub struct Built {
    /// The project that was built.
    pub project: Name,
    /// Which of its commands, counted from 0.
    pub index: u16,
    /// The canonical text of the command as it was.
    pub command: Bytes,
    /// The references as they were, in the order of the description.
    pub references: Names,
    pub tree: ElemMap,
}

impl Built {
    /// An equal record, which shares its texts.
    pub fn copy(&self) -> Result<Built, NoMemory>
        ensures { IfOk result (λ copy. copy ≡ self.now) }
    {
        Ok(Built {
            project: self.project.copy()?,
            index: self.index,
            command: self.command.clone()?,
            references: self.references.copy()?,
            tree: self.tree.copy()?,
        })
    }
}

impl Clone for Built {
    ghost use Rattle.std.specs.Prelude.{◌≡◌};

    ghost is_clone = { λ built copy. copy ≡ built };

    fn clone(&self) -> Result<Built, NoMemory> {
        self.copy()
    }
}

/// Built records, by project and index. A contract sees the list of them.
#[derive(Debug, Drop)]
pub struct Builds {
    records: Vec<Built>,
}

impl Model for Builds {
    ghost use Rattle.std.specs.Prelude.{List};
    ghost use Rattle.std.specs.Coded.{coded_list};
    ghost use Rattle.ws_durable.specs.declared.built.Built.{Built};
    ghost use Rattle.ws_durable.specs.contracts.built.Built as built;

    ghost Value = { List Built };

    ghost coded = { coded_list built.the_row.coded };

    ghost view = { λ b. b.records.items };
}

impl Builds {
    /// These records, of which nothing is copied.
    pub fn of(records: Vec<Built>) -> Builds
        ensures { result ≡ records.items }
    {
        Builds { records }
    }

    /// The records in order.
    pub fn as_slice(&self) -> &[Built]
        ensures { result.now ≡ self.now }
    {
        self.records.as_slice()
    }

    /// The records, of which nothing is copied.
    pub fn into_vec(self) -> Vec<Built>
        ensures { result.items ≡ self }
    {
        let Builds { records } = self;
        records
    }

    /// Equal records, which share their texts.
    pub fn copy(&self) -> Result<Builds, NoMemory>
        ensures { IfOk result (λ copy. copy ≡ self.now) }
    {
        let records = self.records.clone()?;
        Ok(Builds { records })
    }
}
