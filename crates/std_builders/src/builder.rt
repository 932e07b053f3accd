//! One of the standard builders.
ghost use Rattle.std.specs.Prelude.{◌≡◌, map, IfOk};
ghost use Rattle.builder_api.specs.Told.{HaveMeanings};
ghost use Rattle.std_builders.specs.Builders.{all_told, told};
ghost use Rattle.std_builders.specs.Standards.{standard};

use crate::{Concat, Copy, Expand, NoMemory};
use builder_api::{BuildFault, Builder, Builders, Edits, Handed};
use proj_desc::Command;
use std::alloc::Global;

/// One of the standard builders. It is called as that one is.
#[derive(Drop)]
pub enum StandardBuilder {
    /// The builder `copy`.
    Copies(Copy),
    /// The builder `concat`.
    Joins(Concat),
    /// The builder `expand`.
    Expands(Expand),
}

impl Builder for StandardBuilder {
    ghost use Rattle.std_builders.specs.Builders.{told};

    ghost tells = { told };

    fn name(&self) -> &str {
        match self {
            StandardBuilder::Copies(builder) => builder.name(),
            StandardBuilder::Joins(builder) => builder.name(),
            StandardBuilder::Expands(builder) => builder.name(),
        }
    }

    fn build(&mut self, command: &Command, handed: &Handed) -> Result<Edits, BuildFault> {
        match self {
            StandardBuilder::Copies(builder) => builder.build(command, handed),
            StandardBuilder::Joins(builder) => builder.build(command, handed),
            StandardBuilder::Expands(builder) => builder.build(command, handed),
        }
    }

    fn clean(&mut self) {
        match self {
            StandardBuilder::Copies(builder) => builder.clean(),
            StandardBuilder::Joins(builder) => builder.clean(),
            StandardBuilder::Expands(builder) => builder.clean(),
        }
    }
}

/// The standard builders in order: `copy`, `concat` and `expand`.
pub fn standard_builders(alloc: Global) -> Result<Builders<StandardBuilder>, NoMemory>
    ensures told { IfOk result (λ builders. map told builders ≡ all_told) }
    ensures means { IfOk result (λ builders. HaveMeanings standard (map told builders)) }
{
    let mut all = Vec::new(alloc);
    all.push(StandardBuilder::Copies(Copy::new(alloc)))?;
    all.push(StandardBuilder::Joins(Concat::new(alloc)))?;
    all.push(StandardBuilder::Expands(Expand::new(alloc)))?;
    Ok(Builders::of(all))
}
