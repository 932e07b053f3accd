//! The records of what was built last.
ghost use Rattle.std.specs.Prelude.{◌≡◌, map, IfOk};
ghost use Rattle.std.specs.List.{AllByRecursion};
ghost use Rattle.built_read.specs.Records.{HasCommand, record_of};

use crate::NoMemory;
use crate::commands::command_of;
use proj_desc::References;
use std::alloc::Global;
use ws_durable::{Builds, Built};
use ws_elem::ElemMap;
use ws_marks::Record;

/// The records, in order, each with the command that its text is. Nothing but the commands is copied.
pub fn records_of(alloc: Global, built: Builds) -> Result<Vec<Record<ElemMap>>, NoMemory>
    requires { AllByRecursion HasCommand built }
    ensures { IfOk result (λ rs. rs.items ≡ map record_of built) }
{
    let mut records = Vec::new(alloc);
    for one in built.into_vec() {
        records.push(record_of(alloc, one)?)?;
    }
    Ok(records)
}

fn record_of(alloc: Global, built: Built) -> Result<Record<ElemMap>, NoMemory>
    requires { HasCommand built }
    ensures { IfOk result (λ r. r ≡ record_of built) }
{
    let command = command_of(alloc, &built)?;
    let Built {
        project,
        index,
        command: _,
        references,
        tree,
    } = built;
    Ok(Record {
        project,
        index,
        command,
        references: References::of(references.into_vec()),
        tree,
    })
}
