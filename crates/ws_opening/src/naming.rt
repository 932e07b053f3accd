//! The names of a kit's builders.
ghost use Rattle.std.specs.Prelude.{◌≡◌, map, IfOk};

use crate::NoMemory;
use builder_api::{Builder, Builders};
use res_path::Name;
use service_desk::BuilderNames;
use std::alloc::{AllocError, Global};

/// The names of the builders, in order.
pub fn names_of<B: Builder>(alloc: Global, builders: &Builders<B>) -> Result<BuilderNames, NoMemory>
    ensures { IfOk result (λ names. names ≡ map (λ b. b.named) (map (λ b. B.tells b) builders.now)) }
{
    let names = names_in(alloc, builders.as_slice())?;
    Ok(BuilderNames::of(names))
}

fn names_in<B: Builder>(alloc: Global, builders: &[B]) -> Result<Vec<Name>, NoMemory>
    ensures { IfOk result (λ names. names.items ≡ map (λ b. (B.tells b).named) builders.now) }
{
    let mut names = Vec::new(alloc);
    for builder in builders {
        names.push(name_of(alloc, builder)?)?;
    }
    Ok(names)
}

/// The name of a builder.
fn name_of<B: Builder>(alloc: Global, builder: &B) -> Result<Name, NoMemory>
    ensures { IfOk result (λ name. name ≡ (B.tells builder.now).named) }
{
    // What a builder has is a name, so memory alone can want.
    match Name::parse(alloc, builder.name()) {
        Ok(name) => Ok(name),
        Err(_) => Err(AllocError),
    }
}
