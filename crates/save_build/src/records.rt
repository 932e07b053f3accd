//! Names, built records and kept states.
ghost use Rattle.std.specs.Prelude.{◌≡◌, None, map, IfSome};
ghost use Rattle.std.specs.Option.{option_copied, option_map};
ghost use Rattle.res_path.specs.Names.{IsName};
ghost use Rattle.ws_durable.specs.Saved.{saved_built, saved_kept};
ghost use Rattle.save_form.specs.Laws.{FitEach};
ghost use Rattle.save_elem.specs.Sound.{Finds};
ghost use Rattle.save_state.specs.Fits.{FitsChange, FitsBuilt, FitsKept};
ghost use Rattle.save_build.specs.Told.{told_tree, AreFit, AreNames, AllTold, IsBuiltOf, IsKeptOf, IsKeptTree};

use crate::trees::tree_of;
use bytes::Bytes;
use res_path::{Name, PathError};
use save_form::{Items, Text};
use save_state::Change;
use std::alloc::{AllocError, Global};
use std::str::from_utf8;
use ws_durable::{Builds, Built, Keeps, Kept, Names};
use ws_elem::{ElemMap, NoMemory};

fn name_of(alloc: Global, bytes: &[u8]) -> Result<Option<Name>, NoMemory>
    ensures { Finds (λ name. (name ≡ bytes.now) × IsName name) result }
{
    let Ok(text) = from_utf8(bytes) else {
        return Ok(None);
    };
    match Name::parse(alloc, text) {
        Ok(name) => Ok(Some(name)),
        Err(PathError::Memory) => Err(AllocError),
        Err(PathError::TooLong) => Ok(None),
        Err(PathError::TooDeep) => Ok(None),
        Err(PathError::BadSegment { at: _ }) => Ok(None),
    }
}

pub fn names_of(alloc: Global, texts: &[Text<'_>]) -> Result<Option<Names>, NoMemory>
    ensures { Finds (AreNames texts.now) result }
{
    let mut names = Vec::new(alloc);
    for text in texts {
        match name_of(alloc, text.bytes())? {
            None => return Ok(None),
            Some(name) => names.push(name)?,
        }
    }
    Ok(Some(Names::of(names)))
}

fn built_of(
    alloc: Global,
    tree: &ElemMap,
    told: &save_state::Built<'_>,
) -> Result<Option<Built>, NoMemory>
    requires fit { AreFit tree.now.map }
    requires changes { FitEach (FitsChange (told_tree tree.now.map)) None told.now.changes }
    ensures { Finds (λ b. IsBuiltOf tree.now.map told.now (saved_built b)) result }
{
    let Some(project) = name_of(alloc, told.project.bytes())? else {
        return Ok(None);
    };
    let Some(references) = names_of(alloc, told.references.as_slice())? else {
        return Ok(None);
    };
    let Some(built) = tree_of(alloc, tree, told.changes.as_slice())? else {
        return Ok(None);
    };
    Ok(Some(Built {
        project,
        index: told.index,
        command: Bytes::copy_from_slice(alloc, told.command.bytes())?,
        references,
        tree: built,
    }))
}

/// The built records that are told, their trees from this one. None exactly where there are none such.
pub fn builds_of(
    alloc: Global,
    tree: &ElemMap,
    told: &[save_state::Built<'_>],
) -> Result<Option<Builds>, NoMemory>
    requires fit { AreFit tree.now.map }
    requires told { FitEach (FitsBuilt (told_tree tree.now.map)) None told.now }
    ensures { Finds (λ bs. AllTold (IsBuiltOf tree.now.map) (map saved_built bs) told.now) result }
{
    let mut records = Vec::new(alloc);
    for first in told {
        match built_of(alloc, tree, first)? {
            None => return Ok(None),
            Some(built) => records.push(built)?,
        }
    }
    Ok(Some(Builds::of(records)))
}

fn kept_tree_of(
    alloc: Global,
    tree: &ElemMap,
    told: Option<&Items<Change<'_>>>,
) -> Result<Option<Option<ElemMap>>, NoMemory>
    requires fit { AreFit tree.now.map }
    requires changes { IfSome (option_copied told) (FitEach (FitsChange (told_tree tree.now.map)) None) }
    ensures { Finds (λ t. IsKeptTree tree.now.map (option_copied told.entry) (option_map (λ x. x.map) t)) result }
{
    match told {
        None => Ok(Some(None)),
        Some(changes) => match tree_of(alloc, tree, changes.as_slice())? {
            None => Ok(None),
            Some(kept) => Ok(Some(Some(kept))),
        },
    }
}

fn kept_of(
    alloc: Global,
    tree: &ElemMap,
    told: &save_state::Kept<'_>,
) -> Result<Option<Kept>, NoMemory>
    requires fit { AreFit tree.now.map }
    requires changes { IfSome told.now.changes (FitEach (FitsChange (told_tree tree.now.map)) None) }
    ensures { Finds (λ k. IsKeptOf tree.now.map told.now (saved_kept k)) result }
{
    let Some(participant) = name_of(alloc, told.participant.bytes())? else {
        return Ok(None);
    };
    let Some(kept) = kept_tree_of(alloc, tree, told.changes.as_ref())? else {
        return Ok(None);
    };
    Ok(Some(Kept {
        participant,
        bytes: Bytes::copy_from_slice(alloc, told.bytes.bytes())?,
        tree: kept,
    }))
}

/// The kept states that are told, their trees from this one. None exactly where there are none such.
pub fn keeps_of(
    alloc: Global,
    tree: &ElemMap,
    told: &[save_state::Kept<'_>],
) -> Result<Option<Keeps>, NoMemory>
    requires fit { AreFit tree.now.map }
    requires told { FitEach (FitsKept (told_tree tree.now.map)) None told.now }
    ensures { Finds (λ ks. AllTold (IsKeptOf tree.now.map) (map saved_kept ks) told.now) result }
{
    let mut states = Vec::new(alloc);
    for first in told {
        match kept_of(alloc, tree, first)? {
            None => return Ok(None),
            Some(kept) => states.push(kept)?,
        }
    }
    Ok(Some(Keeps::of(states)))
}
