//! Built records and kept states.

ghost use Rattle.std.specs.Prelude.{◌≡◌, Option, nat_lt, bytes_eq};
ghost use Rattle.std.specs.Option.{option_copied, option_map};
ghost use Rattle.save_form.specs.Forms.{text, optional};
ghost use Rattle.save_form.specs.Lists.{list, is_above};
ghost use Rattle.save_elem.specs.Elems.{is_name_below};
ghost use Rattle.save_state.specs.declared.records.Kept.{Kept as KeptRecord};
ghost use Rattle.save_form.specs.Gives.{Gives};
ghost use Rattle.save_state.specs.States.{change, built, kept, built_key, is_project_from, is_built_above};

use crate::base::Base;
use crate::change::{Change, Changes};
use save_form::{Item, Items, Stop, Stuck, Text, read_flag, read_list, read_text, read_u16};
use std::alloc::Global;
use std::cmp::Ordering;
use ws_wire::In;

/// What the last build of a project's command left: the command as it was, the references as they were, and the changes
/// from the tree to the one that was built.
#[derive(Debug, Drop)]
pub struct Built<'a> {
    /// The project that was built.
    pub project: Text<'a>,
    /// Which of its commands.
    pub index: u16,
    pub command: Text<'a>,
    pub references: Items<Text<'a>>,
    pub changes: Items<Change<'a>>,
}

/// What a participant keeps, and where it asked for them the changes from the tree to the kept one.
#[derive(Debug, Drop)]
pub struct Kept<'a> {
    pub participant: Text<'a>,
    pub bytes: Text<'a>,
    pub changes: Option<Items<Change<'a>>>,
}

/// Texts, one after the other.
pub struct Texts;

impl<'a> Item<'a> for Texts {
    type Value = Text<'a>;

    ghost form = { λ _ _. text };

    fn read(
        &self,
        _alloc: Global,
        input: &mut In<'a>,
        _before: Option<&Text<'a>>,
    ) -> Result<Text<'a>, Stuck> {
        read_text(input)
    }
}

fn is_below(one: &[u8], other: &[u8]) -> bool
    ensures { result ≡ is_name_below one.now other.now }
{
    one.cmp(other) == Ordering::Less
}

fn is_project_from(before: Option<&Built<'_>>, project: &[u8]) -> bool
    ensures { result ≡ is_project_from (option_copied before.entry) project.now }
{
    match before {
        None => true,
        Some(before) => !is_below(project, before.project.bytes()),
    }
}

fn is_built_above(before: Option<&Built<'_>>, project: &[u8], index: u16) -> bool
    ensures { result ≡ is_built_above (option_copied before.entry) (project.now, index) }
{
    match before {
        None => true,
        Some(before) => {
            is_below(before.project.bytes(), project)
                || (before.project.bytes() == project && before.index < index)
        }
    }
}

fn read_built_key<'a>(
    input: &mut In<'a>,
    before: Option<&Built<'a>>,
) -> Result<(Text<'a>, u16), Stuck>
    ensures { Gives result input.new ((built_key (option_copied before.entry)).read input.old) }
{
    let at = input.at();
    let project = read_text(input)?;
    if !is_project_from(before, project.bytes()) {
        return Err(Stuck::At(Stop::Bad(at)));
    }
    let index = read_u16(input)?;
    if !is_built_above(before, project.bytes(), index) {
        return Err(Stuck::At(Stop::Bad(at)));
    }
    Ok((project, index))
}

/// The built records of a tree.
#[derive(Drop)]
pub struct BuiltOf<'b, B> {
    pub tree: &'b B,
}

impl<'a, 'b, B: Base> Item<'a> for BuiltOf<'b, B> {
    type Value = Built<'a>;

    ghost form = { λ of. built (B.entries of.tree.now) };

    #[tactic(auto, unfolding(crate::specs::States::built))]
    fn read(
        &self,
        alloc: Global,
        input: &mut In<'a>,
        before: Option<&Built<'a>>,
    ) -> Result<Built<'a>, Stuck> {
        let (project, index) = read_built_key(input, before)?;
        let command = read_text(input)?;
        let references = read_list(alloc, input, &Texts)?;
        let changes = read_list(alloc, input, &Changes { base: self.tree })?;
        Ok(Built {
            project,
            index,
            command,
            references,
            changes,
        })
    }
}

fn is_kept_above(before: Option<&Kept<'_>>, participant: &[u8]) -> bool
    ensures { result ≡ is_above is_name_below (option_map (λ (k : KeptRecord). k.participant) (option_copied before.entry)) participant.now }
{
    match before {
        None => true,
        Some(before) => is_below(before.participant.bytes(), participant),
    }
}

fn read_kept_changes<'a, B: Base>(
    alloc: Global,
    input: &mut In<'a>,
    tree: &B,
) -> Result<Option<Items<Change<'a>>>, Stuck>
    ensures { Gives result input.new ((optional (list (change (B.entries tree.now)))).read input.old) }
{
    if read_flag(input)? {
        Ok(Some(read_list(alloc, input, &Changes { base: tree })?))
    } else {
        Ok(None)
    }
}

/// The kept states of a tree.
#[derive(Drop)]
pub struct KeptOf<'b, B> {
    pub tree: &'b B,
}

impl<'a, 'b, B: Base> Item<'a> for KeptOf<'b, B> {
    type Value = Kept<'a>;

    ghost form = { λ of. kept (B.entries of.tree.now) };

    #[tactic(auto, unfolding(crate::specs::States::kept))]
    fn read(
        &self,
        alloc: Global,
        input: &mut In<'a>,
        before: Option<&Kept<'a>>,
    ) -> Result<Kept<'a>, Stuck> {
        let at = input.at();
        let participant = read_text(input)?;
        if !is_kept_above(before, participant.bytes()) {
            return Err(Stuck::At(Stop::Bad(at)));
        }
        let bytes = read_text(input)?;
        let changes = read_kept_changes(alloc, input, self.tree)?;
        Ok(Kept {
            participant,
            bytes,
            changes,
        })
    }
}
