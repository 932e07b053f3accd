//! What is there, and what it was.
ghost use Rattle.std.specs.Prelude.{◌≡◌, true, map, None as nothing, IfErr, IfOk, OnErr, OnOk};
ghost use Rattle.op_kind.specs.declared.refusal.OpError.TheVariants as op_errors;
ghost use Rattle.output_edits.specs.declared.refusal.EditError.TheVariants as edit_errors;
ghost use Rattle.op_kind.specs.Resources.{resources};
ghost use Rattle.delta_kind.specs.Deltas.{delta};
ghost use Rattle.core_event.specs.declared.reply.Refusal.TheVariants.{Operation};
ghost use Rattle.core_event.specs.Twice.{doubled, twice};
ghost use Rattle.ws_content.specs.Deeds.{cleaned, committed, edit_refusal, operated, replied};
ghost use Rattle.ws_content.specs.Handing.{handing};
ghost use Rattle.ws_durable.specs.Saved.{saved};
ghost use Rattle.ws_lasting.specs.Saved.{lasting_of};
ghost use Rattle.ws_content.specs.Saves.{is_saved, keeping, kept_since, saves_begun, saves_ended};
ghost use Rattle.ws_content.specs.States.{at_names, at_places, shown_built, shown_kept, tree_alone};
ghost use Rattle.ws_content.specs.Inside.Parts.{TellsEdits, TellsOperation, refused_reply};

use crate::handing::since_built;
use crate::lasting::durable_content;
use crate::opening::Opened;
use crate::restoring::kept_states;
use crate::{NoMemory, building, keeping, opening, operating};
use build_due::Site;
use builder_api::{BuildKind, Edits, Handed};
use core_event::{Answer, Outcomes, Refusal, Reply, Twice, refused_twice, untold};
use delta_kind::Delta;
use op_kind::{Op, OpError, OpRefusal, Side};
use output_commit::{EditError, EditRefusal};
use save_kind::{PartStates, SaveAnswer};
use save_round::KeptState;
use std::alloc::{AllocError, Global};
use std::marker::Model;
use tree_memory::{Remembers, Sparing};
use ws_durable::Durable;
use ws_elem::ElemMap;
use ws_marks::{Marks, Record, State};

/// The tree, what stands beside it, what the tree was (as the workspace was opened, as it was last told, and as each build
/// command was built last), and what participants of saves keep. A contract sees the resources and what is remembered.
#[derive(Drop)]
pub struct Content<T: Remembers + Drop> {
    tree: Sparing<T>,
    side: Side,
    start: T::Memory,
    marks: Marks<T::Memory>,
}

impl<T: Remembers + Drop> Model for Content<T> {
    ghost use Rattle.ws_elem.specs.contracts.element.Element as element;
    ghost use Rattle.proj_desc.specs.contracts.command.Command as command;
    ghost use Rattle.op_kind.specs.Resources.{resources};
    ghost use Rattle.tree_memory.specs.Spared.{left};
    ghost use Rattle.ws_content.specs.States.{Contents};
    ghost use Rattle.ws_content.specs.Inside.Codes.{contents_code};
    ghost use Rattle.ws_content.specs.Inside.Held.{AreHeld, seen};
    ghost use Rattle.ws_content.specs.Inside.Parts.{contents};

    ghost Value = { Contents };

    ghost coded = { contents_code element.the_row.coded command.the_row.coded };

    ghost view = { λ c. contents (resources (T.tree c.tree.tree) c.side) (seen T.number (T.number c.start) (left T.remembered c.tree) c.marks) };

    ghost invariant = { λ c. AreHeld T.number (T.number c.start) (left T.remembered c.tree) c.marks };
}

impl<T: Remembers + Drop> Content<T> {
    /// The tree with what stands beside it, which is remembered as it is. Nothing was built, and nothing is kept.
    pub fn of(alloc: Global, tree: T, side: Side) -> Result<Content<T>, NoMemory>
        ensures { IfOk result (λ c. c ≡ record { resources = resources (T.tree tree) side; remembered = tree_alone (T.tree tree) }) }
    {
        let opened = opening::as_it_is(alloc, tree)?;
        let Opened { tree, start, marks } = opened;
        Ok(Content {
            tree,
            side,
            start,
            marks,
        })
    }

    /// The wanted tree with what stands beside it, as it is opened where commands were built and states kept before: what was
    /// built last is as the records say, what participants keep as the states say, the first of a place and of a name
    /// counting, and the tree is remembered as it is. The tree that is given has the elements of `at`. It is led to the tree
    /// of each record, from the last to the first, then to that of each state that has one, from the last to the first, and
    /// then to the wanted one, so that each is remembered by what differs from the one before it: `at` is best the last
    /// record's tree. What is put shares the texts of these trees. Costs a walk of each of them.
    pub fn opened(
        alloc: Global,
        tree: T,
        at: &ElemMap,
        built: &[Record<ElemMap>],
        kept: &[State<ElemMap>],
        wanted: &ElemMap,
        side: Side,
    ) -> Result<Content<T>, NoMemory>
        requires { T.tree tree ≡ at.now.map }
        ensures { IfOk result (λ c. c ≡ record {
          resources = resources wanted.now.map side;
          remembered = record {
            start = wanted.now.map;
            told = wanted.now.map;
            built = at_places (map shown_built built.now);
            kept = at_names (map shown_kept kept.now);
            before = nothing;
          };
        }) }
    {
        let opened = opening::led_through(alloc, tree, at, built, kept, wanted)?;
        let Opened { tree, start, marks } = opened;
        Ok(Content {
            tree,
            side,
            start,
            marks,
        })
    }

    /// Does the operation, or refuses it, and tells what changed since the tree was told, where something is to be told. Where
    /// memory wants, nothing has changed.
    pub fn operate(
        &mut self,
        alloc: Global,
        op: &Op,
        tells: bool,
        wants_copy: bool,
    ) -> Result<Twice<Reply>, NoMemory>
        requires { tells ≡ true → self.old.remembered.told ≡ self.old.resources.tree }
        ensures ok { IfOk result (λ r. (self.new, r) ≡ doubled wants_copy (replied tells (operated self.old op.now))) }
        ensures err { OnErr result (self.new ≡ self.old) }
    {
        let done = operating::operate(
            alloc,
            &mut self.tree,
            &mut self.side,
            &mut self.marks,
            op,
            tells,
            wants_copy,
        );
        reply_to(alloc, done, wants_copy)
    }

    /// Makes the edits below the output of the command, or refuses them. The tree after that is what was built last for it.
    /// Tells what changed since the tree was told, where something is to be told. Where memory wants, nothing has changed.
    pub fn commit(
        &mut self,
        alloc: Global,
        site: &Site,
        edits: &Edits,
        tells: bool,
        wants_copy: bool,
    ) -> Result<Twice<Reply>, NoMemory>
        requires { tells ≡ true → self.old.remembered.told ≡ self.old.resources.tree }
        ensures ok { IfOk result (λ r. (self.new, r) ≡ doubled wants_copy (replied tells (committed self.old site.now edits.now))) }
        ensures err { OnErr result (self.new ≡ self.old) }
    {
        let done = building::commit(
            alloc,
            &mut self.tree,
            &mut self.side,
            &mut self.marks,
            site,
            edits,
            tells,
            wants_copy,
        );
        reply_to_edits(alloc, done, wants_copy)
    }

    /// What lies below the output of the command goes, with its problems and what was built last for it. Tells what changed
    /// since the tree was told, where something is to be told. Where memory wants, nothing has changed.
    pub fn clean(
        &mut self,
        alloc: Global,
        site: &Site,
        tells: bool,
        wants_copy: bool,
    ) -> Result<Twice<Reply>, NoMemory>
        requires { tells ≡ true → self.old.remembered.told ≡ self.old.resources.tree }
        ensures ok { IfOk result (λ r. (self.new, r) ≡ doubled wants_copy (replied tells (cleaned self.old site.now))) }
        ensures err { OnErr result (self.new ≡ self.old) }
    {
        building::clean(
            alloc,
            &mut self.tree,
            &mut self.side,
            &mut self.marks,
            site,
            tells,
            wants_copy,
        )
    }

    /// Tells what changed since the tree was told, with the answer.
    pub fn tell(
        &mut self,
        alloc: Global,
        answer: Answer,
        wants_copy: bool,
    ) -> Result<Twice<Reply>, NoMemory>
        ensures ok { IfOk result (λ r. (self.new, r) ≡ doubled wants_copy (replied true (self.old, answer))) }
        ensures err { OnErr result (self.new ≡ self.old) }
    {
        operating::tell(
            alloc,
            &mut self.tree,
            &mut self.marks,
            answer,
            true,
            wants_copy,
        )
    }

    /// A save is under way from now on, if none was: until it ends, what participants keep now can be had again.
    pub fn begin_save(&mut self) -> Result<(), NoMemory>
        ensures ok { OnOk result (self.new ≡ saves_begun self.old) }
        ensures err { OnErr result (self.new ≡ self.old) }
    {
        self.marks.begin_save();
        Ok(())
    }

    /// These states are kept from now on, each in the place of what its participant kept, and each with the tree as it is
    /// where it asks for what changes. Where memory wants, nothing has changed.
    pub fn keep_states(&mut self, alloc: Global, states: &PartStates) -> Result<(), NoMemory>
        ensures ok { OnOk result (self.new ≡ keeping self.old states.now) }
        ensures err { OnErr result (self.new ≡ self.old) }
    {
        let states = states.as_slice();
        keeping::keep_states(alloc, &mut self.tree, &mut self.marks, states)
    }

    /// What the services were taken for has ended. Where that was a save, what was kept in it stays if it was saved, and
    /// else what was kept before is kept again. It takes no memory.
    pub fn end_save(&mut self, alloc: Global, outcome: &Outcomes)
        ensures { self.new ≡ saves_ended outcome.now self.old }
    {
        match outcome {
            Outcomes::Build(_) => {}
            Outcomes::Save(answer) => {
                keeping::end_save(alloc, &mut self.tree, &mut self.marks, is_saved(answer));
            }
        }
    }

    /// What is to be handed for the command in a build of this kind. Costs what was recorded since the command was built
    /// last, and a walk of what it reads and has written.
    pub fn hand(&self, alloc: Global, site: &Site, kind: BuildKind) -> Result<Handed, NoMemory>
        ensures { IfOk result (λ h. h ≡ handing self.now site.now kind) }
    {
        let delta = since_built(alloc, &self.tree, &self.marks, site, kind)?;
        let view = site.view(alloc, self.tree.tree())?;
        site.handed(kind, delta, view)
    }

    /// What changed since the workspace was opened.
    pub fn since_start(&self, alloc: Global) -> Result<Delta, NoMemory>
        ensures { IfOk result (λ d. d ≡ delta self.now.remembered.start self.now.resources.tree) }
    {
        self.tree.since(alloc, &self.start)
    }

    /// What of all this lasts over a save, as a value of its own that shares the texts: the tree and what stands beside it, what
    /// was built last and what participants keep, all without transient markers. Of a save under way it has what is kept now.
    /// Costs a put for each element of the tree, and for each tree that was built last or is kept a copy of it and a look at
    /// each of its elements.
    pub fn durable(&self, alloc: Global) -> Result<Durable, NoMemory>
        ensures { IfOk result (λ d. saved d ≡ lasting_of self.now.resources self.now.remembered.built self.now.remembered.kept) }
    {
        durable_content(alloc, &self.tree, &self.side, &self.marks)
    }

    /// What participants keep, in the order of their names, each with what changed since then where it asked for that. Costs
    /// what was recorded since then for each of those, and no walk of a tree.
    pub fn kept_states(&self, alloc: Global) -> Result<Vec<KeptState>, NoMemory>
        ensures { IfOk result (λ kept. kept.items ≡ kept_since self.now.remembered self.now.resources.tree) }
    {
        kept_states(alloc, &self.tree, &self.marks)
    }

    /// The tree.
    pub fn tree(&self) -> &T
        ensures { T.tree result.now ≡ self.now.resources.tree }
    {
        self.tree.tree()
    }

    /// What stands beside the tree.
    pub fn side(&self) -> &Side
        ensures { resources self.now.resources.tree result.now ≡ self.now.resources }
    {
        &self.side
    }
}

/// Whether all was saved.
fn is_saved(answer: &SaveAnswer) -> bool
    ensures { result ≡ is_saved answer.now }
{
    match answer {
        SaveAnswer::Saved => true,
        SaveAnswer::SaveFailed
        | SaveAnswer::ParticipantFailed(_)
        | SaveAnswer::SaveTooLarge
        | SaveAnswer::SaveNumbers
        | SaveAnswer::NoMemory => false,
    }
}

/// The reply to an operation that is done or refused; a refusal tells nothing.
fn reply_to(
    alloc: Global,
    done: Result<Twice<Reply>, OpError>,
    wants_copy: bool,
) -> Result<Twice<Reply>, NoMemory>
    ensures done { IfOk done (λ r. result ≡ Ok r) }
    ensures refused { IfErr done (λ e. IfOk result (TellsOperation wants_copy e)) }
{
    match done {
        Ok(replied) => Ok(replied),
        Err(OpError::Refused(refusal)) => refuse(alloc, Refusal::Operation(refusal), wants_copy),
        Err(OpError::Memory) => Err(AllocError),
    }
}

/// The reply to edits that are made or refused; a refusal tells nothing.
fn reply_to_edits(
    alloc: Global,
    done: Result<Twice<Reply>, EditError>,
    wants_copy: bool,
) -> Result<Twice<Reply>, NoMemory>
    ensures done { IfOk done (λ r. result ≡ Ok r) }
    ensures refused { IfErr done (λ e. IfOk result (TellsEdits wants_copy e)) }
{
    match done {
        Ok(replied) => Ok(replied),
        Err(EditError::Refused(refusal)) => refuse(alloc, edit_refusal(refusal), wants_copy),
        Err(EditError::Memory) => Err(AllocError),
    }
}

/// Why edits are refused, as the core tells it.
fn edit_refusal(refusal: EditRefusal) -> Refusal
    ensures { result ≡ edit_refusal refusal }
{
    match refusal {
        EditRefusal::BadEdits(path) => Refusal::BadEdits(path),
        EditRefusal::TooDeep => Refusal::Operation(OpRefusal::TooDeep),
        EditRefusal::TooLong => Refusal::Operation(OpRefusal::TooLong),
        EditRefusal::TreeFull => Refusal::Operation(OpRefusal::TreeFull),
        EditRefusal::NumbersUsed => Refusal::Operation(OpRefusal::NumbersUsed),
    }
}

/// The reply to what is refused, which tells nothing.
fn refuse(alloc: Global, refusal: Refusal, wants_copy: bool) -> Result<Twice<Reply>, NoMemory>
    ensures { IfOk result (λ r. r ≡ twice wants_copy (refused_reply refusal)) }
{
    let answer = refused_twice(alloc, refusal, wants_copy)?;
    Ok(untold(answer))
}
