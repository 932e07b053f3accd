//! What is attached to a resource beside its contents.
ghost use Rattle.std.specs.Prelude.{◌≡◌, ◌↔◌, IfOk, IsTrue, unwrap_or};
ghost use Rattle.std.specs.Option.{option_copied};
ghost use Rattle.ws_elem.specs.Attached.{nothing_attached};

use crate::NoMemory;
use bytes::Bytes;
use mark_set::MarkSet;
use std::alloc::Global;
use std::marker::Model;
use sync_set::SyncSet;

/// What nearly all resources lack: a description, markers and synchronisation bytes. A contract sees its fields, a text
/// as its bytes.
#[derive(Clone, Debug, Drop)]
pub struct Attachments {
    /// Changes with the description; 0 but for projects.
    pub desc_stamp: u64,
    /// The description's text; empty but for projects.
    pub desc: Bytes,
    /// The markers, by id.
    pub marks: MarkSet,
    /// What synchronisation partners keep with the resource, by partner number.
    pub syncs: SyncSet,
}

impl Attachments {
    /// No description, no markers and no bytes. It takes no memory.
    pub fn none() -> Attachments
        ensures { result ≡ nothing_attached }
    {
        Attachments {
            desc_stamp: 0,
            desc: Bytes::new(),
            marks: MarkSet::empty(),
            syncs: SyncSet::empty(),
        }
    }

    /// Whether nothing is attached.
    pub fn is_nothing(&self) -> bool
        ensures { IsTrue result ↔ (self.now ≡ nothing_attached) }
    {
        self.desc_stamp == 0
            && self.desc.is_empty()
            && self.marks.is_empty()
            && self.syncs.is_empty()
    }

    /// Equal attachments, which share the texts.
    pub fn copy(&self) -> Result<Attachments, NoMemory>
        ensures { IfOk result (λ copy. copy ≡ self.now) }
    {
        self.clone()
    }
}

/// The attachments of a resource. A contract sees them; where none were put they are nothing attached.
///
/// Nearly all resources have none, so they are kept apart: without them an element is small and they take no memory.
#[derive(Debug, Drop)]
pub struct Attached {
    kept: Option<Box<Attachments>>,
}

impl Model for Attached {
    ghost use Rattle.std.specs.Option.{option_map_or};
    ghost use Rattle.ws_elem.specs.declared.attached.Attachments.{Attachments};
    ghost use Rattle.ws_elem.specs.contracts.attached.Attachments as attachments;
    ghost use Rattle.ws_elem.specs.Attached.{nothing_attached};

    ghost Value = { Attachments };

    ghost coded = { attachments.the_row.coded };

    ghost view = { λ a. option_map_or (λ b. b.value) a.kept nothing_attached };
}

impl Attached {
    /// Nothing is attached. It takes no memory.
    pub fn nothing() -> Attached
        ensures { result ≡ nothing_attached }
    {
        Attached { kept: None }
    }

    /// These are attached. Where they are nothing it takes no memory.
    pub fn of(alloc: Global, attachments: Attachments) -> Result<Attached, NoMemory>
        ensures { IfOk result (λ attached. attached ≡ attachments) }
    {
        if attachments.is_nothing() {
            return Ok(Attached::nothing());
        }
        Ok(Attached {
            kept: Some(Box::new(alloc, attachments)?),
        })
    }

    /// What is attached; none only where nothing is.
    pub fn kept(&self) -> Option<&Attachments>
        ensures { unwrap_or (option_copied result) nothing_attached ≡ self.now }
    {
        match &self.kept {
            None => None,
            Some(kept) => Some(kept.as_ref()),
        }
    }

    /// What is attached, or this, of which nothing is attached.
    pub fn or<'a>(&'a self, nothing: &'a Attachments) -> &'a Attachments
        requires { nothing.now ≡ nothing_attached }
        ensures { result.now ≡ self.now }
    {
        match &self.kept {
            None => nothing,
            Some(kept) => kept.as_ref(),
        }
    }

    /// Equal attachments, which share the texts. Where none were put it takes no memory.
    pub fn copy(&self) -> Result<Attached, NoMemory>
        ensures { IfOk result (λ copy. copy ≡ self.now) }
    {
        self.clone()
    }

    /// What is attached, as a value of its own, which shares the texts.
    pub fn to_attachments(&self) -> Result<Attachments, NoMemory>
        ensures { IfOk result (λ copy. copy ≡ self.now) }
    {
        match &self.kept {
            None => Ok(Attachments::none()),
            Some(kept) => kept.copy(),
        }
    }
}

impl Clone for Attached {
    ghost use Rattle.std.specs.Prelude.{◌≡◌};

    ghost is_clone = { λ attached copy. copy ≡ attached };

    fn clone(&self) -> Result<Attached, NoMemory> {
        match &self.kept {
            None => Ok(Attached::nothing()),
            Some(kept) => Ok(Attached {
                kept: Some(kept.clone()?),
            }),
        }
    }
}
