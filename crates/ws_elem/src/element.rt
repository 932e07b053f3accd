//! What the workspace keeps of one resource.
ghost use Rattle.std.specs.Prelude.{◌≡◌, IfOk};
ghost use Rattle.ws_elem.specs.Elements.{bare};

use crate::{Attached, Attachments, Kind, NoMemory};
use bytes::Bytes;
use std::alloc::Global;

/// What the workspace keeps of one resource. A contract sees its fields, a text as its bytes.
#[derive(Clone, Debug, Drop)]
pub struct Element {
    pub kind: Kind,
    /// Only of an open project.
    pub opened: bool,
    pub derived: bool,
    /// Tells this resource from all others, also from one that was at the same path before it.
    pub node: u64,
    /// Changes with the contents; 0 but for files.
    pub stamp: u64,
    /// The contents; empty but for files.
    pub bytes: Bytes,
    /// The description, the markers and the synchronisation bytes.
    pub attached: Attached,
}

impl Element {
    /// An element with this kind and this node, and nothing else. It takes no memory.
    pub fn bare(kind: Kind, node: u64) -> Element
        ensures { result ≡ bare kind node }
    {
        Element {
            kind,
            opened: false,
            derived: false,
            node,
            stamp: 0,
            bytes: Bytes::new(),
            attached: Attached::nothing(),
        }
    }

    /// An equal element, which shares the texts.
    pub fn copy(&self) -> Result<Element, NoMemory>
        ensures { IfOk result (λ copy. copy ≡ self.now) }
    {
        self.clone()
    }

    /// This element with these attachments. It shares the contents.
    pub fn with_attachments(
        &self,
        alloc: Global,
        attachments: Attachments,
    ) -> Result<Element, NoMemory>
        ensures { IfOk result (λ e. e ≡ record self.now { attached = attachments }) }
    {
        Ok(Element {
            kind: self.kind,
            opened: self.opened,
            derived: self.derived,
            node: self.node,
            stamp: self.stamp,
            bytes: self.bytes.clone()?,
            attached: Attached::of(alloc, attachments)?,
        })
    }
}
