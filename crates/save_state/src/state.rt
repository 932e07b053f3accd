//! A state as it stands in its text.

use crate::change::Change;
use crate::records::{Built, Kept};
use save_form::{Items, Text};

/// A state as it stands in its text: the changes of each tree from the one that it is told against.
#[derive(Debug, Drop)]
pub struct State<'a> {
    pub next_node: u64,
    pub next_stamp: u64,
    pub next_marker: u64,
    pub partners: Items<Text<'a>>,
    pub tree: Items<Change<'a>>,
    pub shelf: Items<Change<'a>>,
    pub built: Items<Built<'a>>,
    pub kept: Items<Kept<'a>>,
}
