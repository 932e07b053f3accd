//! Elements of the workspace, and the trees that they stand in.
//!
//! - `kind`: a `Kind`, what sort of resource an element is.
//! - `depth`: a `Depth`, how far below a resource something reaches.
//! - `element`: an `Element`, what the workspace keeps of one resource.
//! - `attached`: `Attached` and `Attachments`, an element's description, markers and synchronisation bytes.
//! - `elem_map`: an `ElemMap`, elements by path.
//! - `tree_rep`: `TreeRep`, what serves as a tree.
#![tactic(auto)]

mod attached;
mod depth;
mod elem_map;
mod element;
mod entries;
mod kind;
mod room;
mod slots;
mod tree_rep;

pub use attached::{Attached, Attachments};
pub use depth::Depth;
pub use elem_map::ElemMap;
pub use element::Element;
pub use entries::Entries;
pub use kind::Kind;
pub use res_path::NoMemory;
pub use tree_rep::TreeRep;
