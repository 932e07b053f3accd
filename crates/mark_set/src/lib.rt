//! Markers: the notes that tools attach to a resource, each with an id, a type and attributes.
//!
//! A `MarkSet` is a finite map from marker ids to markers, kept in a hash table with its ids in order. Nearly every resource has none, so an empty
//! set is 16 bytes, a tag and a pointer, and owns no memory. Attributes are a finite map from names to values. What comes
//! from outside is raw (`RawText`, `RawValue`) until its limits are checked: types and attribute names have 1 to 255 bytes,
//! texts fewer than 65,536.
#![tactic(auto)]

mod attr_iter;
mod attrs;
mod causes;
mod delta;
mod error;
mod mark_iter;
mod marker;
mod marks;
mod places;
mod raw_attrs;
mod table;
mod text;
mod value;
mod walks;

pub use attr_iter::AttrIter;
pub use attrs::Attrs;
pub use delta::{Change, MarkerDelta, MarkerDeltas};
pub use error::{MarkError, ValueCause};
pub use mark_iter::MarkIter;
pub use marker::Marker;
pub use marks::MarkSet;
pub use raw_attrs::RawAttrs;
use std::alloc::AllocError;
pub use text::{MarkText, RawText};
pub use value::{RawValue, Value};

/// Want of memory, which nothing else can be told of.
pub type NoMemory = AllocError;
