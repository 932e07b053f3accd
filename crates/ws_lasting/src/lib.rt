//! What of a workspace lasts over a save: all but transient markers.
//!
//! - `elements`: elements without their transient markers.
//! - `trees`: whole trees without them.
//! - `marks`: built records and kept states as they are saved.
#![tactic(auto)]

mod elements;
mod marks;
mod trees;

pub use elements::lasting_element;
pub use marks::{lasting_record, lasting_state};
pub use trees::{lasting, lasting_now};
pub use ws_elem::NoMemory;
