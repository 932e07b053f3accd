//! A store of texts over a disk's two areas. A full save writes an image into the area that isn't acknowledged, a record
//! goes behind the acknowledged one; at every moment a crash leaves areas that are read as the texts acknowledged last, or
//! as those of a save begun after it.
#![tactic(auto)]

mod begin;
mod desk;
mod faults;
mod store;

pub use desk::Desk;
pub use faults::SaveFault;
pub use store::AreaStore;
