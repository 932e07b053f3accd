//! Elements as they stand in a saved text.
//!
//! An element's bytes are a form: its fields one behind the other, its markers rising by id and their attributes by name,
//! and the bytes of synchronisation partners rising by number. `Elem` is an element as it is told there, with texts that
//! are lent from the bytes that were read. An `Element` of a tree is written from where it stands, without its transient
//! markers, and without copying anything.
//!
//! - `elem`: `Elem` and its parts.
//! - `reading`: an `Elem` read from bytes, with the place at which they can't go on.
//! - `building`: the `Element` that an `Elem` tells, if it is one by itself.
//! - `writing`: an `Element` written to any sink.
//! - `whole`: the bytes of one element alone.
//! - `measuring`: how long it is, whether bytes are its own, and whether it can be written.
#![tactic(auto)]

mod building;
mod elem;
mod measuring;
mod reading;
mod whole;
mod writing;

pub use building::element_of;
pub use elem::{Attr, Elem, Mark, Sort, Sync, Told};
pub use measuring::{elem_len, is_narrow, spells};
pub use reading::read_elem;
pub use whole::{elem_bytes, elem_of_bytes};
pub use writing::put_elem;
