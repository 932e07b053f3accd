//! Scheduling rules: what a job may ask to have to itself.
//!
//! - `atom`: an `Atom`, the kind of thing that a rule is made of, with its laws.
//! - `ws_atom`: a `WsAtom`, an atom of the workspace.
//! - `rule`: a `Rule`, a list of atoms of which none contains another.
#![tactic(auto)]

mod atom;
mod rule;
mod ws_atom;

pub use atom::Atom;
pub use res_path::NoMemory;
pub use rule::Rule;
pub use ws_atom::WsAtom;
