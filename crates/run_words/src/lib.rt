//! The forms of words with which the program is called.
//!
//! - `words`: a `Form`, and the one that words are of.
#![tactic(auto)]

mod words;

pub use words::{Form, form_of};
