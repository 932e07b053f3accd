//! What the program tells of the area files: their first damage, and what both hold.
//!
//! After want of memory a part of a text may have been appended.
//!
//! - `area_words`: how the areas are called.
//! - `damage_text`: the line of a damage.
//! - `look_text`: what both areas hold.
#![tactic(auto)]

mod area_words;
mod damage_text;
mod look_text;

pub use damage_text::put_damage;
pub use look_text::put_found;
pub use report_text::NoMemory;
