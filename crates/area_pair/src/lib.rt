//! What a disk's two areas are read as: the texts of the one that decides, or the first damage. `find` brings both areas to
//! the device and finds what stands in them, for a store that goes on with them; `check` only looks.
#![tactic(auto)]

mod holdings;
mod opening;
mod texts;

pub use holdings::{Holding, Holdings, check};
pub use opening::{Found, choose, find};
pub use texts::Texts;
