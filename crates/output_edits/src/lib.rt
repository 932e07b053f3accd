//! What edits below an output come to, and why they are refused.
//!
//! - `refusal`: an `EditRefusal`, why edits are refused, and an `EditError`.
//! - `out_files`: the files below an output, and after edits.
//! - `least`, `bad`: the least path for which edits are refused.
//! - `limits`: edits whose paths would be past the limits.
//! - `standing`: what is to stand where files are to lie below an output.
#![tactic(auto)]

mod bad;
mod least;
mod limits;
mod out_files;
mod refusal;
mod standing;

pub use bad::check_edits;
pub use out_files::{edited, new_file, outputs};
pub use refusal::{EditError, EditRefusal};
pub use res_path::NoMemory;
pub use standing::wanted;
