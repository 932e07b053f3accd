//! The text of what a workspace keeps, written and read back.
//!
//! - `error`: why bytes are no such text.
//! - `few`: whether there are few elements.
//! - `texts`: the text, written and read against a base tree and a base shelf.
#![tactic(auto)]

mod error;
mod few;
mod texts;

pub use error::{ReadError, TextCause};
pub use few::are_few;
pub use texts::{read_text, text_of};
