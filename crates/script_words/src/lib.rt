//! Words and lines of scripts: how a text is cut into lines, how a line spells words, and how words are printed.
//!
//! - `words`: the words of a line, bare and quoted.
//! - `quoted`: what stands between the quotes of a word.
//! - `reader`: the lines of a text, one after another, and which are skipped.
//! - `word_text`: how words are printed.
//! - `error`: why a text is no script.
#![tactic(auto)]

mod error;
mod quoted;
mod reader;
mod word_text;
mod words;

pub use error::ScriptError;
pub use reader::Reader;
use std::alloc::AllocError;
pub use word_text::{hex_digit, put_bytes, put_word};
pub use words::{Token, words_of};

/// Want of memory, as std tells it.
pub type NoMemory = AllocError;
