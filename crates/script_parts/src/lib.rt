//! The parts of a script's lines: what the words of a line stand for, and how they are printed.
//!
//! - `parts`, `arguments`, `attributes`, `rules`: what the words of a line stand for.
//! - `script_rule`: a `ScriptRule`, a rule as scripts name it.
//! - `part_text`, `attribute_text`, `rule_text`: how the parts of a line are printed.
#![tactic(auto)]

mod arguments;
mod attribute_text;
mod attributes;
mod part_text;
mod parts;
mod rule_text;
mod rules;
mod script_rule;

pub use arguments::{
    name_alone, path_alone, path_and_bytes, path_and_id, path_and_name, path_and_switch,
    path_id_change, path_kind_attributes, path_kind_depth, path_name_bytes, path_name_depth,
    scope_alone, two_paths,
};
pub use attribute_text::{put_attributes, put_set};
pub use part_text::{
    any_word, depth_word, name_word, path_word, put_created, put_four, put_next, put_number,
    put_scope, put_three, put_two, switch_word, text_word,
};
pub use parts::{is_key, name_of};
pub use rule_text::put_rule;
pub use rules::rule_of;
pub use script_rule::ScriptRule;
use std::alloc::AllocError;

/// Want of memory, as std tells it.
pub type NoMemory = AllocError;
