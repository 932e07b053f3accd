//! Printed texts: the lines of deltas, elements, trees and rules, as the program's output has them.
//!
//! Paths and names, and bytes that are shown, are words as in a script: bare where they can be, and else quoted. After
//! want of memory a part of a text may have been appended.
//!
//! - `put`: texts, numbers, paths and bytes are gathered.
//! - `delta_text`: the lines of a delta.
//! - `element_text`: what is shown of an element.
//! - `branch_text`: the text of a tree, and its digest.
//! - `rule_text`: the words of a rule.
#![tactic(auto)]

mod branch_text;
mod delta_text;
mod element_text;
mod put;
mod rule_text;

pub use branch_text::{digest_text, put_tree_line, tree_lines, tree_text};
pub use delta_text::{delta_lines, put_node};
pub use element_text::{put_shown, shown_text};
pub use put::{put_counted, put_hexadecimal, put_named, put_number, put_path, put_text};
pub use res_path::NoMemory;
pub use rule_text::{put_rule, rule_words};
