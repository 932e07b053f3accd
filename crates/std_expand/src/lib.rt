//! The standard builder `expand`: files whose lines include others.
//!
//! - `sources`: which files count, and the paths of what is made of them.
//! - `named`: the files of a root by the texts of their relative paths.
//! - `kept`: how files are cut at the lines that include others, kept between builds.
//! - `outputs`: the files that are made so far, and the problems.
//! - `expanding`: what is made of the files of roots.
//! - `builder`: `Expand`, the builder.
#![tactic(auto)]

mod builder;
mod expanding;
mod kept;
mod named;
mod outputs;
mod sources;

pub use builder::Expand;
