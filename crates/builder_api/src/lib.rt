//! What incremental builders are: what they are handed and what they answer, what is owed of one that tells what it
//! makes, and what a build is to do and how it ends.
//!
//! - `kind`: a `BuildKind`, what a build asks for.
//! - `paths`: a list of paths.
//! - `place`: whether a path lies below another.
//! - `view`: a `View`, the files that a builder sees.
//! - `handed`: what a builder is `Handed`.
//! - `edits`: the `Edits` that a builder answers, with its problems.
//! - `builder`: a `Builder`, and the `Meanings` of builders.
//! - `builders`: `Builders` in order, of which the first of a name builds.
//! - `plan`: a `Plan`, what a build is to do.
//! - `outcome`: a `BuildOutcome`, how it ends.
#![tactic(auto)]

mod builder;
mod builders;
mod edits;
mod handed;
mod kind;
mod outcome;
mod paths;
mod place;
mod plan;
mod view;

pub use builder::{BuildFault, Builder, Meanings, Silent};
pub use builders::Builders;
pub use edits::{Edits, FileEdits, Problem, Problems};
pub use handed::Handed;
pub use kind::BuildKind;
pub use outcome::BuildOutcome;
pub use paths::Paths;
pub use place::{is_below, is_within};
pub use plan::{Knot, Knots, Plan, PlanOrder};
pub use res_path::NoMemory;
pub use view::View;
