//! What the plans of operations stand on.
//!
//! - `plan`: a `Plan`, what an operation is going to change, made before anything changes.
//! - `edits`: what is to stand at some paths, and what stood there.
//! - `back`: a `Back`, the way back before an operation.
//! - `checks`: the causes for which operations are refused, one by one.
//! - `walk`: a resource with all below it.
//! - `losing`: resources that lose markers or synchronisation bytes.
#![tactic(auto)]

pub mod back;
pub mod checks;
pub mod edits;
pub mod losing;
pub mod plan;
pub mod walk;

pub use back::{Applied, Back};
pub use op_kind::{Entries, NoMemory, Op, OpAnswer, OpError, OpRefusal, Partners, Side, Want};
pub use plan::Plan;
