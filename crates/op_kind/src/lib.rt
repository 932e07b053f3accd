//! Operations on a workspace's resources: what they are, why they are refused, and what they do, as contracts say it.
//!
//! - `op`: an `Op`, what can be done to resources, and a `Want`, what can be read of them.
//! - `op_copy`: equal operations.
//! - `refusal`: an `OpRefusal`, why an operation is refused, and an `OpError`.
//! - `answer`: an `OpAnswer`, what an operation is answered.
//! - `entries`: `Entries`, elements with their paths.
//! - `partners`: `Partners`, the synchronisation partners by their numbers.
//! - `side`: a `Side`, what stands beside the tree: the shelf, the counters and the partners.
#![tactic(auto)]

mod answer;
mod entries;
mod op;
mod op_copy;
mod partners;
mod refusal;
mod side;

pub use answer::OpAnswer;
pub use entries::Entries;
pub use op::{Op, Want};
pub use partners::Partners;
pub use refusal::{OpError, OpRefusal};
pub use res_path::NoMemory;
pub use side::Side;
