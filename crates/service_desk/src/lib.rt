//! Who serves builds and saves: the builders by their names, the command under way, and what the services were taken for;
//! and why what concerns the services is refused.
//!
//! - `desk`: a `Desk`, the builders' names, the command under way, and what the services were taken for.
//! - `error`: a `ServiceError`, a refusal or want of memory.
//! - `checks`: the causes for which what concerns the services is refused, one by one.
#![tactic(auto)]

mod checks;
mod desk;
mod error;

pub use checks::{check_home, check_rooted, check_scope, check_serving, site_for, site_in};
pub use desk::{BuilderNames, Desk, Serving, UnderWay, stops};
pub use error::ServiceError;
pub use res_path::NoMemory;
