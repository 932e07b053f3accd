//! The standard builders, and what they make of their inputs.
//!
//! - `builder`: a `StandardBuilder`, one of them, and all of them in order.
#![tactic(auto)]

mod builder;

pub use builder::{StandardBuilder, standard_builders};
use builder_api::Meanings;
pub use res_path::NoMemory;
pub use std_concat::Concat;
pub use std_copy::Copy;
pub use std_expand::Expand;

/// The meanings of the builders `copy`, `concat` and `expand`. Of builders of other names nothing is known.
pub struct Standard;

impl Meanings for Standard {
    ghost use Rattle.std_builders.specs.Standards.{standard, standard_sound};

    ghost meaning = { standard };

    ghost sound = { standard_sound };
}
