//! Forms of bytes: how values are spelled, and how they are read, with the place at which a text can't go on.
//!
//! A form is a value of `specs/`: numbers, flags and texts, one value behind another, values that pass a test, one of
//! several, optional values, lists and rising lists. Each has three laws, whatever it is made of: what is read is spelled
//! so, what is spelled is read back, and the place of a stop is the first. Here are the calls that read fields and lists;
//! each has one clause, that it gives what its form reads.
#![tactic(auto)]

mod read;
mod stop;
mod values;

pub use read::{
    Item, read_end, read_flag, read_list, read_text, read_u8, read_u16, read_u32, read_u64,
};
pub use stop::{Stop, Stuck};
pub use values::{Items, Text};
