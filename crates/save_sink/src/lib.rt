//! Where a text goes: into memory, into a count of its bytes, or against bytes that stand already.
//!
//! What is written is said of any `Sink`, so that one writer measures, compares and writes. Here are the sinks, and the
//! calls that write fields as the forms spell them.
#![tactic(auto)]

mod fields;
mod length;
mod same;
mod sink;

pub use fields::{put_flag, put_text, put_u8, put_u16, put_u32, put_u64};
pub use length::Length;
pub use same::Same;
pub use sink::Sink;
