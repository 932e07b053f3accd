//! Tests of images, by their bytes.
//!
//! - `asserting`: the assertions.
//! - `images`: known bytes, what is read of them, and that what was read is written so.
#![tactic(auto)]

#[cfg(test)]
mod asserting;
#[cfg(test)]
mod images;
