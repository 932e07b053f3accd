//! One area of a disk: a gate, a header, an image and its records. What is written is laid behind a shut gate, which is
//! opened last, so that it is read whole or not at all after a crash; the write that shuts the gate of an area may leave
//! any byte there, and else what stood. Reading an area gives what it stands for, or its damage with its place.
#![tactic(auto)]

mod bodies;
mod damage;
mod fields;
mod image;
mod looks;
mod parse;
mod pieces;
mod read;
mod save;
mod version;
mod whole;
mod writes;

pub use bodies::{Area, Bodies};
pub use damage::{AreaFault, Damage, DamageCause};
pub use image::{close_gate, lay_image, open_gate};
pub use pieces::{Head, Piece};
pub use read::{head, image_piece, record_piece};
pub use save::{write_image, write_record};
pub use whole::read_area;
