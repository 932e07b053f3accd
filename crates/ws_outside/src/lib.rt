//! What a program reads from and writes to, as traits whose contracts tell what was read, what was written and which
//! calls failed. `Source` and `Sink` are streams of bytes. `Disk` is a device with two areas, and its contracts tell what
//! a crash may leave at each moment. Each has a form in memory, for tests, and one over the system's own streams or files,
//! which tells nothing of content.
#![tactic(auto)]

mod area_file;
mod buffers;
mod call;
mod contents;
mod disk;
mod faults;
mod file_disk;
mod mem_disk;
mod mem_sink;
mod mem_source;
mod octets;
mod remnant;
mod replay;
mod sink;
mod source;
mod standard;

pub use call::{Call, Request};
pub use contents::{Contents, Which};
pub use disk::Disk;
pub use faults::Failed;
pub use file_disk::FileDisk;
pub use mem_disk::MemDisk;
pub use mem_sink::MemSink;
pub use mem_source::MemSource;
pub use octets::Octets;
pub use remnant::Remnant;
pub use sink::Sink;
pub use source::Source;
pub use standard::{StdSink, StdSource};

/// The memory that a call needed wasn't to be had.
pub type NoMemory = std::alloc::AllocError;
