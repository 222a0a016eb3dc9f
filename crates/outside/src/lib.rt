//! What is outside the program: a shelf of files and a sink of bytes, each with counts of its
//! faults, in memory for tests and over the file system and standard output. Beside them the
//! writing of a text in several parts.
#![tactic(auto)]

mod disk;
mod mem_shelf;
mod mem_sink;
mod out_sink;
mod parts;
mod shelf;
mod sink;

pub use disk::DiskShelf;
pub use mem_shelf::MemShelf;
pub use mem_sink::MemSink;
pub use out_sink::OutSink;
pub use parts::put_parts;
pub use shelf::{FetchError, Shelf};
pub use sink::{PutFailed, Sink};
