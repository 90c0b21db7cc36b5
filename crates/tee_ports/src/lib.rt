//! What a run is lent from outside: where its bytes come from and where they go, the files that it stores objects in, and
//! random bytes.
//!
//! Every implementation counts its faults. A call answers `Failed` only where that count rose, so a caller's contract
//! can tie each of its own failures to a fault of the object that it was lent.
//!
//! `Source` and `Sink` have an implementation in memory and one over a stream of the process, `Entropy` one for tests.
#![tactic(auto)]

mod entropy;
mod failed;
mod file_rig;
mod image;
mod list_entropy;
mod mem_sink;
mod mem_source;
mod sink;
mod source;
mod std_sink;
mod std_source;
mod store_file;

pub use entropy::Entropy;
pub use failed::Failed;
pub use file_rig::FileRig;
pub use image::Image;
pub use list_entropy::ListEntropy;
pub use mem_sink::MemSink;
pub use mem_source::MemSource;
pub use sink::Sink;
pub use source::Source;
pub use std_sink::StdSink;
pub use std_source::StdSource;
pub use store_file::StoreFile;

/// Memory ran out.
pub type NoMemory = std::alloc::AllocError;
