//! The directory of a store: 256 optional entries, each of which names an object by its application and identifier and says where it
//! stands, in a hash tree of 32,768 bytes in a file of its own.
//!
//! A directory is made without objects, or loaded from a file that may hold anything. It keeps its entries in memory, so that a change
//! of one reads nothing and takes no memory: it stages the one block in which the entry stands, and is then settled and adopted, or
//! dropped. On an honest file a crash meanwhile leaves the directory as it was committed.
#![tactic(auto)]

mod arms;
mod file;
mod load;
mod make;
mod page;
mod pages;
mod records;
mod stage;

pub use crash_core::DirFault;
pub use file::DirFile;
pub use load::DirBroken;
