//! A hash tree seen as bytes: reads and changes of bytes at any place, over the tree's blocks of 4,096.
//!
//! A change reads a block exactly where it makes some of the old bytes in it new and keeps others. It reads these blocks
//! before it draws or writes anything. What it puts between the old end and its place is zero, and so is each block behind
//! the last byte.
#![tactic(auto)]

mod arms;
mod change;
mod check;
mod file;

pub use file::BlockFile;
