//! The images of a hash tree in a file: its head, its nodes, their hashes, and where each part stands.
//!
//! A tree has nodes 1 to g, where g is at most 256; node n has the children 2 n and 2 n + 1 where they are
//! at most g, and block k of 4,096 bytes hangs on node k + 1. Each part stands in the file in two versions: in format 1 one
//! close behind another, in format 2 each in sectors of 512 bytes of its own.
//! Numbers are big-endian, offsets count bytes from 0.
#![tactic(auto)]

mod hashing;
mod head;
mod node;
mod offsets;

pub use hashing::node_hash;
pub use head::{BadHead, Head, greatest_node};
pub use node::{FORMAT, NodeImage, RootRef};
pub use offsets::{block_offset, head_offset, node_offset};
