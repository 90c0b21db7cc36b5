//! What is found of an object.

use tree_paths::NodeSet;

/// What is found of an object.
#[derive(Drop)]
pub enum Finding {
    /// A certificate that was accepted.
    Certified(Vec<u8>),
    /// The numbers of its bad blocks.
    Bad(NodeSet),
    /// It is damaged as a whole.
    Damaged,
}
