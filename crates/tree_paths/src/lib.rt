//! Paths in a hash tree of at most 256 nodes: which nodes stand below and above a node, and which nodes
//! change with some of the tree's blocks.
//!
//! Nodes are numbered from the root, which is 1: node n stands above nodes 2 n and 2 n + 1. Block k hangs on
//! node k + 1.
#![tactic(auto)]

mod node_set;
mod paths;

pub use node_set::NodeSet;
pub use paths::{children, parent, staged_nodes, touched_nodes};
