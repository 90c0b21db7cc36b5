// Tables of nodes, node 1 first, and what they name.
ghost use Rattle.std.specs.Prelude.{◌≡◌, ◌≢◌, ℕ, ◌+◌, ◌-◌, ◌*◌, ◌<◌, ◌≤◌, length, IfOk, IfSome, IfNone, option_copied, option_map, get_or, Bool, false};
ghost use Rattle.node_image.specs.Parts.{layout_of};
ghost use Rattle.node_image.specs.Tables.{at_node, block_bit, block_version, hash_in, no_node, node_version};
ghost use Rattle.htree_file.specs.Opening.{first_damaged, need_of};
ghost use Rattle.htree_file.specs.Staging.{HashedAmong, IsBlank, SameSeal};
ghost use Rattle.tree_paths.specs.Paths.{holds};

use node_image::{Head, NodeImage, block_offset, node_hash};
use std::alloc::Global;
use tee_ports::NoMemory;
use tree_paths::{NodeSet, children};

/// The most nodes that a tree has.
pub(crate) const MOST_NODES: usize = 256;

// The least bit of a node's flags is the version of its block. The weights of the next two bits, the versions of its left and
// of its right child.
pub(crate) const LEFT_BIT: u16 = 2;

pub(crate) const RIGHT_BIT: u16 = 4;

/// What stands in a table where no node was put yet.
pub(crate) const BLANK: NodeImage = NodeImage {
    hash: [0; 32],
    iv: [0; 16],
    tag: [0; 16],
    flags: 0,
};

/// Two tables, each with room for the nodes of any tree, whose nodes name version 0.
pub(crate) fn blank_tables(alloc: Global) -> Result<(Vec<NodeImage>, Vec<NodeImage>), NoMemory>
    ensures first { IfOk result (λ tables. IsBlank tables.0.items) }
    ensures second { IfOk result (λ tables. IsBlank tables.1.items) }
{
    let nodes = vec![in alloc; BLANK; MOST_NODES]?;
    let next = vec![in alloc; BLANK; MOST_NODES]?;
    Ok((nodes, next))
}

/// The version of node `n`, by the nodes above it.
pub(crate) fn node_version(nodes: &[NodeImage], root: u8, n: u32) -> u8
    requires { (1 ≤ n) × (n ≤ 2 * length nodes.now + 1) }
    ensures value { result ≡ node_version nodes.now root n }
    ensures bit { root < 2 → result < 2 }
{
    if n <= 1 {
        return root;
    }
    let flags = nodes[n as usize / 2 - 1].flags;
    if n % 2 == 0 {
        (flags / LEFT_BIT % 2) as u8
    } else {
        (flags / RIGHT_BIT % 2) as u8
    }
}

/// The version of a node's block.
pub(crate) fn version_of_block(node: &NodeImage) -> u8
    ensures value { result ≡ block_bit node.now.flags }
    ensures bit { result < 2 }
{
    (node.flags % 2) as u8
}

/// The version of block `k`.
pub(crate) fn block_version(nodes: &[NodeImage], k: u32) -> u8
    requires { k < length nodes.now }
    ensures value { result ≡ block_version nodes.now k }
    ensures bit { result < 2 }
{
    version_of_block(&nodes[k as usize])
}

// The stored hash of a child that exists.
fn hash_of_child(nodes: &[NodeImage], child: Option<u32>) -> Option<&[u8; 32]>
    requires { IfSome child (λ n. (1 ≤ n) × (n ≤ length nodes.now)) }
    ensures { option_copied result ≡ option_map (λ n. (at_node nodes.now n).hash) child }
{
    match child {
        Some(n) => Some(&nodes[n as usize - 1].hash),
        None => None,
    }
}

/// The hash that node `n` has, by the table and the head.
pub(crate) fn hash_in(nodes: &[NodeImage], head: &Head, n: u32) -> [u8; 32]
    requires all { length nodes.now ≡ head.now.greatest }
    requires within { (1 ≤ n) × (n ≤ length nodes.now) × (length nodes.now ≤ 256) }
    ensures { result ≡ hash_in nodes.now head.now n }
{
    let (left, right) = children(n, head.greatest);
    let (left, right) = (hash_of_child(nodes, left), hash_of_child(nodes, right));
    let node = &nodes[n as usize - 1];
    if n == 1 {
        node_hash(node, Some(head), left, right)
    } else {
        node_hash(node, None, left, right)
    }
}

/// The first node whose stored hash is not the one that it has.
pub(crate) fn first_damaged(nodes: &[NodeImage], head: &Head) -> Option<u32>
    requires all { length nodes.now ≡ head.now.greatest }
    requires few { length nodes.now ≤ 256 }
    ensures value { result ≡ first_damaged head.now nodes.now 1 (length nodes.now) }
    ensures node { IfSome result (λ n. (1 ≤ n) × (n ≤ length nodes.now)) }
{
    for i in 0..nodes.len() {
        let n = i as u32 + 1;
        if nodes[i].hash != hash_in(nodes, head, n) {
            return Some(n);
        }
    }
    None
}

/// The greatest end of a selected block.
#[tactic(auto, using(crate::proofs::SameTable::block_low))]
pub(crate) fn need_of(format: u8, nodes: &[NodeImage]) -> u64
    requires { length nodes.now ≤ 256 }
    ensures { result ≡ need_of (layout_of format) nodes.now (length nodes.now) }
{
    let mut most = 0;
    for k in 0..nodes.len() as u32 {
        most = most.max(block_offset(format, k, block_version(nodes, k)) + 4096);
    }
    most
}

// Gives node i + 1 the hash that it has, if it is in the set. Its children have theirs.
fn rehash_node(nodes: &mut [NodeImage], head: &Head, set: &NodeSet, i: usize)
    requires all { length nodes.old ≡ head.now.greatest }
    requires within { (i < length nodes.old) × (length nodes.old ≤ 256) }
    ensures others { (j : ℕ) → j ≢ i → get_or nodes.new j no_node ≡ get_or nodes.old j no_node }
    ensures kept { holds set.now (i + 1) ≡ false → nodes.new ≡ nodes.old }
    ensures seal { SameSeal (get_or nodes.old i no_node) (get_or nodes.new i no_node) }
    ensures hashed { HashedAmong (holds set.now) nodes.old head.now (i + 1) →
        HashedAmong (holds set.now) nodes.new head.now i }
{
    if !set.has(i as u32 + 1) {
        return;
    }
    let hash = hash_in(nodes, head, i as u32 + 1);
    let node = &mut nodes[i];
    node.hash = hash;
}

/// Gives each node of the set the hash that it has, from the last one up to the root.
pub(crate) fn rehash_nodes(nodes: &mut [NodeImage], head: &Head, set: &NodeSet)
    requires all { length nodes.old ≡ head.now.greatest }
    requires few { length nodes.old ≤ 256 }
    ensures seals { (k : ℕ) → SameSeal (get_or nodes.old k no_node) (get_or nodes.new k no_node) }
    ensures others { (n : ℕ) → 1 ≤ n → holds set.now n ≡ false → at_node nodes.new n ≡ at_node nodes.old n }
    ensures hashed { HashedAmong (holds set.now) nodes.new head.now 0 }
{
    let mut i = nodes.len();
    while i > 0 {
        i -= 1;
        rehash_node(nodes, head, set, i);
    }
}
