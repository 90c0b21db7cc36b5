// Which parts a stage writes, and the versions that they get.
ghost use Rattle.std.specs.Prelude.{◌≡◌, ◌↔◌, ℕ, ◌+◌, ◌*◌, ◌<◌, ◌≤◌, length, slice_index, true, false, IsTrue};
ghost use Rattle.node_image.specs.Tables.{at_node};
ghost use Rattle.tree_paths.specs.Paths.{holds};
ghost use Rattle.tree_paths.specs.Staged.{IsStaged};
ghost use Rattle.htree_file.specs.Changes.{AreChanges, IsChanged, block_at, changed_blocks, changes_of};
ghost use Rattle.htree_file.specs.WriteSets.{AreTurned, IsTurned, IsWriteSet, turned, turned_flags};

use crate::change::NewPages;
use crate::table::{BLANK, LEFT_BIT, RIGHT_BIT};
use node_image::NodeImage;
use tree_paths::{NodeSet, staged_nodes};

/// The nodes that a stage writes, and those nodes whose blocks it writes.
#[derive(Drop)]
pub(crate) struct WriteSet {
    pub(crate) nodes: NodeSet,
    blocks: NodeSet,
}

// The numbers of the blocks that change come first.
fn numbers_of(pages: &NewPages) -> [u32; 256]
    requires { length (changes_of pages.now) ≤ 256 }
    ensures wide { length result ≡ 256 }
    ensures each { (j : ℕ) → j < length (changes_of pages.now) → slice_index result j ≡ block_at (changes_of pages.now) j }
{
    let mut numbers = [0; 256];
    for j in 0..pages.count() {
        numbers[j] = pages.block(j);
    }
    numbers
}

// The nodes on which the blocks hang that change.
fn own_nodes(pages: &NewPages) -> NodeSet
    requires few { length (changes_of pages.now) ≤ 256 }
    requires blocks { (j : ℕ) → j < length (changes_of pages.now) → block_at (changes_of pages.now) j < 256 }
    ensures { (k : ℕ) → holds result (k + 1) ≡ true ↔ IsChanged (changes_of pages.now) k }
{
    let mut nodes = NodeSet::none();
    for j in 0..pages.count() {
        nodes.add(pages.block(j) + 1);
    }
    nodes
}

// The other version where it turns.
fn turned(turns: bool, version: u16) -> u16
    requires { version < 2 }
    ensures value { result ≡ turned turns version }
    ensures bit { result < 2 }
{
    if turns { 1 - version } else { version }
}

// The committed node of number n. A new node has none yet, and begins blank.
fn committed_node(nodes: &[NodeImage], n: u32) -> NodeImage
    requires { 1 ≤ n }
    ensures node { n ≤ length nodes.now → result ≡ at_node nodes.now n }
    ensures flags { result.flags ≡ (at_node nodes.now n).flags }
{
    match nodes.get(n as usize - 1) {
        Some(node) => *node,
        None => BLANK,
    }
}

impl WriteSet {
    /// The set for new pages, where a tree of `before` nodes becomes one of `after`: the blocks of these pages, and no nodes
    /// but those that the write budget names.
    pub(crate) fn of_pages(pages: &NewPages, before: u32, after: u32) -> WriteSet
        requires few { (1 ≤ after) × (after ≤ 256) × (before ≤ 256) }
        requires changes { AreChanges before after (changes_of pages.now) }
        ensures closed { IsWriteSet before after (changes_of pages.now) (holds result.nodes) (holds result.blocks) }
        ensures budget { (m : ℕ) → IsTrue (holds result.nodes m) ↔ IsStaged (changed_blocks (changes_of pages.now)) before after m }
    {
        let blocks = own_nodes(pages);
        let numbers = numbers_of(pages);
        let nodes = staged_nodes(&numbers[..pages.count()], before, after);
        WriteSet { nodes, blocks }
    }

    // The flags of node `n` once each part of the set has its other version.
    fn turned_flags(&self, n: u32, flags: u16) -> u16
        requires { n ≤ 256 }
        ensures { result ≡ turned_flags (holds self.now.nodes) (holds self.now.blocks) n flags }
    {
        let block = turned(self.blocks.has(n), flags % 2);
        let left = turned(self.nodes.has(2 * n), flags / LEFT_BIT % 2);
        let right = turned(self.nodes.has(2 * n + 1), flags / RIGHT_BIT % 2);
        block + (LEFT_BIT * left + RIGHT_BIT * right)
    }

    // Node `n` of the committed table, with its flags turned where it is in the set.
    fn turned_node(&self, nodes: &[NodeImage], n: u32) -> NodeImage
        requires { (1 ≤ n) × (n ≤ 256) }
        ensures { IsTurned nodes.now (holds self.now.nodes) (holds self.now.blocks) n result }
    {
        let node = committed_node(nodes, n);
        if !self.nodes.has(n) {
            return node;
        }
        let flags = self.turned_flags(n, node.flags);
        NodeImage { flags, ..node }
    }

    /// Fills the next table with the nodes of the committed one, each as the stage leaves it but for vector, tag and hash.
    pub(crate) fn turn_nodes(&self, nodes: &[NodeImage], next: &mut [NodeImage])
        requires { length next.old ≤ 256 }
        ensures { AreTurned nodes.now (holds self.now.nodes) (holds self.now.blocks) next.new (length next.old) }
    {
        for k in 0..next.len() {
            let node = self.turned_node(nodes, k as u32 + 1);
            next[k] = node;
        }
    }
}
