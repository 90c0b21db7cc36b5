// Children, parents, and the nodes that change with blocks.

ghost use Rattle.std.specs.Prelude.{◌≡◌, ◌⊎◌, ◌↔◌, ℕ, ◌+◌, ◌*◌, ◌/◌, ◌<◌, ◌≤◌, length, slice_index, EachIndex, IsTrue, Some, None, if◌then◌else◌, nat_le};
ghost use Rattle.tree_paths.specs.Paths.{IsClosed, IsOnPath, IsTouched, holds, node_up_to};
ghost use Rattle.tree_paths.specs.Staged.{IsAboveRemoved, IsStaged};

use crate::node_set::NodeSet;

/// The left and the right child of node `n`, where a tree whose greatest node is `greatest` has them.
pub fn children(n: u32, greatest: u32) -> (Option<u32>, Option<u32>)
    requires { (1 ≤ n) × (n ≤ 256) }
    ensures left { result.0 ≡ node_up_to greatest (2 * n) }
    ensures right { result.1 ≡ node_up_to greatest (2 * n + 1) }
{
    (node_up_to(2 * n, greatest), node_up_to(2 * n + 1, greatest))
}

fn node_up_to(n: u32, greatest: u32) -> Option<u32>
    ensures { result ≡ node_up_to greatest n }
{
    if n <= greatest { Some(n) } else { None }
}

/// The node above node `n`. The root has none.
pub fn parent(n: u32) -> Option<u32>
    requires { (1 ≤ n) × (n ≤ 256) }
    ensures { result ≡ (if nat_le n 1 then None else Some (n / 2)) }
{
    if n <= 1 { None } else { Some(n / 2) }
}

// Puts node `n` and all nodes above it into the set.
fn add_path(set: &mut NodeSet, n: u32)
    requires { n ≤ 256 }
    ensures kept { (m : ℕ) → IsTrue (holds set.old m) → IsTrue (holds set.new m) }
    ensures path { (m : ℕ) → IsOnPath m n → IsTrue (holds set.new m) }
    ensures only { (m : ℕ) → IsTrue (holds set.new m) → IsTrue (holds set.old m) ⊎ IsOnPath m n }
{
    let mut node = n;
    while node > 0 {
        set.add(node);
        node /= 2;
    }
}

/// The nodes of these blocks and all nodes above them, in a tree whose greatest node is `greatest`.
pub fn touched_nodes(blocks: &[u32], greatest: u32) -> NodeSet
    requires greatest { greatest ≤ 256 }
    requires blocks { EachIndex blocks.now (λ i. slice_index blocks.now i < greatest) }
    ensures exactly { (m : ℕ) → IsTrue (holds result m) ↔ IsTouched blocks.now m }
    // With a block there is the root, and with each node the one above it.
    ensures closed { 1 ≤ length blocks.now → IsClosed result blocks.now }
{
    let mut set = NodeSet::none();
    for block in blocks {
        add_path(&mut set, *block + 1);
    }
    set
}

// Puts the remaining parent of each node that goes away, and all nodes above it, into the set.
fn add_remaining(set: &mut NodeSet, before: u32, after: u32)
    requires { (1 ≤ after) × (after ≤ 256) × (before ≤ 256) }
    ensures kept { (m : ℕ) → IsTrue (holds set.old m) → IsTrue (holds set.new m) }
    ensures above { (m : ℕ) → IsAboveRemoved before after m → IsTrue (holds set.new m) }
    ensures only { (m : ℕ) → IsTrue (holds set.new m) → IsTrue (holds set.old m) ⊎ IsAboveRemoved before after m }
{
    let last = before.min(2 * after + 1);
    for gone in after..last {
        add_path(set, (gone + 1) / 2);
    }
}

/// The nodes that a stage writes which changes these blocks, where a tree of `before` nodes becomes one of `after`: the root,
/// the nodes of the changed blocks, the remaining parents of nodes that go away, and all nodes above these.
pub fn staged_nodes(changed: &[u32], before: u32, after: u32) -> NodeSet
    requires nodes { (1 ≤ after) × (after ≤ 256) × (before ≤ 256) }
    requires changed { EachIndex changed.now (λ i. slice_index changed.now i < after) }
    ensures exactly { (m : ℕ) → IsTrue (holds result m) ↔ IsStaged changed.now before after m }
{
    let mut set = touched_nodes(changed, after);
    set.add(1);
    add_remaining(&mut set, before, after);
    set
}
