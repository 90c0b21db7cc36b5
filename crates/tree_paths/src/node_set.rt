// Sets of nodes.

ghost use Rattle.std.specs.Prelude.{◌≡◌, ◌==◌, ◌||◌, ℕ, ◌≤◌, ◌<◌, false, length};
ghost use Rattle.tree_paths.specs.Staged.{count_to};

// One more than the greatest node of any tree.
const NUMBERS: usize = 257;

/// A set of nodes, which are numbered from 1 to 256.
#[derive(Clone, Copy)]
pub struct NodeSet {
    // Whether the set has the node of that number. No set has node 0.
    members: [bool; NUMBERS],
}

impl NodeSet {
    ghost use Rattle.tree_paths.specs.Paths.{holds};

    /// The set without a node.
    pub fn none() -> NodeSet
        ensures { (n : ℕ) → holds result n ≡ false }
    {
        NodeSet {
            members: [false; NUMBERS],
        }
    }

    /// Puts node `n` into the set.
    pub fn add(&mut self, n: u32)
        requires { (1 ≤ n) × (n ≤ 256) }
        ensures { (m : ℕ) → holds self.new m ≡ ((m == n) || holds self.old m) }
    {
        self.members[n as usize] = true;
    }

    /// Whether the set has node `n`.
    pub fn has(&self, n: u32) -> bool
        ensures { result ≡ holds self.now n }
    {
        match self.members.get(n as usize) {
            Some(member) => *member,
            None => false,
        }
    }

    /// How many nodes the set has.
    pub fn count(&self) -> u32
        ensures { result ≡ count_to (holds self.now) 256 }
    {
        let mut count = 0;
        for n in 0..256 {
            count += if self.has(n + 1) { 1 } else { 0 };
        }
        count
    }
}
