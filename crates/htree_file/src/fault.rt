// Why a tree is not read or made.
ghost use Rattle.std.specs.Prelude.{◌≡◌};

use gcm_mode::ComputedTag;
use tee_ports::{Failed, NoMemory, StoreFile};

/// The bytes of a block, deciphered or enciphered.
pub type Page = [u8; 4096];

/// Why a tree is not made, loaded or read.
#[derive(Clone, Copy, PartialEq, Eq, Debug)]
pub enum TreeFault {
    /// What stands for the head has not the form of one. Its two numbers, the length in bytes and the greatest node.
    BadHead {
        length: u64,
        greatest: u32,
    },
    /// The file ends before a selected block does: its end, and the greatest end of a selected block.
    Short {
        end: u64,
        need: u64,
    },
    /// The hash of a node is not the wanted one. For node 1 the reference's is wanted and the stored one is found first;
    /// then for each node the stored one is wanted and the computed one is found.
    Damaged {
        node: u32,
        want: [u8; 32],
        found: [u8; 32],
    },
    /// The tag of a block is not its node's: the node's tag, and the computed one, which is shown to nobody.
    BadTag {
        block: u32,
        want: [u8; 16],
        found: ComputedTag,
    },
    /// A call of the file failed: its count of faults.
    Failed {
        count: u64,
    },
    /// A draw failed: the count of faults of the entropy.
    NoEntropy {
        count: u64,
    },
    /// Memory ran out.
    NoMemory,
}

/// A file that holds no tree, and why.
#[derive(Drop)]
pub struct Broken<F: StoreFile> {
    pub file: F,
    pub fault: TreeFault,
}

impl TreeFault {
    ghost use Rattle.htree_file.specs.Untagged.{untagged_tree};

    /// The fault without the computed tag, for who must not learn it.
    pub fn without_computed_tag(self) -> TreeFault
        ensures { result ≡ untagged_tree self }
    {
        match self {
            TreeFault::BadTag { block, want, .. } => TreeFault::BadTag {
                block,
                want,
                found: ComputedTag::none(),
            },
            fault => fault,
        }
    }
}

impl From<NoMemory> for TreeFault {
    ghost use Rattle.htree_file.specs.declared.fault.TreeFault.TheVariants.{NoMemory};

    ghost from_gives = { λ _ fault. fault ≡ NoMemory };

    fn from(_: NoMemory) -> TreeFault {
        TreeFault::NoMemory
    }
}

impl From<Failed> for TreeFault {
    ghost use Rattle.htree_file.specs.declared.fault.TreeFault.TheVariants.{Failed};

    ghost from_gives = { λ failed fault. fault ≡ Failed failed.count };

    fn from(failed: Failed) -> TreeFault {
        TreeFault::Failed {
            count: failed.count,
        }
    }
}
