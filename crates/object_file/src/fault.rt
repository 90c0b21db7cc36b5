// Why an object is not loaded.

use htree_file::TreeFault;
use tee_ports::{NoMemory, StoreFile};

/// Why an entry of the directory has no object in its file.
#[derive(Clone, Copy, PartialEq, Eq, Debug)]
pub enum ObjectFault {
    /// The tree does not load, or its block 0, which has the attributes, is bad; or a call of the file failed, or memory
    /// ran out.
    Tree(TreeFault),
    /// The tree has not 4,096 bytes more than the object has by its entry: the object's size by the entry, and the tree's
    /// length by its head, both in bytes.
    WrongSize { entry: u32, head: u64 },
}

/// A file that holds no object, and why.
#[derive(Drop)]
pub struct ObjectBroken<F: StoreFile> {
    pub file: F,
    pub fault: ObjectFault,
}

impl From<TreeFault> for ObjectFault {
    ghost use Rattle.std.specs.Prelude.{◌≡◌};
    ghost use Rattle.object_file.specs.declared.fault.ObjectFault.TheVariants.{Tree};

    ghost from_gives = { λ tree fault. fault ≡ Tree tree };

    fn from(fault: TreeFault) -> ObjectFault {
        ObjectFault::Tree(fault)
    }
}

impl From<NoMemory> for ObjectFault {
    ghost use Rattle.std.specs.Prelude.{◌≡◌};
    ghost use Rattle.htree_file.specs.declared.fault.TreeFault.TheVariants.{NoMemory as NoRoom};
    ghost use Rattle.object_file.specs.declared.fault.ObjectFault.TheVariants.{Tree};

    ghost from_gives = { λ _ fault. fault ≡ Tree NoRoom };

    fn from(_: NoMemory) -> ObjectFault {
        ObjectFault::Tree(TreeFault::NoMemory)
    }
}
