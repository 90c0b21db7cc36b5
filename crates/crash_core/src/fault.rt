//! Why a reference names no directory.

use htree_file::TreeFault;

/// Why a reference names no directory in a file. Of several faults it is the first in the order of the variants, and of two of one
/// variant the one of the least index.
#[derive(Clone, Copy, PartialEq, Eq, Debug)]
pub enum DirFault {
    /// The tree does not load, or a block of it is bad. A call that reads it has this too where the file failed or memory ran out.
    Tree(TreeFault),
    /// The tree has not 32,768 bytes, but so many.
    WrongLength(u64),
    /// The 128 bytes of the entry of that index are no entry: the offset of the first field outside its form.
    Record { index: u16, offset: u8 },
    /// The entry of that index has the name or the file of an earlier one, of which that is the first.
    Double { index: u16, first: u16 },
}

impl From<TreeFault> for DirFault {
    ghost use Rattle.std.specs.Prelude.{◌≡◌};
    ghost use Rattle.crash_core.specs.declared.fault.DirFault.TheVariants.{Tree};

    ghost from_gives = { λ tree fault. fault ≡ Tree tree };

    fn from(fault: TreeFault) -> DirFault {
        DirFault::Tree(fault)
    }
}
