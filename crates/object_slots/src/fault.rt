// Why a call on a slot is refused.
ghost use Rattle.std.specs.Prelude.{◌≡◌};
ghost use Rattle.object_slots.specs.SlotFaults.{load_fault, slot_fault};

use htree_file::TreeFault;
use object_file::ObjectFault;

/// Why a call on a slot is not done. After each the slot has no stage, and its committed object if it had one.
#[derive(Clone, Copy, PartialEq, Eq, Debug)]
pub enum SlotFault {
    /// The object does not load by its entry, or a block that the call needs is bad.
    Corrupt,
    /// A call of the file failed. `count` is the file's count of faults after it.
    Failed { count: u64 },
    /// A draw failed. `count` is the entropy's count of faults after it.
    NoEntropy { count: u64 },
    /// Memory ran out.
    NoMemory,
}

// What a fault of a tree is for a slot.
pub(crate) fn slot_fault(fault: TreeFault) -> SlotFault
    ensures { result ≡ slot_fault fault }
{
    match fault {
        TreeFault::Failed { count } => SlotFault::Failed { count },
        TreeFault::NoEntropy { count } => SlotFault::NoEntropy { count },
        TreeFault::NoMemory => SlotFault::NoMemory,
        _ => SlotFault::Corrupt,
    }
}

// What a fault of loading is for a slot.
pub(crate) fn load_fault(fault: ObjectFault) -> SlotFault
    ensures { result ≡ load_fault fault }
{
    match fault {
        ObjectFault::Tree(fault) => slot_fault(fault),
        ObjectFault::WrongSize { .. } => SlotFault::Corrupt,
    }
}
