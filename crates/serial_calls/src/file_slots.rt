//! Where the slot of an object's file stands.

ghost use Rattle.std.specs.Prelude.{◌≡◌, ◌+◌, ◌<◌, length, Some};
ghost use Rattle.crash_core.specs.EntryLists.{entry_at};
ghost use Rattle.call_steps.specs.Slots.{AreSlots};

use call_steps::{GuardedGate, GuardedSlot, Held};
use core_laws::StoreName;
use rpmb_card::RpmbPort;
use tee_ports::StoreFile;

/// The place of the slot of a held entry's file.
pub(crate) fn place_of<F: StoreFile + Drop, R: RpmbPort + Drop, L: StoreName>(
    gate: &GuardedGate<F, R, L>,
    slots: &Vec<GuardedSlot<F, L>>,
    held: &Held,
) -> usize
    requires there { entry_at gate.now.gate.dir.dir.entries held.now.index ≡ Some held.now.entry }
    requires slots { AreSlots slots.now.items }
    ensures place { result + 1 ≡ held.now.entry.file }
    ensures within { result < length slots.now.items }
{
    gate.reveal_invariant();
    usize::from(held.entry.file) - 1
}
