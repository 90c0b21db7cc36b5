// Reads of a locked slot's object.
ghost use Rattle.std.specs.Prelude.{◌≡◌};
ghost use Rattle.history_seats.specs.Records.{Version};
ghost use Rattle.object_slots.specs.SlotReads.{ReadsObject};
ghost use Rattle.object_slots.specs.SlotValues.{IfLive, IsLive};
ghost use Rattle.object_slots.specs.GuardedSlots.{SlotInvariant};
ghost use Rattle.object_slots.specs.GuardedReads.{GivesVersion, ReadsVersion};

use crate::{Slot, SlotFault};
use core_laws::StoreName;
use tee_ports::StoreFile;

/// Reads data of a slot's object from the place `at` on into the front of `into`, fewer bytes where the end is nearer, and says how many.
/// Where the slot's view gives a version that no doubt touches, the bytes are that version's.
///
/// # Errors
///
/// `Corrupt` where one of the blocks that have these bytes is bad. Besides `Failed`.
pub fn read<F: StoreFile + Drop, L: StoreName>(
    slot: &mut Slot<F>,
    at: u32,
    into: &mut [u8],
) -> Result<usize, SlotFault>
    requires guarded { SlotInvariant L.store slot.old }
    requires live { IsLive slot.old.holds }
    ensures same { slot.new ≡ record slot.old { file = slot.new.file } }
    ensures reads { IfLive slot.old.holds (λ o. ReadsObject slot.old.file slot.new.file o at into.old into.new result) }
    ensures guarded { SlotInvariant L.store slot.new }
    ensures version { (v : Version) → GivesVersion slot.old v → ReadsVersion L.store.keys slot.new.file v at into.new result }
{
    slot.read(at, into)
}
