// What a change of a locked slot's object needs, read without the change.
ghost use Rattle.std.specs.Prelude.{◌≡◌, ◌+◌, ◌≤◌, length, None};
ghost use Rattle.disk_model.specs.Calls.{Rests};
ghost use Rattle.history_seats.specs.Records.{Version};
ghost use Rattle.object_slots.specs.SlotFaults.{HasCause};
ghost use Rattle.object_slots.specs.SlotChecks.{ChecksVersion};
ghost use Rattle.object_slots.specs.SlotValues.{IsLive};
ghost use Rattle.object_slots.specs.GuardedSlots.{SlotInvariant};
ghost use Rattle.object_slots.specs.GuardedReads.{GivesVersion};
ghost use Rattle.object_slots.specs.GuardedStages.{resize_of, write_of};

use crate::{Slot, SlotFault};
use core_laws::StoreName;
use std::alloc::Global;
use tee_ports::StoreFile;

/// Reads the blocks that a write of these bytes from the place `at` on needs, as `stage_write` does before it draws or writes anything, and no
/// more. The file is only read.
///
/// # Errors
///
/// `Corrupt` where one of these blocks is bad, and `Failed`.
pub fn check_write<F: StoreFile + Drop, L: StoreName>(
    alloc: Global,
    slot: &mut Slot<F>,
    at: u32,
    bytes: &[u8],
) -> Result<(), SlotFault>
    requires guarded { SlotInvariant L.store slot.old }
    requires live { IsLive slot.old.holds }
    requires calm { slot.old.doubt ≡ None }
    requires few { at + length bytes.now ≤ 1044480 }
    ensures same { slot.new ≡ record slot.old { file = slot.new.file; holds = slot.new.holds } }
    ensures guarded { SlotInvariant L.store slot.new }
    ensures rests { Rests slot.old.file slot.new.file }
    ensures cause { HasCause slot.old.file slot.new.file result }
    ensures version { (v : Version) → GivesVersion slot.old v → ChecksVersion L.store slot.new.file v (write_of v.size at bytes.now) result }
{
    // Tells what always holds of a slot, before and behind.
    let _before = slot.number();
    let answer = slot.check_write(alloc, at, bytes);
    let _behind = slot.number();
    answer
}

/// Reads the block that a truncation to so many bytes needs, as `stage_truncate` does before it draws or writes anything, and no more. The file
/// is only read.
///
/// # Errors
///
/// As for a write.
pub fn check_truncate<F: StoreFile + Drop, L: StoreName>(
    alloc: Global,
    slot: &mut Slot<F>,
    size: u32,
) -> Result<(), SlotFault>
    requires guarded { SlotInvariant L.store slot.old }
    requires live { IsLive slot.old.holds }
    requires calm { slot.old.doubt ≡ None }
    requires few { size ≤ 1044480 }
    ensures same { slot.new ≡ record slot.old { file = slot.new.file; holds = slot.new.holds } }
    ensures guarded { SlotInvariant L.store slot.new }
    ensures rests { Rests slot.old.file slot.new.file }
    ensures cause { HasCause slot.old.file slot.new.file result }
    ensures version { (v : Version) → GivesVersion slot.old v → ChecksVersion L.store slot.new.file v (resize_of v.size size) result }
{
    // Tells what always holds of a slot, before and behind.
    let _before = slot.number();
    let answer = slot.check_truncate(alloc, size);
    let _behind = slot.number();
    answer
}
