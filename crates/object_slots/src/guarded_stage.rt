// Stages of a locked slot's object.
ghost use Rattle.std.specs.Prelude.{◌≡◌, ◌+◌, ◌≤◌, length, None, OnErr};
ghost use Rattle.history_seats.specs.Records.{Version};
ghost use Rattle.object_slots.specs.SlotFaults.{HasCauses};
ghost use Rattle.object_slots.specs.Makes.{MakesObject};
ghost use Rattle.object_slots.specs.SlotStages.{StagesObject, resize_change, write_change};
ghost use Rattle.object_slots.specs.SlotValues.{IfLive, IsFree, IsLive};
ghost use Rattle.object_slots.specs.GuardedSlots.{SlotInvariant};
ghost use Rattle.object_slots.specs.NewObjects.{KnowsNothing, NewLeaves};
ghost use Rattle.object_slots.specs.GuardedReads.{GivesVersion};
ghost use Rattle.object_slots.specs.GuardedStages.{StagesVersion, resize_of, write_of};

use crate::{Slot, SlotFault};
use core_laws::StoreName;
use node_image::RootRef;
use std::alloc::Global;
use tee_ports::{Entropy, StoreFile};

/// Writes data from the place `at` on, with zero between the old end and that place, into the version that the committed object does not
/// use, and settles it. Gives the reference that names the changed object. The slot has a stage then, of the next version.
///
/// # Errors
///
/// `Corrupt` where a block that would keep old bytes beside the new ones is bad; `NoEntropy` where a draw failed, once these blocks were
/// read; besides `Failed` and `NoMemory`. The slot may stand behind its lock then.
pub fn stage_write<F: StoreFile + Drop, E: Entropy, L: StoreName>(
    alloc: Global,
    slot: &mut Slot<F>,
    at: u32,
    bytes: &[u8],
    entropy: &mut E,
) -> Result<RootRef, SlotFault>
    requires guarded { SlotInvariant L.store slot.old }
    requires live { IsLive slot.old.holds }
    requires calm { slot.old.doubt ≡ None }
    requires few { at + length bytes.now ≤ 1044480 }
    ensures same { slot.new ≡ record slot.old { file = slot.new.file; holds = slot.new.holds } }
    ensures stages { IfLive slot.old.holds (λ o. StagesObject slot.old.file slot.new.file o (write_change o at bytes.now) slot.new.holds
        (entropy.new ≡ entropy.old) result) }
    ensures causes { HasCauses slot.old.file slot.new.file (E.faults entropy.old) (E.faults entropy.new)
        (E.is_reliable entropy.old) (E.is_reliable entropy.new) result }
    ensures guarded { OnErr result (SlotInvariant L.store slot.new) }
    ensures version { (v : Version) → GivesVersion slot.old v → StagesVersion L.store slot.new v (write_of v.size at bytes.now) result }
{
    slot.stage_write(alloc, at, bytes, entropy)
}

/// Makes the data so many bytes, with zero behind the old end, in the version that the committed object does not use, and settles it. Gives
/// the reference that names the changed object. The slot has a stage then, of the next version.
///
/// # Errors
///
/// As for a write.
pub fn stage_truncate<F: StoreFile + Drop, E: Entropy, L: StoreName>(
    alloc: Global,
    slot: &mut Slot<F>,
    size: u32,
    entropy: &mut E,
) -> Result<RootRef, SlotFault>
    requires guarded { SlotInvariant L.store slot.old }
    requires live { IsLive slot.old.holds }
    requires calm { slot.old.doubt ≡ None }
    requires few { size ≤ 1044480 }
    ensures same { slot.new ≡ record slot.old { file = slot.new.file; holds = slot.new.holds } }
    ensures stages { IfLive slot.old.holds (λ o. StagesObject slot.old.file slot.new.file o (resize_change o size) slot.new.holds
        (entropy.new ≡ entropy.old) result) }
    ensures causes { HasCauses slot.old.file slot.new.file (E.faults entropy.old) (E.faults entropy.new)
        (E.is_reliable entropy.old) (E.is_reliable entropy.new) result }
    ensures guarded { OnErr result (SlotInvariant L.store slot.new) }
    ensures version { (v : Version) → GivesVersion slot.old v → StagesVersion L.store slot.new v (resize_of v.size size) result }
{
    slot.stage_truncate(alloc, size, entropy)
}

/// Cuts the slot's file to no bytes, and makes an object in it with these attributes and data, which is settled and not committed. `tsk` is
/// the key of the application. Gives the reference that names it. The slot then has the object, of the next version.
///
/// # Errors
///
/// `Failed`, `NoEntropy` and `NoMemory`. The slot is free then, and may stand behind its lock.
pub fn stage_new<F: StoreFile + Drop, E: Entropy, L: StoreName>(
    alloc: Global,
    slot: &mut Slot<F>,
    tsk: &[u8; 32],
    attributes: &[u8],
    bytes: &[u8],
    entropy: &mut E,
) -> Result<RootRef, SlotFault>
    requires guarded { SlotInvariant L.store slot.old }
    requires vacant { IsFree slot.old.holds }
    requires calm { slot.old.doubt ≡ None }
    requires unknown { KnowsNothing slot.old }
    requires attributes { length attributes.now ≤ 2048 }
    requires few { length bytes.now ≤ 1044480 }
    ensures same { slot.new ≡ record slot.old { file = slot.new.file; holds = slot.new.holds } }
    ensures makes { MakesObject slot.old.file slot.new.file tsk.now attributes.now bytes.now slot.new.holds result }
    ensures causes { HasCauses slot.old.file slot.new.file (E.faults entropy.old) (E.faults entropy.new)
        (E.is_reliable entropy.old) (E.is_reliable entropy.new) result }
    ensures leaves { NewLeaves L.store slot.new tsk.now attributes.now bytes.now result }
{
    slot.stage_new(alloc, tsk, attributes, bytes, entropy)
}
