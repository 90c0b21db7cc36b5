// Loading the object of a locked slot.
ghost use Rattle.std.specs.Prelude.{◌≡◌, None};
ghost use Rattle.node_image.specs.References.{current_format};
ghost use Rattle.object_file.specs.DeviceKeys.{object_key};
ghost use Rattle.dir_records.specs.Form.{HasForm};
ghost use Rattle.history_seats.specs.Records.{Version};
ghost use Rattle.object_slots.specs.Loads.{LoadsObject};
ghost use Rattle.object_slots.specs.SlotValues.{IsFree};
ghost use Rattle.object_slots.specs.Fills.{GivesEntry, IsDamagedAnswer};
ghost use Rattle.object_slots.specs.GuardedSlots.{SlotInvariant};
ghost use Rattle.object_slots.specs.GuardedReads.{GivesVersion};

use crate::{Slot, SlotFault};
use core_laws::StoreName;
use dir_records::DirEntry;
use std::alloc::Global;
use tee_ports::StoreFile;

/// Loads the object that an entry of the directory names in the slot's file, where the slot's view gives the entry's version. `tsk` is the
/// key of the entry's application.
///
/// # Errors
///
/// `Corrupt` where something stands against the entry: its tree does not load, has another length, or its block 0 is bad. Over an honest file
/// the version's object is damaged then. Besides `Failed` and `NoMemory`.
pub fn fill<F: StoreFile + Drop, L: StoreName>(
    alloc: Global,
    slot: &mut Slot<F>,
    entry: &DirEntry,
    tsk: &[u8; 32],
) -> Result<(), SlotFault>
    requires guarded { SlotInvariant L.store slot.old }
    requires vacant { IsFree slot.old.holds }
    requires form { HasForm entry.now }
    requires current { entry.now.format ≡ current_format }
    requires key { tsk.now ≡ object_key L.store.keys entry.now.app }
    requires given { GivesEntry slot.old entry.now }
    ensures same { slot.new ≡ record slot.old { file = slot.new.file; holds = slot.new.holds } }
    ensures loads { LoadsObject slot.old.file slot.new.file tsk.now entry.now slot.new.holds result }
    ensures guarded { SlotInvariant L.store slot.new }
    ensures damaged { (v : Version) → GivesVersion slot.old v → IsDamagedAnswer slot.new.file v result }
{
    slot.fill(alloc, entry, tsk)
}
