//! Loading the object of an entry into its slot.

ghost use Rattle.std.specs.Prelude.{◌≡◌, IfOk, OnErr};
ghost use Rattle.htree_file.specs.Answers.{FilePassed};
ghost use Rattle.disk_model.specs.Calls.{Rests};
ghost use Rattle.node_image.specs.References.{current_format};
ghost use Rattle.dir_records.specs.Form.{HasForm};
ghost use Rattle.crash_core.specs.DeviceKeys.{object_key};
ghost use Rattle.hmac_keys.specs.KeyTable.{ssk};
ghost use Rattle.history_seats.specs.Records.{Version};
ghost use Rattle.object_slots.specs.Fills.{GivesEntry};
ghost use Rattle.object_slots.specs.GuardedSlots.{SlotInvariant};
ghost use Rattle.object_slots.specs.GuardedReads.{GivesVersion};
ghost use Rattle.call_steps.specs.ObjectLoading.{FillsOrStays, LoadsVersion};
ghost use Rattle.call_steps.specs.ReadyEntries.{IsReady};

use crate::fault_replies::fault_reply;
use core_laws::StoreName;
use dir_records::DirEntry;
use hmac_keys::{SecretKey, tsk, wipe};
use object_slots::{Slot, SlotFault, fill};
use std::alloc::Global;
use tee_ports::StoreFile;
use tee_types::{NoMemory, Reply};

// Loads the entry's object, unless one is loaded.
fn fill_free<F: StoreFile + Drop, L: StoreName>(
    alloc: Global,
    slot: &mut Slot<F>,
    entry: &DirEntry,
    storage_key: &SecretKey,
) -> Result<(), SlotFault>
    requires guarded { SlotInvariant L.store slot.old }
    requires form { HasForm entry.now }
    requires current { entry.now.format ≡ current_format }
    requires keyed { storage_key.now ≡ ssk L.store.keys.huk L.store.keys.chip }
    requires given { GivesEntry slot.old entry.now }
    ensures same { slot.new ≡ record slot.old { file = slot.new.file; holds = slot.new.holds } }
    ensures guarded { SlotInvariant L.store slot.new }
    ensures filled { FillsOrStays slot.old.holds slot.old slot.new (object_key L.store.keys entry.now.app) entry.now result }
    ensures version { (v : Version) → GivesVersion slot.old v → LoadsVersion L.store.keys slot.new v result }
{
    if slot.is_free() {
        let mut key = tsk(storage_key, &entry.app.bytes());
        let filled = fill::<F, L>(alloc, slot, entry, &key);
        wipe(&mut key);
        filled
    } else {
        Ok(())
    }
}

/// Loads the object of an entry, at which the slot stands, where nothing is loaded. Gives the reply to any call on it where it could not be
/// loaded, and none where it is loaded. `storage_key` is the key that the applications' keys come from. The key of
/// the entry's application is derived where the object is loaded, and overwritten behind it. The gate has no part in this.
///
/// # Errors
///
/// Memory ran out.
pub fn load_or_reply<F: StoreFile + Drop, L: StoreName>(
    alloc: Global,
    slot: &mut Slot<F>,
    entry: &DirEntry,
    storage_key: &SecretKey,
) -> Result<Option<Reply>, NoMemory>
    requires guarded { SlotInvariant L.store slot.old }
    requires form { HasForm entry.now }
    requires current { entry.now.format ≡ current_format }
    requires given { GivesEntry slot.old entry.now }
    requires keyed { storage_key.now ≡ ssk L.store.keys.huk L.store.keys.chip }
    ensures same { slot.new ≡ record slot.old { file = slot.new.file; holds = slot.new.holds } }
    ensures guarded { SlotInvariant L.store slot.new }
    ensures rests { Rests slot.old.file slot.new.file }
    // Where memory ran out, no call of the file failed.
    ensures passed { OnErr result (FilePassed slot.old.file slot.new.file) }
    ensures ready { (v : Version) → GivesVersion slot.old v → IfOk result (IsReady L.store slot.old.file slot.new v) }
{
    match fill_free::<F, L>(alloc, slot, entry, storage_key) {
        Ok(()) => Ok(None),
        Err(fault) => {
            let Some(reply) = fault_reply(slot.number(), fault) else {
                return Err(NoMemory {});
            };
            Ok(Some(reply))
        }
    }
}
