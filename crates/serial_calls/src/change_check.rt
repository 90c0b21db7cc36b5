// What a change of an object's data needs, read where no commit can follow.

ghost use Rattle.std.specs.Prelude.{◌≡◌, ◌+◌, ◌≤◌, IfOk, None, OnErr, length};
ghost use Rattle.serial_calls.specs.ChangeChecks.{ChecksChange};
ghost use Rattle.serial_calls.specs.ChangeReplies.{reply_of_check};
ghost use Rattle.serial_calls.specs.ChangeStaging.{resizing, writing};
ghost use Rattle.hmac_keys.specs.KeyTable.{ssk};
ghost use Rattle.node_image.specs.References.{current_format};
ghost use Rattle.dir_records.specs.Form.{HasForm};
ghost use Rattle.disk_model.specs.Calls.{Rests};
ghost use Rattle.history_seats.specs.Records.{Version};
ghost use Rattle.htree_file.specs.Answers.{FilePassed};
ghost use Rattle.call_steps.specs.Fills.{GivesEntry};
ghost use Rattle.call_steps.specs.GuardedSlots.{SlotInvariant};
ghost use Rattle.call_steps.specs.GuardedReads.{GivesVersion};
ghost use Rattle.call_steps.specs.SlotValues.{IsLive};

use call_steps::{Slot, SlotFault, check_truncate, check_write, fault_reply, load_or_reply};
use core_laws::StoreName;
use dir_records::DirEntry;
use hmac_keys::SecretKey;
use std::alloc::Global;
use tee_ports::StoreFile;
use tee_types::{NoMemory, Reply};

// The reply to a change of the object in that file whose blocks were read. None where memory ran out.
fn check_reply(file: u16, given: Result<(), SlotFault>) -> Option<Reply>
    ensures { result ≡ reply_of_check file given }
{
    match given {
        Ok(()) => Some(Reply::CounterSpent(u32::MAX)),
        Err(fault) => fault_reply(file, fault),
    }
}

// Reads what a write to the object that is loaded needs.
fn check_written<F: StoreFile + Drop, L: StoreName>(
    alloc: Global,
    slot: &mut Slot<F>,
    start: u32,
    bytes: &[u8],
) -> Result<Reply, NoMemory>
    requires guarded { SlotInvariant L.store slot.old }
    requires live { IsLive slot.old.holds }
    requires calm { slot.old.doubt ≡ None }
    requires fits { start + length bytes.now ≤ 1044480 }
    ensures same { slot.new ≡ record slot.old { file = slot.new.file; holds = slot.new.holds } }
    ensures guarded { SlotInvariant L.store slot.new }
    ensures rests { Rests slot.old.file slot.new.file }
    ensures passed { OnErr result (FilePassed slot.old.file slot.new.file) }
    ensures checks { (v : Version) → GivesVersion slot.old v → IfOk result (ChecksChange L.store slot.old.file slot.new v (writing start bytes.now)) }
{
    let given = check_write::<F, L>(alloc, slot, start, bytes);
    let Some(reply) = check_reply(slot.number(), given) else {
        return Err(NoMemory {});
    };
    Ok(reply)
}

// Reads what another size of the object that is loaded needs.
fn check_resized<F: StoreFile + Drop, L: StoreName>(
    alloc: Global,
    slot: &mut Slot<F>,
    size: u32,
) -> Result<Reply, NoMemory>
    requires guarded { SlotInvariant L.store slot.old }
    requires live { IsLive slot.old.holds }
    requires calm { slot.old.doubt ≡ None }
    requires fits { size ≤ 1044480 }
    ensures same { slot.new ≡ record slot.old { file = slot.new.file; holds = slot.new.holds } }
    ensures guarded { SlotInvariant L.store slot.new }
    ensures rests { Rests slot.old.file slot.new.file }
    ensures passed { OnErr result (FilePassed slot.old.file slot.new.file) }
    ensures checks { (v : Version) → GivesVersion slot.old v → IfOk result (ChecksChange L.store slot.old.file slot.new v (resizing size)) }
{
    let given = check_truncate::<F, L>(alloc, slot, size);
    let Some(reply) = check_reply(slot.number(), given) else {
        return Err(NoMemory {});
    };
    Ok(reply)
}

/// Loads the object of an entry, at which the slot stands, where nothing is loaded, and reads the blocks that a write of these bytes from the
/// place `start` on needs, and no more. Gives the reply to that write where no commit can follow. `storage_key` is the key that the applications' keys come from.
///
/// # Errors
///
/// Memory ran out.
pub(crate) fn check_write_object<F: StoreFile + Drop, L: StoreName>(
    alloc: Global,
    slot: &mut Slot<F>,
    entry: &DirEntry,
    storage_key: &SecretKey,
    start: u32,
    bytes: &[u8],
) -> Result<Reply, NoMemory>
    requires guarded { SlotInvariant L.store slot.old }
    requires form { HasForm entry.now }
    requires current { entry.now.format ≡ current_format }
    requires given { GivesEntry slot.old entry.now }
    requires keyed { storage_key.now ≡ ssk L.store.keys.huk L.store.keys.chip }
    requires fits { start + length bytes.now ≤ 1044480 }
    ensures same { slot.new ≡ record slot.old { file = slot.new.file; holds = slot.new.holds } }
    ensures guarded { SlotInvariant L.store slot.new }
    ensures rests { Rests slot.old.file slot.new.file }
    ensures passed { OnErr result (FilePassed slot.old.file slot.new.file) }
    ensures checks { (v : Version) → GivesVersion slot.old v → IfOk result (ChecksChange L.store slot.old.file slot.new v (writing start bytes.now)) }
{
    if let Some(reply) = load_or_reply::<F, L>(alloc, slot, entry, storage_key)? {
        return Ok(reply);
    }
    check_written::<F, L>(alloc, slot, start, bytes)
}

/// Loads the object of an entry, at which the slot stands, where nothing is loaded, and reads the block that so many bytes of data need, and no
/// more. Gives the reply to that truncation where no commit can follow. `storage_key` is the key that the applications' keys come from.
///
/// # Errors
///
/// Memory ran out.
pub(crate) fn check_truncate_object<F: StoreFile + Drop, L: StoreName>(
    alloc: Global,
    slot: &mut Slot<F>,
    entry: &DirEntry,
    storage_key: &SecretKey,
    size: u32,
) -> Result<Reply, NoMemory>
    requires guarded { SlotInvariant L.store slot.old }
    requires form { HasForm entry.now }
    requires current { entry.now.format ≡ current_format }
    requires given { GivesEntry slot.old entry.now }
    requires keyed { storage_key.now ≡ ssk L.store.keys.huk L.store.keys.chip }
    requires fits { size ≤ 1044480 }
    ensures same { slot.new ≡ record slot.old { file = slot.new.file; holds = slot.new.holds } }
    ensures guarded { SlotInvariant L.store slot.new }
    ensures rests { Rests slot.old.file slot.new.file }
    ensures passed { OnErr result (FilePassed slot.old.file slot.new.file) }
    ensures checks { (v : Version) → GivesVersion slot.old v → IfOk result (ChecksChange L.store slot.old.file slot.new v (resizing size)) }
{
    if let Some(reply) = load_or_reply::<F, L>(alloc, slot, entry, storage_key)? {
        return Ok(reply);
    }
    check_resized::<F, L>(alloc, slot, size)
}
