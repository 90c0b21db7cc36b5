//! TEE_GetObjectInfo1: what is known of an open object.

ghost use Rattle.std.specs.Prelude.{◌≡◌, ◌≤◌, None, IfOk, OnErr};
ghost use Rattle.htree_file.specs.Answers.{FilePassed};
ghost use Rattle.disk_model.specs.Calls.{Rests};
ghost use Rattle.disk_model.specs.State.{FileState};
ghost use Rattle.node_image.specs.References.{current_format};
ghost use Rattle.dir_records.specs.Form.{HasForm};
ghost use Rattle.hmac_keys.specs.KeyTable.{ssk};
ghost use Rattle.history_seats.specs.Records.{Version};
ghost use Rattle.call_rules.specs.Objects.{IsOpenObject};
ghost use Rattle.object_slots.specs.Fills.{GivesEntry};
ghost use Rattle.object_slots.specs.Fits.{SeesWhole};
ghost use Rattle.object_slots.specs.GuardedSlots.{SlotInvariant};
ghost use Rattle.object_slots.specs.GuardedReads.{GivesVersion};
ghost use Rattle.commit_gate.specs.Commits.{IsCalm};
ghost use Rattle.object_slots.specs.SlotValues.{IsLive};
ghost use Rattle.call_steps.specs.AnswerCauses.{HasToldCause};
ghost use Rattle.call_steps.specs.InfoAnswers.{DescribesEntry, DescribesObject, DescribesVersion};
ghost use Rattle.call_steps.specs.AnswerServed.{IsServed, IsServedOrNot};

use crate::answer_appending::tell;
use crate::object_loading::load_or_reply;
use crate::replies::copied;
use crate::slot_catch_up::catch_up_entry;
use call_rules::OpenObject;
use commit_gate::{GuardedGate, PlacedReply, Session};
use core_laws::StoreName;
use dir_records::DirEntry;
use hmac_keys::SecretKey;
use object_slots::{GuardedSlot, Slot};
use rpmb_card::RpmbPort;
use std::alloc::Global;
use store_model::Handle;
use tee_ports::{Entropy, StoreFile};
use tee_types::{Bytes, Call, NoMemory, Reply};

// What is known of the object that is loaded, by a handle on it.
fn describe<F: StoreFile + Drop, L: StoreName>(
    alloc: Global,
    slot: &Slot<F>,
    handle: Handle,
) -> Result<Reply, NoMemory>
    requires guarded { SlotInvariant L.store slot.now }
    requires live { IsLive slot.now.holds }
    ensures { (v : Version) → GivesVersion slot.now v → IfOk result (DescribesVersion L.store slot.now v handle) }
{
    let size = object_slots::size::<F, L>(slot);
    let attributes = Bytes::from_slice(alloc, object_slots::attributes::<F, L>(slot))?;
    Ok(Reply::Info {
        size,
        position: handle.position,
        flags: handle.flags,
        attributes,
    })
}

/// Tells what is known of a slot's object, which is loaded, by a handle on it. No call of its file is made, and the gate has no part in this.
///
/// # Errors
///
/// Memory ran out.
pub fn describe_live<F: StoreFile + Drop, L: StoreName>(
    alloc: Global,
    slot: &Slot<F>,
    handle: Handle,
) -> Result<Reply, NoMemory>
    requires guarded { SlotInvariant L.store slot.now }
    requires live { IsLive slot.now.holds }
    ensures { (v : Version) → GivesVersion slot.now v → IfOk result (DescribesObject L.store slot.now.file slot.now v handle) }
{
    describe::<F, L>(alloc, slot, handle)
}

/// Loads the object of an entry, at which the slot stands, where nothing is loaded, and tells what is known of it, by a handle on it.
/// `storage_key` is the key that the applications' keys come from. The gate has no part in this.
///
/// # Errors
///
/// Memory ran out.
pub fn describe_object<F: StoreFile + Drop, L: StoreName>(
    alloc: Global,
    slot: &mut Slot<F>,
    entry: &DirEntry,
    storage_key: &SecretKey,
    handle: Handle,
) -> Result<Reply, NoMemory>
    requires guarded { SlotInvariant L.store slot.old }
    requires form { HasForm entry.now }
    requires current { entry.now.format ≡ current_format }
    requires given { GivesEntry slot.old entry.now }
    requires keyed { storage_key.now ≡ ssk L.store.keys.huk L.store.keys.chip }
    ensures same { slot.new ≡ record slot.old { file = slot.new.file; holds = slot.new.holds } }
    ensures guarded { SlotInvariant L.store slot.new }
    ensures rests { Rests slot.old.file slot.new.file }
    // Where memory ran out, no call of the file failed.
    ensures passed { OnErr result (FilePassed slot.old.file slot.new.file) }
    ensures describes { (v : Version) → GivesVersion slot.old v → IfOk result (DescribesObject L.store slot.old.file slot.new v handle) }
{
    if let Some(reply) = load_or_reply::<F, L>(alloc, slot, entry, storage_key)? {
        return Ok(reply);
    }
    describe::<F, L>(alloc, slot, handle)
}

/// Appends the reply that the file of an open object gave to an Info, and tells it. `told` is a copy of the reply. `found` is what the
/// rules found of the handle, whose session was shown the history, and which stays as it is.
pub fn answer_info<F: StoreFile + Drop, R: RpmbPort + Drop, L: StoreName, E: Entropy>(
    gate: &mut GuardedGate<F, R, L>,
    slot: &mut Slot<F>,
    session: &mut Session<E>,
    found: &OpenObject,
    handle: u32,
    reply: Reply,
    told: Reply,
) -> PlacedReply
    requires room { 1 ≤ gate.old.journal.spare }
    requires handle { 1 ≤ gate.old.gate.open_handles.spare }
    requires idle { gate.old.gate.doubt ≡ None }
    requires guarded { SlotInvariant L.store slot.old }
    requires calm { IsCalm L.store gate.old.journal.knows session.old }
    requires found { IsOpenObject gate.old.gate.dir.dir.entries session.old.state handle found.now }
    requires copied { told ≡ reply }
    requires describes { (was : FileState)
        × DescribesEntry L.store gate.old.journal.knows was slot.old found.now.held.entry found.now.handle reply }
    ensures served { IsServed L.store gate.old gate.new session.old session.new slot.old.number (Call.Info handle) result }
    ensures reply { result.reply ≡ reply }
    ensures entropy { session.new.entropy ≡ session.old.entropy }
    ensures number { slot.new.number ≡ slot.old.number }
    ensures file { slot.new.file ≡ slot.old.file }
    ensures guarded { SlotInvariant L.store slot.new }
    ensures whole { SeesWhole gate.new.journal.knows slot.new }
{
    tell(gate, slot, session, Call::Info { handle }, reply, told)
}

/// Tells the object's size and attributes, and the handle's position and flags. `found` is what the rules found of the handle, whose
/// session was shown the history, and which stays as it is. `storage_key` is the key that the applications' keys come from.
///
/// # Errors
///
/// Memory ran out. Nothing was answered.
pub fn info<F: StoreFile + Drop, R: RpmbPort + Drop, L: StoreName, E: Entropy>(
    alloc: Global,
    gate: &mut GuardedGate<F, R, L>,
    slot: &mut GuardedSlot<F, L>,
    session: &mut Session<E>,
    found: &OpenObject,
    storage_key: &SecretKey,
    handle: u32,
) -> Result<PlacedReply, NoMemory>
    requires room { 1 ≤ gate.old.journal.spare }
    requires handle { 1 ≤ gate.old.gate.open_handles.spare }
    requires idle { gate.old.gate.doubt ≡ None }
    requires calm { IsCalm L.store gate.old.journal.knows session.old }
    requires found { IsOpenObject gate.old.gate.dir.dir.entries session.old.state handle found.now }
    requires file { slot.old.number ≡ found.now.held.entry.file }
    requires keyed { storage_key.now ≡ ssk L.store.keys.huk L.store.keys.chip }
    ensures served { IsServedOrNot L.store gate.old gate.new session.old session.new slot.old.number (Call.Info handle) result }
    ensures number { slot.new.number ≡ slot.old.number }
    ensures entropy { session.new.entropy ≡ session.old.entropy }
    // The object's file was read at most. The reply accuses it where it failed, and no other.
    ensures rests { Rests slot.old.file slot.new.file }
    ensures cause { IfOk result (λ answer. HasToldCause slot.old.file slot.new.file slot.old.number answer.reply) }
    ensures passed { OnErr result (FilePassed slot.old.file slot.new.file) }
{
    let object = found.handle;
    let entry = found.held.entry;
    catch_up_entry(gate, &mut slot.slot, session, &entry);
    let reply = describe_object::<F, L>(alloc, &mut slot.slot, &entry, storage_key, object)?;
    let told = copied(alloc, &reply)?;
    Ok(answer_info(gate, &mut slot.slot, session, found, handle, reply, told))
}
