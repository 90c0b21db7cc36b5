//! TEE_ReadObjectData: a read of an open object's data.

ghost use Rattle.std.specs.Prelude.{◌≡◌, ◌≤◌, None, Some, IfOk, OnErr};
ghost use Rattle.htree_file.specs.Answers.{FilePassed};
ghost use Rattle.tee_types.specs.Rights.{read_bit};
ghost use Rattle.disk_model.specs.Calls.{Rests};
ghost use Rattle.disk_model.specs.State.{FileState};
ghost use Rattle.node_image.specs.References.{current_format};
ghost use Rattle.dir_records.specs.Form.{HasForm};
ghost use Rattle.hmac_keys.specs.KeyTable.{ssk};
ghost use Rattle.history_seats.specs.Records.{Version};
ghost use Rattle.store_model.specs.Machine.{handle_at};
ghost use Rattle.call_rules.specs.Objects.{IsRightful};
ghost use Rattle.object_slots.specs.Fills.{GivesEntry};
ghost use Rattle.object_slots.specs.Fits.{SeesWhole};
ghost use Rattle.object_slots.specs.GuardedSlots.{SlotInvariant};
ghost use Rattle.object_slots.specs.GuardedReads.{GivesVersion};
ghost use Rattle.commit_gate.specs.Commits.{IsCalm};
ghost use Rattle.object_slots.specs.SlotValues.{IsLive};
ghost use Rattle.call_steps.specs.AnswerCauses.{HasToldCause};
ghost use Rattle.call_steps.specs.ReadAnswers.{EndsAtPosition, ReadsAnswer, ReadsEntry, read_session};
ghost use Rattle.call_steps.specs.AnswerServed.{IsServed, IsServedOrNot};

use crate::answer_appending::tell;
use crate::fault_replies::fault_reply;
use crate::object_loading::load_or_reply;
use crate::replies::copied;
use crate::slot_catch_up::catch_up_entry;
use call_rules::OpenObject;
use commit_gate::{GuardedGate, PlacedReply, Session};
use core_laws::StoreName;
use dir_records::DirEntry;
use hmac_keys::SecretKey;
use object_slots::{GuardedSlot, Slot};
use rpmb_card::RpmbPort;
use std::alloc::Global;
use store_model::Handle;
use tee_ports::{Entropy, StoreFile};
use tee_types::{Bytes, Call, NoMemory, Reply};

// Reads at most so many bytes from the place `at` on, fewer where the end of the object's `size` bytes is nearer.
fn read_bytes<F: StoreFile + Drop, L: StoreName>(
    alloc: Global,
    slot: &mut Slot<F>,
    at: u32,
    count: u32,
    size: u32,
) -> Result<Reply, NoMemory>
    requires guarded { SlotInvariant L.store slot.old }
    requires live { IsLive slot.old.holds }
    ensures same { slot.new ≡ record slot.old { file = slot.new.file } }
    ensures guarded { SlotInvariant L.store slot.new }
    ensures rests { Rests slot.old.file slot.new.file }
    ensures passed { OnErr result (FilePassed slot.old.file slot.new.file) }
    ensures reads { (v : Version) → GivesVersion slot.old v → v.size ≡ size → IfOk result (ReadsAnswer L.store slot.old.file slot.new v at count) }
{
    let long = count.min(size.saturating_sub(at));
    let mut bytes = vec![in alloc; 0; long as usize]?;
    match object_slots::read::<F, L>(slot, at, bytes.as_mut_slice()) {
        Ok(_) => Ok(Reply::Content(Bytes::from_vec(bytes))),
        Err(fault) => {
            let Some(reply) = fault_reply(slot.number(), fault) else {
                return Err(NoMemory {});
            };
            Ok(reply)
        }
    }
}

/// Loads the object of an entry, at which the slot stands, where nothing is loaded, and reads at most so many bytes of it from the place
/// `at` on, fewer where the end is nearer. `storage_key` is the key that the applications' keys come from.
/// The gate has no part in this.
///
/// # Errors
///
/// Memory ran out.
pub fn read_object<F: StoreFile + Drop, L: StoreName>(
    alloc: Global,
    slot: &mut Slot<F>,
    entry: &DirEntry,
    storage_key: &SecretKey,
    at: u32,
    count: u32,
) -> Result<Reply, NoMemory>
    requires guarded { SlotInvariant L.store slot.old }
    requires form { HasForm entry.now }
    requires current { entry.now.format ≡ current_format }
    requires given { GivesEntry slot.old entry.now }
    requires keyed { storage_key.now ≡ ssk L.store.keys.huk L.store.keys.chip }
    ensures same { slot.new ≡ record slot.old { file = slot.new.file; holds = slot.new.holds } }
    ensures guarded { SlotInvariant L.store slot.new }
    ensures rests { Rests slot.old.file slot.new.file }
    // Where memory ran out, no call of the file failed.
    ensures passed { OnErr result (FilePassed slot.old.file slot.new.file) }
    ensures reads { (v : Version) → GivesVersion slot.old v → IfOk result (ReadsAnswer L.store slot.old.file slot.new v at count) }
{
    if let Some(reply) = load_or_reply::<F, L>(alloc, slot, entry, storage_key)? {
        return Ok(reply);
    }
    read_bytes::<F, L>(alloc, slot, at, count, entry.size)
}

/// Reads at most so many bytes of a slot's object, which is loaded, from the place `at` on, fewer where the end is nearer. The gate has no
/// part in this.
///
/// # Errors
///
/// Memory ran out.
pub fn read_live<F: StoreFile + Drop, L: StoreName>(
    alloc: Global,
    slot: &mut Slot<F>,
    at: u32,
    count: u32,
) -> Result<Reply, NoMemory>
    requires guarded { SlotInvariant L.store slot.old }
    requires live { IsLive slot.old.holds }
    ensures same { slot.new ≡ record slot.old { file = slot.new.file } }
    ensures guarded { SlotInvariant L.store slot.new }
    ensures rests { Rests slot.old.file slot.new.file }
    ensures passed { OnErr result (FilePassed slot.old.file slot.new.file) }
    ensures reads { (v : Version) → GivesVersion slot.old v → IfOk result (ReadsAnswer L.store slot.old.file slot.new v at count) }
{
    let size = object_slots::size::<F, L>(slot);
    read_bytes::<F, L>(alloc, slot, at, count, size)
}

// Moves the handle behind the bytes that a reply gives.
fn advance<E: Entropy>(session: &mut Session<E>, number: u32, handle: Handle, reply: &Reply)
    requires live { handle_at session.old.state number ≡ Some handle }
    requires fits { EndsAtPosition handle.position reply.now }
    ensures { session.new ≡ record session.old { state = read_session session.old.state number handle reply.now } }
{
    if let Reply::Content(bytes) = reply {
        let position = handle.position + bytes.len() as u32;
        session.replace(number, Handle { position, ..handle });
    }
}

/// Appends the reply that the file of an open object gave to a read of it, and tells it. `told` is a copy of the reply. `found` is what the
/// rules found of the handle, whose session was shown the history. The position advances by what is given.
pub fn answer_read<F: StoreFile + Drop, R: RpmbPort + Drop, L: StoreName, E: Entropy>(
    gate: &mut GuardedGate<F, R, L>,
    slot: &mut Slot<F>,
    session: &mut Session<E>,
    found: &OpenObject,
    handle: u32,
    count: u32,
    reply: Reply,
    told: Reply,
) -> PlacedReply
    requires room { 1 ≤ gate.old.journal.spare }
    requires handle { 1 ≤ gate.old.gate.open_handles.spare }
    requires idle { gate.old.gate.doubt ≡ None }
    requires guarded { SlotInvariant L.store slot.old }
    requires calm { IsCalm L.store gate.old.journal.knows session.old }
    requires found { IsRightful gate.old.gate.dir.dir.entries session.old.state handle read_bit found.now }
    requires copied { told ≡ reply }
    requires reads { (was : FileState)
        × ReadsEntry L.store gate.old.journal.knows was slot.old found.now.held.entry found.now.handle.position count reply }
    ensures served { IsServed L.store gate.old gate.new session.old session.new slot.old.number (Call.Read handle count) result }
    ensures reply { result.reply ≡ reply }
    ensures entropy { session.new.entropy ≡ session.old.entropy }
    ensures number { slot.new.number ≡ slot.old.number }
    ensures file { slot.new.file ≡ slot.old.file }
    ensures guarded { SlotInvariant L.store slot.new }
    ensures whole { SeesWhole gate.new.journal.knows slot.new }
{
    advance(session, handle, found.handle, &reply);
    let call = Call::Read {
        handle,
        size: count,
    };
    tell(gate, slot, session, call, reply, told)
}

/// Reads at most so many bytes from the handle's position on. `found` is what the rules found of the handle, whose session was shown the
/// history. `storage_key` is the key that the applications' keys come from. The position advances by what
/// is given.
///
/// # Errors
///
/// Memory ran out. Nothing was answered.
pub fn read<F: StoreFile + Drop, R: RpmbPort + Drop, L: StoreName, E: Entropy>(
    alloc: Global,
    gate: &mut GuardedGate<F, R, L>,
    slot: &mut GuardedSlot<F, L>,
    session: &mut Session<E>,
    found: &OpenObject,
    storage_key: &SecretKey,
    handle: u32,
    count: u32,
) -> Result<PlacedReply, NoMemory>
    requires room { 1 ≤ gate.old.journal.spare }
    requires handle { 1 ≤ gate.old.gate.open_handles.spare }
    requires idle { gate.old.gate.doubt ≡ None }
    requires calm { IsCalm L.store gate.old.journal.knows session.old }
    requires found { IsRightful gate.old.gate.dir.dir.entries session.old.state handle read_bit found.now }
    requires file { slot.old.number ≡ found.now.held.entry.file }
    requires keyed { storage_key.now ≡ ssk L.store.keys.huk L.store.keys.chip }
    ensures served { IsServedOrNot L.store gate.old gate.new session.old session.new slot.old.number (Call.Read handle count) result }
    ensures number { slot.new.number ≡ slot.old.number }
    ensures entropy { session.new.entropy ≡ session.old.entropy }
    // The object's file was read at most. The reply accuses it where it failed, and no other.
    ensures rests { Rests slot.old.file slot.new.file }
    ensures cause { IfOk result (λ answer. HasToldCause slot.old.file slot.new.file slot.old.number answer.reply) }
    ensures passed { OnErr result (FilePassed slot.old.file slot.new.file) }
{
    let position = found.handle.position;
    let entry = found.held.entry;
    catch_up_entry(gate, &mut slot.slot, session, &entry);
    let reply = read_object::<F, L>(alloc, &mut slot.slot, &entry, storage_key, position, count)?;
    let told = copied(alloc, &reply)?;
    Ok(answer_read(
        gate,
        &mut slot.slot,
        session,
        found,
        handle,
        count,
        reply,
        told,
    ))
}
