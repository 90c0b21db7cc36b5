//! TEE_OpenPersistentObject: a new handle on an object.

ghost use Rattle.std.specs.Prelude.{◌≡◌, ◌≤◌, false, None, Some, IfOk, OnErr};
ghost use Rattle.htree_file.specs.Answers.{FilePassed};
ghost use Rattle.disk_model.specs.Calls.{Rests};
ghost use Rattle.disk_model.specs.State.{FileState};
ghost use Rattle.hmac_keys.specs.KeyTable.{ssk};
ghost use Rattle.call_rules.specs.Index.{named};
ghost use Rattle.store_model.specs.Machine.{MachineState, has_all_handles};
ghost use Rattle.call_rules.specs.EntryNames.{IsEntryNamed};
ghost use Rattle.call_rules.specs.Matches.{Matches};
ghost use Rattle.call_rules.specs.Objects.{IsOpened};
ghost use Rattle.object_slots.specs.Fits.{SeesWhole};
ghost use Rattle.object_slots.specs.GuardedSlots.{SlotInvariant};
ghost use Rattle.commit_gate.specs.Commits.{IsCalm};
ghost use Rattle.call_steps.specs.AnswerCauses.{HasToldCause};
ghost use Rattle.call_steps.specs.OpenAnswers.{open_reply};
ghost use Rattle.call_steps.specs.ReadyEntries.{IsReadyEntry};
ghost use Rattle.call_steps.specs.AnswerServed.{IsServed, IsServedOrNot};

use crate::answer_appending::tell;
use crate::object_loading::load_or_reply;
use crate::replies::twice;
use crate::slot_catch_up::catch_up_entry;
use call_rules::Held;
use commit_gate::{GuardedGate, PlacedReply, Session};
use core_laws::StoreName;
use hmac_keys::SecretKey;
use object_slots::{GuardedSlot, Slot};
use rpmb_card::RpmbPort;
use std::alloc::Global;
use store_model::ObjectName;
use tee_ports::{Entropy, StoreFile};
use tee_types::{Call, Flags, NoMemory, ObjectId, Reply};

/// Gives the session a handle on the object that is loaded, at position 0 and with these flags, and tells its number. Where the object
/// could not be loaded, `unloaded` is the reply, which is told, and the session gets no handle. `held` is the entry that the rules found,
/// for a session that was shown the history.
pub fn answer_open<F: StoreFile + Drop, R: RpmbPort + Drop, L: StoreName, E: Entropy>(
    gate: &mut GuardedGate<F, R, L>,
    slot: &mut Slot<F>,
    session: &mut Session<E>,
    held: &Held,
    id: ObjectId,
    flags: Flags,
    unloaded: Option<Reply>,
) -> PlacedReply
    requires room { 1 ≤ gate.old.journal.spare }
    requires handle { 1 ≤ gate.old.gate.open_handles.spare }
    requires idle { gate.old.gate.doubt ≡ None }
    requires guarded { SlotInvariant L.store slot.old }
    requires calm { IsCalm L.store gate.old.journal.knows session.old }
    requires named { IsEntryNamed gate.old.gate.dir.dir.entries (named session.old.state.application id) (Some held.now) }
    requires few { has_all_handles session.old.state ≡ false }
    requires opens { (m : MachineState) → Matches gate.old.gate.dir.dir.entries gate.old.gate.open_handles session.old.state m session.old.number
        → IsOpened m session.old.number id flags held.now.entry.size }
    requires ready { (was : FileState) × IsReadyEntry L.store gate.old.journal.knows was slot.old held.now.entry unloaded }
    ensures served { IsServed L.store gate.old gate.new session.old session.new slot.old.number (Call.Open id flags) result }
    ensures reply { result.reply ≡ open_reply unloaded session.old.state }
    ensures entropy { session.new.entropy ≡ session.old.entropy }
    ensures number { slot.new.number ≡ slot.old.number }
    ensures file { slot.new.file ≡ slot.old.file }
    ensures guarded { SlotInvariant L.store slot.new }
    ensures whole { SeesWhole gate.new.journal.knows slot.new }
{
    let call = Call::Open { id, flags };
    if let Some(reply) = unloaded {
        let (reply, told) = twice(reply);
        return tell(gate, slot, session, call, reply, told);
    }
    // All that an open has to know of the file is the block with the attributes, which loading gave.
    let _attributes = object_slots::attributes::<F, L>(slot);
    let name = ObjectName {
        app: session.app(),
        id,
    };
    let number = session.open(name, flags);
    let reply = Reply::Handle(number);
    tell(gate, slot, session, call, reply, Reply::Handle(number))
}

/// Gives the session a handle on the object of that identifier, at position 0 and with these flags, and tells its number. Where the object
/// could not be loaded the session gets no handle. `held` is the entry that the rules found, for a session that was shown the history.
/// `storage_key` is the key that the applications' keys come from.
///
/// # Errors
///
/// Memory ran out. Nothing was answered.
pub fn open<F: StoreFile + Drop, R: RpmbPort + Drop, L: StoreName, E: Entropy>(
    alloc: Global,
    gate: &mut GuardedGate<F, R, L>,
    slot: &mut GuardedSlot<F, L>,
    session: &mut Session<E>,
    held: &Held,
    storage_key: &SecretKey,
    id: ObjectId,
    flags: Flags,
) -> Result<PlacedReply, NoMemory>
    requires room { 1 ≤ gate.old.journal.spare }
    requires handle { 1 ≤ gate.old.gate.open_handles.spare }
    requires idle { gate.old.gate.doubt ≡ None }
    requires calm { IsCalm L.store gate.old.journal.knows session.old }
    requires named { IsEntryNamed gate.old.gate.dir.dir.entries (named session.old.state.application id) (Some held.now) }
    requires few { has_all_handles session.old.state ≡ false }
    requires opens { (m : MachineState) → Matches gate.old.gate.dir.dir.entries gate.old.gate.open_handles session.old.state m session.old.number
        → IsOpened m session.old.number id flags held.now.entry.size }
    requires file { slot.old.number ≡ held.now.entry.file }
    requires keyed { storage_key.now ≡ ssk L.store.keys.huk L.store.keys.chip }
    ensures served { IsServedOrNot L.store gate.old gate.new session.old session.new slot.old.number (Call.Open id flags) result }
    ensures number { slot.new.number ≡ slot.old.number }
    ensures entropy { session.new.entropy ≡ session.old.entropy }
    // The object's file was read at most. The reply accuses it where it failed, and no other.
    ensures rests { Rests slot.old.file slot.new.file }
    ensures cause { IfOk result (λ answer. HasToldCause slot.old.file slot.new.file slot.old.number answer.reply) }
    // Where memory ran out, no call of the file failed.
    ensures passed { OnErr result (FilePassed slot.old.file slot.new.file) }
{
    let entry = held.entry;
    catch_up_entry(gate, &mut slot.slot, session, &entry);
    let unloaded = load_or_reply::<F, L>(alloc, &mut slot.slot, &entry, storage_key)?;
    Ok(answer_open(gate, &mut slot.slot, session, held, id, flags, unloaded))
}
