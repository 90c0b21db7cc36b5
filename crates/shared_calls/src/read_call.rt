//! TEE_ReadObjectData, with the gate's lock taken for each validation alone.

ghost use Rattle.std.specs.Prelude.{◌≡◌, IfOk, IfSome, MatchResult, None, []};
ghost use Rattle.tee_types.specs.Rights.{read_bit};
ghost use Rattle.hmac_keys.specs.KeyTable.{ssk};
ghost use Rattle.serial_calls.specs.CallerSessions.{IsCallerOf};
ghost use Rattle.serial_calls.specs.SlotValues.{IsLive};
ghost use Rattle.call_rules.specs.Objects.{IsRightful};
ghost use Rattle.shared_calls.specs.Validations.{EndsLook, IfAnswered, IfFound};
ghost use Rattle.shared_calls.specs.SharedCatchUp.{MayLoad};
ghost use Rattle.shared_calls.specs.SharedRead.{HasRead};
ghost use Rattle.shared_calls.specs.SharedReady.{IsReady};
ghost use Rattle.shared_calls.specs.Attempts.{EndsAttempt};
ghost use Rattle.shared_calls.specs.Kept.{KeepsSlot};
ghost use Rattle.shared_calls.specs.SharedCounts.{CarriesDraws};
ghost use Rattle.serial_calls.specs.DeviceCounts.{told_of};
ghost use Rattle.serial_calls.specs.Devices.{DrawsOn};
ghost use Rattle.tee_types.specs.declared.reply.Device.TheVariants.{File};

use crate::gate_entry::begin;
use crate::gate_lock::spin_then_lock;
use crate::slot_catch_up::{catch_up_held, is_loaded};
use crate::validation::Validation;
use crate::{DevicesName, SharedGate};
use call_rules::{Decision, OpenObject};
use hmac_keys::SecretKey;
use rpmb_card::RpmbPort;
use serial_calls::{
    GuardedSlot, PlacedReply, Session, StoreName, answer_read, answer_ruled, read_live, read_object,
};
use std::alloc::Global;
use std::sync::{Mutex, MutexGuard, Wait};
use tee_ports::{Entropy, StoreFile};
use tee_types::{Call, NoMemory, Reply};

// What a Read finds at the gate: its answer, or the object that it reads. Then the gate is ready for it.
fn validate<F: StoreFile + Drop, R: RpmbPort + Drop, L: StoreName + DevicesName, E: Entropy>(
    alloc: Global,
    gate: &mut SharedGate<F, R, L>,
    session: &mut Session<E>,
    handle: u32,
    size: u32,
) -> Result<Validation<OpenObject>, NoMemory>
    requires caller { IsCallerOf L.store session.old }
    ensures ends { EndsLook L.store session.old session.new (Call.Read handle size) result }
    ensures ready { IfFound result (λ found. IsReady L.store gate.new session.new) }
    ensures found { IfFound result (IsRightful gate.new.gate.dir.dir.entries session.new.state handle read_bit) }
    ensures draws { DrawsOn E.is_reliable E.faults session.old.entropy session.new.entropy }
    ensures drawn { IfAnswered result (λ answer. CarriesDraws (E.faults session.old.entropy) (E.faults session.new.entropy) answer.reply) }
{
    let call = Call::Read { handle, size };
    if let Some(answer) = begin(alloc, gate, session, &call)? {
        return Ok(Validation::Answered(answer));
    }
    match call_rules::read(&gate.gate, session.state(), handle) {
        Decision::Answered(reply) => Ok(Validation::Answered(answer_ruled(
            &mut gate.gate,
            session,
            call,
            reply,
        ))),
        Decision::Needs(found) => Ok(Validation::Found(found)),
    }
}

/// The number of the file of a Read's object, as a validation at the gate finds it; or the call's answer.
///
/// # Errors
///
/// Memory ran out. The session has no event more.
pub(crate) fn file_of<
    F: StoreFile + Drop,
    R: RpmbPort + Drop,
    L: StoreName + DevicesName,
    E: Entropy,
>(
    alloc: Global,
    gate: &mut SharedGate<F, R, L>,
    session: &mut Session<E>,
    handle: u32,
    size: u32,
) -> Result<Validation<u16>, NoMemory>
    requires caller { IsCallerOf L.store session.old }
    ensures ends { EndsLook L.store session.old session.new (Call.Read handle size) result }
    ensures draws { DrawsOn E.is_reliable E.faults session.old.entropy session.new.entropy }
    ensures drawn { IfAnswered result (λ answer. CarriesDraws (E.faults session.old.entropy) (E.faults session.new.entropy) answer.reply) }
{
    match validate(alloc, gate, session, handle, size)? {
        Validation::Answered(answer) => Ok(Validation::Answered(answer)),
        Validation::Found(found) => Ok(Validation::Found(found.held.entry.file)),
        Validation::Retry => Ok(Validation::Retry),
    }
}

// The first validation: the object's slot is shown the history, so that the object may be loaded.
fn validate_first<F: StoreFile + Drop, R: RpmbPort + Drop, L: StoreName + DevicesName, E: Entropy>(
    alloc: Global,
    gate: &mut SharedGate<F, R, L>,
    slot: &mut GuardedSlot<F, L>,
    session: &mut Session<E>,
    handle: u32,
    size: u32,
) -> Result<Validation<OpenObject>, NoMemory>
    requires caller { IsCallerOf L.store session.old }
    requires kept { KeepsSlot L.devices slot.old [] }
    ensures ends { EndsLook L.store session.old session.new (Call.Read handle size) result }
    ensures loads { IfFound result (λ found. MayLoad slot.new found.held.entry) }
    ensures draws { DrawsOn E.is_reliable E.faults session.old.entropy session.new.entropy }
    ensures kept { KeepsSlot L.devices slot.new [] }
    ensures drawn { IfAnswered result (λ answer. CarriesDraws (E.faults session.old.entropy) (E.faults session.new.entropy) answer.reply) }
{
    let found = match validate(alloc, gate, session, handle, size)? {
        Validation::Found(found) => found,
        ended => return Ok(ended),
    };
    if !catch_up_held(gate, slot, session, &found.held) {
        return Ok(Validation::Retry);
    }
    Ok(Validation::Found(found))
}

// The last validation: what was read is appended, where the handle still stands at the same place of the same file.
fn validate_last<F: StoreFile + Drop, R: RpmbPort + Drop, L: StoreName + DevicesName, E: Entropy>(
    alloc: Global,
    gate: &mut SharedGate<F, R, L>,
    slot: &mut GuardedSlot<F, L>,
    session: &mut Session<E>,
    handle: u32,
    size: u32,
    at: u32,
    reply: Reply,
    told: Reply,
) -> Result<Option<PlacedReply>, NoMemory>
    requires caller { IsCallerOf L.store session.old }
    requires copied { told ≡ reply }
    requires read { HasRead L.store slot.old at size reply }
    requires kept { KeepsSlot L.devices slot.old (told_of (File slot.old.number) reply) }
    ensures ends { EndsAttempt L.store session.old session.new (Call.Read handle size) result }
    ensures draws { DrawsOn E.is_reliable E.faults session.old.entropy session.new.entropy }
    ensures kept { KeepsSlot L.devices slot.new [] }
    ensures drawn { IfOk result (λ found. IfSome found (λ answer. CarriesDraws (E.faults session.old.entropy) (E.faults session.new.entropy) answer.reply)) }
{
    let found = match validate(alloc, gate, session, handle, size)? {
        Validation::Answered(answer) => return Ok(Some(answer)),
        Validation::Found(found) => found,
        Validation::Retry => return Ok(None),
    };
    if found.handle.position != at {
        return Ok(None);
    }
    if !catch_up_held(gate, slot, session, &found.held) {
        return Ok(None);
    }
    Ok(Some(answer_read(
        &mut gate.gate,
        &mut slot.slot,
        session,
        &found,
        handle,
        size,
        reply,
        told,
    )))
}

// Reads the object of the slot. The gate's lock is not taken.
fn read_slot<F: StoreFile + Drop, L: StoreName + DevicesName>(
    alloc: Global,
    slot: &mut GuardedSlot<F, L>,
    storage_key: &SecretKey,
    found: &OpenObject,
    size: u32,
) -> Result<Reply, NoMemory>
    requires loads { MayLoad slot.old found.now.held.entry }
    requires keyed { storage_key.now ≡ ssk L.store.keys.huk L.store.keys.chip }
    requires kept { KeepsSlot L.devices slot.old [] }
    ensures read { IfOk result (HasRead L.store slot.new found.now.handle.position size) }
    ensures kept { MatchResult result (λ reply. KeepsSlot L.devices slot.new (told_of (File slot.new.number) reply)) (λ none. KeepsSlot L.devices slot.new []) }
{
    read_object::<F, L>(
        alloc,
        &mut slot.slot,
        &found.held.entry,
        storage_key,
        found.handle.position,
        size,
    )
}

// Reads the slot's object, which is loaded. The gate's lock is not taken.
fn read_loaded<F: StoreFile + Drop, L: StoreName + DevicesName>(
    alloc: Global,
    slot: &mut GuardedSlot<F, L>,
    at: u32,
    size: u32,
) -> Result<Reply, NoMemory>
    requires live { IsLive slot.old.holds }
    requires settled { slot.old.doubt ≡ None }
    requires kept { KeepsSlot L.devices slot.old [] }
    ensures read { IfOk result (HasRead L.store slot.new at size) }
    ensures kept { MatchResult result (λ reply. KeepsSlot L.devices slot.new (told_of (File slot.new.number) reply)) (λ none. KeepsSlot L.devices slot.new []) }
{
    read_live::<F, L>(alloc, &mut slot.slot, at, size)
}

/// An attempt of a Read in one look at the gate, with the lock of the slot in which the session found its object before: where an object is loaded
/// there, it is read from the handle's position on, and the gate is asked then whether that is what the call reads. None where it is not.
///
/// # Errors
///
/// Memory ran out. The session has no event more.
pub(crate) fn attempt_at_once<
    W: Wait,
    F: StoreFile + Drop,
    R: RpmbPort + Drop,
    L: StoreName + DevicesName,
    E: Entropy,
>(
    rt: &W,
    alloc: Global,
    gate: &Mutex<SharedGate<F, R, L>>,
    slot: &mut GuardedSlot<F, L>,
    session: &mut Session<E>,
    handle: u32,
    size: u32,
) -> Result<Option<PlacedReply>, NoMemory>
    requires caller { IsCallerOf L.store session.old }
    requires kept { KeepsSlot L.devices slot.old [] }
    ensures ends { EndsAttempt L.store session.old session.new (Call.Read handle size) result }
    ensures draws { DrawsOn E.is_reliable E.faults session.old.entropy session.new.entropy }
    ensures kept { KeepsSlot L.devices slot.new [] }
    ensures drawn { IfOk result (λ found. IfSome found (λ answer. CarriesDraws (E.faults session.old.entropy) (E.faults session.new.entropy) answer.reply)) }
{
    let Some(by) = session.handle(handle) else {
        return Ok(None);
    };
    if !is_loaded(slot) {
        return Ok(None);
    }
    let reply = read_loaded(alloc, slot, by.position, size)?;
    let told = reply.copy(alloc)?;
    validate_last(
        alloc,
        &mut spin_then_lock(rt, gate),
        slot,
        session,
        handle,
        size,
        by.position,
        reply,
        told,
    )
}

/// An attempt of a Read, with the lock of the slot of its object's file: two validations at the gate, and between them the object is read. None
/// where the call has to begin again.
///
/// # Errors
///
/// Memory ran out. The session has no event more.
pub(crate) fn attempt<
    W: Wait,
    F: StoreFile + Drop,
    R: RpmbPort + Drop,
    L: StoreName + DevicesName,
    E: Entropy,
>(
    rt: &W,
    alloc: Global,
    mut first: MutexGuard<'_, SharedGate<F, R, L>>,
    gate: &Mutex<SharedGate<F, R, L>>,
    slot: &mut GuardedSlot<F, L>,
    storage_key: &SecretKey,
    session: &mut Session<E>,
    handle: u32,
    size: u32,
) -> Result<Option<PlacedReply>, NoMemory>
    requires caller { IsCallerOf L.store session.old }
    requires keyed { storage_key.now ≡ ssk L.store.keys.huk L.store.keys.chip }
    requires kept { KeepsSlot L.devices slot.old [] }
    ensures ends { EndsAttempt L.store session.old session.new (Call.Read handle size) result }
    ensures draws { DrawsOn E.is_reliable E.faults session.old.entropy session.new.entropy }
    ensures kept { KeepsSlot L.devices slot.new [] }
    ensures drawn { IfOk result (λ found. IfSome found (λ answer. CarriesDraws (E.faults session.old.entropy) (E.faults session.new.entropy) answer.reply)) }
{
    let validated = validate_first(alloc, &mut first, slot, session, handle, size)?;
    drop(first);
    let found = match validated {
        Validation::Answered(answer) => return Ok(Some(answer)),
        Validation::Found(found) => found,
        Validation::Retry => return Ok(None),
    };
    let reply = read_slot(alloc, slot, storage_key, &found, size)?;
    let told = reply.copy(alloc)?;
    let at = found.handle.position;
    validate_last(
        alloc,
        &mut spin_then_lock(rt, gate),
        slot,
        session,
        handle,
        size,
        at,
        reply,
        told,
    )
}
