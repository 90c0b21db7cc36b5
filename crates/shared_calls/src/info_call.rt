//! TEE_GetObjectInfo1, with the gate's lock taken for each validation alone.

ghost use Rattle.std.specs.Prelude.{◌≡◌, IfOk, IfSome, MatchResult, None, []};
ghost use Rattle.hmac_keys.specs.KeyTable.{ssk};
ghost use Rattle.serial_calls.specs.CallerSessions.{IsCallerOf};
ghost use Rattle.serial_calls.specs.SlotValues.{IsLive};
ghost use Rattle.call_rules.specs.Objects.{IsOpenObject};
ghost use Rattle.shared_calls.specs.SharedInfo.{HasDescribed};
ghost use Rattle.shared_calls.specs.Validations.{EndsLook, IfAnswered, IfFound};
ghost use Rattle.shared_calls.specs.SharedCatchUp.{MayLoad};
ghost use Rattle.shared_calls.specs.SharedReady.{IsReady};
ghost use Rattle.shared_calls.specs.Attempts.{EndsAttempt};
ghost use Rattle.shared_calls.specs.Kept.{KeepsSlot};
ghost use Rattle.shared_calls.specs.SharedCounts.{CarriesDraws};
ghost use Rattle.serial_calls.specs.DeviceCounts.{told_of};
ghost use Rattle.serial_calls.specs.Devices.{DrawsOn};
ghost use Rattle.tee_types.specs.declared.reply.Device.TheVariants.{File};

use crate::gate_entry::begin;
use crate::gate_lock::spin_then_lock;
use crate::slot_catch_up::{catch_up_held, is_loaded};
use crate::validation::Validation;
use crate::{DevicesName, SharedGate};
use call_rules::{Decision, OpenObject};
use hmac_keys::SecretKey;
use rpmb_card::RpmbPort;
use serial_calls::{
    GuardedSlot, PlacedReply, Session, StoreName, answer_info, answer_ruled, describe_live,
    describe_object,
};
use std::alloc::Global;
use std::sync::{Mutex, MutexGuard, Wait};
use store_model::Handle;
use tee_ports::{Entropy, StoreFile};
use tee_types::{Call, NoMemory, Reply};

// What an Info finds at the gate: its answer, or the object that it tells of. Then the gate is ready for it.
fn validate<F: StoreFile + Drop, R: RpmbPort + Drop, L: StoreName + DevicesName, E: Entropy>(
    alloc: Global,
    gate: &mut SharedGate<F, R, L>,
    session: &mut Session<E>,
    handle: u32,
) -> Result<Validation<OpenObject>, NoMemory>
    requires caller { IsCallerOf L.store session.old }
    ensures ends { EndsLook L.store session.old session.new (Call.Info handle) result }
    ensures ready { IfFound result (λ found. IsReady L.store gate.new session.new) }
    ensures found { IfFound result (IsOpenObject gate.new.gate.dir.dir.entries session.new.state handle) }
    ensures draws { DrawsOn E.is_reliable E.faults session.old.entropy session.new.entropy }
    ensures drawn { IfAnswered result (λ answer. CarriesDraws (E.faults session.old.entropy) (E.faults session.new.entropy) answer.reply) }
{
    let call = Call::Info { handle };
    if let Some(answer) = begin(alloc, gate, session, &call)? {
        return Ok(Validation::Answered(answer));
    }
    match call_rules::info(&gate.gate, session.state(), handle) {
        Decision::Answered(reply) => Ok(Validation::Answered(answer_ruled(
            &mut gate.gate,
            session,
            call,
            reply,
        ))),
        Decision::Needs(found) => Ok(Validation::Found(found)),
    }
}

/// The number of the file of an Info's object, as a validation at the gate finds it; or the call's answer.
///
/// # Errors
///
/// Memory ran out. The session has no event more.
pub(crate) fn file_of<
    F: StoreFile + Drop,
    R: RpmbPort + Drop,
    L: StoreName + DevicesName,
    E: Entropy,
>(
    alloc: Global,
    gate: &mut SharedGate<F, R, L>,
    session: &mut Session<E>,
    handle: u32,
) -> Result<Validation<u16>, NoMemory>
    requires caller { IsCallerOf L.store session.old }
    ensures ends { EndsLook L.store session.old session.new (Call.Info handle) result }
    ensures draws { DrawsOn E.is_reliable E.faults session.old.entropy session.new.entropy }
    ensures drawn { IfAnswered result (λ answer. CarriesDraws (E.faults session.old.entropy) (E.faults session.new.entropy) answer.reply) }
{
    match validate(alloc, gate, session, handle)? {
        Validation::Answered(answer) => Ok(Validation::Answered(answer)),
        Validation::Found(found) => Ok(Validation::Found(found.held.entry.file)),
        Validation::Retry => Ok(Validation::Retry),
    }
}

// The first validation: the object's slot is shown the history, so that the object may be loaded.
fn validate_first<F: StoreFile + Drop, R: RpmbPort + Drop, L: StoreName + DevicesName, E: Entropy>(
    alloc: Global,
    gate: &mut SharedGate<F, R, L>,
    slot: &mut GuardedSlot<F, L>,
    session: &mut Session<E>,
    handle: u32,
) -> Result<Validation<OpenObject>, NoMemory>
    requires caller { IsCallerOf L.store session.old }
    requires kept { KeepsSlot L.devices slot.old [] }
    ensures ends { EndsLook L.store session.old session.new (Call.Info handle) result }
    ensures loads { IfFound result (λ found. MayLoad slot.new found.held.entry) }
    ensures draws { DrawsOn E.is_reliable E.faults session.old.entropy session.new.entropy }
    ensures kept { KeepsSlot L.devices slot.new [] }
    ensures drawn { IfAnswered result (λ answer. CarriesDraws (E.faults session.old.entropy) (E.faults session.new.entropy) answer.reply) }
{
    let found = match validate(alloc, gate, session, handle)? {
        Validation::Found(found) => found,
        ended => return Ok(ended),
    };
    if !catch_up_held(gate, slot, session, &found.held) {
        return Ok(Validation::Retry);
    }
    Ok(Validation::Found(found))
}

// The last validation: what is known of the object is appended, where it is told by the same position and the same flags still, of the same file.
fn validate_last<F: StoreFile + Drop, R: RpmbPort + Drop, L: StoreName + DevicesName, E: Entropy>(
    alloc: Global,
    gate: &mut SharedGate<F, R, L>,
    slot: &mut GuardedSlot<F, L>,
    session: &mut Session<E>,
    handle: u32,
    by: Handle,
    reply: Reply,
    told: Reply,
) -> Result<Option<PlacedReply>, NoMemory>
    requires caller { IsCallerOf L.store session.old }
    requires copied { told ≡ reply }
    requires described { HasDescribed L.store slot.old by reply }
    requires kept { KeepsSlot L.devices slot.old (told_of (File slot.old.number) reply) }
    ensures ends { EndsAttempt L.store session.old session.new (Call.Info handle) result }
    ensures draws { DrawsOn E.is_reliable E.faults session.old.entropy session.new.entropy }
    ensures kept { KeepsSlot L.devices slot.new [] }
    ensures drawn { IfOk result (λ found. IfSome found (λ answer. CarriesDraws (E.faults session.old.entropy) (E.faults session.new.entropy) answer.reply)) }
{
    let found = match validate(alloc, gate, session, handle)? {
        Validation::Answered(answer) => return Ok(Some(answer)),
        Validation::Found(found) => found,
        Validation::Retry => return Ok(None),
    };
    if found.handle.position != by.position || found.handle.flags.bits != by.flags.bits {
        return Ok(None);
    }
    if !catch_up_held(gate, slot, session, &found.held) {
        return Ok(None);
    }
    Ok(Some(answer_info(
        &mut gate.gate,
        &mut slot.slot,
        session,
        &found,
        handle,
        reply,
        told,
    )))
}

// Tells what is known of the slot's object. The gate's lock is not taken.
fn describe_slot<F: StoreFile + Drop, L: StoreName + DevicesName>(
    alloc: Global,
    slot: &mut GuardedSlot<F, L>,
    storage_key: &SecretKey,
    found: &OpenObject,
) -> Result<Reply, NoMemory>
    requires loads { MayLoad slot.old found.now.held.entry }
    requires keyed { storage_key.now ≡ ssk L.store.keys.huk L.store.keys.chip }
    requires kept { KeepsSlot L.devices slot.old [] }
    ensures described { IfOk result (HasDescribed L.store slot.new found.now.handle) }
    ensures kept { MatchResult result (λ reply. KeepsSlot L.devices slot.new (told_of (File slot.new.number) reply)) (λ none. KeepsSlot L.devices slot.new []) }
{
    describe_object::<F, L>(
        alloc,
        &mut slot.slot,
        &found.held.entry,
        storage_key,
        found.handle,
    )
}

// Tells what is known of the slot's object, which is loaded. The gate's lock is not taken.
fn describe_loaded<F: StoreFile + Drop, L: StoreName + DevicesName>(
    alloc: Global,
    slot: &GuardedSlot<F, L>,
    by: &Handle,
) -> Result<Reply, NoMemory>
    requires live { IsLive slot.now.holds }
    requires settled { slot.now.doubt ≡ None }
    requires kept { KeepsSlot L.devices slot.now [] }
    ensures described { IfOk result (HasDescribed L.store slot.now by.now) }
    ensures kept { IfOk result (λ reply. KeepsSlot L.devices slot.now (told_of (File slot.now.number) reply)) }
{
    describe_live::<F, L>(alloc, &slot.slot, *by)
}

/// An attempt of an Info in one look at the gate, with the lock of the slot in which the session found its object before: where an object is loaded
/// there, what is known of it is told, and the gate is asked then whether that is what the call asks. None where it is not.
///
/// # Errors
///
/// Memory ran out. The session has no event more.
pub(crate) fn attempt_at_once<
    W: Wait,
    F: StoreFile + Drop,
    R: RpmbPort + Drop,
    L: StoreName + DevicesName,
    E: Entropy,
>(
    rt: &W,
    alloc: Global,
    gate: &Mutex<SharedGate<F, R, L>>,
    slot: &mut GuardedSlot<F, L>,
    session: &mut Session<E>,
    handle: u32,
) -> Result<Option<PlacedReply>, NoMemory>
    requires caller { IsCallerOf L.store session.old }
    requires kept { KeepsSlot L.devices slot.old [] }
    ensures ends { EndsAttempt L.store session.old session.new (Call.Info handle) result }
    ensures draws { DrawsOn E.is_reliable E.faults session.old.entropy session.new.entropy }
    ensures kept { KeepsSlot L.devices slot.new [] }
    ensures drawn { IfOk result (λ found. IfSome found (λ answer. CarriesDraws (E.faults session.old.entropy) (E.faults session.new.entropy) answer.reply)) }
{
    let Some(by) = session.handle(handle) else {
        return Ok(None);
    };
    if !is_loaded(slot) {
        return Ok(None);
    }
    let reply = describe_loaded(alloc, slot, &by)?;
    let told = reply.copy(alloc)?;
    validate_last(
        alloc,
        &mut spin_then_lock(rt, gate),
        slot,
        session,
        handle,
        by,
        reply,
        told,
    )
}

/// An attempt of an Info, with the lock of the slot of its object's file: two validations at the gate, and between them the object is loaded where it
/// was not. None where the call has to begin again.
///
/// # Errors
///
/// Memory ran out. The session has no event more.
pub(crate) fn attempt<
    W: Wait,
    F: StoreFile + Drop,
    R: RpmbPort + Drop,
    L: StoreName + DevicesName,
    E: Entropy,
>(
    rt: &W,
    alloc: Global,
    mut first: MutexGuard<'_, SharedGate<F, R, L>>,
    gate: &Mutex<SharedGate<F, R, L>>,
    slot: &mut GuardedSlot<F, L>,
    storage_key: &SecretKey,
    session: &mut Session<E>,
    handle: u32,
) -> Result<Option<PlacedReply>, NoMemory>
    requires caller { IsCallerOf L.store session.old }
    requires keyed { storage_key.now ≡ ssk L.store.keys.huk L.store.keys.chip }
    requires kept { KeepsSlot L.devices slot.old [] }
    ensures ends { EndsAttempt L.store session.old session.new (Call.Info handle) result }
    ensures draws { DrawsOn E.is_reliable E.faults session.old.entropy session.new.entropy }
    ensures kept { KeepsSlot L.devices slot.new [] }
    ensures drawn { IfOk result (λ found. IfSome found (λ answer. CarriesDraws (E.faults session.old.entropy) (E.faults session.new.entropy) answer.reply)) }
{
    let validated = validate_first(alloc, &mut first, slot, session, handle)?;
    drop(first);
    let found = match validated {
        Validation::Answered(answer) => return Ok(Some(answer)),
        Validation::Found(found) => found,
        Validation::Retry => return Ok(None),
    };
    let reply = describe_slot(alloc, slot, storage_key, &found)?;
    let told = reply.copy(alloc)?;
    let by = found.handle;
    validate_last(
        alloc,
        &mut spin_then_lock(rt, gate),
        slot,
        session,
        handle,
        by,
        reply,
        told,
    )
}
