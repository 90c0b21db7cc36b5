//! TEE_OpenPersistentObject, with the gate's lock taken for each validation alone.

ghost use Rattle.std.specs.Prelude.{◌≡◌, IfOk, IfSome, MatchResult, []};
ghost use Rattle.hmac_keys.specs.KeyTable.{ssk};
ghost use Rattle.serial_calls.specs.CallerSessions.{IsCallerOf};
ghost use Rattle.serial_calls.specs.Devices.{DrawsOn};
ghost use Rattle.shared_calls.specs.Validations.{EndsLook, IfAnswered, IfFound};
ghost use Rattle.shared_calls.specs.SharedCatchUp.{MayLoad};
ghost use Rattle.shared_calls.specs.SharedOpen.{HasLoaded, MayOpen};
ghost use Rattle.shared_calls.specs.SharedReady.{IsReady};
ghost use Rattle.shared_calls.specs.Attempts.{EndsAttempt};
ghost use Rattle.shared_calls.specs.Kept.{KeepsSlot};
ghost use Rattle.shared_calls.specs.SharedCounts.{CarriesDraws, told_if};

use crate::gate_entry::begin;
use crate::gate_lock::spin_then_lock;
use crate::slot_catch_up::catch_up_held;
use crate::validation::Validation;
use crate::{DevicesName, SharedGate};
use call_rules::Decision;
use dir_index::Held;
use hmac_keys::SecretKey;
use rpmb_card::RpmbPort;
use serial_calls::{
    GuardedSlot, PlacedReply, Session, StoreName, answer_open, answer_ruled, load_or_reply,
};
use std::alloc::Global;
use std::sync::{Mutex, MutexGuard, Wait};
use tee_ports::{Entropy, StoreFile};
use tee_types::{Call, Flags, NoMemory, ObjectId, Reply};

// What an Open finds at the gate: its answer, or the entry of the object that it opens. Then the gate is ready for it.
fn validate<F: StoreFile + Drop, R: RpmbPort + Drop, L: StoreName + DevicesName, E: Entropy>(
    alloc: Global,
    gate: &mut SharedGate<F, R, L>,
    session: &mut Session<E>,
    id: ObjectId,
    flags: Flags,
) -> Result<Validation<Held>, NoMemory>
    requires caller { IsCallerOf L.store session.old }
    ensures ends { EndsLook L.store session.old session.new (Call.Open id flags) result }
    ensures ready { IfFound result (λ held. IsReady L.store gate.new session.new) }
    ensures opens { IfFound result (MayOpen gate.new.gate.dir.dir.entries gate.new.gate.open_handles session.new.state session.new.number id flags) }
    ensures draws { DrawsOn E.is_reliable E.faults session.old.entropy session.new.entropy }
    ensures drawn { IfAnswered result (λ answer. CarriesDraws (E.faults session.old.entropy) (E.faults session.new.entropy) answer.reply) }
{
    let call = Call::Open { id, flags };
    if let Some(answer) = begin(alloc, gate, session, &call)? {
        return Ok(Validation::Answered(answer));
    }
    match call_rules::open(&gate.gate, session.state(), id, flags) {
        Decision::Answered(reply) => Ok(Validation::Answered(answer_ruled(
            &mut gate.gate,
            session,
            call,
            reply,
        ))),
        Decision::Needs(held) => Ok(Validation::Found(held)),
    }
}

/// The number of the file of an Open's object, as a validation at the gate finds it; or the call's answer.
///
/// # Errors
///
/// Memory ran out. The session has no event more.
pub(crate) fn file_of<
    F: StoreFile + Drop,
    R: RpmbPort + Drop,
    L: StoreName + DevicesName,
    E: Entropy,
>(
    alloc: Global,
    gate: &mut SharedGate<F, R, L>,
    session: &mut Session<E>,
    id: ObjectId,
    flags: Flags,
) -> Result<Validation<u16>, NoMemory>
    requires caller { IsCallerOf L.store session.old }
    ensures ends { EndsLook L.store session.old session.new (Call.Open id flags) result }
    ensures draws { DrawsOn E.is_reliable E.faults session.old.entropy session.new.entropy }
    ensures drawn { IfAnswered result (λ answer. CarriesDraws (E.faults session.old.entropy) (E.faults session.new.entropy) answer.reply) }
{
    match validate(alloc, gate, session, id, flags)? {
        Validation::Answered(answer) => Ok(Validation::Answered(answer)),
        Validation::Found(held) => Ok(Validation::Found(held.entry.file)),
        Validation::Retry => Ok(Validation::Retry),
    }
}

// The first validation: the object's slot is shown the history, so that the object may be loaded.
fn validate_first<F: StoreFile + Drop, R: RpmbPort + Drop, L: StoreName + DevicesName, E: Entropy>(
    alloc: Global,
    gate: &mut SharedGate<F, R, L>,
    slot: &mut GuardedSlot<F, L>,
    session: &mut Session<E>,
    id: ObjectId,
    flags: Flags,
) -> Result<Validation<Held>, NoMemory>
    requires caller { IsCallerOf L.store session.old }
    requires kept { KeepsSlot L.devices slot.old [] }
    ensures ends { EndsLook L.store session.old session.new (Call.Open id flags) result }
    ensures loads { IfFound result (λ held. MayLoad slot.new held.entry) }
    ensures draws { DrawsOn E.is_reliable E.faults session.old.entropy session.new.entropy }
    ensures kept { KeepsSlot L.devices slot.new [] }
    ensures drawn { IfAnswered result (λ answer. CarriesDraws (E.faults session.old.entropy) (E.faults session.new.entropy) answer.reply) }
{
    let held = match validate(alloc, gate, session, id, flags)? {
        Validation::Found(held) => held,
        ended => return Ok(ended),
    };
    if !catch_up_held(gate, slot, session, &held) {
        return Ok(Validation::Retry);
    }
    Ok(Validation::Found(held))
}

// The last validation: the session gets its handle, or is told why the object could not be loaded, where the object lies in the same file still.
fn validate_last<F: StoreFile + Drop, R: RpmbPort + Drop, L: StoreName + DevicesName, E: Entropy>(
    alloc: Global,
    gate: &mut SharedGate<F, R, L>,
    slot: &mut GuardedSlot<F, L>,
    session: &mut Session<E>,
    id: ObjectId,
    flags: Flags,
    unloaded: Option<Reply>,
) -> Result<Option<PlacedReply>, NoMemory>
    requires caller { IsCallerOf L.store session.old }
    requires loaded { HasLoaded L.store slot.old unloaded }
    requires kept { KeepsSlot L.devices slot.old (told_if slot.old.number unloaded) }
    ensures ends { EndsAttempt L.store session.old session.new (Call.Open id flags) result }
    ensures draws { DrawsOn E.is_reliable E.faults session.old.entropy session.new.entropy }
    ensures kept { KeepsSlot L.devices slot.new [] }
    ensures drawn { IfOk result (λ found. IfSome found (λ answer. CarriesDraws (E.faults session.old.entropy) (E.faults session.new.entropy) answer.reply)) }
{
    let held = match validate(alloc, gate, session, id, flags)? {
        Validation::Answered(answer) => return Ok(Some(answer)),
        Validation::Found(held) => held,
        Validation::Retry => return Ok(None),
    };
    if !catch_up_held(gate, slot, session, &held) {
        return Ok(None);
    }
    Ok(Some(answer_open(
        &mut gate.gate,
        &mut slot.slot,
        session,
        &held,
        id,
        flags,
        unloaded,
    )))
}

// Loads the slot's object, or tells why it could not be loaded. The gate's lock is not taken.
fn load_slot<F: StoreFile + Drop, L: StoreName + DevicesName>(
    alloc: Global,
    slot: &mut GuardedSlot<F, L>,
    storage_key: &SecretKey,
    held: &Held,
) -> Result<Option<Reply>, NoMemory>
    requires loads { MayLoad slot.old held.now.entry }
    requires keyed { storage_key.now ≡ ssk L.store.keys.huk L.store.keys.chip }
    requires kept { KeepsSlot L.devices slot.old [] }
    ensures loaded { IfOk result (HasLoaded L.store slot.new) }
    ensures kept { MatchResult result (λ unloaded. KeepsSlot L.devices slot.new (told_if slot.new.number unloaded)) (λ none. KeepsSlot L.devices slot.new []) }
{
    load_or_reply::<F, L>(alloc, &mut slot.slot, &held.entry, storage_key)
}

/// An attempt of an Open, with the lock of the slot of its object's file: two validations at the gate, and between them the object is loaded where it
/// was not. None where the call has to begin again.
///
/// # Errors
///
/// Memory ran out. The session has no event more.
pub(crate) fn attempt<
    W: Wait,
    F: StoreFile + Drop,
    R: RpmbPort + Drop,
    L: StoreName + DevicesName,
    E: Entropy,
>(
    rt: &W,
    alloc: Global,
    mut first: MutexGuard<'_, SharedGate<F, R, L>>,
    gate: &Mutex<SharedGate<F, R, L>>,
    slot: &mut GuardedSlot<F, L>,
    storage_key: &SecretKey,
    session: &mut Session<E>,
    id: ObjectId,
    flags: Flags,
) -> Result<Option<PlacedReply>, NoMemory>
    requires caller { IsCallerOf L.store session.old }
    requires keyed { storage_key.now ≡ ssk L.store.keys.huk L.store.keys.chip }
    requires kept { KeepsSlot L.devices slot.old [] }
    ensures ends { EndsAttempt L.store session.old session.new (Call.Open id flags) result }
    ensures draws { DrawsOn E.is_reliable E.faults session.old.entropy session.new.entropy }
    ensures kept { KeepsSlot L.devices slot.new [] }
    ensures drawn { IfOk result (λ found. IfSome found (λ answer. CarriesDraws (E.faults session.old.entropy) (E.faults session.new.entropy) answer.reply)) }
{
    let validated = validate_first(alloc, &mut first, slot, session, id, flags)?;
    drop(first);
    let held = match validated {
        Validation::Answered(answer) => return Ok(Some(answer)),
        Validation::Found(held) => held,
        Validation::Retry => return Ok(None),
    };
    let unloaded = load_slot(alloc, slot, storage_key, &held)?;
    validate_last(
        alloc,
        &mut spin_then_lock(rt, gate),
        slot,
        session,
        id,
        flags,
        unloaded,
    )
}
