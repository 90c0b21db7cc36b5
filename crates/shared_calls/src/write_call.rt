//! TEE_WriteObjectData, with the gate's lock taken for each validation alone.

ghost use Rattle.std.specs.Prelude.{◌==◌, ◌≡◌, ◌+◌, ◌≤◌, IfOk, OnErr, false, length, IfSome, MatchResult, None, ℕ, []};
ghost use Rattle.tee_types.specs.Rights.{write_bit};
ghost use Rattle.hmac_keys.specs.KeyTable.{ssk};
ghost use Rattle.serial_calls.specs.GuardedSlots.{SlotInvariant};
ghost use Rattle.serial_calls.specs.CallerSessions.{IsCallerOf};
ghost use Rattle.call_rules.specs.Objects.{IsRightful};
ghost use Rattle.serial_calls.specs.ChangeStaging.{writing};
ghost use Rattle.shared_calls.specs.SharedChange.{HasStaged, CarriesStaged, told_staged, OnlyReads};
ghost use Rattle.serial_calls.specs.Devices.{DrawsOn, Grows};
ghost use Rattle.shared_calls.specs.Validations.{EndsLook, IfAnswered, IfFound};
ghost use Rattle.shared_calls.specs.SharedCatchUp.{MayLoad};
ghost use Rattle.shared_calls.specs.SharedReady.{IsReady, IsSpent};
ghost use Rattle.rpmb_card.specs.Protocol.{last_counter};
ghost use Rattle.shared_calls.specs.Attempts.{EndsAttempt, IsAnswered};
ghost use Rattle.serial_calls.specs.SessionEvents.{IsWaiting};
ghost use Rattle.shared_calls.specs.Kept.{KeepsSlot};
ghost use Rattle.shared_calls.specs.SharedCounts.{CarriesDraws};

use crate::data_calls::{answer_held, give_up};
use crate::gate_entry::{begin, is_spent};
use crate::gate_lock::spin_then_lock;
use crate::slot_catch_up::catch_up_held;
use crate::validation::Validation;
use crate::{DevicesName, SharedGate};
use call_rules::{Decision, OpenObject, write_refusal};
use hmac_keys::SecretKey;
use rpmb_card::RpmbPort;
use serial_calls::{
    GuardedSlot, PlacedReply, Session, Slot, Staged, StoreName, answer_ruled, answer_write,
    catch_up_staged, write_object, write_spent,
};
use std::alloc::Global;
use std::sync::{Mutex, MutexGuard, Wait};
use tee_ports::{Entropy, StoreFile};
use tee_types::{Bytes, Call, NoMemory};

// What a Write finds at the gate: its answer, or the object that it changes. Then the gate is ready for it. `call` is that Write.
fn validate<F: StoreFile + Drop, R: RpmbPort + Drop, L: StoreName + DevicesName, E: Entropy>(
    alloc: Global,
    gate: &mut SharedGate<F, R, L>,
    session: &mut Session<E>,
    call: &Call,
    handle: u32,
    bytes: &Bytes,
) -> Result<Validation<OpenObject>, NoMemory>
    requires caller { IsCallerOf L.store session.old }
    requires call { call.now ≡ Call.Write handle bytes.now }
    ensures ends { EndsLook L.store session.old session.new (Call.Write handle bytes.now) result }
    ensures ready { IfFound result (λ found. IsReady L.store gate.new session.new) }
    ensures found { IfFound result (IsRightful gate.new.gate.dir.dir.entries session.new.state handle write_bit) }
    ensures some { IfFound result (λ found. (length bytes.now == 0) ≡ false) }
    ensures draws { DrawsOn E.is_reliable E.faults session.old.entropy session.new.entropy }
    ensures undrawn { IfFound result (λ found. E.faults session.new.entropy ≡ E.faults session.old.entropy) }
    ensures drawn { IfAnswered result (λ answer. CarriesDraws (E.faults session.old.entropy) (E.faults session.new.entropy) answer.reply) }
    // Where no commit is in doubt nothing is drawn, and the counter stays.
    ensures let_be { gate.old.gate.doubt ≡ None → session.new.entropy ≡ session.old.entropy }
    ensures counter { IfFound result (λ found. gate.old.gate.doubt ≡ None → gate.new.gate.counter ≡ gate.old.gate.counter) }
{
    if let Some(answer) = begin(alloc, gate, session, call)? {
        return Ok(Validation::Answered(answer));
    }
    match call_rules::write(&gate.gate, session.state(), handle, bytes) {
        Decision::Answered(reply) => {
            let kept = call.copy(alloc)?;
            Ok(Validation::Answered(answer_ruled(&mut gate.gate, session, kept, reply)))
        }
        Decision::Needs(found) => Ok(Validation::Found(found)),
    }
}

/// The number of the file of a Write's object, as a validation at the gate finds it; or the call's answer. `call` is that Write.
///
/// # Errors
///
/// Memory ran out. The session has no event more.
pub(crate) fn file_of<
    F: StoreFile + Drop,
    R: RpmbPort + Drop,
    L: StoreName + DevicesName,
    E: Entropy,
>(
    alloc: Global,
    gate: &mut SharedGate<F, R, L>,
    session: &mut Session<E>,
    call: &Call,
    handle: u32,
    bytes: &Bytes,
) -> Result<Validation<u16>, NoMemory>
    requires caller { IsCallerOf L.store session.old }
    requires call { call.now ≡ Call.Write handle bytes.now }
    ensures ends { EndsLook L.store session.old session.new (Call.Write handle bytes.now) result }
    ensures draws { DrawsOn E.is_reliable E.faults session.old.entropy session.new.entropy }
    ensures drawn { IfAnswered result (λ answer. CarriesDraws (E.faults session.old.entropy) (E.faults session.new.entropy) answer.reply) }
{
    match validate(alloc, gate, session, call, handle, bytes)? {
        Validation::Answered(answer) => Ok(Validation::Answered(answer)),
        Validation::Found(found) => Ok(Validation::Found(found.held.entry.file)),
        Validation::Retry => Ok(Validation::Retry),
    }
}

// Answers a write where no commit can follow, with both locks held: the object's file is only read, and nothing is drawn. None where the slot is
// another file's: then nothing is answered.
fn answer_spent<F: StoreFile + Drop, R: RpmbPort + Drop, L: StoreName + DevicesName, E: Entropy>(
    alloc: Global,
    gate: &mut SharedGate<F, R, L>,
    slot: &mut GuardedSlot<F, L>,
    storage_key: &SecretKey,
    session: &mut Session<E>,
    found: &OpenObject,
    handle: u32,
    bytes: Bytes,
) -> Result<Option<PlacedReply>, NoMemory>
    requires ready { IsReady L.store gate.old session.old }
    requires spent { gate.old.gate.counter ≡ last_counter }
    requires found { IsRightful gate.old.gate.dir.dir.entries session.old.state handle write_bit found.now }
    requires some { (length bytes == 0) ≡ false }
    requires fits { found.now.handle.position + length bytes ≤ 1044480 }
    requires keyed { storage_key.now ≡ ssk L.store.keys.huk L.store.keys.chip }
    requires kept { KeepsSlot L.devices slot.old [] }
    ensures ends { EndsAttempt L.store session.old session.new (Call.Write handle bytes) result }
    ensures reads { OnlyReads slot.old.file slot.new.file session.old session.new }
    ensures kept { KeepsSlot L.devices slot.new [] }
    ensures undrawn { IfOk result (λ found. IfSome found (λ answer. CarriesDraws (E.faults session.old.entropy) (E.faults session.new.entropy) answer.reply)) }
{
    let entry = found.held.entry;
    if entry.file != slot.number() {
        return Ok(None);
    }
    let answer = write_spent(
        alloc,
        &mut gate.gate,
        &mut slot.slot,
        session,
        found,
        storage_key,
        handle,
        bytes,
    )?;
    Ok(Some(answer))
}

// The first validation: a write that is refused whatever the object's bytes are is answered. For any other the object's slot is shown the history,
// so that the object may be loaded. `call` is that Write.
fn validate_first<F: StoreFile + Drop, R: RpmbPort + Drop, L: StoreName + DevicesName, E: Entropy>(
    alloc: Global,
    gate: &mut SharedGate<F, R, L>,
    slot: &mut GuardedSlot<F, L>,
    storage_key: &SecretKey,
    session: &mut Session<E>,
    call: &Call,
    handle: u32,
    bytes: &Bytes,
) -> Result<Validation<OpenObject>, NoMemory>
    requires caller { IsCallerOf L.store session.old }
    requires call { call.now ≡ Call.Write handle bytes.now }
    requires keyed { storage_key.now ≡ ssk L.store.keys.huk L.store.keys.chip }
    requires kept { KeepsSlot L.devices slot.old [] }
    ensures ends { EndsLook L.store session.old session.new (Call.Write handle bytes.now) result }
    ensures loads { IfFound result (λ found. MayLoad slot.new found.held.entry) }
    ensures fits { IfFound result (λ found. found.handle.position + length bytes.now ≤ 1044480) }
    ensures draws { DrawsOn E.is_reliable E.faults session.old.entropy session.new.entropy }
    ensures kept { KeepsSlot L.devices slot.new [] }
    ensures drawn { IfAnswered result (λ answer. CarriesDraws (E.faults session.old.entropy) (E.faults session.new.entropy) answer.reply) }
    // Where no commit can follow, nothing is left to be staged.
    ensures spent { IsSpent gate.old → IfFound result (λ found. ⊥) }
    ensures reads { IsSpent gate.old → OnlyReads slot.old.file slot.new.file session.old session.new }
{
    let found = match validate(alloc, gate, session, call, handle, bytes)? {
        Validation::Found(found) => found,
        ended => return Ok(ended),
    };
    if let Some(reply) = write_refusal(found.handle.position, bytes.len()) {
        let kept = call.copy(alloc)?;
        let Some(answer) = answer_held(gate, slot, session, &found.held, kept, reply) else {
            return Ok(Validation::Retry);
        };
        return Ok(Validation::Answered(answer));
    }
    if is_spent(gate) {
        let copied = bytes.copy(alloc)?;
        let Some(answer) = answer_spent(
            alloc,
            gate,
            slot,
            storage_key,
            session,
            &found,
            handle,
            copied,
        )?
        else {
            return Ok(Validation::Retry);
        };
        return Ok(Validation::Answered(answer));
    }
    if !catch_up_held(gate, slot, session, &found.held) {
        return Ok(Validation::Retry);
    }
    Ok(Validation::Found(found))
}

// Loads the slot's object and stages the write in its file; or the reply says why it is not staged. The gate's lock is not taken.
fn stage_slot<F: StoreFile + Drop, L: StoreName + DevicesName, E: Entropy>(
    alloc: Global,
    slot: &mut Slot<F>,
    storage_key: &SecretKey,
    session: &mut Session<E>,
    found: &OpenObject,
    bytes: &Bytes,
) -> Result<Staged, NoMemory>
    requires caller { IsCallerOf L.store session.old }
    requires guarded { SlotInvariant L.store slot.old }
    requires loads { MayLoad slot.old found.now.held.entry }
    requires keyed { storage_key.now ≡ ssk L.store.keys.huk L.store.keys.chip }
    requires fits { found.now.handle.position + length bytes.now ≤ 1044480 }
    requires kept { KeepsSlot L.devices slot.old [] }
    ensures waits { IsWaiting L.store session.old session.new }
    ensures staged { IfOk result (HasStaged L.store slot.new (writing found.now.handle.position bytes.now)) }
    ensures guarded { OnErr result (SlotInvariant L.store slot.new) }
    ensures draws { DrawsOn E.is_reliable E.faults session.old.entropy session.new.entropy }
    ensures kept { MatchResult result (λ staged. KeepsSlot L.devices slot.new (told_staged slot.new.number staged)) (λ none. KeepsSlot L.devices slot.new []) }
    ensures drawn { IfOk result (CarriesStaged (E.faults session.old.entropy) (E.faults session.new.entropy)) }
{
    let entry = found.held.entry;
    let entropy = session.entropy_mut();
    write_object::<F, L, E>(
        alloc,
        slot,
        entropy,
        &entry,
        storage_key,
        found.handle.position,
        bytes.as_slice(),
    )
}

// What a Write finds at the gate again, where its handle stands at that place still, and its object lies in that file. `call` is that Write.
fn validate_again<F: StoreFile + Drop, R: RpmbPort + Drop, L: StoreName + DevicesName, E: Entropy>(
    alloc: Global,
    gate: &mut SharedGate<F, R, L>,
    session: &mut Session<E>,
    call: &Call,
    handle: u32,
    bytes: &Bytes,
    at: u32,
    file: u16,
) -> Result<Validation<OpenObject>, NoMemory>
    requires caller { IsCallerOf L.store session.old }
    requires call { call.now ≡ Call.Write handle bytes.now }
    ensures ends { EndsLook L.store session.old session.new (Call.Write handle bytes.now) result }
    ensures ready { IfFound result (λ found. IsReady L.store gate.new session.new) }
    ensures found { IfFound result (IsRightful gate.new.gate.dir.dir.entries session.new.state handle write_bit) }
    ensures some { IfFound result (λ found. (length bytes.now == 0) ≡ false) }
    ensures at { IfFound result (λ found. found.handle.position ≡ at) }
    ensures file { IfFound result (λ found. found.held.entry.file ≡ file) }
    ensures draws { DrawsOn E.is_reliable E.faults session.old.entropy session.new.entropy }
    ensures undrawn { IfFound result (λ found. E.faults session.new.entropy ≡ E.faults session.old.entropy) }
    ensures drawn { IfAnswered result (λ answer. CarriesDraws (E.faults session.old.entropy) (E.faults session.new.entropy) answer.reply) }
{
    let found = match validate(alloc, gate, session, call, handle, bytes)? {
        Validation::Found(found) => found,
        ended => return Ok(ended),
    };
    if found.handle.position != at || found.held.entry.file != file {
        return Ok(Validation::Retry);
    }
    Ok(Validation::Found(found))
}

// Brings the write that was staged, or tells why it was not staged, with the slot of the object's file, which keeps its stage until then.
fn answer_staged<F: StoreFile + Drop, R: RpmbPort + Drop, L: StoreName + DevicesName, E: Entropy>(
    gate: &mut SharedGate<F, R, L>,
    slot: &mut Slot<F>,
    session: &mut Session<E>,
    found: &OpenObject,
    handle: u32,
    bytes: Bytes,
    staged: Staged,
) -> PlacedReply
    requires ready { IsReady L.store gate.old session.old }
    requires found { IsRightful gate.old.gate.dir.dir.entries session.old.state handle write_bit found.now }
    requires some { (length bytes == 0) ≡ false }
    requires fits { found.now.handle.position + length bytes ≤ 1044480 }
    requires file { slot.old.number ≡ found.now.held.entry.file }
    requires staged { HasStaged L.store slot.old (writing found.now.handle.position bytes) staged }
    requires kept { KeepsSlot L.devices slot.old (told_staged slot.old.number staged) }
    ensures answered { IsAnswered L.store session.old session.new (Call.Write handle bytes) result }
    ensures guarded { SlotInvariant L.store slot.new }
    ensures draws { DrawsOn E.is_reliable E.faults session.old.entropy session.new.entropy }
    ensures kept { KeepsSlot L.devices slot.new [] }
    ensures drawn { (first : ℕ) → Grows first (E.faults session.old.entropy) → CarriesStaged first (E.faults session.old.entropy) staged → CarriesDraws first (E.faults session.new.entropy) result.reply }
{
    gate.gate.reveal_invariant();
    catch_up_staged(&mut gate.gate, slot, session, &found.held.entry);
    answer_write(&mut gate.gate, slot, session, found, handle, bytes, staged)
}

// The last validation: what was staged for the place `at` is brought, or it is told why nothing was, where the object is found there again. Else the
// stage is given up. `call` is that Write.
fn validate_last<F: StoreFile + Drop, R: RpmbPort + Drop, L: StoreName + DevicesName, E: Entropy>(
    alloc: Global,
    gate: &mut SharedGate<F, R, L>,
    slot: &mut Slot<F>,
    session: &mut Session<E>,
    call: &Call,
    handle: u32,
    bytes: Bytes,
    at: u32,
    staged: Staged,
) -> Result<Option<PlacedReply>, NoMemory>
    requires caller { IsCallerOf L.store session.old }
    requires call { call.now ≡ Call.Write handle bytes }
    requires fits { at + length bytes ≤ 1044480 }
    requires staged { HasStaged L.store slot.old (writing at bytes) staged }
    requires kept { KeepsSlot L.devices slot.old (told_staged slot.old.number staged) }
    ensures ends { EndsAttempt L.store session.old session.new (Call.Write handle bytes) result }
    ensures guarded { SlotInvariant L.store slot.new }
    ensures draws { DrawsOn E.is_reliable E.faults session.old.entropy session.new.entropy }
    ensures kept { KeepsSlot L.devices slot.new [] }
    ensures drawn { (first : ℕ) → Grows first (E.faults session.old.entropy) → CarriesStaged first (E.faults session.old.entropy) staged → IfOk result (λ found. IfSome found (λ answer. CarriesDraws first (E.faults session.new.entropy) answer.reply)) }
{
    let file = slot.number();
    let found = match validate_again(alloc, gate, session, call, handle, &bytes, at, file) {
        Ok(Validation::Found(found)) => found,
        Ok(Validation::Answered(answer)) => {
            give_up::<F, L>(slot, &staged);
            return Ok(Some(answer));
        }
        Ok(Validation::Retry) => {
            give_up::<F, L>(slot, &staged);
            return Ok(None);
        }
        Err(none) => {
            give_up::<F, L>(slot, &staged);
            return Err(none);
        }
    };
    Ok(Some(answer_staged(gate, slot, session, &found, handle, bytes, staged)))
}

// The rest of an attempt, once the slot may load its object: the slot has a stage between the steps. `call` is that Write.
fn write_slot<
    W: Wait,
    F: StoreFile + Drop,
    R: RpmbPort + Drop,
    L: StoreName + DevicesName,
    E: Entropy,
>(
    rt: &W,
    alloc: Global,
    gate: &Mutex<SharedGate<F, R, L>>,
    slot: &mut Slot<F>,
    storage_key: &SecretKey,
    session: &mut Session<E>,
    found: &OpenObject,
    call: &Call,
    handle: u32,
    bytes: Bytes,
) -> Result<Option<PlacedReply>, NoMemory>
    requires caller { IsCallerOf L.store session.old }
    requires guarded { SlotInvariant L.store slot.old }
    requires loads { MayLoad slot.old found.now.held.entry }
    requires keyed { storage_key.now ≡ ssk L.store.keys.huk L.store.keys.chip }
    requires call { call.now ≡ Call.Write handle bytes }
    requires fits { found.now.handle.position + length bytes ≤ 1044480 }
    requires kept { KeepsSlot L.devices slot.old [] }
    ensures ends { EndsAttempt L.store session.old session.new (Call.Write handle bytes) result }
    ensures guarded { SlotInvariant L.store slot.new }
    ensures draws { DrawsOn E.is_reliable E.faults session.old.entropy session.new.entropy }
    ensures kept { KeepsSlot L.devices slot.new [] }
    ensures drawn { IfOk result (λ found. IfSome found (λ answer. CarriesDraws (E.faults session.old.entropy) (E.faults session.new.entropy) answer.reply)) }
{
    let staged = stage_slot::<F, L, E>(alloc, slot, storage_key, session, found, &bytes)?;
    let at = found.handle.position;
    validate_last(
        alloc,
        &mut spin_then_lock(rt, gate),
        slot,
        session,
        call,
        handle,
        bytes,
        at,
        staged,
    )
}

/// An attempt of a Write, with the lock of the slot of its object's file: two validations at the gate, and between them the write is staged in the
/// file. None where the call has to begin again. What was staged and is not brought to the gate is given up. `call` is
/// that Write.
///
/// # Errors
///
/// Memory ran out. The session has no event more.
pub(crate) fn attempt<
    W: Wait,
    F: StoreFile + Drop,
    R: RpmbPort + Drop,
    L: StoreName + DevicesName,
    E: Entropy,
>(
    rt: &W,
    alloc: Global,
    mut first: MutexGuard<'_, SharedGate<F, R, L>>,
    gate: &Mutex<SharedGate<F, R, L>>,
    slot: &mut GuardedSlot<F, L>,
    storage_key: &SecretKey,
    session: &mut Session<E>,
    call: &Call,
    handle: u32,
    bytes: &Bytes,
) -> Result<Option<PlacedReply>, NoMemory>
    requires caller { IsCallerOf L.store session.old }
    requires call { call.now ≡ Call.Write handle bytes.now }
    requires keyed { storage_key.now ≡ ssk L.store.keys.huk L.store.keys.chip }
    requires kept { KeepsSlot L.devices slot.old [] }
    ensures ends { EndsAttempt L.store session.old session.new (Call.Write handle bytes.now) result }
    ensures draws { DrawsOn E.is_reliable E.faults session.old.entropy session.new.entropy }
    ensures kept { KeepsSlot L.devices slot.new [] }
    ensures drawn { IfOk result (λ found. IfSome found (λ answer. CarriesDraws (E.faults session.old.entropy) (E.faults session.new.entropy) answer.reply)) }
    // Where no commit can follow as the gate's lock is held first, the object's file is only read, and nothing is drawn.
    ensures spent { IsSpent first.entry.value → OnlyReads slot.old.file slot.new.file session.old session.new }
{
    let validated = validate_first(
        alloc,
        &mut first,
        slot,
        storage_key,
        session,
        call,
        handle,
        bytes,
    )?;
    drop(first);
    let found = match validated {
        Validation::Answered(answer) => return Ok(Some(answer)),
        Validation::Found(found) => found,
        Validation::Retry => return Ok(None),
    };
    // The bytes for the event.
    let kept = bytes.copy(alloc)?;
    write_slot(
        rt,
        alloc,
        gate,
        &mut slot.slot,
        storage_key,
        session,
        &found,
        call,
        handle,
        kept,
    )
}
