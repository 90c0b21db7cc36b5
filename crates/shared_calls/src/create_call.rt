//! TEE_CreatePersistentObject, with the gate's lock taken for each validation alone.

ghost use Rattle.std.specs.Prelude.{◌≡◌, ◌≤◌, ℕ, length, true, IfOk, IfSome, IsNone, IsSome, OnErr, MatchResult, []};
ghost use Rattle.hmac_keys.specs.KeyTable.{ssk};
ghost use Rattle.serial_calls.specs.GuardedSlots.{SlotInvariant};
ghost use Rattle.serial_calls.specs.CallerSessions.{IsCallerOf};
ghost use Rattle.serial_calls.specs.Clearing.{IsClearSlot};
ghost use Rattle.serial_calls.specs.CreateEnds.{MayTellIfUnmade};
ghost use Rattle.serial_calls.specs.FileReserving.{IsReserved};
ghost use Rattle.serial_calls.specs.Rules.{IsCreate, MayCreate, new_object};
ghost use Rattle.serial_calls.specs.Devices.{DrawsOn, Grows};
ghost use Rattle.shared_calls.specs.SharedCreate.{AccusesAtMost, HasMade, CarriesMade, told_made};
ghost use Rattle.shared_calls.specs.Validations.{EndsLook, IfAnswered, IfFound};
ghost use Rattle.shared_calls.specs.SharedReady.{IsReady};
ghost use Rattle.shared_calls.specs.Attempts.{EndsAttempt, IsAnswered};
ghost use Rattle.serial_calls.specs.SessionEvents.{IsWaiting};
ghost use Rattle.shared_calls.specs.Kept.{KeepsSlot};
ghost use Rattle.shared_calls.specs.SharedCounts.{CarriesDraws};

use crate::gate_entry::begin;
use crate::gate_lock::spin_then_lock;
use crate::validation::Validation;
use crate::{DevicesName, SharedGate};
use call_rules::{Decision, NewPlace};
use hmac_keys::{SecretKey, tsk, wipe};
use node_image::RootRef;
use rpmb_card::RpmbPort;
use serial_calls::{
    CreateFailure, GuardedSlot, NewObject, PlacedReply, Session, Slot, StoreName, answer_ruled,
    clear, finish, give_back, give_up, make_unless_spent, reserve,
};
use std::alloc::Global;
use std::sync::{Mutex, MutexGuard, Wait};
use tee_ports::{Entropy, StoreFile};
use tee_types::{Bytes, Call, NoMemory};

// What the rules make of a Create at the gate: its answer, or the place of the entry of its object. `call` is that Create.
fn rule<F: StoreFile + Drop, R: RpmbPort + Drop, L: StoreName + DevicesName, E: Entropy>(
    alloc: Global,
    gate: &mut SharedGate<F, R, L>,
    session: &mut Session<E>,
    call: &Call,
) -> Result<Validation<NewPlace>, NoMemory>
    requires caller { IsCallerOf L.store session.old }
    requires create { IsCreate call.now }
    ensures ends { EndsLook L.store session.old session.new call.now result }
    ensures ready { IfFound result (λ place. IsReady L.store gate.new session.new) }
    ensures may { IfFound result (MayCreate gate.new.gate.dir.dir.entries gate.new.gate.open_handles session.new.state
        (new_object call.now)) }
    ensures draws { DrawsOn E.is_reliable E.faults session.old.entropy session.new.entropy }
    ensures undrawn { IfFound result (λ place. E.faults session.new.entropy ≡ E.faults session.old.entropy) }
    ensures drawn { IfAnswered result (λ answer. CarriesDraws (E.faults session.old.entropy) (E.faults session.new.entropy) answer.reply) }
{
    if let Some(answer) = begin(alloc, gate, session, call)? {
        return Ok(Validation::Answered(answer));
    }
    let object = NewObject::of_call(call);
    let decision = call_rules::create(
        &gate.gate,
        session.state(),
        object.id,
        object.flags,
        object.attributes,
        object.bytes,
    );
    match decision {
        Decision::Answered(reply) => {
            let kept = call.copy(alloc)?;
            Ok(Validation::Answered(answer_ruled(&mut gate.gate, session, kept, reply)))
        }
        Decision::Needs(place) => Ok(Validation::Found(place)),
    }
}

// What a Create finds at the gate: its answer, or the place of the entry of its object. Then the gate is ready for it. The session holds no
// file any more, unless a commit is in doubt. `call` is that Create.
fn validate<F: StoreFile + Drop, R: RpmbPort + Drop, L: StoreName + DevicesName, E: Entropy>(
    alloc: Global,
    gate: &mut SharedGate<F, R, L>,
    session: &mut Session<E>,
    call: &Call,
) -> Result<Validation<NewPlace>, NoMemory>
    requires caller { IsCallerOf L.store session.old }
    requires few { length L.store.mounted.applications ≤ 16 }
    requires create { IsCreate call.now }
    ensures ends { EndsLook L.store session.old session.new call.now result }
    ensures ready { IfFound result (λ place. IsReady L.store gate.new session.new) }
    ensures may { IfFound result (MayCreate gate.new.gate.dir.dir.entries gate.new.gate.open_handles session.new.state
        (new_object call.now)) }
    ensures draws { DrawsOn E.is_reliable E.faults session.old.entropy session.new.entropy }
    ensures undrawn { IfFound result (λ place. E.faults session.new.entropy ≡ E.faults session.old.entropy) }
    ensures drawn { IfAnswered result (λ answer. CarriesDraws (E.faults session.old.entropy) (E.faults session.new.entropy) answer.reply) }
{
    let number = session.number();
    let validated = rule(alloc, gate, session, call);
    give_back(&mut gate.gate, number);
    validated
}

/// What a Create finds at the gate first: its answer, or the number of the file in which it makes its object. The session holds that file
/// then. `call` is that Create.
///
/// # Errors
///
/// Memory ran out. The session has no event more.
pub(crate) fn validate_for_file<
    F: StoreFile + Drop,
    R: RpmbPort + Drop,
    L: StoreName + DevicesName,
    E: Entropy,
>(
    alloc: Global,
    gate: &mut SharedGate<F, R, L>,
    session: &mut Session<E>,
    call: &Call,
) -> Result<Validation<u16>, NoMemory>
    requires caller { IsCallerOf L.store session.old }
    requires few { length L.store.mounted.applications ≤ 16 }
    requires create { IsCreate call.now }
    ensures ends { EndsLook L.store session.old session.new call.now result }
    ensures reserved { IfFound result (IsReserved gate.new.gate session.new.number) }
    ensures draws { DrawsOn E.is_reliable E.faults session.old.entropy session.new.entropy }
    ensures drawn { IfAnswered result (λ answer. CarriesDraws (E.faults session.old.entropy) (E.faults session.new.entropy) answer.reply) }
{
    match validate(alloc, gate, session, call)? {
        Validation::Answered(answer) => Ok(Validation::Answered(answer)),
        Validation::Found(_place) => Ok(Validation::Found(reserve(&mut gate.gate, session))),
        Validation::Retry => Ok(Validation::Retry),
    }
}

// Clears the slot, where it is that of the least free file, which the session holds then; and gives the card's counter. None where the slot
// is another file's, which stays as it is.
fn clear_slot<F: StoreFile + Drop, R: RpmbPort + Drop, L: StoreName + DevicesName, E: Entropy>(
    gate: &mut SharedGate<F, R, L>,
    slot: &mut Slot<F>,
    session: &mut Session<E>,
) -> Option<u32>
    requires ready { IsReady L.store gate.old session.old }
    requires few { length L.store.mounted.applications ≤ 16 }
    requires guarded { SlotInvariant L.store slot.old }
    requires kept { KeepsSlot L.devices slot.old [] }
    ensures session { session.new ≡ session.old }
    ensures clear { IsSome result → IsClearSlot L.store slot.new }
    ensures guarded { SlotInvariant L.store slot.new }
    ensures kept { KeepsSlot L.devices slot.new [] }
{
    if reserve(&mut gate.gate, session) != slot.number() {
        give_back(&mut gate.gate, session.number());
        return None;
    }
    clear(&mut gate.gate, slot, session);
    Some(gate.gate.counter())
}

// The first validation: the slot is cleared, so that the object may be made in it. Gives the card's counter.
fn validate_first<F: StoreFile + Drop, R: RpmbPort + Drop, L: StoreName + DevicesName, E: Entropy>(
    alloc: Global,
    gate: &mut SharedGate<F, R, L>,
    slot: &mut Slot<F>,
    session: &mut Session<E>,
    call: &Call,
) -> Result<Validation<u32>, NoMemory>
    requires caller { IsCallerOf L.store session.old }
    requires few { length L.store.mounted.applications ≤ 16 }
    requires guarded { SlotInvariant L.store slot.old }
    requires create { IsCreate call.now }
    requires kept { KeepsSlot L.devices slot.old [] }
    ensures ends { EndsLook L.store session.old session.new call.now result }
    ensures clear { IfFound result (λ counter. IsClearSlot L.store slot.new) }
    ensures fits { IfFound result (λ counter. (length (new_object call.now).attributes ≤ 2048) × (length (new_object call.now).bytes ≤ 1044480)) }
    ensures guarded { SlotInvariant L.store slot.new }
    ensures draws { DrawsOn E.is_reliable E.faults session.old.entropy session.new.entropy }
    ensures kept { KeepsSlot L.devices slot.new [] }
    ensures drawn { IfAnswered result (λ answer. CarriesDraws (E.faults session.old.entropy) (E.faults session.new.entropy) answer.reply) }
{
    match validate(alloc, gate, session, call)? {
        Validation::Answered(answer) => return Ok(Validation::Answered(answer)),
        Validation::Found(_place) => {}
        Validation::Retry => return Ok(Validation::Retry),
    }
    match clear_slot(gate, slot, session) {
        Some(counter) => Ok(Validation::Found(counter)),
        None => Ok(Validation::Retry),
    }
}

// Makes the object in the slot, unless the card's counter, which stands there, is at its end. The gate's lock is not taken.
fn make_slot<F: StoreFile + Drop, L: StoreName + DevicesName, E: Entropy>(
    alloc: Global,
    counter: u32,
    slot: &mut Slot<F>,
    storage_key: &SecretKey,
    session: &mut Session<E>,
    attributes: &Bytes,
    bytes: &Bytes,
) -> Result<Result<RootRef, CreateFailure>, NoMemory>
    requires caller { IsCallerOf L.store session.old }
    requires clear { IsClearSlot L.store slot.old }
    requires keyed { storage_key.now ≡ ssk L.store.keys.huk L.store.keys.chip }
    requires fits { (length attributes.now ≤ 2048) × (length bytes.now ≤ 1044480) }
    requires kept { KeepsSlot L.devices slot.old [] }
    ensures waits { IsWaiting L.store session.old session.new }
    ensures made { IfOk result (HasMade L.store slot.new session.new.state.application attributes.now bytes.now) }
    ensures guarded { OnErr result (SlotInvariant L.store slot.new) }
    ensures draws { DrawsOn E.is_reliable E.faults session.old.entropy session.new.entropy }
    ensures kept { MatchResult result (λ made. KeepsSlot L.devices slot.new (told_made slot.new.number made)) (λ none. KeepsSlot L.devices slot.new []) }
    ensures drawn { IfOk result (CarriesMade (E.faults session.old.entropy) (E.faults session.new.entropy)) }
{
    let mut key = tsk(storage_key, &session.app().bytes());
    let made = make_unless_spent::<F, L, E>(alloc, counter, slot, session, &key, attributes, bytes);
    wipe(&mut key);
    made
}

// Whether what making the object gave may be told at that counter. That the counter is at its end is told only while it is.
fn may_tell(counter: u32, made: &Result<RootRef, CreateFailure>) -> bool
    ensures { result ≡ true → (file : ℕ) → AccusesAtMost file made.now → MayTellIfUnmade counter file made.now }
{
    match made {
        Err(CreateFailure::Spent) => counter == u32::MAX,
        _ => true,
    }
}

// Brings the object that was made to the gate, or tells why there is none, where the slot is that of the least free file still. Else the
// object goes, and the call has to begin again. Behind it the session holds no file, unless the commit is in doubt.
fn finish_slot<F: StoreFile + Drop, R: RpmbPort + Drop, L: StoreName + DevicesName, E: Entropy>(
    gate: &mut SharedGate<F, R, L>,
    slot: &mut Slot<F>,
    session: &mut Session<E>,
    place: &NewPlace,
    call: Call,
    made: Result<RootRef, CreateFailure>,
) -> Option<PlacedReply>
    requires ready { IsReady L.store gate.old session.old }
    requires few { length L.store.mounted.applications ≤ 16 }
    requires may { MayCreate gate.old.gate.dir.dir.entries gate.old.gate.open_handles session.old.state
        (new_object call) place.now }
    requires create { IsCreate call }
    requires made { HasMade L.store slot.old session.old.state.application (new_object call).attributes (new_object call).bytes made }
    requires kept { KeepsSlot L.devices slot.old (told_made slot.old.number made) }
    ensures answered { IfSome result (IsAnswered L.store session.old session.new call) }
    ensures waits { IsNone result → session.new ≡ session.old }
    ensures guarded { SlotInvariant L.store slot.new }
    ensures draws { DrawsOn E.is_reliable E.faults session.old.entropy session.new.entropy }
    ensures kept { KeepsSlot L.devices slot.new [] }
    ensures drawn { (first : ℕ) → Grows first (E.faults session.old.entropy) → CarriesMade first (E.faults session.old.entropy) made → IfSome result (λ answer. CarriesDraws first (E.faults session.new.entropy) answer.reply) }
{
    let number = session.number();
    let file = reserve(&mut gate.gate, session);
    if file != slot.number() || !may_tell(gate.gate.counter(), &made) {
        give_back(&mut gate.gate, number);
        give_up::<F, L>(slot);
        return None;
    }
    gate.gate.reveal_invariant();
    let answer = finish(&mut gate.gate, slot, session, place, call, made);
    give_back(&mut gate.gate, number);
    Some(answer)
}

// The last validation: where the rules let the create pass still, it ends with what making the object gave; else the object goes.
fn validate_last<F: StoreFile + Drop, R: RpmbPort + Drop, L: StoreName + DevicesName, E: Entropy>(
    alloc: Global,
    gate: &mut SharedGate<F, R, L>,
    slot: &mut Slot<F>,
    session: &mut Session<E>,
    call: Call,
    made: Result<RootRef, CreateFailure>,
) -> Result<Option<PlacedReply>, NoMemory>
    requires caller { IsCallerOf L.store session.old }
    requires few { length L.store.mounted.applications ≤ 16 }
    requires create { IsCreate call }
    requires made { HasMade L.store slot.old session.old.state.application (new_object call).attributes (new_object call).bytes made }
    requires kept { KeepsSlot L.devices slot.old (told_made slot.old.number made) }
    ensures ends { EndsAttempt L.store session.old session.new call result }
    ensures guarded { SlotInvariant L.store slot.new }
    ensures draws { DrawsOn E.is_reliable E.faults session.old.entropy session.new.entropy }
    ensures kept { KeepsSlot L.devices slot.new [] }
    ensures drawn { (first : ℕ) → Grows first (E.faults session.old.entropy) → CarriesMade first (E.faults session.old.entropy) made → IfOk result (λ found. IfSome found (λ answer. CarriesDraws first (E.faults session.new.entropy) answer.reply)) }
{
    let place = match validate(alloc, gate, session, &call) {
        Ok(Validation::Found(place)) => place,
        Ok(Validation::Answered(answer)) => {
            give_up::<F, L>(slot);
            return Ok(Some(answer));
        }
        Ok(Validation::Retry) => {
            give_up::<F, L>(slot);
            return Ok(None);
        }
        Err(none) => {
            give_up::<F, L>(slot);
            return Err(none);
        }
    };
    Ok(finish_slot(gate, slot, session, &place, call, made))
}

// An attempt with the slot itself, which has a stage between the validations.
fn attempt_with_slot<
    W: Wait,
    F: StoreFile + Drop,
    R: RpmbPort + Drop,
    L: StoreName + DevicesName,
    E: Entropy,
>(
    rt: &W,
    alloc: Global,
    mut first: MutexGuard<'_, SharedGate<F, R, L>>,
    gate: &Mutex<SharedGate<F, R, L>>,
    slot: &mut Slot<F>,
    storage_key: &SecretKey,
    session: &mut Session<E>,
    call: &Call,
) -> Result<Option<PlacedReply>, NoMemory>
    requires caller { IsCallerOf L.store session.old }
    requires few { length L.store.mounted.applications ≤ 16 }
    requires create { IsCreate call.now }
    requires keyed { storage_key.now ≡ ssk L.store.keys.huk L.store.keys.chip }
    requires guarded { SlotInvariant L.store slot.old }
    requires kept { KeepsSlot L.devices slot.old [] }
    ensures ends { EndsAttempt L.store session.old session.new call.now result }
    ensures guarded { SlotInvariant L.store slot.new }
    ensures draws { DrawsOn E.is_reliable E.faults session.old.entropy session.new.entropy }
    ensures kept { KeepsSlot L.devices slot.new [] }
    ensures drawn { IfOk result (λ found. IfSome found (λ answer. CarriesDraws (E.faults session.old.entropy) (E.faults session.new.entropy) answer.reply)) }
{
    let validated = validate_first(alloc, &mut first, slot, session, call)?;
    drop(first);
    let counter = match validated {
        Validation::Answered(answer) => return Ok(Some(answer)),
        Validation::Found(counter) => counter,
        Validation::Retry => return Ok(None),
    };
    // The call for the event.
    let kept = call.copy(alloc)?;
    let object = NewObject::of_call(call);
    let made = make_slot::<F, L, E>(
        alloc,
        counter,
        slot,
        storage_key,
        session,
        object.attributes,
        object.bytes,
    )?;
    validate_last(
        alloc,
        &mut spin_then_lock(rt, gate),
        slot,
        session,
        kept,
        made,
    )
}

/// An attempt of a Create, with the lock of the slot of the file that `validate_for_file` gave: two validations at the gate, and between them the object
/// is made. None where the call has to begin again. What was made and is not brought to the gate is let go.
/// `call` is that Create.
///
/// # Errors
///
/// Memory ran out. The session has no event more.
pub(crate) fn attempt<
    W: Wait,
    F: StoreFile + Drop,
    R: RpmbPort + Drop,
    L: StoreName + DevicesName,
    E: Entropy,
>(
    rt: &W,
    alloc: Global,
    first: MutexGuard<'_, SharedGate<F, R, L>>,
    gate: &Mutex<SharedGate<F, R, L>>,
    slot: &mut GuardedSlot<F, L>,
    storage_key: &SecretKey,
    session: &mut Session<E>,
    call: &Call,
) -> Result<Option<PlacedReply>, NoMemory>
    requires caller { IsCallerOf L.store session.old }
    requires few { length L.store.mounted.applications ≤ 16 }
    requires create { IsCreate call.now }
    requires keyed { storage_key.now ≡ ssk L.store.keys.huk L.store.keys.chip }
    requires kept { KeepsSlot L.devices slot.old [] }
    ensures ends { EndsAttempt L.store session.old session.new call.now result }
    ensures draws { DrawsOn E.is_reliable E.faults session.old.entropy session.new.entropy }
    ensures kept { KeepsSlot L.devices slot.new [] }
    ensures drawn { IfOk result (λ found. IfSome found (λ answer. CarriesDraws (E.faults session.old.entropy) (E.faults session.new.entropy) answer.reply)) }
{
    attempt_with_slot(
        rt,
        alloc,
        first,
        gate,
        &mut slot.slot,
        storage_key,
        session,
        call,
    )
}
