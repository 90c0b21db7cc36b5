//! TEE_CloseAndDeletePersistentObject1, at one validation at the gate.

ghost use Rattle.std.specs.Prelude.{IfSome, IfOk, []};
ghost use Rattle.serial_calls.specs.CallerSessions.{IsCallerOf};
ghost use Rattle.serial_calls.specs.Devices.{DrawsOn};
ghost use Rattle.shared_calls.specs.Validations.{EndsLook, IfAnswered, IfFound};
ghost use Rattle.shared_calls.specs.SharedNames.{MayDelete};
ghost use Rattle.shared_calls.specs.SharedReady.{IsReady};
ghost use Rattle.shared_calls.specs.Attempts.{EndsAttempt};
ghost use Rattle.shared_calls.specs.Kept.{KeepsSlot};
ghost use Rattle.shared_calls.specs.SharedCounts.{CarriesDraws};

use crate::gate_entry::begin;
use crate::validation::Validation;
use crate::{DevicesName, SharedGate};
use call_rules::{Decision, OpenObject};
use rpmb_card::RpmbPort;
use serial_calls::{GuardedSlot, PlacedReply, Session, StoreName, answer_ruled};
use std::alloc::Global;
use tee_ports::{Entropy, StoreFile};
use tee_types::{Call, NoMemory};

// What a Delete finds at the gate: its answer, or the object that it deletes. Then the gate is ready for it.
fn validate<F: StoreFile + Drop, R: RpmbPort + Drop, L: StoreName + DevicesName, E: Entropy>(
    alloc: Global,
    gate: &mut SharedGate<F, R, L>,
    session: &mut Session<E>,
    handle: u32,
) -> Result<Validation<OpenObject>, NoMemory>
    requires caller { IsCallerOf L.store session.old }
    ensures ends { EndsLook L.store session.old session.new (Call.Delete handle) result }
    ensures ready { IfFound result (λ found. IsReady L.store gate.new session.new) }
    ensures deletes { IfFound result (MayDelete gate.new.gate session.new handle) }
    ensures draws { DrawsOn E.is_reliable E.faults session.old.entropy session.new.entropy }
    ensures drawn { IfAnswered result (λ answer. CarriesDraws (E.faults session.old.entropy) (E.faults session.new.entropy) answer.reply) }
{
    let call = Call::Delete { handle };
    if let Some(answer) = begin(alloc, gate, session, &call)? {
        return Ok(Validation::Answered(answer));
    }
    match call_rules::delete(&gate.gate, session.state(), handle) {
        Decision::Answered(reply) => Ok(Validation::Answered(answer_ruled(
            &mut gate.gate,
            session,
            call,
            reply,
        ))),
        Decision::Needs(found) => Ok(Validation::Found(found)),
    }
}

/// The number of the file of a Delete's object, as a validation at the gate finds it; or the call's answer.
///
/// # Errors
///
/// Memory ran out. The session has no event more.
pub(crate) fn file_of<
    F: StoreFile + Drop,
    R: RpmbPort + Drop,
    L: StoreName + DevicesName,
    E: Entropy,
>(
    alloc: Global,
    gate: &mut SharedGate<F, R, L>,
    session: &mut Session<E>,
    handle: u32,
) -> Result<Validation<u16>, NoMemory>
    requires caller { IsCallerOf L.store session.old }
    ensures ends { EndsLook L.store session.old session.new (Call.Delete handle) result }
    ensures draws { DrawsOn E.is_reliable E.faults session.old.entropy session.new.entropy }
    ensures drawn { IfAnswered result (λ answer. CarriesDraws (E.faults session.old.entropy) (E.faults session.new.entropy) answer.reply) }
{
    match validate(alloc, gate, session, handle)? {
        Validation::Answered(answer) => Ok(Validation::Answered(answer)),
        Validation::Found(found) => Ok(Validation::Found(found.held.entry.file)),
        Validation::Retry => Ok(Validation::Retry),
    }
}

/// The one validation of a Delete, with the lock of a slot: the object is deleted, where the slot is its file's. None where the call has to begin
/// again.
///
/// # Errors
///
/// Memory ran out. The session has no event more.
pub(crate) fn delete_held<
    F: StoreFile + Drop,
    R: RpmbPort + Drop,
    L: StoreName + DevicesName,
    E: Entropy,
>(
    alloc: Global,
    gate: &mut SharedGate<F, R, L>,
    slot: &mut GuardedSlot<F, L>,
    session: &mut Session<E>,
    handle: u32,
) -> Result<Option<PlacedReply>, NoMemory>
    requires caller { IsCallerOf L.store session.old }
    requires kept { KeepsSlot L.devices slot.old [] }
    ensures ends { EndsAttempt L.store session.old session.new (Call.Delete handle) result }
    ensures draws { DrawsOn E.is_reliable E.faults session.old.entropy session.new.entropy }
    ensures kept { KeepsSlot L.devices slot.new [] }
    ensures drawn { IfOk result (λ found. IfSome found (λ answer. CarriesDraws (E.faults session.old.entropy) (E.faults session.new.entropy) answer.reply)) }
{
    let found = match validate(alloc, gate, session, handle)? {
        Validation::Answered(answer) => return Ok(Some(answer)),
        Validation::Found(found) => found,
        Validation::Retry => return Ok(None),
    };
    if found.held.entry.file != slot.number() {
        return Ok(None);
    }
    gate.gate.reveal_invariant();
    Ok(Some(serial_calls::delete(&mut gate.gate, slot, session, &found, handle)))
}
