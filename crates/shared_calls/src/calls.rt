//! The fifteen calls: what each needs of the gate first, and then with the slot of a file.

ghost use Rattle.std.specs.Prelude.{◌≡◌, ◌≤◌, false, length, IfSome, IfOk, []};
ghost use Rattle.serial_calls.specs.CallerSessions.{IsCallerOf};
ghost use Rattle.serial_calls.specs.Devices.{DrawsOn};
ghost use Rattle.serial_calls.specs.Rulings.{is_on_object};
ghost use Rattle.shared_calls.specs.Validations.{EndsLook, IfAnswered};
ghost use Rattle.hmac_keys.specs.KeyTable.{ssk};
ghost use Rattle.shared_calls.specs.Attempts.{EndsAttempt};
ghost use Rattle.shared_calls.specs.Kept.{KeepsSlot};
ghost use Rattle.shared_calls.specs.SharedCounts.{CarriesDraws};
ghost use Rattle.shared_calls.specs.SharedChange.{OnlyReads};
ghost use Rattle.shared_calls.specs.SharedReady.{IsSpent};
ghost use Rattle.serial_calls.specs.Shown.{IsPartial};

use crate::gate_entry::begin;
use crate::validation::Validation;
use crate::{
    DevicesName, SharedGate, create_call, delete_call, info_call, open_call, read_call,
    rename_call, truncate_call, write_call,
};
use hmac_keys::SecretKey;
use rpmb_card::RpmbPort;
use serial_calls::{GuardedSlot, PlacedReply, Session, StoreName};
use std::alloc::Global;
use std::sync::{Mutex, MutexGuard, Wait};
use tee_ports::{Entropy, StoreFile};
use tee_types::{Call, NoMemory};

// The answer to a call that is on no object: the gate gives it alone.
fn validate_alone<F: StoreFile + Drop, R: RpmbPort + Drop, L: StoreName + DevicesName, E: Entropy>(
    alloc: Global,
    gate: &mut SharedGate<F, R, L>,
    session: &mut Session<E>,
    call: &Call,
) -> Result<Validation<u16>, NoMemory>
    requires caller { IsCallerOf L.store session.old }
    requires alone { is_on_object call.now ≡ false }
    ensures ends { EndsLook L.store session.old session.new call.now result }
    ensures draws { DrawsOn E.is_reliable E.faults session.old.entropy session.new.entropy }
    ensures drawn { IfAnswered result (λ answer. CarriesDraws (E.faults session.old.entropy) (E.faults session.new.entropy) answer.reply) }
{
    let Some(answer) = begin(alloc, gate, session, call)? else {
        unreachable!()
    };
    Ok(Validation::Answered(answer))
}

/// What a call finds at the gate: its answer, or the number of the file whose slot it needs.
///
/// # Errors
///
/// Memory ran out. The session has no event more.
pub fn file_of<F: StoreFile + Drop, R: RpmbPort + Drop, L: StoreName + DevicesName, E: Entropy>(
    alloc: Global,
    gate: &mut SharedGate<F, R, L>,
    session: &mut Session<E>,
    call: &Call,
) -> Result<Validation<u16>, NoMemory>
    requires caller { IsCallerOf L.store session.old }
    requires few { length L.store.mounted.applications ≤ 16 }
    ensures ends { EndsLook L.store session.old session.new call.now result }
    ensures draws { DrawsOn E.is_reliable E.faults session.old.entropy session.new.entropy }
    ensures drawn { IfAnswered result (λ answer. CarriesDraws (E.faults session.old.entropy) (E.faults session.new.entropy) answer.reply) }
{
    match call {
        Call::Create { .. } => create_call::validate_for_file(alloc, gate, session, call),
        Call::Open { id, flags } => open_call::file_of(alloc, gate, session, *id, *flags),
        Call::Read { handle, size } => read_call::file_of(alloc, gate, session, *handle, *size),
        Call::Write { handle, bytes } => {
            write_call::file_of(alloc, gate, session, call, *handle, bytes)
        }
        Call::Truncate { handle, size } => {
            truncate_call::file_of(alloc, gate, session, *handle, *size)
        }
        Call::Rename { handle, id } => rename_call::file_of(alloc, gate, session, *handle, *id),
        Call::Delete { handle } => delete_call::file_of(alloc, gate, session, *handle),
        Call::Info { handle } => info_call::file_of(alloc, gate, session, *handle),
        _ => validate_alone(alloc, gate, session, call),
    }
}

/// An attempt of a Read or an Info in one look at the gate, with the lock of the slot in which the session found its object before. None where it
/// has to go the long way, as each other call has.
///
/// # Errors
///
/// Memory ran out. The session has no event more.
pub fn attempt_at_once<
    W: Wait,
    F: StoreFile + Drop,
    R: RpmbPort + Drop,
    L: StoreName + DevicesName,
    E: Entropy,
>(
    rt: &W,
    alloc: Global,
    gate: &Mutex<SharedGate<F, R, L>>,
    slot: &mut GuardedSlot<F, L>,
    session: &mut Session<E>,
    call: &Call,
) -> Result<Option<PlacedReply>, NoMemory>
    requires caller { IsCallerOf L.store session.old }
    requires kept { KeepsSlot L.devices slot.old [] }
    ensures ends { EndsAttempt L.store session.old session.new call.now result }
    ensures draws { DrawsOn E.is_reliable E.faults session.old.entropy session.new.entropy }
    ensures kept { KeepsSlot L.devices slot.new [] }
    ensures drawn { IfOk result (λ found. IfSome found (λ answer. CarriesDraws (E.faults session.old.entropy) (E.faults session.new.entropy) answer.reply)) }
{
    match call {
        Call::Read { handle, size } => {
            read_call::attempt_at_once(rt, alloc, gate, slot, session, *handle, *size)
        }
        Call::Info { handle } => {
            info_call::attempt_at_once(rt, alloc, gate, slot, session, *handle)
        }
        _ => Ok(None),
    }
}

/// An attempt of a call, with the lock of the slot of the file that it needs: each validation at the gate takes the gate's lock, and the first has it
/// already, `first`, which is given back before the slot's file is at work. None where the call has to begin again, as one that is on no
/// object has.
///
/// # Errors
///
/// Memory ran out. The session has no event more.
pub fn attempt<
    W: Wait,
    F: StoreFile + Drop,
    R: RpmbPort + Drop,
    L: StoreName + DevicesName,
    E: Entropy,
>(
    rt: &W,
    alloc: Global,
    mut first: MutexGuard<'_, SharedGate<F, R, L>>,
    gate: &Mutex<SharedGate<F, R, L>>,
    slot: &mut GuardedSlot<F, L>,
    key: &SecretKey,
    session: &mut Session<E>,
    call: &Call,
) -> Result<Option<PlacedReply>, NoMemory>
    requires caller { IsCallerOf L.store session.old }
    requires few { length L.store.mounted.applications ≤ 16 }
    requires kept { KeepsSlot L.devices slot.old [] }
    requires keyed { key.now ≡ ssk L.store.keys.huk L.store.keys.chip }
    ensures ends { EndsAttempt L.store session.old session.new call.now result }
    ensures draws { DrawsOn E.is_reliable E.faults session.old.entropy session.new.entropy }
    ensures kept { KeepsSlot L.devices slot.new [] }
    ensures drawn { IfOk result (λ found. IfSome found (λ answer. CarriesDraws (E.faults session.old.entropy) (E.faults session.new.entropy) answer.reply)) }
    // Where no commit can follow as the gate's lock is held first, a change of data leaves the object's file as it was but for reads, and draws nothing.
    ensures spent { IsPartial call.now → IsSpent first.entry.value → OnlyReads slot.old.file slot.new.file session.old session.new }
{
    match call {
        Call::Create { .. } => {
            create_call::attempt(rt, alloc, first, gate, slot, key, session, call)
        }
        Call::Open { id, flags } => {
            open_call::attempt(rt, alloc, first, gate, slot, key, session, *id, *flags)
        }
        Call::Read { handle, size } => {
            read_call::attempt(rt, alloc, first, gate, slot, key, session, *handle, *size)
        }
        Call::Write { handle, bytes } => {
            write_call::attempt(
                rt, alloc, first, gate, slot, key, session, call, *handle, bytes,
            )
        }
        Call::Truncate { handle, size } => {
            truncate_call::attempt(rt, alloc, first, gate, slot, key, session, *handle, *size)
        }
        Call::Rename { handle, id } => {
            rename_call::rename_held(alloc, &mut first, slot, session, *handle, *id)
        }
        Call::Delete { handle } => delete_call::delete_held(
            alloc, &mut first, slot, session, *handle,
        ),
        Call::Info { handle } => {
            info_call::attempt(rt, alloc, first, gate, slot, key, session, *handle)
        }
        _ => Ok(None),
    }
}
