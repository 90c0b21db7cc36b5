//! The fifteen calls.

ghost use Rattle.std.specs.Prelude.{◌≡◌, ◌≤◌, length, true, None, OnErr};
ghost use Rattle.call_steps.specs.Rising.{devices_in};
ghost use Rattle.serial_calls.specs.Unfailed.{NoneFailed};
ghost use Rattle.rpmb_card.specs.Protocol.{last_counter};
ghost use Rattle.serial_calls.specs.ChangeChecks.{AreOnlyRead};
ghost use Rattle.core_laws.specs.Shown.{IsPartial};
ghost use Rattle.hmac_keys.specs.KeyTable.{ssk};
ghost use Rattle.call_steps.specs.CallerSessions.{IsCallerOf};
ghost use Rattle.call_steps.specs.Devices.{DrawsOn};
ghost use Rattle.call_steps.specs.GateServed.{IsMisused};
ghost use Rattle.call_steps.specs.Rulings.{is_on_object};
ghost use Rattle.call_steps.specs.SessionViews.{shown};
ghost use Rattle.serial_calls.specs.ServedAnswers.{AnswersAtOnce, ServesCall};
ghost use Rattle.serial_calls.specs.ServeReady.{IsReady};
ghost use Rattle.call_steps.specs.Slots.{AreSlots};
ghost use Rattle.serial_calls.specs.ServeReplay.{ServesObject};

use crate::data_calls::{truncate, write};
use crate::handle_calls::{create, open};
use crate::name_calls::{delete, rename};
use crate::read_calls::{info, read};
use call_steps::{GuardedGate, GuardedSlot, PlacedReply, Session, answer_alone};
use core_laws::StoreName;
use hmac_keys::SecretKey;
use rpmb_card::RpmbPort;
use std::alloc::Global;
use tee_ports::{Entropy, StoreFile};
use tee_types::{Call, NoMemory};

// Serves a call on an object, while no commit is in doubt.
pub(crate) fn serve_object<F: StoreFile + Drop, R: RpmbPort + Drop, L: StoreName, E: Entropy>(
    alloc: Global,
    gate: &mut GuardedGate<F, R, L>,
    slots: &mut Vec<GuardedSlot<F, L>>,
    storage_key: &SecretKey,
    session: &mut Session<E>,
    call: &Call,
) -> Result<PlacedReply, NoMemory>
    requires ready { IsReady R.state L.store gate.old slots.old.items session.old }
    requires few { length L.store.mounted.applications ≤ 16 }
    requires keyed { storage_key.now ≡ ssk L.store.keys.huk L.store.keys.chip }
    requires on { is_on_object call.now ≡ true }
    ensures serves { ServesObject F.state R.state E.faults L.store
        (record { gate = gate.old; slots = slots.old.items; session = session.old })
        (record { gate = gate.new; slots = slots.new.items; session = session.new }) (call.now) result }
    ensures draws { DrawsOn E.is_reliable E.faults session.old.entropy session.new.entropy }
    ensures passed { OnErr result (NoneFailed (devices_in F.state R.state E.faults (record { gate = gate.old; slots = slots.old.items; session = session.old }))
        (devices_in F.state R.state E.faults (record { gate = gate.new; slots = slots.new.items; session = session.new }))) }
    ensures spent { IsPartial call.now → gate.old.gate.counter ≡ last_counter → AreOnlyRead (record { gate = gate.old; slots = slots.old.items; session = session.old })
        (record { gate = gate.new; slots = slots.new.items; session = session.new }) }
{
    match call {
        Call::Create { .. } => create(alloc, gate, slots, storage_key, session, call),
        Call::Open { id, flags } => open(alloc, gate, slots, storage_key, session, *id, *flags),
        Call::Read { handle, size } => {
            read(alloc, gate, slots, storage_key, session, *handle, *size)
        }
        Call::Write { handle, bytes } => {
            write(
                alloc,
                gate,
                slots,
                storage_key,
                session,
                call,
                *handle,
                bytes,
            )
        }
        Call::Truncate { handle, size } => {
            truncate(alloc, gate, slots, storage_key, session, *handle, *size)
        }
        Call::Rename { handle, id } => rename(alloc, gate, slots, session, *handle, *id),
        Call::Delete { handle } => delete(alloc, gate, slots, session, *handle),
        Call::Info { handle } => info(alloc, gate, slots, storage_key, session, *handle),
        _ => unreachable!(),
    }
}

/// Serves a session's call: room is made, a commit in doubt is resolved unless the call is a misuse, and the call is answered and appended.
/// `slots` are those of the objects' files, file 1 first; `storage_key` is the key that the applications' keys come from.
///
/// # Errors
///
/// Memory ran out. Nothing was appended for the call.
pub fn serve<F: StoreFile + Drop, R: RpmbPort + Drop, L: StoreName, E: Entropy>(
    alloc: Global,
    gate: &mut GuardedGate<F, R, L>,
    slots: &mut Vec<GuardedSlot<F, L>>,
    storage_key: &SecretKey,
    session: &mut Session<E>,
    call: &Call,
) -> Result<PlacedReply, NoMemory>
    requires caller { IsCallerOf L.store session.old }
    requires slots { AreSlots slots.old.items }
    requires few { length L.store.mounted.applications ≤ 16 }
    requires keyed { storage_key.now ≡ ssk L.store.keys.huk L.store.keys.chip }
    ensures serves { ServesCall F.state R.state E.faults L.store
        (record { gate = gate.old; slots = slots.old.items; session = session.old })
        (record { gate = gate.new; slots = slots.new.items; session = session.new }) call.now result }
    ensures draws { DrawsOn E.is_reliable E.faults session.old.entropy session.new.entropy }
    // Where memory ran out, no device counted a fault.
    ensures passed { OnErr result (NoneFailed (devices_in F.state R.state E.faults (record { gate = gate.old; slots = slots.old.items; session = session.old }))
        (devices_in F.state R.state E.faults (record { gate = gate.new; slots = slots.new.items; session = session.new }))) }
    // Where no commit can follow a change of data, the object's file is only read. Nothing is drawn, and neither directory nor card is asked.
    ensures spent { IsPartial call.now → gate.old.gate.doubt ≡ None → gate.old.gate.counter ≡ last_counter → AreOnlyRead (record { gate = gate.old; slots = slots.old.items; session = session.old })
        (record { gate = gate.new; slots = slots.new.items; session = session.new }) }
    // A misuse waits for no commit in doubt, as the session is once it was shown the history.
    ensures at_once { IsMisused gate.old (shown gate.old.journal.knows session.old).state call.now → AnswersAtOnce
        (record { gate = gate.old; slots = slots.old.items; session = session.old })
        (record { gate = gate.new; slots = slots.new.items; session = session.new }) call.now result }
{
    gate.reveal_invariant();
    gate.reserve(&*session)?;
    if let Some(answer) = answer_alone(alloc, gate, session, call)? {
        return Ok(answer);
    }
    // A landing may have taken of that room.
    gate.reserve(&*session)?;
    gate.reveal_invariant();
    serve_object(alloc, gate, slots, storage_key, session, call)
}
