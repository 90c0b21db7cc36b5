//! Calls that give a handle.

ghost use Rattle.std.specs.Prelude.{◌≡◌, ◌≤◌, length, OnErr};
ghost use Rattle.call_steps.specs.Devices.{DrawsOn};
ghost use Rattle.call_steps.specs.Rising.{devices_in};
ghost use Rattle.serial_calls.specs.Unfailed.{NoneFailed};
ghost use Rattle.hmac_keys.specs.KeyTable.{ssk};
ghost use Rattle.serial_calls.specs.ServeReady.{IsReady};
ghost use Rattle.serial_calls.specs.Rules.{IsCreate};
ghost use Rattle.serial_calls.specs.ServeReplay.{ServesObject};

use crate::file_slots::place_of;
use crate::new_object::NewObject;
use crate::ruled_calls::answer;
use call_rules::Decision;
use call_steps::{GuardedGate, GuardedSlot, PlacedReply, Session};
use core_laws::StoreName;
use hmac_keys::{SecretKey, tsk, wipe};
use rpmb_card::RpmbPort;
use std::alloc::Global;
use tee_ports::{Entropy, StoreFile};
use tee_types::{Call, Flags, NoMemory, ObjectId};

/// TEE_OpenPersistentObject: the object of that identifier, with those flags.
pub(crate) fn open<F: StoreFile + Drop, R: RpmbPort + Drop, L: StoreName, E: Entropy>(
    alloc: Global,
    gate: &mut GuardedGate<F, R, L>,
    slots: &mut Vec<GuardedSlot<F, L>>,
    storage_key: &SecretKey,
    session: &mut Session<E>,
    id: ObjectId,
    flags: Flags,
) -> Result<PlacedReply, NoMemory>
    requires ready { IsReady R.state L.store gate.old slots.old.items session.old }
    requires keyed { storage_key.now ≡ ssk L.store.keys.huk L.store.keys.chip }
    ensures serves { ServesObject F.state R.state E.faults L.store
        (record { gate = gate.old; slots = slots.old.items; session = session.old })
        (record { gate = gate.new; slots = slots.new.items; session = session.new }) (Call.Open id flags) result }
    ensures draws { DrawsOn E.is_reliable E.faults session.old.entropy session.new.entropy }
    ensures passed { OnErr result (NoneFailed (devices_in F.state R.state E.faults (record { gate = gate.old; slots = slots.old.items; session = session.old }))
        (devices_in F.state R.state E.faults (record { gate = gate.new; slots = slots.new.items; session = session.new }))) }
{
    let held = match call_rules::open(&*gate, session.state(), id, flags) {
        Decision::Answered(reply) => return answer(
            alloc,
            gate,
            slots,
            session,
            &Call::Open { id, flags },
            reply,
        ),
        Decision::Needs(held) => held,
    };
    let place = place_of(&*gate, slots, &held);
    let slot = &mut slots[place];
    call_steps::open(alloc, gate, slot, session, &held, storage_key, id, flags)
}

/// TEE_CreatePersistentObject: `call` is a create.
pub(crate) fn create<F: StoreFile + Drop, R: RpmbPort + Drop, L: StoreName, E: Entropy>(
    alloc: Global,
    gate: &mut GuardedGate<F, R, L>,
    slots: &mut Vec<GuardedSlot<F, L>>,
    storage_key: &SecretKey,
    session: &mut Session<E>,
    call: &Call,
) -> Result<PlacedReply, NoMemory>
    requires ready { IsReady R.state L.store gate.old slots.old.items session.old }
    requires few { length L.store.mounted.applications ≤ 16 }
    requires keyed { storage_key.now ≡ ssk L.store.keys.huk L.store.keys.chip }
    requires create { IsCreate call.now }
    ensures serves { ServesObject F.state R.state E.faults L.store
        (record { gate = gate.old; slots = slots.old.items; session = session.old })
        (record { gate = gate.new; slots = slots.new.items; session = session.new }) call.now result }
    ensures draws { DrawsOn E.is_reliable E.faults session.old.entropy session.new.entropy }
    ensures passed { OnErr result (NoneFailed (devices_in F.state R.state E.faults (record { gate = gate.old; slots = slots.old.items; session = session.old }))
        (devices_in F.state R.state E.faults (record { gate = gate.new; slots = slots.new.items; session = session.new }))) }
{
    let object = NewObject::of_call(call);
    let decision = call_rules::create(
        &*gate,
        session.state(),
        object.id,
        object.flags,
        object.attributes,
        object.bytes,
    );
    let place = match decision {
        Decision::Answered(reply) => return answer(alloc, gate, slots, session, call, reply),
        Decision::Needs(place) => place,
    };
    // The call for the event.
    let kept = call.copy(alloc)?;
    let file = crate::reserve(gate, session);
    let mut key = tsk(storage_key, &session.app().bytes());
    let slot = &mut slots[usize::from(file) - 1];
    let created = crate::create(alloc, gate, slot, session, &place, &key, kept);
    wipe(&mut key);
    created
}
