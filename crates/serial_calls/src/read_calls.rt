//! Calls that tell of an open object.

ghost use Rattle.std.specs.Prelude.{◌≡◌, OnErr};
ghost use Rattle.call_steps.specs.Devices.{DrawsOn};
ghost use Rattle.call_steps.specs.Rising.{devices_in};
ghost use Rattle.serial_calls.specs.Unfailed.{NoneFailed};
ghost use Rattle.hmac_keys.specs.KeyTable.{ssk};
ghost use Rattle.serial_calls.specs.ServeReady.{IsReady};
ghost use Rattle.serial_calls.specs.ServeReplay.{ServesObject};

use crate::file_slots::place_of;
use crate::ruled_calls::answer;
use call_rules::Decision;
use call_steps::{GuardedGate, GuardedSlot, PlacedReply, Session};
use core_laws::StoreName;
use hmac_keys::SecretKey;
use rpmb_card::RpmbPort;
use std::alloc::Global;
use tee_ports::{Entropy, StoreFile};
use tee_types::{Call, NoMemory};

/// TEE_ReadObjectData: at most so many bytes from the handle's position on.
pub(crate) fn read<F: StoreFile + Drop, R: RpmbPort + Drop, L: StoreName, E: Entropy>(
    alloc: Global,
    gate: &mut GuardedGate<F, R, L>,
    slots: &mut Vec<GuardedSlot<F, L>>,
    storage_key: &SecretKey,
    session: &mut Session<E>,
    handle: u32,
    size: u32,
) -> Result<PlacedReply, NoMemory>
    requires ready { IsReady R.state L.store gate.old slots.old.items session.old }
    requires keyed { storage_key.now ≡ ssk L.store.keys.huk L.store.keys.chip }
    ensures serves { ServesObject F.state R.state E.faults L.store
        (record { gate = gate.old; slots = slots.old.items; session = session.old })
        (record { gate = gate.new; slots = slots.new.items; session = session.new }) (Call.Read handle size) result }
    ensures draws { DrawsOn E.is_reliable E.faults session.old.entropy session.new.entropy }
    ensures passed { OnErr result (NoneFailed (devices_in F.state R.state E.faults (record { gate = gate.old; slots = slots.old.items; session = session.old }))
        (devices_in F.state R.state E.faults (record { gate = gate.new; slots = slots.new.items; session = session.new }))) }
{
    let found = match call_rules::read(&*gate, session.state(), handle) {
        Decision::Answered(reply) => return answer(
            alloc,
            gate,
            slots,
            session,
            &Call::Read { handle, size },
            reply,
        ),
        Decision::Needs(found) => found,
    };
    let place = place_of(&*gate, slots, &found.held);
    let slot = &mut slots[place];
    call_steps::read(
        alloc,
        gate,
        slot,
        session,
        &found,
        storage_key,
        handle,
        size,
    )
}

/// TEE_GetObjectInfo1.
pub(crate) fn info<F: StoreFile + Drop, R: RpmbPort + Drop, L: StoreName, E: Entropy>(
    alloc: Global,
    gate: &mut GuardedGate<F, R, L>,
    slots: &mut Vec<GuardedSlot<F, L>>,
    storage_key: &SecretKey,
    session: &mut Session<E>,
    handle: u32,
) -> Result<PlacedReply, NoMemory>
    requires ready { IsReady R.state L.store gate.old slots.old.items session.old }
    requires keyed { storage_key.now ≡ ssk L.store.keys.huk L.store.keys.chip }
    ensures serves { ServesObject F.state R.state E.faults L.store
        (record { gate = gate.old; slots = slots.old.items; session = session.old })
        (record { gate = gate.new; slots = slots.new.items; session = session.new }) (Call.Info handle) result }
    ensures draws { DrawsOn E.is_reliable E.faults session.old.entropy session.new.entropy }
    ensures passed { OnErr result (NoneFailed (devices_in F.state R.state E.faults (record { gate = gate.old; slots = slots.old.items; session = session.old }))
        (devices_in F.state R.state E.faults (record { gate = gate.new; slots = slots.new.items; session = session.new }))) }
{
    let found = match call_rules::info(&*gate, session.state(), handle) {
        Decision::Answered(reply) => return answer(
            alloc,
            gate,
            slots,
            session,
            &Call::Info { handle },
            reply,
        ),
        Decision::Needs(found) => found,
    };
    let place = place_of(&*gate, slots, &found.held);
    let slot = &mut slots[place];
    call_steps::info(alloc, gate, slot, session, &found, storage_key, handle)
}
