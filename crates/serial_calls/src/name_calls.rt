//! Calls that change an open object's name.

ghost use Rattle.std.specs.Prelude.{OnErr};
ghost use Rattle.call_steps.specs.Devices.{DrawsOn};
ghost use Rattle.call_steps.specs.Rising.{devices_in};
ghost use Rattle.serial_calls.specs.Unfailed.{NoneFailed};
ghost use Rattle.serial_calls.specs.ServeReady.{IsReady};
ghost use Rattle.serial_calls.specs.ServeReplay.{ServesObject};

use crate::file_slots::place_of;
use crate::ruled_calls::answer;
use call_rules::Decision;
use call_steps::{GuardedGate, GuardedSlot, PlacedReply, Session};
use core_laws::StoreName;
use rpmb_card::RpmbPort;
use std::alloc::Global;
use tee_ports::{Entropy, StoreFile};
use tee_types::{Call, NoMemory, ObjectId};

/// TEE_RenamePersistentObject: that identifier.
pub(crate) fn rename<F: StoreFile + Drop, R: RpmbPort + Drop, L: StoreName, E: Entropy>(
    alloc: Global,
    gate: &mut GuardedGate<F, R, L>,
    slots: &mut Vec<GuardedSlot<F, L>>,
    session: &mut Session<E>,
    handle: u32,
    id: ObjectId,
) -> Result<PlacedReply, NoMemory>
    requires ready { IsReady R.state L.store gate.old slots.old.items session.old }
    ensures serves { ServesObject F.state R.state E.faults L.store
        (record { gate = gate.old; slots = slots.old.items; session = session.old })
        (record { gate = gate.new; slots = slots.new.items; session = session.new }) (Call.Rename handle id) result }
    ensures draws { DrawsOn E.is_reliable E.faults session.old.entropy session.new.entropy }
    ensures passed { OnErr result (NoneFailed (devices_in F.state R.state E.faults (record { gate = gate.old; slots = slots.old.items; session = session.old }))
        (devices_in F.state R.state E.faults (record { gate = gate.new; slots = slots.new.items; session = session.new }))) }
{
    let found = match call_rules::rename(&*gate, session.state(), handle, id) {
        Decision::Answered(reply) => return answer(
            alloc,
            gate,
            slots,
            session,
            &Call::Rename { handle, id },
            reply,
        ),
        Decision::Needs(found) => found,
    };
    let place = place_of(&*gate, slots, &found.held);
    let slot = &mut slots[place];
    crate::rename(gate, slot, session, &found, handle, id)
}

/// TEE_CloseAndDeletePersistentObject1.
pub(crate) fn delete<F: StoreFile + Drop, R: RpmbPort + Drop, L: StoreName, E: Entropy>(
    alloc: Global,
    gate: &mut GuardedGate<F, R, L>,
    slots: &mut Vec<GuardedSlot<F, L>>,
    session: &mut Session<E>,
    handle: u32,
) -> Result<PlacedReply, NoMemory>
    requires ready { IsReady R.state L.store gate.old slots.old.items session.old }
    ensures serves { ServesObject F.state R.state E.faults L.store
        (record { gate = gate.old; slots = slots.old.items; session = session.old })
        (record { gate = gate.new; slots = slots.new.items; session = session.new }) (Call.Delete handle) result }
    ensures draws { DrawsOn E.is_reliable E.faults session.old.entropy session.new.entropy }
    ensures passed { OnErr result (NoneFailed (devices_in F.state R.state E.faults (record { gate = gate.old; slots = slots.old.items; session = session.old }))
        (devices_in F.state R.state E.faults (record { gate = gate.new; slots = slots.new.items; session = session.new }))) }
{
    let found = match call_rules::delete(&*gate, session.state(), handle) {
        Decision::Answered(reply) => return answer(
            alloc,
            gate,
            slots,
            session,
            &Call::Delete { handle },
            reply,
        ),
        Decision::Needs(found) => found,
    };
    let place = place_of(&*gate, slots, &found.held);
    let slot = &mut slots[place];
    Ok(crate::delete(gate, slot, session, &found, handle))
}
