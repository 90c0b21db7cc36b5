//! TEE_CreatePersistentObject.

ghost use Rattle.std.specs.Prelude.{◌≡◌, ◌≤◌, None};
ghost use Rattle.disk_model.specs.Calls.{GoesOn};
ghost use Rattle.crash_core.specs.DeviceKeys.{object_key};
ghost use Rattle.call_steps.specs.Commits.{IsCalm};
ghost use Rattle.call_steps.specs.Devices.{DrawsOn};
ghost use Rattle.call_steps.specs.GuardedSlots.{SlotInvariant};
ghost use Rattle.serial_calls.specs.Created.{Creates, IsAnsweredOrNot};
ghost use Rattle.serial_calls.specs.FileReserving.{IsReserved};
ghost use Rattle.serial_calls.specs.Rules.{IsCreate, MayCreate, new_object};

use crate::create_commit::finish;
use crate::create_file::give_back;
use crate::create_object::make_unless_spent;
use crate::create_slot::clear;
use crate::new_object::NewObject;
use call_rules::NewPlace;
use call_steps::{GuardedGate, GuardedSlot, PlacedReply, Session, Slot};
use core_laws::StoreName;
use rpmb_card::RpmbPort;
use std::alloc::Global;
use tee_ports::{Entropy, StoreFile};
use tee_types::{Call, NoMemory};

// The create from clearing the slot on, but for giving the file back.
fn answer<F: StoreFile + Drop, R: RpmbPort + Drop, L: StoreName, E: Entropy>(
    alloc: Global,
    gate: &mut GuardedGate<F, R, L>,
    slot: &mut Slot<F>,
    session: &mut Session<E>,
    place: &NewPlace,
    tsk: &[u8; 32],
    call: Call,
) -> Result<PlacedReply, NoMemory>
    requires names { 1 ≤ gate.old.gate.room }
    requires handles { 1 ≤ gate.old.gate.open_handles.spare }
    requires events { 1 ≤ gate.old.journal.spare }
    requires idle { gate.old.gate.doubt ≡ None }
    requires calm { IsCalm L.store gate.old.journal.knows session.old }
    requires create { IsCreate call }
    requires may { MayCreate gate.old.gate.dir.dir.entries gate.old.gate.open_handles session.old.state
        (new_object call) place.now }
    requires reserved { IsReserved gate.old.gate session.old.number slot.old.number }
    requires guarded { SlotInvariant L.store slot.old }
    requires key { tsk.now ≡ object_key L.store.keys session.old.state.application }
    ensures answered { IsAnsweredOrNot F.state R.state L.store gate.old gate.new slot.old.number slot.old.file slot.new.file session.old session.new
        (new_object call) place.now
        (E.is_reliable session.old.entropy) (E.faults session.old.entropy) (E.faults session.new.entropy) result }
    ensures draws { DrawsOn E.is_reliable E.faults session.old.entropy session.new.entropy }
    ensures guarded { SlotInvariant L.store slot.new }
    ensures number { slot.new.number ≡ slot.old.number }
    ensures goes_on { GoesOn slot.old.file slot.new.file }
{
    clear(gate, slot, session);
    let counter = gate.counter();
    let object = NewObject::of_call(&call);
    let made = make_unless_spent::<F, L, E>(
        alloc,
        counter,
        slot,
        session,
        tsk,
        object.attributes,
        object.bytes,
    )?;
    Ok(finish(gate, slot, session, place, call, made))
}

/// Makes the object in the slot's file and commits its entry at that place, which the rules gave; the session is given a handle on it, without
/// OVERWRITE among its flags. `call` is the create, and `tsk` the key of the session's application.
/// The session, which was shown the history, holds the slot's file (`reserve`). Behind the call it holds none, unless the commit is in doubt.
///
/// These are the steps `clear`, `make_unless_spent`, `finish` and `give_back`, with the gate and the slot held throughout.
///
/// # Errors
///
/// Memory ran out. Nothing was answered, and the file was given back.
pub fn create<F: StoreFile + Drop, R: RpmbPort + Drop, L: StoreName, E: Entropy>(
    alloc: Global,
    gate: &mut GuardedGate<F, R, L>,
    slot: &mut GuardedSlot<F, L>,
    session: &mut Session<E>,
    place: &NewPlace,
    tsk: &[u8; 32],
    call: Call,
) -> Result<PlacedReply, NoMemory>
    requires names { 1 ≤ gate.old.gate.room }
    requires handles { 1 ≤ gate.old.gate.open_handles.spare }
    requires events { 1 ≤ gate.old.journal.spare }
    requires idle { gate.old.gate.doubt ≡ None }
    requires calm { IsCalm L.store gate.old.journal.knows session.old }
    requires create { IsCreate call }
    requires may { MayCreate gate.old.gate.dir.dir.entries gate.old.gate.open_handles session.old.state
        (new_object call) place.now }
    requires reserved { IsReserved gate.old.gate session.old.number slot.old.number }
    requires key { tsk.now ≡ object_key L.store.keys session.old.state.application }
    ensures creates { Creates F.state R.state L.store gate.old gate.new slot.old.number slot.old.file slot.new.file session.old session.new
        (new_object call) place.now
        (E.is_reliable session.old.entropy) (E.faults session.old.entropy) (E.faults session.new.entropy) result }
    ensures draws { DrawsOn E.is_reliable E.faults session.old.entropy session.new.entropy }
    ensures number { slot.new.number ≡ slot.old.number }
    ensures goes_on { GoesOn slot.old.file slot.new.file }
{
    let answer = answer(alloc, gate, &mut slot.slot, session, place, tsk, call);
    give_back(gate, session.number());
    answer
}
