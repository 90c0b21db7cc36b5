//! How a new object is made in its file.

ghost use Rattle.std.specs.Prelude.{◌≡◌, ◌≤◌, length, None, IfErr};
ghost use Rattle.disk_model.specs.Calls.{GoesOn};
ghost use Rattle.crash_core.specs.DeviceKeys.{object_key};
ghost use Rattle.call_steps.specs.Devices.{DrawsOn};
ghost use Rattle.call_steps.specs.SlotFaults.{HasCauses, IsSound};
ghost use Rattle.serial_calls.specs.Clearing.{IsClearSlot};
ghost use Rattle.serial_calls.specs.Created.{TriedCauseOrNot};
ghost use Rattle.call_steps.specs.GuardedSlots.{SlotInvariant};
ghost use Rattle.serial_calls.specs.ObjectMaking.{MakesOrNot, MakesRoot, MakingCauseOrNot};
ghost use Rattle.serial_calls.specs.Seating.{IsVacant, unmade};

use crate::create_failure::CreateFailure;
use call_steps::{Session, Slot, SlotFault, stage_new};
use core_laws::StoreName;
use node_image::RootRef;
use std::alloc::Global;
use tee_ports::{Entropy, StoreFile};
use tee_types::{Bytes, NoMemory};

// Makes the object, or ends with the fault.
fn stage<F: StoreFile + Drop, L: StoreName, E: Entropy>(
    alloc: Global,
    slot: &mut Slot<F>,
    session: &mut Session<E>,
    tsk: &[u8; 32],
    attributes: &Bytes,
    bytes: &Bytes,
) -> Result<RootRef, SlotFault>
    requires clear { IsClearSlot L.store slot.old }
    requires key { tsk.now ≡ object_key L.store.keys session.old.state.application }
    requires short { length attributes.now ≤ 2048 }
    requires few { length bytes.now ≤ 1044480 }
    ensures session { session.new ≡ record session.old { entropy = session.new.entropy } }
    ensures same { slot.new ≡ record slot.old { file = slot.new.file; holds = slot.new.holds } }
    ensures makes { MakesRoot L.store slot.new session.old.state.application attributes.now bytes.now result }
    ensures causes { HasCauses slot.old.file slot.new.file (E.faults session.old.entropy) (E.faults session.new.entropy)
        (E.is_reliable session.old.entropy) (E.is_reliable session.new.entropy) result }
    ensures sound { IfErr result IsSound }
    ensures goes_on { GoesOn slot.old.file slot.new.file }
{
    stage_new::<F, E, L>(
        alloc,
        slot,
        tsk,
        attributes.as_slice(),
        bytes.as_slice(),
        session.entropy_mut(),
    )
}

/// Makes the object in the file of a clear slot, and settles it: the file is cut to no bytes, and the object is enciphered, written and synced.
/// It takes the slot and the session's generator, and no gate. Gives the reference that names the object there, or why it is not made; the
/// slot is clear then. `tsk` is the key of the session's application. `finish` brings what was made to the gate, or `give_up` lets it go.
///
/// # Errors
///
/// Memory ran out. The slot is clear then.
pub fn make<F: StoreFile + Drop, L: StoreName, E: Entropy>(
    alloc: Global,
    slot: &mut Slot<F>,
    session: &mut Session<E>,
    tsk: &[u8; 32],
    attributes: &Bytes,
    bytes: &Bytes,
) -> Result<Result<RootRef, CreateFailure>, NoMemory>
    requires clear { IsClearSlot L.store slot.old }
    requires key { tsk.now ≡ object_key L.store.keys session.old.state.application }
    requires short { length attributes.now ≤ 2048 }
    requires few { length bytes.now ≤ 1044480 }
    ensures session { session.new ≡ record session.old { entropy = session.new.entropy } }
    ensures same { slot.new ≡ record slot.old { file = slot.new.file; holds = slot.new.holds } }
    ensures makes { MakesOrNot L.store slot.new session.old.state.application attributes.now bytes.now result }
    ensures vacant { IsVacant L.store slot.new }
    ensures cause { MakingCauseOrNot slot.old.number slot.old.file slot.new.file (E.is_reliable session.old.entropy)
        (E.faults session.old.entropy) (E.faults session.new.entropy) result }
    ensures draws { DrawsOn E.is_reliable E.faults session.old.entropy session.new.entropy }
    ensures goes_on { GoesOn slot.old.file slot.new.file }
{
    match stage::<F, L, E>(alloc, slot, session, tsk, attributes, bytes) {
        Ok(root) => Ok(Ok(root)),
        Err(fault) => match CreateFailure::by_fault(slot.number(), fault) {
            Some(why) => Ok(Err(why)),
            None => Err(NoMemory {}),
        },
    }
}

/// Makes the object in the file of a clear slot as `make` does, unless the card's counter, which stands there, is at its end: no commit could
/// follow, and nothing is tried.
///
/// # Errors
///
/// Memory ran out. The slot is clear then.
pub fn make_unless_spent<F: StoreFile + Drop, L: StoreName, E: Entropy>(
    alloc: Global,
    counter: u32,
    slot: &mut Slot<F>,
    session: &mut Session<E>,
    tsk: &[u8; 32],
    attributes: &Bytes,
    bytes: &Bytes,
) -> Result<Result<RootRef, CreateFailure>, NoMemory>
    requires clear { IsClearSlot L.store slot.old }
    requires key { tsk.now ≡ object_key L.store.keys session.old.state.application }
    requires short { length attributes.now ≤ 2048 }
    requires few { length bytes.now ≤ 1044480 }
    ensures session { session.new ≡ record session.old { entropy = session.new.entropy } }
    ensures same { slot.new ≡ record slot.old { file = slot.new.file; holds = slot.new.holds } }
    ensures makes { MakesOrNot L.store slot.new session.old.state.application attributes.now bytes.now result }
    ensures vacant { IsVacant L.store slot.new }
    ensures cause { TriedCauseOrNot counter slot.old.number slot.old.file slot.new.file (E.is_reliable session.old.entropy)
        (E.faults session.old.entropy) (E.faults session.new.entropy) result }
    ensures draws { DrawsOn E.is_reliable E.faults session.old.entropy session.new.entropy }
    ensures goes_on { GoesOn slot.old.file slot.new.file }
{
    if counter < u32::MAX {
        return make::<F, L, E>(alloc, slot, session, tsk, attributes, bytes);
    }
    Ok(Err(CreateFailure::Spent))
}

/// Lets go of an object that was made and is not brought to the gate, if there is one. The slot may stand behind its lock then.
pub fn give_up<F: StoreFile + Drop, L: StoreName>(slot: &mut Slot<F>)
    requires { IsVacant L.store slot.old }
    ensures slot { slot.new ≡ unmade slot.old }
    ensures guarded { SlotInvariant L.store slot.new }
{
    if !slot.is_free() {
        slot.drop_stage();
    }
}
