// The slots of a store, behind locks of their own and out of them.

ghost use Rattle.std.specs.Prelude.{◌≡◌, ◌≤◌, vec_len};
ghost use Rattle.std.specs.Vec.{vec_capacity};
ghost use Rattle.tee_types.specs.Limits.{last_file};
ghost use Rattle.run_acts.specs.Sharing.{AreKept};

use core_laws::StoreName;
use quota_store::{DevicesName, GuardedSlot, SharedSlot};
use std::sync::Mutex;
use tee_ports::StoreFile;

/// The slots of a store that is shared, and the room of the list that they were in.
pub(crate) struct SharedSlots<F: StoreFile + Drop, L: StoreName + DevicesName> {
    pub(crate) slots: Vec<Mutex<SharedSlot<F, L>>>,
    pub(crate) room: Vec<GuardedSlot<F, L>>,
}

/// Puts each slot behind a lock of its own, in their order, into the room that `shared` has.
pub(crate) fn share_slots<F: StoreFile + Drop, L: StoreName + DevicesName>(
    slots: Vec<GuardedSlot<F, L>>,
    shared: Vec<Mutex<SharedSlot<F, L>>>,
) -> SharedSlots<F, L>
    requires many { vec_len slots ≡ last_file }
    requires keep { AreKept L.devices last_file slots.items }
    requires empty { vec_len shared ≡ 0 }
    requires room { last_file ≤ vec_capacity shared }
    ensures many { vec_len result.slots ≡ last_file }
    ensures vacant { vec_len result.room ≡ 0 }
    ensures room { last_file ≤ vec_capacity result.room }
{
    let mut left = slots;
    let mut shared = shared;
    while let Some(slot) = left.pop() {
        shared.push(Mutex::new(SharedSlot::new(slot))).unwrap();
    }
    // The last came first.
    shared.reverse();
    SharedSlots {
        slots: shared,
        room: left,
    }
}

/// Takes the slots out of their locks, once no thread shares them any more, and puts them into the room that `room` has.
pub(crate) fn unshare_slots<F: StoreFile + Drop, L: StoreName + DevicesName>(
    slots: Vec<Mutex<SharedSlot<F, L>>>,
    room: Vec<GuardedSlot<F, L>>,
) -> Vec<GuardedSlot<F, L>>
    requires many { vec_len slots ≡ last_file }
    requires empty { vec_len room ≡ 0 }
    requires room { last_file ≤ vec_capacity room }
    ensures many { vec_len result ≡ last_file }
    ensures keep { AreKept L.devices last_file result.items }
{
    let mut left = slots;
    let mut slots = room;
    while let Some(slot) = left.pop() {
        slots.push(slot.into_inner().into_slot()).unwrap();
    }
    slots
}
