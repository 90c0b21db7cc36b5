// Slots behind their locks.
ghost use Rattle.std.specs.Prelude.{◌≡◌};
ghost use Rattle.object_slots.specs.GuardedSlots.{SlotInvariant};

use crate::Slot;
use core_laws::StoreName;
use std::marker::{Model, PhantomData};
use tee_ports::StoreFile;

/// A slot of the store that `L` names, as it stands behind its lock while that is free: its seat is not lent, and it holds what its view
/// says.
#[derive(Drop)]
pub struct GuardedSlot<F: StoreFile + Drop, L: StoreName> {
    /// The slot. Who changes it shows what holds of it before the lock is given back.
    pub slot: Slot<F>,
    /// The store's name.
    pub of: PhantomData<L>,
}

impl<F: StoreFile + Drop, L: StoreName> Model for GuardedSlot<F, L> {
    ghost use Rattle.object_slots.specs.SlotValues.{SlotValue};
    ghost use Rattle.object_slots.specs.GuardedSlots.{SlotInvariant};

    ghost Value = { SlotValue };

    ghost view = { λ d. d.slot };

    ghost invariant = { λ d. SlotInvariant L.store d.slot };
}

impl<F: StoreFile + Drop, L: StoreName> GuardedSlot<F, L> {
    /// Puts a slot behind its lock.
    pub fn new(slot: Slot<F>) -> GuardedSlot<F, L>
        requires { SlotInvariant L.store slot }
        ensures { result ≡ slot }
    {
        GuardedSlot {
            slot,
            of: PhantomData,
        }
    }

    /// The slot.
    pub fn into_slot(self) -> Slot<F>
        ensures slot { result ≡ self }
        // What always holds of it.
        ensures guarded { SlotInvariant L.store result }
    {
        let GuardedSlot { slot, of: _ } = self;
        slot
    }

    /// The number of its file.
    pub fn number(&self) -> u16
        ensures number { result ≡ self.now.number }
        ensures guarded { SlotInvariant L.store self.now }
    {
        self.slot.number()
    }
}
