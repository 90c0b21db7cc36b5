//! A slot behind the lock of a store that is shared.

ghost use Rattle.std.specs.Prelude.{◌≡◌, []};
ghost use Rattle.shared_calls.specs.Kept.{KeepsSlot};

use crate::devices_name::DevicesName;
use serial_calls::{GuardedSlot, StoreName};
use std::marker::Model;
use tee_ports::StoreFile;

/// The slot of an object's file, as it stands behind its lock. The file was that of its number, of those that `L` names, as the store was
/// shared.
#[derive(Drop)]
pub struct SharedSlot<F: StoreFile + Drop, L: StoreName + DevicesName> {
    // Who changes it shows what holds of it before the lock is given back.
    pub slot: GuardedSlot<F, L>,
}

impl<F: StoreFile + Drop, L: StoreName + DevicesName> Model for SharedSlot<F, L> {
    ghost use Rattle.std.specs.Prelude.{[]};
    ghost use Rattle.serial_calls.specs.SlotValues.{SlotValue};
    ghost use Rattle.shared_calls.specs.Kept.{KeepsSlot};

    ghost Value = { SlotValue };

    ghost view = { λ s. s.slot };

    ghost invariant = { λ s. KeepsSlot L.devices s.slot [] };
}

impl<F: StoreFile + Drop, L: StoreName + DevicesName> SharedSlot<F, L> {
    /// Puts a slot behind its lock.
    pub fn new(slot: GuardedSlot<F, L>) -> SharedSlot<F, L>
        requires { KeepsSlot L.devices slot [] }
        ensures { result ≡ slot }
    {
        SharedSlot { slot }
    }

    /// The slot.
    pub fn into_slot(self) -> GuardedSlot<F, L>
        ensures slot { result ≡ self }
        // What always holds of it.
        ensures keeps { KeepsSlot L.devices result [] }
    {
        let SharedSlot { slot } = self;
        slot
    }
}
