//! The gate behind the lock of a store that is shared.

ghost use Rattle.std.specs.Prelude.{◌≡◌};
ghost use Rattle.shared_calls.specs.Kept.{KeepsGate};

use crate::devices_name::DevicesName;
use rpmb_card::RpmbPort;
use serial_calls::{GuardedGate, StoreName};
use std::marker::Model;
use tee_ports::StoreFile;

/// The gate of the store that `L` names, as it stands behind its lock. Its devices were those that `L` names too as the store was shared.
#[derive(Drop)]
pub struct SharedGate<F: StoreFile + Drop, R: RpmbPort + Drop, L: StoreName + DevicesName> {
    // Who changes it shows what holds of it before the lock is given back.
    pub gate: GuardedGate<F, R, L>,
}

impl<F: StoreFile + Drop, R: RpmbPort + Drop, L: StoreName + DevicesName> Model
    for SharedGate<F, R, L> {
    ghost use Rattle.serial_calls.specs.GuardedGates.{GuardedGateValue};
    ghost use Rattle.shared_calls.specs.Kept.{KeepsGate};

    ghost Value = { GuardedGateValue F R };

    ghost view = { λ g. g.gate };

    ghost invariant = { λ g. KeepsGate F.state R.state L.store L.devices g.gate };
}

impl<F: StoreFile + Drop, R: RpmbPort + Drop, L: StoreName + DevicesName> SharedGate<F, R, L> {
    /// Puts a gate behind its lock.
    pub fn new(gate: GuardedGate<F, R, L>) -> SharedGate<F, R, L>
        requires { KeepsGate F.state R.state L.store L.devices gate }
        ensures { result ≡ gate }
    {
        SharedGate { gate }
    }

    /// The gate.
    pub fn into_gate(self) -> GuardedGate<F, R, L>
        ensures gate { result ≡ self }
        // What always holds of it.
        ensures keeps { KeepsGate F.state R.state L.store L.devices result }
    {
        let SharedGate { gate } = self;
        gate
    }
}
